//! What a peer is to be asked for next that isn't open to anybody.
ghost use Rattle.std.specs.Prelude.{◌≡◌, ◌≢◌, ◌⊎◌, ◌+◌, ◌<◌, ◌≤◌, ℕ, List, true, false, IsSome, length, max};
ghost use Rattle.cf_dispute.specs.{blocks_of, tables_of};
ghost use Rattle.cf_headers.specs.{IsIn, hash_at, height_of, own_of};
ghost use Rattle.cf_tables.specs.{table_in, verdicts_in, IsToFetch, IsUnjudged};
ghost use Rattle.cf_seek.specs.OpensAll.{opens_in};
ghost use Rattle.cf_seek.specs.OpensOf.{block_at, filter_at};
ghost use Rattle.cf_seek.specs.Cursors.{marks_at, passed_under};
ghost use Rattle.cf_seek.specs.Seeking.{ArePassedHits, IsToAsk, IsToGet, AreSought, ArePassed, IsSought, AreToAsk, IsLastToAsk, IsBelowAHit};
ghost use Rattle.cf_seek.specs.Tracking.{AreRaised, IsFallen, IsMarked, IsWithin};
ghost use Rattle.cf_tables.specs.declared.kind.BlockKind.TheVariants.{ToFetch};

use crate::cursors::{Cursors, Marks};
use crate::known::Known;
use crate::open_at::OpenAt;
use crate::want::{Want, climb_claimed};
use cf_bytes::{Hash32, PeerNo};
use cf_dispute::Claims;
use cf_headers::HeaderStore;
use cf_match::{Job, Verdict};
use cf_tables::{BlockKind, Extracts, Judged, is_unjudged, kind_of};

// Whether a block is to be fetched.
fn is_due(kind: BlockKind) -> bool
    ensures yes { result ≡ true → kind ≡ ToFetch }
    ensures no { result ≡ false → kind ≢ ToFetch }
{
    matches!(kind, BlockKind::ToFetch)
}

// Whether a block's filter is to be asked for, and open to nobody.
fn is_to_ask(known: Known, block: &Hash32) -> bool
    ensures yes { result ≡ true → IsToAsk (table_in known.entry.extracts.now) (tables_of known.entry.claims.now)
        (verdicts_in known.entry.judged.now) (opens_in known.entry.opens.now) block.now.0 }
    ensures no { result ≡ false → IsToAsk (table_in known.entry.extracts.now) (tables_of known.entry.claims.now)
        (verdicts_in known.entry.judged.now) (opens_in known.entry.opens.now) block.now.0 → ⊥ }
{
    let kind = known.kind_above(block);
    if !is_unjudged(kind) {
        return false;
    }
    known.opens.is_filter_free(block)
}

// Whether a block is to be fetched, and open to nobody.
fn is_to_get(known: Known, block: &Hash32) -> bool
    ensures yes { result ≡ true → IsToGet (table_in known.entry.extracts.now) (tables_of known.entry.claims.now)
        (verdicts_in known.entry.judged.now) (opens_in known.entry.opens.now) block.now.0 }
    ensures no { result ≡ false → IsToGet (table_in known.entry.extracts.now) (tables_of known.entry.claims.now)
        (verdicts_in known.entry.judged.now) (opens_in known.entry.opens.now) block.now.0 → ⊥ }
{
    let kind = known.kind_above(block);
    if !is_due(kind) {
        return false;
    }
    known.opens.is_block_free(block)
}

// How far no filter of a peer's blocks is to be asked for, from a height up to which none is, and no further than
// asked.
fn climb_sought<H: HeaderStore>(store: &H, known: Known, p: PeerNo, from: u32, most: u32) -> u32
    requires entered { IsSome (H.chain store.now p.0) }
    requires within { most ≤ length (own_of (H.chain store.now) p) }
    requires sought { AreSought (table_in known.extracts.now) (tables_of known.claims.now)
        (verdicts_in known.judged.now) (opens_in known.opens.now) (own_of (H.chain store.now) p) from }
    ensures sought { AreSought (table_in known.entry.extracts.now) (tables_of known.entry.claims.now)
        (verdicts_in known.entry.judged.now) (opens_in known.entry.opens.now) (own_of (H.chain store.now) p) result }
    ensures up { from ≤ result }
    ensures low { result ≤ max from most }
    ensures next { result < most → IsToAsk (table_in known.entry.extracts.now) (tables_of known.entry.claims.now)
        (verdicts_in known.entry.judged.now) (opens_in known.entry.opens.now)
        (hash_at (own_of (H.chain store.now) p) (result + 1)) }
{
    for height in from..most {
        if is_to_ask(known, &store.hash_at(p, height + 1)) {
            return height;
        }
    }
    from.max(most)
}

// How far none of a peer's blocks is to be fetched, from a height up to which none is, and no further than asked.
fn climb_passed<H: HeaderStore>(store: &H, known: Known, p: PeerNo, from: u32, most: u32) -> u32
    requires entered { IsSome (H.chain store.now p.0) }
    requires within { most ≤ length (own_of (H.chain store.now) p) }
    requires passed { ArePassed (table_in known.extracts.now) (tables_of known.claims.now)
        (verdicts_in known.judged.now) (opens_in known.opens.now) (own_of (H.chain store.now) p) from }
    ensures passed { ArePassed (table_in known.entry.extracts.now) (tables_of known.entry.claims.now)
        (verdicts_in known.entry.judged.now) (opens_in known.entry.opens.now) (own_of (H.chain store.now) p) result }
    ensures up { from ≤ result }
    ensures low { result ≤ max from most }
    ensures next { result < most → IsToGet (table_in known.entry.extracts.now) (tables_of known.entry.claims.now)
        (verdicts_in known.entry.judged.now) (opens_in known.entry.opens.now)
        (hash_at (own_of (H.chain store.now) p) (result + 1)) }
{
    for height in from..most {
        if is_to_get(known, &store.hash_at(p, height + 1)) {
            return height;
        }
    }
    from.max(most)
}

/// The last height, from one on whose block's filter is to be asked for, up to which filters may be asked for at once.
pub fn sought_end<H: HeaderStore>(store: &H, known: Known, p: PeerNo, start: u32, most: u32) -> u32
    requires entered { IsSome (H.chain store.now p.0) }
    requires within { most ≤ length (own_of (H.chain store.now) p) }
    requires low { start ≤ most }
    requires this { IsToAsk (table_in known.extracts.now) (tables_of known.claims.now)
        (verdicts_in known.judged.now) (opens_in known.opens.now) (hash_at (own_of (H.chain store.now) p) start) }
    ensures all { AreToAsk (table_in known.entry.extracts.now) (tables_of known.entry.claims.now)
        (verdicts_in known.entry.judged.now) (opens_in known.entry.opens.now)
        (own_of (H.chain store.now) p) start result }
    ensures up { start ≤ result }
    ensures low { result ≤ most }
    ensures few { result < start + 1000 }
    ensures last { IsLastToAsk (table_in known.entry.extracts.now) (tables_of known.entry.claims.now)
        (verdicts_in known.entry.judged.now) (opens_in known.entry.opens.now)
        (own_of (H.chain store.now) p) start result most }
{
    let end = start + (most - start).min(999);
    for height in start..end {
        if !is_to_ask(known, &store.hash_at(p, height + 1)) {
            return height;
        }
    }
    end
}

/// What a peer is to be asked for next of the blocks up to a height, and where the next call goes on. Nothing is to be
/// asked for of its blocks up to two other heights, whoever was asked about them.
pub fn next_sought<H: HeaderStore>(
    store: &H,
    known: Known,
    p: PeerNo,
    from: Marks,
    shared_sought: u32,
    shared_passed: u32,
    common: u32,
) -> (Marks, Want)
    requires entered { IsSome (H.chain store.now p.0) }
    requires within { common ≤ length (own_of (H.chain store.now) p) }
    requires sought { AreSought (table_in known.extracts.now) (tables_of known.claims.now)
        (verdicts_in known.judged.now) (opens_in known.opens.now) (own_of (H.chain store.now) p) shared_sought }
    requires passed { ArePassed (table_in known.extracts.now) (tables_of known.claims.now)
        (verdicts_in known.judged.now) (opens_in known.opens.now) (own_of (H.chain store.now) p) shared_passed }
    requires marks { IsMarked (table_in known.extracts.now) (tables_of known.claims.now) (verdicts_in known.judged.now)
        (opens_in known.opens.now) p.0 (own_of (H.chain store.now) p) from }
    ensures marks { IsMarked (table_in known.entry.extracts.now) (tables_of known.entry.claims.now)
        (verdicts_in known.entry.judged.now) (opens_in known.entry.opens.now)
        p.0 (own_of (H.chain store.now) p) result.0 }
    ensures want { IsSought (table_in known.entry.extracts.now) (tables_of known.entry.claims.now)
        (verdicts_in known.entry.judged.now) (opens_in known.entry.opens.now)
        p.0 (own_of (H.chain store.now) p) common result.1 }
    ensures up { AreRaised from result.0 shared_sought shared_passed }
{
    let claimed = climb_claimed(store, known, p, from.claimed, common);
    let marks = from.raised(claimed, shared_sought, shared_passed);
    if claimed < common {
        return (marks, Want::Claims(claimed + 1));
    }
    sought_of_claimed(store, known, p, marks, common)
}

// What a peer is to be asked for next of the blocks up to a height, all of which it claims, and where the next call
// goes on.
fn sought_of_claimed<H: HeaderStore>(
    store: &H,
    known: Known,
    p: PeerNo,
    from: Marks,
    common: u32,
) -> (Marks, Want)
    requires entered { IsSome (H.chain store.now p.0) }
    requires within { common ≤ length (own_of (H.chain store.now) p) }
    requires claimed { common ≤ from.claimed }
    requires marks { IsMarked (table_in known.extracts.now) (tables_of known.claims.now) (verdicts_in known.judged.now)
        (opens_in known.opens.now) p.0 (own_of (H.chain store.now) p) from }
    ensures marks { IsMarked (table_in known.entry.extracts.now) (tables_of known.entry.claims.now)
        (verdicts_in known.entry.judged.now) (opens_in known.entry.opens.now)
        p.0 (own_of (H.chain store.now) p) result.0 }
    ensures want { IsSought (table_in known.entry.extracts.now) (tables_of known.entry.claims.now)
        (verdicts_in known.entry.judged.now) (opens_in known.entry.opens.now)
        p.0 (own_of (H.chain store.now) p) common result.1 }
    ensures up { (result.0.claimed ≡ from.claimed) × (from.sought ≤ result.0.sought) × (from.passed ≤ result.0.passed) }
{
    let Marks {
        claimed,
        sought,
        passed,
    } = from;
    let sought = climb_sought(store, known, p, sought, common);
    if sought < common {
        return (
            Marks {
                claimed,
                sought,
                passed,
            },
            Want::Filters(sought + 1),
        );
    }
    let passed = climb_passed(store, known, p, passed, common);
    let marks = Marks {
        claimed,
        sought,
        passed,
    };
    if passed < common {
        return (marks, Want::Block(passed + 1));
    }
    (marks, Want::Nothing)
}

/// A mark of what is passed, no higher than below the lowest height at which a block stands in an entered peer's chain.
pub fn passed_below<H: HeaderStore>(store: &H, p: PeerNo, passed: u32, block: &Hash32) -> u32
    requires entered { IsSome (H.chain store.now p.0) }
    requires within { passed ≤ length (own_of (H.chain store.now) p) }
    ensures low { result ≤ passed }
    ensures apart { (h : ℕ) → 1 ≤ h → h ≤ result → hash_at (own_of (H.chain store.now) p) h ≡ block.now.0 → ⊥ }
    ensures is { result ≡ passed_under (height_of block.now.0 (own_of (H.chain store.now) p)) passed }
{
    match store.place(p, block) {
        Some(at) => passed.min(at.saturating_sub(1)),
        None => passed,
    }
}

/// Whether something that is open to a peer is still to be asked for.
pub fn is_any_left(extracts: &Extracts, claims: &Claims, judged: &Judged, at: &OpenAt) -> bool
    ensures filters { result ≡ false → (block : List ℕ) → filter_at at.now block ≡ true
        → IsUnjudged (table_in extracts.now) (tables_of claims.now) (verdicts_in judged.now) block → ⊥ }
    ensures block { result ≡ false → (block : List ℕ) → block_at at.now block ≡ true
        → IsToFetch (table_in extracts.now) (tables_of claims.now) (verdicts_in judged.now) block → ⊥ }
    ensures any { result ≡ true
        → ((block : List ℕ) × ((block_at at.now block ≡ true)
        × IsToFetch (table_in extracts.now) (tables_of claims.now) (verdicts_in judged.now) block))
        ⊎ ((block : List ℕ) × ((filter_at at.now block ≡ true)
        × IsUnjudged (table_in extracts.now) (tables_of claims.now) (verdicts_in judged.now) block)) }
{
    is_block_left(extracts, claims, judged, at) || is_filter_left(extracts, claims, judged, at)
}

// Whether a block that is open to a peer is still to be fetched.
fn is_block_left(extracts: &Extracts, claims: &Claims, judged: &Judged, at: &OpenAt) -> bool
    ensures no { result ≡ false → (block : List ℕ) → block_at at.now block ≡ true
        → IsToFetch (table_in extracts.now) (tables_of claims.now) (verdicts_in judged.now) block → ⊥ }
    ensures yes { result ≡ true → (block : List ℕ) × ((block_at at.now block ≡ true)
        × IsToFetch (table_in extracts.now) (tables_of claims.now) (verdicts_in judged.now) block) }
{
    match &at.block {
        Some(block) => is_due(kind_of(extracts, claims, judged, block)),
        None => false,
    }
}

// Whether a filter that is open to a peer is still to be asked for.
fn is_filter_left(extracts: &Extracts, claims: &Claims, judged: &Judged, at: &OpenAt) -> bool
    ensures no { result ≡ false → (block : List ℕ) → filter_at at.now block ≡ true
        → IsUnjudged (table_in extracts.now) (tables_of claims.now) (verdicts_in judged.now) block → ⊥ }
    ensures yes { result ≡ true → (block : List ℕ) × ((filter_at at.now block ≡ true)
        × IsUnjudged (table_in extracts.now) (tables_of claims.now) (verdicts_in judged.now) block) }
{
    is_one_left(extracts, claims, judged, at, at.asked.as_slice())
}

// Whether the filter of one of some blocks is open to a peer and still to be asked for.
fn is_one_left(
    extracts: &Extracts,
    claims: &Claims,
    judged: &Judged,
    at: &OpenAt,
    blocks: &[Hash32],
) -> bool
    ensures no { result ≡ false → (block : List ℕ) → IsIn block (blocks_of blocks.now) → filter_at at.now block ≡ true
        → IsUnjudged (table_in extracts.now) (tables_of claims.now) (verdicts_in judged.now) block → ⊥ }
    ensures yes { result ≡ true → (block : List ℕ) × ((filter_at at.now block ≡ true)
        × IsUnjudged (table_in extracts.now) (tables_of claims.now) (verdicts_in judged.now) block) }
{
    for block in blocks {
        if is_left(extracts, claims, judged, at, block) {
            return true;
        }
    }
    false
}

// Whether a block's filter is open to a peer and still to be asked for.
fn is_left(
    extracts: &Extracts,
    claims: &Claims,
    judged: &Judged,
    at: &OpenAt,
    block: &Hash32,
) -> bool
    ensures no { result ≡ false → filter_at at.now block.now.0 ≡ true
        → IsUnjudged (table_in extracts.now) (tables_of claims.now) (verdicts_in judged.now) block.now.0 → ⊥ }
    ensures yes { result ≡ true → (filter_at at.now block.now.0 ≡ true)
        × IsUnjudged (table_in extracts.now) (tables_of claims.now) (verdicts_in judged.now) block.now.0 }
{
    if !is_unjudged(kind_of(extracts, claims, judged, block)) {
        return false;
    }
    at.has_filter(block)
}

/// The same below each block whose filter hits, by verdicts on the filters of a batch in their order.
pub fn passed_below_hits<H: HeaderStore>(
    store: &H,
    p: PeerNo,
    passed: u32,
    jobs: &[Job],
    verdicts: &[Verdict],
) -> u32
    requires entered { IsSome (H.chain store.now p.0) }
    requires within { passed ≤ length (own_of (H.chain store.now) p) }
    ensures low { result ≤ passed }
    ensures apart { ArePassedHits (own_of (H.chain store.now) p) result jobs.now verdicts.now (length jobs.now) }
    ensures tight { result < passed → IsBelowAHit (own_of (H.chain store.now) p) result jobs.now verdicts.now }
{
    let mut passed = passed;
    for (i, job) in jobs.iter().enumerate() {
        if i >= verdicts.len() {
            return passed;
        }
        if let Verdict::Hit = verdicts[i] {
            passed = passed_below(store, p, passed, &job.block);
        }
    }
    passed
}

/// The mark of each peer's blocks falls to below each block of a batch whose filter hits, by the verdicts on them in
/// their order.
pub fn fall_below_hits<H: HeaderStore>(
    store: &H,
    cursors: &mut Cursors,
    jobs: &[Job],
    verdicts: &[Verdict],
)
    requires { (q : ℕ) → IsWithin (H.chain store.now q) (marks_at cursors.old q) }
    ensures { (q : ℕ)
        → IsFallen (H.chain store.now q) (marks_at cursors.old q) (marks_at cursors.new q) jobs.now verdicts.now }
{
    for q in 0..cursors.places() {
        fall_at(store, cursors, PeerNo(q), jobs, verdicts);
    }
}

// The same of one peer.
fn fall_at<H: HeaderStore>(
    store: &H,
    cursors: &mut Cursors,
    p: PeerNo,
    jobs: &[Job],
    verdicts: &[Verdict],
)
    requires { IsWithin (H.chain store.now p.0) (marks_at cursors.old p.0) }
    ensures here { IsFallen (H.chain store.now p.0) (marks_at cursors.old p.0)
        (marks_at cursors.new p.0) jobs.now verdicts.now }
    ensures others { (q : ℕ) → q ≢ p.0 → marks_at cursors.new q ≡ marks_at cursors.old q }
{
    let marks = cursors.of(p);
    if marks.passed == 0 {
        return;
    }
    let passed = passed_below_hits(store, p, marks.passed, jobs, verdicts);
    cursors.put(p, Marks { passed, ..marks });
}
