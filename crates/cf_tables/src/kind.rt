//! What is still to be done about a block.
ghost use Rattle.std.specs.Prelude.{◌≡◌, ◌≢◌, ℕ, List, true, false, None, IsSome};
ghost use Rattle.cf_tables.specs.declared.kind.BlockKind.{BlockKind};
ghost use Rattle.cf_tables.specs.declared.kind.BlockKind.TheVariants.{Done, Unjudged};
ghost use Rattle.cf_dispute.specs.{tables_of, IsAt, blocks_of};
ghost use Rattle.cf_dispute.specs.declared.claim.At.TheVariants.{Differ};
ghost use Rattle.cf_headers.specs.{IsIn, IsAbove};
ghost use Rattle.cf_tables.specs.Extracts.{table_in};
ghost use Rattle.cf_tables.specs.Judged.{verdicts_in};
ghost use Rattle.cf_tables.specs.Known.{ExtractTable};
ghost use Rattle.cf_tables.specs.Wanting.{IsDone, IsKind, IsKindAbove};

use crate::extracts::Extracts;
use crate::first::First;
use crate::judged::Judged;
use cf_bytes::{Hash32, PeerNo};
use cf_dispute::{At, Claims};
use cf_match::Verdict;

/// What is still to be done about a block.
#[derive(Clone, Copy, Debug)]
pub enum BlockKind {
    /// Nobody claims anything of its filter, and it has no extract.
    Unclaimed,
    /// Its filter is to be asked for.
    Unjudged,
    /// It is to be fetched.
    ToFetch,
    /// Nothing.
    Done,
}

// What is still to be done about a block, where it has no extract.
fn kind_unfetched(claims: &Claims, judged: &Judged, block: &Hash32) -> BlockKind
    ensures unfetched { (extracts : ExtractTable) → extracts block.now.0 ≡ None
        → IsKind extracts (tables_of claims.now) (verdicts_in judged.now) block.now.0 result }
    ensures done { result ≡ Done → (extracts : ExtractTable)
        → IsDone extracts (tables_of claims.now) (verdicts_in judged.now) block.now.0 }
{
    match claims.at(block) {
        At::Nobody => BlockKind::Unclaimed,
        At::Differ => BlockKind::ToFetch,
        At::One(hash) => match judged.get(block, &hash) {
            None => BlockKind::Unjudged,
            Some(Verdict::Miss) => BlockKind::Done,
            Some(Verdict::Hit) => BlockKind::ToFetch,
        },
    }
}

// Whether a block has an extract.
fn is_fetched(extracts: &Extracts, block: &Hash32) -> bool
    ensures yes { result ≡ true → IsSome (table_in extracts.now block.now.0) }
    ensures no { result ≡ false → table_in extracts.now block.now.0 ≡ None }
{
    extracts.has(block)
}

/// What is still to be done about a block. Most filters miss, so its extract is looked for last.
pub fn kind_of(extracts: &Extracts, claims: &Claims, judged: &Judged, block: &Hash32) -> BlockKind
    ensures { IsKind (table_in extracts.now) (tables_of claims.now) (verdicts_in judged.now) block.now.0 result }
{
    let kind = kind_unfetched(claims, judged, block);
    if is_done(kind) {
        return BlockKind::Done;
    }
    if is_fetched(extracts, block) {
        return BlockKind::Done;
    }
    kind
}

/// Whether a peer claims nothing of a block that isn't the first.
pub fn is_unclaimed(claims: &Claims, p: PeerNo, first: &First, block: &Hash32) -> bool
    ensures above { result ≡ true → IsAbove block.now.0 }
    ensures none { result ≡ true → tables_of claims.now p.0 block.now.0 ≡ None }
    ensures some { result ≡ false → IsAbove block.now.0 → IsSome (tables_of claims.now p.0 block.now.0) }
{
    if first.is(block) {
        return false;
    }
    match claims.claim(p, block) {
        Some(_) => false,
        None => true,
    }
}

/// What is still to be done about a block; nothing about one that has the first block's hash.
pub fn kind_above(
    extracts: &Extracts,
    claims: &Claims,
    judged: &Judged,
    first: &First,
    block: &Hash32,
) -> BlockKind
    ensures { IsKindAbove (table_in extracts.now) (tables_of claims.now) (verdicts_in judged.now) block.now.0 result }
{
    if first.is(block) {
        return BlockKind::Done;
    }
    kind_of(extracts, claims, judged, block)
}

/// Whether nothing is to be done.
pub fn is_done(kind: BlockKind) -> bool
    ensures yes { result ≡ true → kind ≡ Done }
    ensures no { result ≡ false → kind ≢ Done }
{
    matches!(kind, BlockKind::Done)
}

/// Whether a filter is to be asked for.
pub fn is_unjudged(kind: BlockKind) -> bool
    ensures yes { result ≡ true → kind ≡ Unjudged }
    ensures no { result ≡ false → kind ≢ Unjudged }
{
    matches!(kind, BlockKind::Unjudged)
}

/// Whether different things are claimed of a block.
pub fn is_differing(claims: &Claims, block: &Hash32) -> bool
    ensures yes { result ≡ true → IsAt (tables_of claims.now) block.now.0 Differ }
    ensures no { result ≡ false → IsAt (tables_of claims.now) block.now.0 Differ → ⊥ }
{
    match claims.at(block) {
        At::Nobody => false,
        At::One(_) => false,
        At::Differ => true,
    }
}

// Whether a block has no extract, and different things are claimed of it.
fn is_disputed(extracts: &Extracts, claims: &Claims, block: &Hash32) -> bool
    ensures yes { result ≡ true
        → (table_in extracts.now block.now.0 ≡ None) × IsAt (tables_of claims.now) block.now.0 Differ }
    ensures no { result ≡ false → table_in extracts.now block.now.0 ≡ None
        → IsAt (tables_of claims.now) block.now.0 Differ → ⊥ }
{
    if extracts.has(block) {
        return false;
    }
    is_differing(claims, block)
}

/// Whether one of some blocks has no extract, and different things are claimed of it.
pub fn is_any_disputed(extracts: &Extracts, claims: &Claims, blocks: &[Hash32]) -> bool
    ensures yes { result ≡ true → (block : List ℕ) × (IsIn block (blocks_of blocks.now)
        × (table_in extracts.now block ≡ None) × IsAt (tables_of claims.now) block Differ) }
    ensures no { result ≡ false → (block : List ℕ) → IsIn block (blocks_of blocks.now)
        → table_in extracts.now block ≡ None → IsAt (tables_of claims.now) block Differ → ⊥ }
{
    for block in blocks {
        if is_disputed(extracts, claims, block) {
            return true;
        }
    }
    false
}
