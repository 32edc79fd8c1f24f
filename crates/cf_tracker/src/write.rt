//! Which blocks are written, and when.
ghost use Rattle.std.specs.Prelude.{◌≡◌, ◌+◌, ◌<◌, ◌≤◌, ℕ, true, false, None, Some, IsSome, OnOk, length};
ghost use Rattle.cf_dispute.specs.{tables_of};
ghost use Rattle.cf_headers.specs.Chain.{Chain};
ghost use Rattle.cf_headers.specs.{common_of, hash_at, own_of};
ghost use Rattle.cf_tracker.specs.Account.{IsAccountOf, written_in};
ghost use Rattle.cf_tables.specs.{table_in, verdicts_in};
ghost use Rattle.cf_tracker.specs.Writing.{AreDone, IsDoneAbove, IsUpTo};
ghost use Rattle.cf_tracker.specs.Written.{IsWrittenHere, IsWrittenTo, IsWrittenTop, IsWrittenWhole};

use crate::account::Account;
use crate::bookmark::Bookmark;
use cf_bytes::{Hash32, NoMemory, PeerNo};
use cf_headers::HeaderStore;
use cf_seek::Known;
use cf_tables::{Extracts, is_done};

// How far the written blocks are those of an entered peer's chain, from a height up to which they are.
fn climb_written<H: HeaderStore>(
    store: &H,
    extracts: &Extracts,
    account: &Account,
    p: PeerNo,
    from: u32,
    most: u32,
) -> u32
    requires entered { IsSome (H.chain store.now p.0) }
    requires most { most ≡ length (own_of (H.chain store.now) p) }
    requires to { IsWrittenTo (table_in extracts.now) (own_of (H.chain store.now) p) (written_in account.now) from }
    ensures to { IsWrittenTo (table_in extracts.now) (own_of (H.chain store.now) p) (written_in account.now) result }
    ensures next { result < most
        → IsWrittenHere (table_in extracts.now) (hash_at (own_of (H.chain store.now) p) (result + 1))
        (written_in account.now) result → ⊥ }
{
    for height in from..most {
        if !account.is_written(extracts, height, &store.hash_at(p, height + 1)) {
            return height;
        }
    }
    most
}

// Up to which of these heights two peers' chains are the same.
fn shared_height<H: HeaderStore>(store: &H, q: PeerNo, p: PeerNo, height: u32) -> u32
    requires entered { IsSome (H.chain store.now p.0) }
    requires none { H.chain store.now q.0 ≡ None → height ≡ 0 }
    ensures low { result ≤ height }
    ensures shared { (other : Chain) → H.chain store.now q.0 ≡ Some other
        → result ≤ common_of (own_of (H.chain store.now) p) other }
{
    if height == 0 {
        return 0;
    }
    height.min(store.common(p, q))
}

/// Turns to an entered peer's chain, and finds the greatest height up to which the written blocks are its own.
pub(crate) fn turn_to<H: HeaderStore>(
    store: &H,
    extracts: &Extracts,
    account: &Account,
    bookmark: &mut Bookmark,
    p: PeerNo,
)
    requires entered { IsSome (H.chain store.now p.0) }
    requires stands { IsUpTo (table_in extracts.now) (H.chain store.now bookmark.old.peer.0)
        (written_in account.now) bookmark.old.stands }
    ensures peer { bookmark.new.peer ≡ p }
    ensures top { IsWrittenTop (table_in extracts.now) (own_of (H.chain store.now) p)
        (written_in account.now) bookmark.new.stands }
{
    let from = shared_height(store, bookmark.peer, p, bookmark.stands);
    let most = store.height(p);
    bookmark.stands = climb_written(store, extracts, account, p, from, most);
    bookmark.peer = p;
}

// Whether a block is settled.
fn is_settled(known: Known, block: &Hash32) -> bool
    ensures yes { result ≡ true
        → IsDoneAbove (table_in known.entry.extracts.now) (tables_of known.entry.claims.now)
        (verdicts_in known.entry.judged.now) block.now.0 }
    ensures no { result ≡ false
        → IsDoneAbove (table_in known.entry.extracts.now) (tables_of known.entry.claims.now)
        (verdicts_in known.entry.judged.now) block.now.0 → ⊥ }
{
    is_done(known.kind_above(block))
}

// How far an entered peer's blocks above a height are settled, up to another.
fn climb_settled<H: HeaderStore>(store: &H, known: Known, p: PeerNo, from: u32, most: u32) -> u32
    requires entered { IsSome (H.chain store.now p.0) }
    requires within { most ≤ length (own_of (H.chain store.now) p) }
    requires low { from ≤ most }
    ensures done { AreDone (table_in known.entry.extracts.now) (tables_of known.entry.claims.now)
        (verdicts_in known.entry.judged.now) (own_of (H.chain store.now) p) from result }
    ensures up { from ≤ result }
    ensures low { result ≤ most }
    ensures next { result < most → IsDoneAbove (table_in known.entry.extracts.now) (tables_of known.entry.claims.now)
        (verdicts_in known.entry.judged.now) (hash_at (own_of (H.chain store.now) p) (result + 1)) → ⊥ }
{
    for height in from..most {
        if !is_settled(known, &store.hash_at(p, height + 1)) {
            return height;
        }
    }
    most
}

/// Up to where an entered peer's blocks are settled: up to its tip exactly where all of them above a height are. Its tip
/// is looked at first; then they are from another height on, and the lower ones only once all of these are settled.
pub(crate) fn settled_to<H: HeaderStore>(
    store: &H,
    known: Known,
    p: PeerNo,
    from: u32,
    before: u32,
    most: u32,
) -> u32
    requires entered { IsSome (H.chain store.now p.0) }
    requires within { most ≤ length (own_of (H.chain store.now) p) }
    requires low { from ≤ most }
    ensures yes { most ≤ result → AreDone (table_in known.entry.extracts.now) (tables_of known.entry.claims.now)
        (verdicts_in known.entry.judged.now) (own_of (H.chain store.now) p) from most }
    ensures no { result < most → AreDone (table_in known.entry.extracts.now) (tables_of known.entry.claims.now)
        (verdicts_in known.entry.judged.now) (own_of (H.chain store.now) p) from most → ⊥ }
{
    let middle = before.max(from).min(most);
    if middle < most && !is_settled(known, &store.hash_at(p, most)) {
        return middle;
    }
    let high = climb_settled(store, known, p, middle, most);
    if high < most {
        return high;
    }
    let low = climb_settled(store, known, p, from, middle);
    if low < middle {
        return low;
    }
    most
}

/// Takes away what is written above a height, up to which it is an entered peer's, and writes its blocks from there on.
pub(crate) fn write_blocks<H: HeaderStore>(
    store: &H,
    extracts: &Extracts,
    account: &mut Account,
    p: PeerNo,
    from: u32,
    most: u32,
) -> Result<(), NoMemory>
    requires entered { IsSome (H.chain store.now p.0) }
    requires most { most ≡ length (own_of (H.chain store.now) p) }
    requires to { IsWrittenTo (table_in extracts.now) (own_of (H.chain store.now) p) (written_in account.old) from }
    ensures ok { OnOk result
        (IsWrittenWhole (table_in extracts.now) (own_of (H.chain store.now) p) (written_in account.new)) }
    ensures to { IsWrittenTo (table_in extracts.now) (own_of (H.chain store.now) p) (written_in account.new) from }
    ensures book { IsAccountOf (table_in extracts.now) account.old → IsAccountOf (table_in extracts.now) account.new }
    ensures part { IsWrittenTo (table_in extracts.now) (own_of (H.chain store.now) p) (written_in account.new)
        (length (written_in account.new)) }
{
    account.pop_to(from as usize);
    for below in from..most {
        let height = below + 1;
        account.write(extracts, height, &store.hash_at(p, height))?;
    }
    Ok(())
}
