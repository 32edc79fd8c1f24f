//! What a peer is to be asked for next.
ghost use Rattle.std.specs.Prelude.{◌≡◌, ◌+◌, ◌<◌, ◌≤◌, None, IsSome, length, max};
ghost use Rattle.cf_dispute.specs.{tables_of};
ghost use Rattle.cf_headers.specs.{hash_at, own_of, IsAbove};
ghost use Rattle.cf_tables.specs.{AreClaimed};

use crate::known::Known;
use cf_bytes::PeerNo;
use cf_headers::HeaderStore;
use cf_tables::is_unclaimed;

/// What a peer is to be asked for next, by the lowest height.
#[derive(Clone, Copy, Debug)]
pub enum Want {
    /// Nothing.
    Nothing,
    /// What it claims of filters.
    Claims(u32),
    /// Filters.
    Filters(u32),
    /// A block.
    Block(u32),
}

/// How far a peer claims its blocks, from a height up to which it does, and no further than asked.
pub fn climb_claimed<H: HeaderStore>(store: &H, known: Known, p: PeerNo, from: u32, end: u32) -> u32
    requires entered { IsSome (H.chain store.now p.0) }
    requires within { end ≤ length (own_of (H.chain store.now) p) }
    requires claimed { AreClaimed (tables_of known.claims.now) p.0 (own_of (H.chain store.now) p) from }
    ensures claimed { AreClaimed (tables_of known.entry.claims.now) p.0 (own_of (H.chain store.now) p) result }
    ensures up { from ≤ result }
    ensures low { result ≤ max from end }
    ensures above { result < end → IsAbove (hash_at (own_of (H.chain store.now) p) (result + 1)) }
    ensures next { result < end
        → tables_of known.entry.claims.now p.0 (hash_at (own_of (H.chain store.now) p) (result + 1)) ≡ None }
{
    for height in from..end {
        if is_unclaimed(known.claims, p, known.first, &store.hash_at(p, height + 1)) {
            return height;
        }
    }
    from.max(end)
}
