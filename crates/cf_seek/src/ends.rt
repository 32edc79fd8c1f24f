//! How far one question goes.
ghost use Rattle.std.specs.Prelude.{◌≡◌, ◌+◌, ◌<◌, ◌≤◌, None, IsSome, length};
ghost use Rattle.cf_dispute.specs.{tables_of};
ghost use Rattle.cf_headers.specs.{hash_at, own_of, IsAbove};
ghost use Rattle.cf_seek.specs.Ends.{AreUnclaimed, IsLastUnclaimed};

use crate::known::Known;
use cf_bytes::PeerNo;
use cf_headers::HeaderStore;
use cf_tables::is_unclaimed;

/// The last height, from one on whose block a peer doesn't claim, that it may be asked to claim at once.
pub fn claims_end<H: HeaderStore>(store: &H, known: Known, p: PeerNo, start: u32, most: u32) -> u32
    requires entered { IsSome (H.chain store.now p.0) }
    requires within { most ≤ length (own_of (H.chain store.now) p) }
    requires low { start ≤ most }
    requires above { IsAbove (hash_at (own_of (H.chain store.now) p) start) }
    requires new { tables_of known.claims.now p.0 (hash_at (own_of (H.chain store.now) p) start) ≡ None }
    ensures new { AreUnclaimed (tables_of known.entry.claims.now) p.0 (own_of (H.chain store.now) p) start result }
    ensures up { start ≤ result }
    ensures low { result ≤ most }
    ensures few { result < start + 2000 }
    ensures last { IsLastUnclaimed (tables_of known.entry.claims.now) p.0 (own_of (H.chain store.now) p) start result
        most }
{
    let end = start + (most - start).min(1999);
    for height in start..end {
        if !is_unclaimed(known.claims, p, known.first, &store.hash_at(p, height + 1)) {
            return height;
        }
    }
    end
}
