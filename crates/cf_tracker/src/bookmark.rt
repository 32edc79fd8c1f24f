//! Up to where what is written stands on a chain.
ghost use Rattle.std.specs.Prelude.{◌≡◌, ◌≢◌, ◌≤◌, ℕ, true, None, Some, length};
ghost use Rattle.cf_headers.specs.Chain.{Chain};
ghost use Rattle.cf_headers.specs.{hash_at};
ghost use Rattle.cf_tracker.specs.Writing.{stands_after};

use cf_bytes::{Hash32, PeerNo};
use cf_headers::{Change, HeaderStore};
use cf_seek::passed_below;

/// Up to which height the blocks that are written are those of a peer's chain, each with its extract exactly where
/// that is there; and from where the best chain's blocks are looked at first, as they were found settled up to there.
#[derive(Clone, Copy, Debug)]
pub(crate) struct Bookmark {
    pub peer: PeerNo,
    pub stands: u32,
    pub settled: u32,
}

impl Bookmark {
    /// On nobody's chain.
    pub(crate) fn new() -> Bookmark
        ensures { result.stands ≡ 0 }
    {
        Bookmark {
            peer: PeerNo(0),
            stands: 0,
            settled: 0,
        }
    }

    /// Whether it is on a peer's chain, at a height.
    pub(crate) fn stands_at(&self, p: PeerNo, height: u32) -> bool
        ensures { result ≡ true → (self.now.peer.0 ≡ p.0) × (self.now.stands ≡ height) }
    {
        if self.peer.0 != p.0 {
            return false;
        }
        self.stands == height
    }

    /// A peer's chain is another, or none.
    pub(crate) fn forget(&mut self, p: PeerNo)
        ensures peer { self.new.peer ≡ self.old.peer }
        ensures here { self.old.peer.0 ≡ p.0 → self.new.stands ≡ 0 }
        ensures others { self.old.peer.0 ≢ p.0 → self.new.stands ≡ self.old.stands }
    {
        if self.peer.0 == p.0 {
            self.stands = 0;
        }
    }

    /// A peer's chain stays the same up to a height.
    pub(crate) fn fall(&mut self, p: PeerNo, change: Change)
        ensures peer { self.new.peer ≡ self.old.peer }
        ensures here { self.old.peer.0 ≡ p.0 → self.new.stands ≡ stands_after change self.old.stands }
        ensures others { self.old.peer.0 ≢ p.0 → self.new.stands ≡ self.old.stands }
    {
        if self.peer.0 != p.0 {
            return;
        }
        if let Change::Longer(link) = change {
            self.stands = self.stands.min(link);
        }
    }
}

/// It falls to below the lowest height at which a block stands.
pub(crate) fn fall_below<H: HeaderStore>(store: &H, bookmark: &mut Bookmark, block: &Hash32)
    requires none { H.chain store.now bookmark.old.peer.0 ≡ None → bookmark.old.stands ≡ 0 }
    requires within { (own : Chain) → H.chain store.now bookmark.old.peer.0 ≡ Some own
        → bookmark.old.stands ≤ length own }
    ensures peer { bookmark.new.peer ≡ bookmark.old.peer }
    ensures low { bookmark.new.stands ≤ bookmark.old.stands }
    ensures apart { (own : Chain) → H.chain store.now bookmark.old.peer.0 ≡ Some own
        → (h : ℕ) → 1 ≤ h → h ≤ bookmark.new.stands → hash_at own h ≡ block.now.0 → ⊥ }
{
    let stands = bookmark.stands;
    if stands == 0 {
        return;
    }
    bookmark.stands = passed_below(store, bookmark.peer, stands, block);
}
