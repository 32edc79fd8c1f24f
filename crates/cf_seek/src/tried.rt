//! Up to where none of the peers' blocks is to be tested.
ghost use Rattle.std.specs.Prelude.{◌≡◌, ◌≢◌, ◌≤◌, ℕ, List, ◌∷◌, [], true, IsSome, replicate, slice_set, vec_len, IfOk};
ghost use Rattle.cf_dispute.specs.declared.claim.At.TheVariants.{Differ};
ghost use Rattle.cf_dispute.specs.{IsAt, tables_of, blocks_of};
ghost use Rattle.cf_seek.specs.Tried.{IsOn, IsTriedBelow, tried_after, tried_at, tried_under};
ghost use Rattle.cf_tables.specs.{table_in};

use crate::seek::passed_below;
use cf_bytes::{Hash32, NoMemory, PLACES, PeerNo};
use cf_dispute::Claims;
use cf_headers::{Change, HeaderStore};
use cf_tables::{Extracts, is_differing};
use std::alloc::Global;
use std::marker::Model;

/// A mark for each peer's number up to 8: the height up to which none of the blocks of its chain is to be tested.
/// Contracts see their list.
#[derive(Drop)]
pub struct Tried {
    marks: Vec<u32>,
    ghost nine: { vec_len marks ≡ 9 },
}

impl Model for Tried {
    ghost use Rattle.std.specs.Prelude.{List, ℕ};

    ghost Value = { List ℕ };

    ghost view = { λ t. t.marks.items };
}

impl Tried {
    /// All at height 0.
    pub fn new(alloc: Global) -> Result<Tried, NoMemory>
        ensures { IfOk result (λ t. t ≡ replicate 9 0) }
    {
        Ok(Tried {
            marks: vec![in alloc; 0u32; PLACES]?,
        })
    }

    /// A peer's mark; 0 for a number above 8.
    pub fn of(&self, p: PeerNo) -> u32
        ensures { result ≡ tried_at self.now p.0 }
    {
        self.marks.get(p.0 as usize).copied().unwrap_or(0)
    }

    /// Puts the mark of a peer with a number up to 8.
    pub fn put(&mut self, p: PeerNo, mark: u32)
        ensures { self.new ≡ slice_set self.old p.0 mark }
    {
        if let Some(old) = self.marks.get_mut(p.0 as usize) {
            *old = mark;
        }
    }

    /// The mark of a peer with a number up to 8 is at height 0.
    pub fn clear(&mut self, p: PeerNo)
        ensures { self.new ≡ slice_set self.old p.0 0 }
    {
        self.put(p, 0);
    }

    /// A peer's mark falls to the height up to which its chain stays the same.
    pub fn fall(&mut self, p: PeerNo, change: Change)
        ensures { self.new ≡ tried_after self.old p.0 change }
    {
        if let Change::Longer(link) = change {
            self.put(p, self.of(p).min(link));
        }
    }

    // Whether no mark is above height 0.
    fn is_unset(&self) -> bool
        ensures { result ≡ true → (q : ℕ) → tried_at self.now q ≡ 0 }
    {
        self.marks.iter().all(|mark| *mark == 0)
    }

    // How many numbers have a mark; those from there on have none.
    fn places(&self) -> u32
        ensures { (q : ℕ) → result ≤ q → tried_at self.now q ≡ 0 }
    {
        self.marks.len() as u32
    }
}

/// Where they differ on a block's filter, the mark of each peer's blocks falls to below that block.
pub fn fall_below_dispute<H: HeaderStore>(
    store: &H,
    claims: &Claims,
    tried: &mut Tried,
    block: &Hash32,
)
    requires { (q : ℕ) → IsOn (H.chain store.now q) (tried_at tried.old q) }
    ensures { (q : ℕ) → IsTriedBelow (H.chain store.now q) (λ (b : List ℕ). IsAt (tables_of claims.now) b Differ)
        (block.now.0 ∷ []) (tried_at tried.old q) (tried_at tried.new q) }
{
    if is_differing(claims, block) {
        fall_below(store, tried, block);
    }
}

/// The mark of each peer's blocks falls to below each of some blocks that was fetched and on whose filter they differ.
pub fn fall_below_disputes<H: HeaderStore>(
    store: &H,
    extracts: &Extracts,
    claims: &Claims,
    tried: &mut Tried,
    blocks: &[Hash32],
)
    requires { (q : ℕ) → IsOn (H.chain store.now q) (tried_at tried.old q) }
    ensures { (q : ℕ) → IsTriedBelow (H.chain store.now q)
        (λ (b : List ℕ). IsSome (table_in extracts.now b) × IsAt (tables_of claims.now) b Differ) (blocks_of blocks.now)
        (tried_at tried.old q) (tried_at tried.new q) }
{
    if tried.is_unset() {
        return;
    }
    for block in blocks {
        if extracts.has(block) {
            fall_below_dispute(store, claims, tried, block);
        }
    }
}

// The mark of each peer's blocks falls to below a block.
fn fall_below<H: HeaderStore>(store: &H, tried: &mut Tried, block: &Hash32)
    requires { (q : ℕ) → IsOn (H.chain store.now q) (tried_at tried.old q) }
    ensures { (q : ℕ) → tried_at tried.new q ≡ tried_under (H.chain store.now q) block.now.0 (tried_at tried.old q) }
{
    for q in 0..tried.places() {
        fall_at(store, tried, PeerNo(q), block);
    }
}

// The same of one peer.
fn fall_at<H: HeaderStore>(store: &H, tried: &mut Tried, p: PeerNo, block: &Hash32)
    requires { IsOn (H.chain store.now p.0) (tried_at tried.old p.0) }
    ensures here { tried_at tried.new p.0 ≡ tried_under (H.chain store.now p.0) block.now.0 (tried_at tried.old p.0) }
    ensures others { (q : ℕ) → q ≢ p.0 → tried_at tried.new q ≡ tried_at tried.old q }
{
    let mark = tried.of(p);
    if mark == 0 {
        return;
    }
    tried.put(p, passed_below(store, p, mark, block));
}
