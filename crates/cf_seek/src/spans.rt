//! What one question is about.
ghost use Rattle.std.specs.Prelude.{◌≡◌, ℕ, ◌<◌, ◌≤◌, IsSome, IfOk, length};
ghost use Rattle.cf_headers.specs.{hash_at, own_of};
ghost use Rattle.cf_seek.specs.Spans.{asked_marks, IsSpan};

use crate::cursors::Cursors;
use crate::testing::Trial;
use cf_bytes::{Hash32, NoMemory, PeerNo};
use cf_headers::HeaderStore;
use std::alloc::Global;

/// A run of blocks of a peer's chain. Hashes are in wire order.
#[derive(Drop, Debug)]
pub struct Span {
    /// The height of the first of them, at least 1.
    pub start: u32,
    /// The hash of the last of them.
    pub stop: Hash32,
    /// The hash of the block below the first.
    pub parent: Hash32,
    /// Their hashes, the lowest first.
    pub blocks: Vec<Hash32>,
}

/// What a peer is to be asked for next.
#[derive(Drop, Debug)]
pub enum Wish {
    /// Nothing.
    Nothing,
    /// What it claims of the filters of some blocks, at most 2000.
    Claims(Span),
    /// The filters of some blocks, at most 1000.
    Filters(Span),
    /// The block with this hash.
    Block(Hash32),
    /// The filter of one block that was fetched, so that it is tested.
    Test(Trial),
}

/// No filter of the blocks that an entered peer was asked about is to be asked for any more.
pub fn raise_asked<H: HeaderStore>(store: &H, cursors: &mut Cursors, p: PeerNo, wish: &Wish)
    requires { IsSome (H.chain store.now p.0) }
    ensures { cursors.new ≡ asked_marks (own_of (H.chain store.now) p) cursors.old p.0 wish.now }
{
    if let Wish::Filters(span) = wish {
        let top = store.place(p, &span.stop);
        cursors.put(p, cursors.of(p).reached(top));
    }
}

/// The blocks of a peer's chain from a height up to another, below which its hash stands at no lower height than the
/// first; where it stands lower than at that other height, up to there.
pub fn span_of<H: HeaderStore>(
    alloc: Global,
    store: &H,
    p: PeerNo,
    start: u32,
    end: u32,
) -> Result<Span, NoMemory>
    requires entered { IsSome (H.chain store.now p.0) }
    requires up { 1 ≤ start }
    requires low { start ≤ end }
    requires within { end ≤ length (own_of (H.chain store.now) p) }
    requires apart { (h : ℕ) → h < start
        → hash_at (own_of (H.chain store.now) p) h ≡ hash_at (own_of (H.chain store.now) p) end → ⊥ }
    ensures { IfOk result (λ s. IsSpan (own_of (H.chain store.now) p) start end s) }
{
    let stop = store.hash_at(p, end);
    let top = store.place(p, &stop).unwrap_or(end);
    let mut blocks = Vec::new(alloc);
    for below in start - 1..top {
        blocks.push(store.hash_at(p, below + 1))?;
    }
    let parent = store.hash_at(p, start - 1);
    Ok(Span {
        start,
        stop,
        parent,
        blocks,
    })
}
