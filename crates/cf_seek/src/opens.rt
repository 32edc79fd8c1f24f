//! What stands in open requests.
ghost use Rattle.std.specs.Prelude.{◌≡◌, ◌≢◌, ◌≤◌, ℕ, List, true, false, IfOk, OnErr, OnOk, vec_len};
ghost use Rattle.cf_dispute.specs.{blocks_of};
ghost use Rattle.cf_seek.specs.Seeking.{MoreOpens};
ghost use Rattle.cf_seek.specs.Spans.{IsAskedFor, IsAskedInPart};
ghost use Rattle.cf_seek.specs.Opens.{IsBlockFree, IsFilterFree};
ghost use Rattle.cf_seek.specs.Opening.{Closes, OpensBlock, OpensFilters, OpensSome};

use crate::open_at::OpenAt;
use crate::spans::Wish;
use cf_bytes::{Hash32, NoMemory, PLACES, PeerNo};
use std::alloc::Global;

/// What stands in the requests for filters and for blocks that are open to up to eight peers. Blocks are named by their
/// hashes.
#[derive(Drop)]
pub struct Opens {
    alloc: Global,
    pub peers: Vec<OpenAt>,
    ghost nine: { vec_len peers ≡ 9 },
}

impl Opens {
    ghost use Rattle.cf_seek.specs.OpensAll.{opens_in};

    /// Nothing is open to anybody.
    pub fn new(alloc: Global) -> Result<Opens, NoMemory>
        ensures filters { IfOk result (λ o. (block : List ℕ) → IsFilterFree (opens_in o) block) }
        ensures blocks { IfOk result (λ o. (block : List ℕ) → IsBlockFree (opens_in o) block) }
    {
        let mut peers = Vec::with_capacity(alloc, PLACES)?;
        for i in 0..PLACES {
            peers.push(OpenAt::new(alloc))?;
        }
        Ok(Opens { alloc, peers })
    }

    /// Whether a block's filter is open to nobody. It takes no memory.
    pub fn is_filter_free(&self, block: &Hash32) -> bool
        ensures yes { result ≡ true → IsFilterFree (opens_in self.now) block.now.0 }
        ensures no { result ≡ false → IsFilterFree (opens_in self.now) block.now.0 → ⊥ }
    {
        self.peers.iter().all(|peer| !peer.has_filter(block))
    }

    /// Whether a block is open to nobody. It takes no memory.
    pub fn is_block_free(&self, block: &Hash32) -> bool
        ensures yes { result ≡ true → IsBlockFree (opens_in self.now) block.now.0 }
        ensures no { result ≡ false → IsBlockFree (opens_in self.now) block.now.0 → ⊥ }
    {
        self.peers.iter().all(|peer| !peer.has_block(block))
    }

    /// Whether no block is open to a peer. It takes no memory.
    pub fn has_no_block(&self, p: PeerNo) -> bool
        ensures yes { result ≡ true → (block : List ℕ) → (opens_in self.now).blocks p.0 block ≡ false }
        ensures no { result ≡ false → ((block : List ℕ) → (opens_in self.now).blocks p.0 block ≡ false) → ⊥ }
    {
        match self.peers.get(p.0 as usize) {
            Some(at) => at.has_none(),
            None => true,
        }
    }

    /// Nothing is open to a peer any more. It takes no memory.
    pub fn close(&mut self, p: PeerNo)
        ensures { Closes (opens_in self.old) (opens_in self.new) p.0 }
    {
        let place = p.0 as usize;
        if place < self.peers.len() {
            self.peers[place] = OpenAt::new(self.alloc);
        }
    }

    /// A block is open to a peer, with a number up to 8, and no other is.
    pub fn put_block(&mut self, p: PeerNo, block: &Hash32)
        requires { p.0 ≤ 8 }
        ensures { OpensBlock (opens_in self.old) (opens_in self.new) p.0 block.now.0 }
    {
        self.peers[p.0 as usize].put_block(block);
    }

    /// What a question is about is open to a peer with a number up to 8. Where no memory is found some of it may be.
    pub fn ask(&mut self, p: PeerNo, wish: &Wish) -> Result<(), NoMemory>
        requires { p.0 ≤ 8 }
        ensures ok { OnOk result (IsAskedFor p.0 wish.now (opens_in self.old) (opens_in self.new)) }
        ensures more { ((block : List ℕ) → (opens_in self.old).blocks p.0 block ≡ false)
            → MoreOpens (opens_in self.old) (opens_in self.new) }
        ensures err { OnErr result (IsAskedInPart p.0 wish.now (opens_in self.old) (opens_in self.new)) }
    {
        match wish {
            Wish::Filters(span) => self.put_filters(p, span.blocks.as_slice()),
            Wish::Block(hash) => {
                self.put_block(p, hash);
                Ok(())
            }
            Wish::Test(trial) => self.put_filters(p, &[trial.block]),
            Wish::Nothing => Ok(()),
            Wish::Claims(_) => Ok(()),
        }
    }

    /// The filters of blocks are open to a peer with a number up to 8. Where no memory is found some of them may be.
    pub fn put_filters(&mut self, p: PeerNo, blocks: &[Hash32]) -> Result<(), NoMemory>
        requires { p.0 ≤ 8 }
        ensures ok { OnOk result (OpensFilters (opens_in self.old) (opens_in self.new) p.0 (blocks_of blocks.now)) }
        ensures more { MoreOpens (opens_in self.old) (opens_in self.new) }
        ensures err { OnErr result (OpensSome (opens_in self.old) (opens_in self.new) p.0 (blocks_of blocks.now)) }
    {
        self.peers[p.0 as usize].put_filters(blocks)?;
        Ok(())
    }

    /// Whether no block is open to anybody. It takes no memory.
    pub fn has_no_blocks(&self) -> bool
        ensures yes { result ≡ true → (block : List ℕ) → IsBlockFree (opens_in self.now) block }
        ensures no { result ≡ false → ((block : List ℕ) → IsBlockFree (opens_in self.now) block) → ⊥ }
    {
        for q in 0..self.peers.len() as u32 {
            if !self.has_no_block(PeerNo(q)) {
                return false;
            }
        }
        true
    }
}
