//! What is open to one peer.
ghost use Rattle.std.specs.Prelude.{◌≡◌, ◌⊎◌, ℕ, List, true, false, OnOk};
ghost use Rattle.cf_dispute.specs.{blocks_of};
ghost use Rattle.cf_headers.specs.{IsIn, same};
ghost use Rattle.cf_seek.specs.Listed.{AreListed, is_key};

use cf_bytes::{Hash32, NoMemory};
use std::alloc::Global;
use std::collections::BTreeMap;

/// The blocks whose filters one peer was asked for, and the block that it was asked for.
#[derive(Drop)]
pub struct OpenAt {
    pub filters: BTreeMap<Hash32, ()>,
    /// The blocks of the filters, in the order in which they were asked for.
    pub asked: Vec<Hash32>,
    pub block: Option<Hash32>,
    ghost listed: { AreListed filters.entries asked.items },
}

impl OpenAt {
    ghost use Rattle.cf_seek.specs.OpensOf.{block_at, filter_at};

    /// Nothing; it takes no memory.
    #[tactic(auto, unfolding(crate::specs::OpensOf::filter_at, crate::specs::OpensOf::block_at))]
    pub fn new(alloc: Global) -> OpenAt
        ensures filters { (block : List ℕ) → filter_at result block ≡ false }
        ensures block { (block : List ℕ) → block_at result block ≡ false }
    {
        OpenAt {
            filters: BTreeMap::new(alloc),
            asked: Vec::new(alloc),
            block: None,
        }
    }

    /// Whether a block's filter is open to it.
    #[tactic(auto, unfolding(crate::specs::OpensOf::filter_at))]
    pub fn has_filter(&self, block: &Hash32) -> bool
        ensures { result ≡ filter_at self.now block.now.0 }
    {
        self.filters.contains_key(block)
    }

    /// Whether a block is open to it.
    #[tactic(auto, unfolding(crate::specs::OpensOf::block_at, cf_headers::specs::Rules::same))]
    pub fn has_block(&self, block: &Hash32) -> bool
        ensures { result ≡ block_at self.now block.now.0 }
    {
        match &self.block {
            Some(wanted) => *block == *wanted,
            None => false,
        }
    }

    /// Whether no block is open to it.
    #[tactic(auto, unfolding(crate::specs::OpensOf::block_at))]
    pub fn has_none(&self) -> bool
        ensures yes { result ≡ true → (block : List ℕ) → block_at self.now block ≡ false }
        ensures no { result ≡ false → ((block : List ℕ) → block_at self.now block ≡ false) → ⊥ }
    {
        match &self.block {
            Some(_) => false,
            None => true,
        }
    }

    /// Opens a block's filter.
    #[tactic(auto, unfolding(crate::specs::OpensOf::filter_at, crate::specs::OpensOf::block_at))]
    fn put_filter(&mut self, block: Hash32) -> Result<(), NoMemory>
        ensures there { OnOk result (filter_at self.new block.0 ≡ true) }
        ensures stays { (hash : List ℕ) → filter_at self.old hash ≡ true → filter_at self.new hash ≡ true }
        ensures only { (hash : List ℕ) → filter_at self.new hash ≡ true
            → (hash ≡ block.0) ⊎ (filter_at self.old hash ≡ true) }
        ensures block { (hash : List ℕ) → block_at self.new hash ≡ block_at self.old hash }
    {
        self.asked.push(block)?;
        put_key(&mut self.filters, block)?;
        Ok(())
    }

    /// Opens the filters of blocks. Where no memory is found some of them may be open.
    pub fn put_filters(&mut self, blocks: &[Hash32]) -> Result<(), NoMemory>
        ensures there { OnOk result ((hash : List ℕ) → IsIn hash (blocks_of blocks.now)
            → filter_at self.new hash ≡ true) }
        ensures stays { (hash : List ℕ) → filter_at self.old hash ≡ true → filter_at self.new hash ≡ true }
        ensures only { (hash : List ℕ) → filter_at self.new hash ≡ true
            → IsIn hash (blocks_of blocks.now) ⊎ (filter_at self.old hash ≡ true) }
        ensures block { (hash : List ℕ) → block_at self.new hash ≡ block_at self.old hash }
    {
        for block in blocks {
            self.put_filter(*block)?;
        }
        Ok(())
    }

    /// Opens a block, in the place of one.
    #[tactic(auto, unfolding(crate::specs::OpensOf::filter_at, crate::specs::OpensOf::block_at))]
    pub fn put_block(&mut self, block: &Hash32)
        ensures filters { (hash : List ℕ) → filter_at self.new hash ≡ filter_at self.old hash }
        ensures block { (hash : List ℕ) → block_at self.new hash ≡ same hash block.now.0 }
    {
        self.block = Some(*block);
    }
}

// Puts a block among the keys of a map. Where no memory is found nothing has changed.
fn put_key(filters: &mut BTreeMap<Hash32, ()>, block: Hash32) -> Result<(), NoMemory>
    ensures there { OnOk result (is_key filters.new.entries block.0 ≡ true) }
    ensures stays { (hash : List ℕ) → is_key filters.old.entries hash ≡ true → is_key filters.new.entries hash ≡ true }
    ensures only { (hash : List ℕ) → is_key filters.new.entries hash ≡ true
        → (hash ≡ block.0) ⊎ (is_key filters.old.entries hash ≡ true) }
{
    filters.insert(block, ())?;
    Ok(())
}
