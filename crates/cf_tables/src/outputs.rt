//! What the outputs of fetched blocks pay.
#![tactic(auto, unfolding(crate::specs::Outputs::outputs_in))]

ghost use Rattle.std.specs.Prelude.{◌≡◌, ℕ, List, None, is_some, IfOk, OnOk, OnErr};
ghost use Rattle.cf_tables.specs.Held.{CountsOutputs};
ghost use Rattle.cf_tables.specs.Outputs.{lacks_kept, outputs_in, put_outputs, set_outputs};

use cf_bytes::{Hash32, NoMemory};
use cf_filter::{Items, lacks};
use std::alloc::Global;
use std::collections::BTreeMap;

/// The items of blocks' outputs, by the hashes of the blocks.
#[derive(Drop)]
pub struct Outputs {
    map: BTreeMap<Hash32, Items>,
}

impl Outputs {
    /// Nothing is kept; it takes no memory.
    pub fn new(alloc: Global) -> Outputs
        ensures { (hash : List ℕ) → outputs_in result hash ≡ None }
    {
        Outputs {
            map: BTreeMap::new(alloc),
        }
    }

    /// Keeps the items of a block's outputs under its hash, where none stand. Where no memory is found nothing has
    /// changed.
    pub fn put(&mut self, hash: Hash32, items: Items) -> Result<(), NoMemory>
        ensures ok { OnOk result ((at : List ℕ)
            → outputs_in self.new at ≡ put_outputs hash.0 items (outputs_in self.old) at) }
        ensures err { OnErr result ((at : List ℕ) → outputs_in self.new at ≡ outputs_in self.old at) }
    {
        if self.has(&hash) {
            return Ok(());
        }
        self.insert(hash, items)?;
        Ok(())
    }

    /// Of how many blocks the items are kept. It takes no memory.
    pub fn len(&self) -> u64
        ensures { CountsOutputs (outputs_in self.now) result }
    {
        self.map.len() as u64
    }

    // Whether the items of the block with this hash are there.
    fn has(&self, hash: &Hash32) -> bool
        ensures { result ≡ is_some (outputs_in self.now hash.now.0) }
    {
        self.map.contains_key(hash)
    }

    // Keeps items, in the place of those that stand.
    fn insert(&mut self, hash: Hash32, items: Items) -> Result<(), NoMemory>
        ensures ok { OnOk result ((at : List ℕ)
            → outputs_in self.new at ≡ set_outputs hash.0 items (outputs_in self.old) at) }
        ensures err { OnErr result ((at : List ℕ) → outputs_in self.new at ≡ outputs_in self.old at) }
    {
        self.map.insert(hash, items)?;
        Ok(())
    }

    /// Whether bytes are no filter, or one that lacks the value of an item of this block's outputs. Of a block of which
    /// nothing is kept it isn't known, and they lack nothing.
    pub fn lacks(&self, alloc: Global, block: &Hash32, filter: &[u8]) -> Result<bool, NoMemory>
        ensures { IfOk result (λ b. b ≡ lacks_kept block.now.0 filter.now (outputs_in self.now block.now.0)) }
    {
        match self.map.get(block) {
            Some(items) => {
                let lacking = lacks(alloc, block, filter, items)?;
                Ok(lacking)
            }
            None => Ok(false),
        }
    }
}
