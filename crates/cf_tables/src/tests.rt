//! What was found of filters that were tested.
#![tactic(auto, unfolding(crate::specs::Tests::told_in))]

ghost use Rattle.std.specs.Prelude.{◌≡◌, ℕ, List, None, true, is_some, OnOk, OnErr};
ghost use Rattle.cf_tables.specs.Tests.{IsSameTold, found_too as is_found_too, set_test, told_in, with_test};

use crate::judged::Judging;
use cf_bytes::{Hash32, NoMemory};
use std::alloc::Global;
use std::collections::BTreeMap;

/// Of filters of fetched blocks, by the hashes of the block and of the filter, whether they lack what the block pays.
#[derive(Drop)]
pub struct Tests {
    map: BTreeMap<Judging, bool>,
}

impl Tests {
    /// No test; it takes no memory.
    pub fn new(alloc: Global) -> Tests
        ensures { (block filter : List ℕ) → told_in result block filter ≡ None }
    {
        Tests {
            map: BTreeMap::new(alloc),
        }
    }

    /// Whether no test is kept.
    pub fn is_empty(&self) -> bool
        ensures { result ≡ true → (block filter : List ℕ) → told_in self.now block filter ≡ None }
    {
        self.map.is_empty()
    }

    /// What was found of a filter, if it was tested.
    pub fn get(&self, block: &Hash32, filter: &Hash32) -> Option<bool>
        ensures { result ≡ told_in self.now block.now.0 filter.now.0 }
    {
        self.map
            .get(&Judging {
                block: *block,
                filter: *filter,
            })
            .copied()
    }

    /// Whether the filter was tested.
    pub fn has(&self, block: &Hash32, filter: &Hash32) -> bool
        ensures { result ≡ is_some (told_in self.now block.now.0 filter.now.0) }
    {
        self.map.contains_key(&Judging {
            block: *block,
            filter: *filter,
        })
    }

    /// Keeps what was found. Of two filters with one hash it is kept that one of them lacks something. Where no memory
    /// is found nothing has changed.
    pub fn put(&mut self, block: &Hash32, filter: &Hash32, lacks: bool) -> Result<(), NoMemory>
        ensures ok { OnOk result (IsSameTold (told_in self.new)
            (with_test block.now.0 filter.now.0 lacks (told_in self.old))) }
        ensures err { OnErr result (IsSameTold (told_in self.new) (told_in self.old)) }
    {
        let found = self.found_too(block, filter, lacks);
        self.insert(*block, *filter, found)?;
        Ok(())
    }

    // Whether a filter was found to lack something before, or is now.
    fn found_too(&self, block: &Hash32, filter: &Hash32, lacks: bool) -> bool
        ensures { result ≡ is_found_too (told_in self.now block.now.0 filter.now.0) lacks }
    {
        match self.get(block, filter) {
            Some(before) => before || lacks,
            None => lacks,
        }
    }

    // Keeps what was found, in the place of what stands.
    fn insert(&mut self, block: Hash32, filter: Hash32, lacks: bool) -> Result<(), NoMemory>
        ensures ok { OnOk result (IsSameTold (told_in self.new) (set_test block.0 filter.0 lacks (told_in self.old))) }
        ensures err { OnErr result (IsSameTold (told_in self.new) (told_in self.old)) }
    {
        self.map.insert(Judging { block, filter }, lacks)?;
        Ok(())
    }
}
