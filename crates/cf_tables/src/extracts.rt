//! The extracts of the blocks that were fetched.
#![tactic(auto, unfolding(crate::specs::Extracts::table_in))]

ghost use Rattle.std.specs.Prelude.{◌≡◌, ◌∷◌, [], ℕ, List, None, is_some, unwrap_or, fold, IfOk, OnOk, OnErr};
ghost use Rattle.cf_scan.specs.{Stands, after_placed};
ghost use Rattle.cf_scan.specs.declared.extracts.Placed.{Placed};
ghost use Rattle.cf_tables.specs.Tables.{placed_one, IsSameTable};
ghost use Rattle.cf_tables.specs.Held.{CountsBlocks};
ghost use Rattle.cf_tables.specs.Extracts.{put_extract, table_in, with_extract};

use cf_bytes::{Hash32, Listed, NoMemory};
use cf_scan::{Book, Extract, Ledger};
use std::alloc::Global;
use std::collections::BTreeMap;

/// Extracts by the hashes of their blocks.
#[derive(Drop)]
pub struct Extracts {
    map: BTreeMap<Hash32, Extract>,
}

impl Extracts {
    /// No extract; it takes no memory.
    pub fn new(alloc: Global) -> Extracts
        ensures { (hash : List ℕ) → table_in result hash ≡ None }
    {
        Extracts {
            map: BTreeMap::new(alloc),
        }
    }

    /// Whether the extract of the block with this hash is there.
    pub fn has(&self, hash: &Hash32) -> bool
        ensures { result ≡ is_some (table_in self.now hash.now.0) }
    {
        self.map.contains_key(hash)
    }

    /// How many blocks have an extract. It takes no memory.
    pub fn len(&self) -> u64
        ensures { CountsBlocks (table_in self.now) result }
    {
        self.map.len() as u64
    }

    /// Keeps an extract under its block's hash, where none stands. Where no memory is found nothing has changed.
    pub fn put(&mut self, hash: Hash32, extract: Extract) -> Result<(), NoMemory>
        ensures ok { OnOk result (IsSameTable (table_in self.new) (with_extract hash.0 extract (table_in self.old))) }
        ensures err { OnErr result (IsSameTable (table_in self.new) (table_in self.old)) }
    {
        if self.has(&hash) {
            return Ok(());
        }
        self.insert(hash, extract)?;
        Ok(())
    }

    // Keeps an extract, in the place of one that stands.
    fn insert(&mut self, hash: Hash32, extract: Extract) -> Result<(), NoMemory>
        ensures ok { OnOk result (IsSameTable (table_in self.new) (put_extract hash.0 extract (table_in self.old))) }
        ensures err { OnErr result (IsSameTable (table_in self.new) (table_in self.old)) }
    {
        self.map.insert(hash, extract)?;
        Ok(())
    }

    /// A block more in a book, with its extract where it is there, and else with none.
    pub fn tell(
        &self,
        alloc: Global,
        book: &mut Book,
        height: u32,
        hash: &Hash32,
    ) -> Result<(), NoMemory>
        ensures ok { OnOk result ((blocks : List Placed) → Stands book.old blocks → Stands book.new
            (record { height = height; extract = unwrap_or (table_in self.now hash.now.0) [] } ∷ blocks)) }
        ensures err { OnErr result ((blocks : List Placed) → Stands book.old blocks → Stands book.new blocks) }
    {
        match self.map.get(hash) {
            Some(extract) => book.push(height, extract),
            None => book.push(height, &Listed::new(alloc)),
        }
    }

    /// The history with the extract of the block at this height, where it is there.
    pub fn add_to(&self, ledger: Ledger, height: u32, hash: &Hash32) -> Result<Ledger, NoMemory>
        ensures { IfOk result (λ l. l ≡ fold after_placed ledger (placed_one height (table_in self.now hash.now.0))) }
    {
        match self.map.get(hash) {
            Some(extract) => {
                let more = ledger.add_block(height, extract)?;
                Ok(more)
            }
            None => Ok(ledger),
        }
    }
}
