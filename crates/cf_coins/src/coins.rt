//! The coins of a chain: the outputs that nothing has spent yet.
ghost use Rattle.std.specs.Prelude.{◌≡◌, IfOk, OnOk, OnErr, is_some, option_copied};
ghost use Rattle.std.specs.FinMap.{get, insert, remove, empty};

use cf_block::{OutPoint, TxOut};
use cf_bytes::NoMemory;
use std::alloc::Global;
use std::collections::BTreeMap;
use std::marker::Model;

/// Outputs by their names. Contracts see a finite map.
#[derive(Drop)]
pub struct Coins {
    map: BTreeMap<OutPoint, TxOut>,
}

impl Model for Coins {
    ghost use Rattle.std.specs.FinMap.{from_entries};
    ghost use Rattle.cf_chain.specs.{CoinMap, coins_code};

    ghost Value = { CoinMap };

    ghost coded = { coins_code };

    ghost view = { λ s. from_entries s.map.entries };
}

impl Coins {
    /// No coins; it takes no memory.
    pub fn new(alloc: Global) -> Coins
        ensures { result ≡ empty }
    {
        Coins {
            map: BTreeMap::new(alloc),
        }
    }

    /// The coin of this name, where it is there.
    pub fn coin(&self, name: &OutPoint) -> Option<&TxOut>
        ensures { option_copied result ≡ get self.now name.now }
    {
        self.map.get(name)
    }

    /// Takes a coin out, where it is there.
    pub fn take(&mut self, name: OutPoint) -> Option<TxOut>
        ensures value { result ≡ get self.old name }
        ensures after { self.new ≡ remove self.old name }
    {
        self.map.remove(&name)
    }

    /// Puts a coin in, and answers whether it took the place of one of this name. Where no memory is found nothing has
    /// changed.
    pub fn put(&mut self, name: OutPoint, output: TxOut) -> Result<bool, NoMemory>
        ensures stood { IfOk result (λ stood. stood ≡ is_some (get self.old name)) }
        ensures ok { OnOk result (self.new ≡ insert self.old name output) }
        ensures err { OnErr result (self.new ≡ self.old) }
    {
        let old = self.map.insert(name, output)?;
        Ok(old.is_some())
    }
}
