//! The watched coins as they stand.
ghost use Rattle.std.specs.Prelude.{◌≡◌, OnOk, OnErr};
ghost use Rattle.std.specs.FinMap.{get, insert, remove, empty};
ghost use Rattle.cf_scan.specs.Coins.{total};

use cf_block::OutPoint;
use cf_bytes::NoMemory;
use std::alloc::Global;
use std::collections::BTreeMap;
use std::marker::Model;

/// Coins of watched scripts: the values of outputs by their outpoints, and their sum. Contracts see the map.
#[derive(Drop)]
pub struct WatchedCoins {
    map: BTreeMap<OutPoint, u64>,
    balance: u128,
}

impl Model for WatchedCoins {
    ghost use Rattle.std.specs.FinMap.{from_entries};
    ghost use Rattle.cf_scan.specs.Coins.{WatchedMap, coins_code, AreSummed};

    ghost Value = { WatchedMap };

    ghost coded = { coins_code };

    ghost view = { λ s. from_entries s.map.entries };

    ghost invariant = { λ s. AreSummed s.map.entries s.balance };
}

impl WatchedCoins {
    pub fn new(alloc: Global) -> WatchedCoins
        ensures { result ≡ empty }
    {
        WatchedCoins {
            map: BTreeMap::new(alloc),
            balance: 0,
        }
    }

    /// The sum of all coins.
    pub fn total(&self) -> u128
        ensures { result ≡ total self.now }
    {
        self.balance
    }

    /// Takes a coin out, where it is there, and answers its value.
    pub fn take(&mut self, p: OutPoint) -> Option<u64>
        ensures value { result ≡ get self.old p }
        ensures after { self.new ≡ remove self.old p }
    {
        let value = self.map.remove(&p);
        self.balance -= u128::from(value.unwrap_or(0));
        value
    }

    /// Puts a coin in, in the place of one that stands there.
    pub fn put(&mut self, p: OutPoint, value: u64) -> Result<(), NoMemory>
        ensures ok { OnOk result (self.new ≡ insert self.old p value) }
        ensures err { OnErr result (self.new ≡ self.old) }
    {
        // The number of coins, below 2^63, bounds their sum.
        let _count = self.map.len();
        let old = self.map.insert(p, value)?.unwrap_or(0);
        self.balance = self.balance + u128::from(value) - u128::from(old);
        Ok(())
    }
}
