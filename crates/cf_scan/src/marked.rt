//! Coins of which those that were spent stay, marked.
ghost use Rattle.std.specs.Prelude.{◌≡◌, ◌<◌, ◌^◌, ℕ, Some, true, OnOk, OnErr};
ghost use Rattle.std.specs.FinMap.{get, insert, remove, empty};
ghost use Rattle.cf_block.specs.declared.tx.OutPoint.{OutPoint};
ghost use Rattle.cf_scan.specs.Coins.{total};
ghost use Rattle.cf_scan.specs.Marked.{AreStanding, is_kept};

use cf_block::OutPoint;
use cf_bytes::NoMemory;
use std::alloc::Global;
use std::collections::BTreeMap;

/// The values of coins by their outpoints, and their sum. A coin that was taken out stays as an entry without a value,
/// so that it can be put back without memory.
#[derive(Drop)]
pub(crate) struct MarkedCoins {
    map: BTreeMap<OutPoint, Option<u64>>,
    balance: u128,
    ghost standing: { AreStanding map.entries balance },
}

impl MarkedCoins {
    ghost use Rattle.cf_scan.specs.MarkedOf.{coins_in, knows};

    /// No coin; it takes no memory.
    pub(crate) fn new(alloc: Global) -> MarkedCoins
        ensures { coins_in result ≡ empty }
    {
        MarkedCoins {
            map: BTreeMap::new(alloc),
            balance: 0,
        }
    }

    /// The sum of the coins.
    pub(crate) fn total(&self) -> u128
        ensures { result ≡ total (coins_in self.now) }
    {
        self.balance
    }

    /// The value of a coin, where it stands.
    pub(crate) fn get(&self, p: &OutPoint) -> Option<u64>
        ensures value { result ≡ get (coins_in self.now) p.now }
        ensures known { is_kept result ≡ true → knows self.now p.now ≡ true }
    {
        match self.map.get(p) {
            Some(value) => *value,
            None => None,
        }
    }

    /// Puts a coin in, in the place of one that stands there.
    #[tactic(auto, using(crate::proofs::Standing::balance_small))]
    pub(crate) fn put(&mut self, p: OutPoint, value: u64) -> Result<(), NoMemory>
        ensures ok { OnOk result (coins_in self.new ≡ insert (coins_in self.old) p value) }
        ensures err { OnErr result (coins_in self.new ≡ coins_in self.old) }
        ensures known { (q : OutPoint) → knows self.old q ≡ true → knows self.new q ≡ true }
    {
        // The number of entries, below 2^63, bounds the sum.
        let _count = self.map.len();
        let old = self.get(&p).unwrap_or(0);
        self.map.insert(p, Some(value))?;
        self.balance = self.balance + u128::from(value) - u128::from(old);
        Ok(())
    }

    /// Takes a coin out, where it stands. It takes no memory.
    pub(crate) fn mark(&mut self, p: &OutPoint)
        ensures after { coins_in self.new ≡ remove (coins_in self.old) p.now }
        ensures known { (q : OutPoint) → knows self.old q ≡ true → knows self.new q ≡ true }
    {
        let old = self.get(p).unwrap_or(0);
        if let Some(slot) = self.map.get_mut(p) {
            *slot = None;
            self.balance -= u128::from(old);
        }
    }

    /// Puts a coin back at an outpoint that has an entry. It takes no memory.
    #[tactic(auto, using(crate::proofs::Standing::balance_small))]
    pub(crate) fn put_back(&mut self, p: &OutPoint, value: u64)
        requires { knows self.old p.now ≡ true }
        ensures after { coins_in self.new ≡ insert (coins_in self.old) p.now value }
        ensures known { (q : OutPoint) → knows self.old q ≡ true → knows self.new q ≡ true }
    {
        // The number of entries, below 2^63, bounds the sum.
        let _count = self.map.len();
        let old = self.get(p).unwrap_or(0);
        if let Some(slot) = self.map.get_mut(p) {
            *slot = Some(value);
            self.balance = self.balance + u128::from(value) - u128::from(old);
        }
    }
}
