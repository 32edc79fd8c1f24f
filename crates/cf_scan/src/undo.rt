//! Coins that remember what stood before each change.
ghost use Rattle.std.specs.Prelude.{◌≡◌, ◌∷◌, ◌++◌, [], List, length, take, drop, reverse, OnOk, IfOk};
ghost use Rattle.std.specs.FinMap.{get, insert, remove, empty};
ghost use Rattle.cf_scan.specs.Coins.{total};
ghost use Rattle.cf_scan.specs.declared.changes.Change.{Change};
ghost use Rattle.cf_scan.specs.Marked.{restore};
ghost use Rattle.cf_scan.specs.Undo.{Goes, undo_back};
ghost use Rattle.cf_scan.specs.UndoLog.{AreKnown};

use crate::changes::Change;
use crate::marked::MarkedCoins;
use cf_block::OutPoint;
use cf_bytes::NoMemory;
use std::alloc::Global;

/// Coins, and what stood at each outpoint that changed, the newest last.
#[derive(Drop)]
pub(crate) struct UndoCoins {
    coins: MarkedCoins,
    log: Vec<Change>,
    ghost known: { AreKnown coins log.items },
}

impl UndoCoins {
    ghost use Rattle.cf_scan.specs.UndoOf.{coins_of, log_of};

    /// No coin; it takes no memory.
    pub(crate) fn new(alloc: Global) -> UndoCoins
        ensures coins { coins_of result ≡ empty }
        ensures log { log_of result ≡ [] }
    {
        UndoCoins {
            coins: MarkedCoins::new(alloc),
            log: Vec::new(alloc),
        }
    }

    /// The sum of the coins.
    pub(crate) fn total(&self) -> u128
        ensures { result ≡ total (coins_of self.now) }
    {
        self.coins.total()
    }

    /// How many changes are remembered.
    pub(crate) fn count(&self) -> usize
        ensures { result ≡ length (log_of self.now) }
    {
        self.log.len()
    }

    /// Takes a coin out, where it stands, and answers its value.
    pub(crate) fn take(&mut self, p: &OutPoint) -> Result<Option<u64>, NoMemory>
        ensures value { IfOk result (λ v. v ≡ get (coins_of self.old) p.now) }
        ensures after { OnOk result (coins_of self.new ≡ remove (coins_of self.old) p.now) }
        ensures goes { Goes (log_of self.old) (coins_of self.old) (log_of self.new) (coins_of self.new) }
    {
        match self.coins.get(p) {
            None => Ok(None),
            Some(value) => {
                self.log.push(Change {
                    point: *p,
                    before: Some(value),
                })?;
                self.coins.mark(p);
                Ok(Some(value))
            }
        }
    }

    /// Puts a coin in, in the place of one that stands there.
    pub(crate) fn put(&mut self, p: OutPoint, value: u64) -> Result<(), NoMemory>
        ensures after { OnOk result (coins_of self.new ≡ insert (coins_of self.old) p value) }
        ensures goes { Goes (log_of self.old) (coins_of self.old) (log_of self.new) (coins_of self.new) }
    {
        let before = self.coins.get(&p);
        self.log.push(Change { point: p, before })?;
        self.coins.put(p, value)?;
        Ok(())
    }

    /// Takes the newest changes back, until so many are left. It takes no memory.
    pub(crate) fn undo_to(&mut self, count: usize)
        ensures log { log_of self.new ≡ take count (log_of self.old) }
        ensures coins { coins_of self.new ≡ undo_back (coins_of self.old) (reverse (drop count (log_of self.old))) }
    {
        for _ in count..self.log.len() {
            self.undo_one();
        }
    }

    // Takes the newest change back.
    fn undo_one(&mut self)
        ensures { (older : List Change) (c : Change) → log_of self.old ≡ older ++ c ∷ []
            → (log_of self.new ≡ older) × (coins_of self.new ≡ restore (coins_of self.old) c.point c.before) }
    {
        if let Some(change) = self.log.pop() {
            match change.before {
                Some(value) => self.coins.put_back(&change.point, value),
                None => self.coins.mark(&change.point),
            }
        }
    }
}
