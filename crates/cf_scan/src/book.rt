//! A history with undo.
ghost use Rattle.std.specs.Prelude.{◌≡◌, ◌∷◌, ◌++◌, [], ◌<◌, ◌^◌, ◌==◌, List, length, vec_len, true, false, not, IfOk, OnOk, OnErr, sum, sum_by, fold, map, take, drop, reverse};
ghost use Rattle.cf_scan.specs.declared.extracts.Placed.{Placed};
ghost use Rattle.cf_scan.specs.declared.history.Entry.{Entry};
ghost use Rattle.cf_scan.specs.Extracts.{coin_of, after_extract, history_of};
ghost use Rattle.cf_scan.specs.Scan.{take_out as taken_of, put_one};
ghost use Rattle.cf_scan.specs.Undo.{Goes, undo_back};
ghost use Rattle.cf_scan.specs.UndoOf.{coins_of, log_of};

use crate::extracts::{Extract, Paid, TxExtract};
use crate::history::{Entry, History};
use crate::page::Page;
use crate::undo::UndoCoins;
use cf_block::OutPoint;
use cf_bytes::{Hash32, NoMemory};
use std::alloc::Global;

/// The history of a list of blocks, to which blocks are added and from which the newest are taken away again. A block
/// costs what it holds, times a logarithm of the coins; none is read again. Coins that were spent stay, marked, so that
/// a block is taken away without memory.
#[derive(Drop)]
pub struct Book {
    alloc: Global,
    entries: Vec<Entry>,
    coins: UndoCoins,
    // For each block how much there was before it.
    pages: Vec<Page>,
    ghost few: { vec_len pages < 2 ^ 32 },
}

impl Book {
    ghost use Rattle.cf_scan.specs.Book.{Grows, Stands, scanned_by};

    /// No block; it takes no memory.
    pub fn new(alloc: Global) -> Book
        ensures { Stands result [] }
    {
        Book {
            alloc,
            entries: Vec::new(alloc),
            coins: UndoCoins::new(alloc),
            pages: Vec::new(alloc),
        }
    }

    /// How many blocks there are. It takes no memory.
    pub fn height(&self) -> u32
        ensures { (blocks : List Placed) → Stands self.now blocks → result ≡ length blocks }
    {
        self.pages.len() as u32
    }

    /// The history of the blocks, as `History::of` tells it. What is told is copied; no block is gone through.
    pub fn history(&self) -> Result<History, NoMemory>
        ensures { IfOk result (λ h. (blocks : List Placed) → Stands self.now blocks → h ≡ history_of (reverse blocks)) }
    {
        Ok(History {
            entries: Vec::from_slice(self.alloc, self.entries.as_slice())?,
        })
    }

    /// Adds a block at a height. It only reads the extract, so that a caller who keeps it need not copy it. Where no
    /// memory is found the blocks are as before.
    pub fn push(&mut self, height: u32, extract: &Extract) -> Result<(), NoMemory>
        ensures ok { OnOk result ((blocks : List Placed) → Stands self.old blocks
            → Stands self.new (record { height = height; extract = extract.now } ∷ blocks)) }
        ensures err { OnErr result ((blocks : List Placed) → Stands self.old blocks → Stands self.new blocks) }
    {
        // There stay fewer than 2^32 pages.
        let _room = u32::try_from(self.pages.len() + 1).map_err(|_| NoMemory)?;
        let page = Page {
            entries: self.entries.len(),
            changes: self.coins.count(),
        };
        self.pages.push(page)?;
        match self.add_block(height, extract) {
            Ok(()) => Ok(()),
            Err(NoMemory) => {
                self.pages.pop();
                self.roll_back(page);
                Err(NoMemory)
            }
        }
    }

    /// Takes the newest block away, where there is one, and answers whether there was. It takes no memory.
    pub fn pop(&mut self) -> bool
        ensures some { (block : Placed) (blocks : List Placed) → Stands self.old (block ∷ blocks)
            → (result ≡ true) × Stands self.new blocks }
        ensures none { Stands self.old [] → (result ≡ false) × Stands self.new [] }
    {
        match self.pages.pop() {
            Some(page) => {
                self.roll_back(page);
                true
            }
            None => false,
        }
    }

    // Takes away what came since a page was begun.
    fn roll_back(&mut self, page: Page)
        ensures pages { self.new.pages ≡ self.old.pages }
        ensures entries { self.new.entries.items ≡ take page.entries self.old.entries.items }
        ensures log { log_of self.new.coins ≡ take page.changes (log_of self.old.coins) }
        ensures coins { coins_of self.new.coins
            ≡ undo_back (coins_of self.old.coins) (reverse (drop page.changes (log_of self.old.coins))) }
    {
        self.entries.truncate(page.entries);
        self.coins.undo_to(page.changes);
    }

    // Adds what a block holds.
    fn add_block(&mut self, height: u32, extract: &Extract) -> Result<(), NoMemory>
        ensures ok { OnOk result (scanned_by self.new ≡ fold (after_extract height) (scanned_by self.old) extract.now) }
        ensures grows { Grows self.old self.new }
    {
        for tx in extract.as_slice() {
            self.add_tx(height, tx)?;
        }
        Ok(())
    }

    fn add_tx(&mut self, height: u32, tx: &TxExtract) -> Result<(), NoMemory>
        ensures ok { OnOk result (scanned_by self.new ≡ after_extract height (scanned_by self.old) tx.now) }
        ensures grows { Grows self.old self.new }
    {
        let (any, spent) = take_out(&mut self.coins, tx.spends.as_slice())?;
        let pays = tx.pays.as_slice();
        let received = put_in(&mut self.coins, tx.txid, pays)?;
        if any || !pays.is_empty() {
            let balance = self.coins.total();
            self.entries.push(Entry {
                height,
                txid: tx.txid,
                received,
                spent,
                balance,
            })?;
        }
        Ok(())
    }
}

// Takes out the coins that are named: whether there was one, and their sum.
#[tactic(auto, unfolding(crate::specs::Scan::take_out))]
fn take_out(coins: &mut UndoCoins, spends: &[OutPoint]) -> Result<(bool, u128), NoMemory>
    ensures after { OnOk result (coins_of coins.new ≡ (taken_of (coins_of coins.old) spends.now).1) }
    ensures any { IfOk result (λ r. r.0 ≡ not (length (taken_of (coins_of coins.old) spends.now).0 == 0)) }
    ensures sum { IfOk result (λ r. r.1 ≡ sum (taken_of (coins_of coins.old) spends.now).0) }
    ensures goes { Goes (log_of coins.old) (coins_of coins.old) (log_of coins.new) (coins_of coins.new) }
{
    let mut count = 0usize;
    let mut sum = 0u128;
    for p in spends {
        let value = coins.take(p)?;
        count += usize::from(value.is_some());
        sum += u128::from(value.unwrap_or(0));
    }
    Ok((count != 0, sum))
}

// Puts outputs in, and answers their sum.
fn put_in(coins: &mut UndoCoins, txid: Hash32, pays: &[Paid]) -> Result<u128, NoMemory>
    ensures after { OnOk result
        (coins_of coins.new ≡ fold put_one (coins_of coins.old) (map (coin_of txid.0) pays.now)) }
    ensures sum { IfOk result (λ n. n ≡ sum_by (λ coin. coin.1) (map (coin_of txid.0) pays.now)) }
    ensures goes { Goes (log_of coins.old) (coins_of coins.old) (log_of coins.new) (coins_of coins.new) }
{
    let mut sum = 0u128;
    for paid in pays {
        let value = paid.output.amount();
        let index = paid.index;
        coins.put(OutPoint { txid, index }, value)?;
        sum += u128::from(value);
    }
    Ok(sum)
}
