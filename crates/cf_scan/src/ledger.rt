//! A history while it is told, block by block.
ghost use Rattle.std.specs.Prelude.{◌≡◌, ◌==◌, not, OnOk, IfOk, sum, sum_by, fold, map, length};
ghost use Rattle.cf_scan.specs.Scan.{take_out as taken_of, put_one, unscanned};
ghost use Rattle.cf_scan.specs.Extracts.{coin_of, after_extract, after_placed};

use crate::coins::WatchedCoins;
use crate::extracts::{Extract, Paid, TxExtract};
use crate::history::{Entry, History};
use cf_block::OutPoint;
use cf_bytes::{Hash32, NoMemory};
use std::alloc::Global;
use std::marker::Model;

/// A history while it is told: the entries so far, and the watched coins as they stand. It only
/// reads extracts, so that a caller who keeps them need not copy them.
#[derive(Drop)]
pub struct Ledger {
    entries: Vec<Entry>,
    coins: WatchedCoins,
}

impl Model for Ledger {
    ghost use Rattle.std.specs.Coded.{codes};
    ghost use Rattle.cf_scan.specs.Coins.{coins_code};
    ghost use Rattle.cf_scan.specs.Scan.{Scanned};

    ghost Value = { Scanned };

    ghost coded = { Prim.hlevel (codes, coins_code) };

    ghost view = { λ s. record { entries = s.entries.items; coins = s.coins } };
}

impl Ledger {
    /// No block yet.
    pub fn new(alloc: Global) -> Ledger
        ensures { result ≡ unscanned }
    {
        Ledger {
            entries: Vec::new(alloc),
            coins: WatchedCoins::new(alloc),
        }
    }

    /// The extract of the next block, with its height.
    #[tactic(auto, unfolding(crate::specs::Extracts::after_placed))]
    pub fn add_block(mut self, height: u32, extract: &Extract) -> Result<Ledger, NoMemory>
        ensures { IfOk result
            (λ ledger. ledger ≡ after_placed self (record { height = height; extract = extract.now })) }
    {
        for tx in extract.as_slice() {
            self.add_tx(height, tx)?;
        }
        Ok(self)
    }

    /// The history so far. It takes no memory.
    pub fn into_history(self) -> History
        ensures { result ≡ self.entries }
    {
        History {
            entries: self.entries,
        }
    }

    fn add_tx(&mut self, height: u32, tx: &TxExtract) -> Result<(), NoMemory>
        ensures { OnOk result (self.new ≡ after_extract height self.old tx.now) }
    {
        let (any, spent) = take_out(&mut self.coins, tx.spends.as_slice());
        let pays = tx.pays.as_slice();
        let received = put_in(&mut self.coins, tx.txid, pays)?;
        if any || !pays.is_empty() {
            let balance = self.coins.total();
            self.entries.push(Entry {
                height,
                txid: tx.txid,
                received,
                spent,
                balance,
            })?;
        }
        Ok(())
    }
}

// Takes out the coins that are named: whether there was one, and their sum.
#[tactic(auto, unfolding(crate::specs::Scan::take_out))]
fn take_out(coins: &mut WatchedCoins, spends: &[OutPoint]) -> (bool, u128)
    ensures after { coins.new ≡ (taken_of coins.old spends.now).1 }
    ensures any { result.0 ≡ not (length (taken_of coins.old spends.now).0 == 0) }
    ensures sum { result.1 ≡ sum (taken_of coins.old spends.now).0 }
{
    let mut count = 0usize;
    let mut sum = 0u128;
    for p in spends {
        let value = coins.take(*p);
        count += usize::from(value.is_some());
        sum += u128::from(value.unwrap_or(0));
    }
    (count != 0, sum)
}

// Puts outputs in, and answers their sum.
fn put_in(coins: &mut WatchedCoins, txid: Hash32, pays: &[Paid]) -> Result<u128, NoMemory>
    ensures after { OnOk result (coins.new ≡ fold put_one coins.old (map (coin_of txid.0) pays.now)) }
    ensures sum { IfOk result (λ n. n ≡ sum_by (λ coin. coin.1) (map (coin_of txid.0) pays.now)) }
{
    let mut sum = 0u128;
    for paid in pays {
        let value = paid.output.amount();
        let index = paid.index;
        coins.put(OutPoint { txid, index }, value)?;
        sum += u128::from(value);
    }
    Ok(sum)
}
