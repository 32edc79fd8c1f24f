//! The transactions of a block against the coins.
ghost use Rattle.std.specs.Prelude.{◌≡◌, ◌++◌, ◌<◌, ◌^◌, length, IfOk, OnOk, MatchResult, All, Ok, Err};
ghost use Rattle.std.specs.List.{list_any};
ghost use Rattle.cf_block.specs.{AreTxids, is_coinbase_tx, spends_of, IsBlock, txid_of};
ghost use Rattle.cf_chain.specs.{spent_outputs as spent_of, spent_by, after_tx, after_block, prevouts};
ghost use Rattle.cf_coins.specs.Spending.{prevs, scripts_of, take_all, put_all, spend, spend_all, spend_txs, coinbase_fault as coinbase_fault_of, Gives};

use crate::coins::Coins;
use crate::fault::CoinFault;
use cf_block::{Block, OutPoint, Script, Tx, TxIn, TxOut, is_coinbase};
use cf_bytes::{Hash32, Listed, Refused};
use std::alloc::Global;

/// The scripts of the outputs that a block's transactions spend, in the order of their inputs.
pub type Spent = Listed<Script>;

/// Spends a block's inputs and puts its outputs in, transaction by transaction, and answers what was spent; or the
/// first fault, after which nothing is said of the coins. The first transaction must be a coinbase and no other may be
/// one; each input must name a coin as they stand when it comes; no output may be put over a standing one.
#[tactic(auto, unfolding(crate::specs::Spending::spend_txs))]
pub fn spend_block(
    alloc: Global,
    coins: &mut Coins,
    block: &Block,
    txids: &[Hash32],
) -> Result<Spent, Refused<CoinFault>>
    requires block { IsBlock block.now }
    requires hashes { AreTxids txids.now block.now.txs }
    ensures exact { Gives (spend_txs coins.old block.now.txs) result coins.new }
    ensures after { OnOk result (coins.new ≡ after_block coins.old block.now) }
    ensures spent { IfOk result (λ scripts. scripts ≡ prevouts coins.old block.now) }
{
    if let Some(fault) = find_coinbase_fault(block.txs.as_slice()) {
        return Err(Refused::No(fault));
    }
    let mut spent = Vec::new(alloc);
    match spend_each(alloc, coins, block.txs.as_slice(), txids, &mut spent) {
        Ok(()) => {
            spent.shrink_to_fit();
            Ok(Listed::from_vec(spent))
        }
        Err(e) => Err(e),
    }
}

fn find_coinbase_fault(txs: &[Tx]) -> Option<CoinFault>
    ensures { result ≡ coinbase_fault_of txs.now }
{
    match txs.split_first() {
        None => Some(CoinFault::NoCoinbase),
        Some((first, others)) => {
            if !is_coinbase(first) {
                return Some(CoinFault::NoCoinbase);
            }
            if has_coinbase(others) {
                return Some(CoinFault::SecondCoinbase);
            }
            None
        }
    }
}

fn has_coinbase(txs: &[Tx]) -> bool
    ensures { result ≡ list_any is_coinbase_tx txs.now }
{
    txs.iter().any(|t| is_coinbase(t))
}

fn spend_each(
    alloc: Global,
    coins: &mut Coins,
    txs: &[Tx],
    txids: &[Hash32],
    spent: &mut Vec<Script>,
) -> Result<(), Refused<CoinFault>>
    requires few { All (λ t. length t.outputs < 2 ^ 32) txs.now }
    requires hashes { AreTxids txids.now txs.now }
    ensures exact { Gives (spend_all coins.old txs.now) result coins.new }
    ensures spent { OnOk result (spent.new.items ≡ spent.old.items ++ scripts_of (spent_by coins.old txs.now)) }
{
    for (i, tx) in txs.iter().enumerate() {
        match spend_tx(alloc, coins, tx, txids[i], spent) {
            Ok(()) => {}
            Err(e) => return Err(e),
        }
    }
    Ok(())
}

fn spend_tx(
    alloc: Global,
    coins: &mut Coins,
    tx: &Tx,
    txid: Hash32,
    spent: &mut Vec<Script>,
) -> Result<(), Refused<CoinFault>>
    requires few { length tx.now.outputs < 2 ^ 32 }
    requires hash { txid.0 ≡ txid_of tx.now }
    ensures exact { Gives (spend coins.old tx.now) result coins.new }
    ensures spent { OnOk result
        (spent.new.items ≡ spent.old.items ++ scripts_of (spent_of coins.old (spends_of tx.now))) }
{
    match spend_inputs(coins, tx, spent) {
        Ok(()) => put_outputs(alloc, coins, txid, tx.outputs.as_slice()),
        Err(e) => Err(e),
    }
}

fn spend_inputs(
    coins: &mut Coins,
    tx: &Tx,
    spent: &mut Vec<Script>,
) -> Result<(), Refused<CoinFault>>
    ensures exact { Gives (take_all coins.old (spends_of tx.now)) result coins.new }
    ensures spent { OnOk result
        (spent.new.items ≡ spent.old.items ++ scripts_of (spent_of coins.old (spends_of tx.now))) }
{
    if is_coinbase(tx) {
        return Ok(());
    }
    take_inputs(coins, tx.inputs.as_slice(), spent)
}

fn take_inputs(
    coins: &mut Coins,
    inputs: &[TxIn],
    spent: &mut Vec<Script>,
) -> Result<(), Refused<CoinFault>>
    ensures exact { Gives (take_all coins.old (prevs inputs.now)) result coins.new }
    ensures spent { OnOk result
        (spent.new.items ≡ spent.old.items ++ scripts_of (spent_of coins.old (prevs inputs.now))) }
{
    for input in inputs {
        match coins.take(input.prev) {
            None => return Err(Refused::No(CoinFault::Missing(input.prev))),
            Some(output) => spent.push(output.script)?,
        }
    }
    Ok(())
}

fn put_outputs(
    alloc: Global,
    coins: &mut Coins,
    txid: Hash32,
    outputs: &[TxOut],
) -> Result<(), Refused<CoinFault>>
    requires { length outputs.now < 2 ^ 32 }
    ensures { Gives (put_all txid.0 0 coins.old outputs.now) result coins.new }
{
    let mut index = 0u32;
    for output in outputs {
        let name = OutPoint { txid, index };
        let copy = output.copy(alloc)?;
        if coins.put(name, copy)? {
            return Err(Refused::No(CoinFault::Exists(name)));
        }
        index += 1;
    }
    Ok(())
}
