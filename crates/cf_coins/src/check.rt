//! The transactions of a block against coins that stay as they are.
ghost use Rattle.std.specs.Prelude.{◌≡◌, ◌<◌, ◌^◌, length, OnOk, All};
ghost use Rattle.std.specs.FinMap.{get};
ghost use Rattle.cf_block.specs.{AreTxids, spends_of, IsBlock, txid_of};
ghost use Rattle.cf_coins.specs.Spending.{prevs, spend_txs};
ghost use Rattle.cf_coins.specs.Touching.{Judges, names_of, places, touched_outpoints, with_found, with_named};

use crate::coins::Coins;
use crate::fault::CoinFault;
use crate::spend::spend_block;
use cf_block::{Block, OutPoint, Tx, TxIn, TxOut, is_coinbase};
use cf_bytes::{Hash32, NoMemory, Refused};
use std::alloc::Global;

/// Whether a block's transactions fit the coins, or the first fault, as `spend_block` finds it. It judges by copies of
/// the coins that the block touches, and they stay as they are.
pub fn check_block(
    alloc: Global,
    coins: &Coins,
    block: &Block,
    txids: &[Hash32],
) -> Result<(), Refused<CoinFault>>
    requires block { IsBlock block.now }
    requires hashes { AreTxids txids.now block.now.txs }
    ensures { Judges (spend_txs coins.now block.now.txs) result }
{
    let mut few = Coins::new(alloc);
    copy_touched(alloc, coins, block.txs.as_slice(), txids, &mut few)?;
    match spend_block(alloc, &mut few, block, txids) {
        Ok(_spent) => Ok(()),
        Err(e) => Err(e),
    }
}

// Copies the coins that transactions touch.
fn copy_touched(
    alloc: Global,
    coins: &Coins,
    txs: &[Tx],
    txids: &[Hash32],
    few: &mut Coins,
) -> Result<(), NoMemory>
    requires outputs { All (λ t. length t.outputs < 2 ^ 32) txs.now }
    requires hashes { AreTxids txids.now txs.now }
    ensures { OnOk result (few.new ≡ with_named coins.now few.old (touched_outpoints txs.now)) }
{
    for (i, tx) in txs.iter().enumerate() {
        copy_names(alloc, coins, tx, txids[i], few)?;
    }
    Ok(())
}

// Those that a transaction touches.
fn copy_names(
    alloc: Global,
    coins: &Coins,
    tx: &Tx,
    txid: Hash32,
    few: &mut Coins,
) -> Result<(), NoMemory>
    requires outputs { length tx.now.outputs < 2 ^ 32 }
    requires hash { txid.0 ≡ txid_of tx.now }
    ensures { OnOk result (few.new ≡ with_named coins.now few.old (names_of tx.now)) }
{
    copy_spends(alloc, coins, tx, few)?;
    copy_places(alloc, coins, txid, tx.outputs.as_slice(), few)?;
    Ok(())
}

// Those that it spends.
fn copy_spends(alloc: Global, coins: &Coins, tx: &Tx, few: &mut Coins) -> Result<(), NoMemory>
    ensures { OnOk result (few.new ≡ with_named coins.now few.old (spends_of tx.now)) }
{
    if is_coinbase(tx) {
        return Ok(());
    }
    copy_inputs(alloc, coins, tx.inputs.as_slice(), few)?;
    Ok(())
}

fn copy_inputs(
    alloc: Global,
    coins: &Coins,
    inputs: &[TxIn],
    few: &mut Coins,
) -> Result<(), NoMemory>
    ensures { OnOk result (few.new ≡ with_named coins.now few.old (prevs inputs.now)) }
{
    for input in inputs {
        copy_coin(alloc, coins, input.prev, few)?;
    }
    Ok(())
}

// Those that stand where these outputs would be put.
fn copy_places(
    alloc: Global,
    coins: &Coins,
    txid: Hash32,
    outputs: &[TxOut],
    few: &mut Coins,
) -> Result<(), NoMemory>
    requires { length outputs.now < 2 ^ 32 }
    ensures { OnOk result (few.new ≡ with_named coins.now few.old (places txid.0 0 outputs.now)) }
{
    for place in 0..outputs.len() {
        let index = place as u32;
        copy_coin(alloc, coins, OutPoint { txid, index }, few)?;
    }
    Ok(())
}

// The coin of a name, where it is there.
fn copy_coin(alloc: Global, coins: &Coins, name: OutPoint, few: &mut Coins) -> Result<(), NoMemory>
    ensures { OnOk result (few.new ≡ with_found few.old name (get coins.now name)) }
{
    match coins.coin(&name) {
        None => Ok(()),
        Some(output) => {
            let copy = output.copy(alloc)?;
            let _stood = few.put(name, copy)?;
            Ok(())
        }
    }
}
