//! The checks of a block that is to stand on a chain.
ghost use Rattle.std.specs.Prelude.{◌≡◌, ◌<◌, IfOk, OnOk};
ghost use Rattle.cf_block.specs.{IsBlock, AreTxids, commit_fault, block_hash_of};
ghost use Rattle.cf_headers.specs.{fault_with, height_limit};
ghost use Rattle.cf_chain.specs.{after_block, prevouts};
ghost use Rattle.cf_coins.specs.{spend_txs};
ghost use Rattle.cf_walk.specs.Files.{cause_before_coins, in_header, in_height, in_commitment, in_coins};
ghost use Rattle.cf_walk.specs.Progress.{FindsCause};

use crate::cause::RecordCause;
use cf_block::{Block, Header, TxIds, check_commitment_by, txids};
use cf_bytes::{Hash32, Refused};
use cf_coins::{Coins, Spent, check_block, spend_block};
use cf_headers::{HEIGHT_LIMIT, Past, check_on};
use std::alloc::Global;

/// Judges a block's header, which has this hash, where it is to stand on a header with that hash and after these times.
pub fn judge_header(
    tip: &Hash32,
    past: &Past,
    header: &Header,
    hash: &Hash32,
) -> Result<(), Refused<RecordCause>>
    ensures { FindsCause (in_header (fault_with tip.now.0 past.now header.now hash.now.0)) result }
{
    match check_on(tip, past.times(), header, hash) {
        Ok(()) => Ok(()),
        Err(fault) => Err(Refused::No(RecordCause::Header(fault))),
    }
}

/// Judges the height of a block that is to stand above so many.
pub fn judge_height(height: usize) -> Result<(), Refused<RecordCause>>
    ensures exact { FindsCause (in_height height) result }
    ensures low { OnOk result (height < height_limit) }
{
    if height >= HEIGHT_LIMIT as usize {
        return Err(Refused::No(RecordCause::TooHigh));
    }
    Ok(())
}

/// Judges whether a block's header stands for its transactions. Answers their hashes, which are made here.
pub fn judge_commitment(alloc: Global, block: &Block) -> Result<TxIds, Refused<RecordCause>>
    ensures exact { FindsCause (in_commitment (commit_fault block.now)) result }
    ensures hashes { IfOk result (λ ids. AreTxids ids block.now.txs) }
{
    let Ok(ids) = txids(alloc, block.txs.as_slice()) else {
        return Err(Refused::NoMemory);
    };
    match check_commitment_by(alloc, block, ids.as_slice()) {
        Ok(()) => Ok(ids),
        Err(Refused::NoMemory) => Err(Refused::NoMemory),
        Err(Refused::No(fault)) => Err(Refused::No(RecordCause::Commit(fault))),
    }
}

/// Judges what a block spends and makes by the coins of the chain below it, and puts the coins after it. Answers the
/// scripts that it spends.
pub fn judge_coins(
    alloc: Global,
    coins: &mut Coins,
    block: &Block,
    txids: &[Hash32],
) -> Result<Spent, Refused<RecordCause>>
    requires block { IsBlock block.now }
    requires hashes { AreTxids txids.now block.now.txs }
    ensures exact { FindsCause (in_coins (spend_txs coins.old block.now.txs)) result }
    ensures after { OnOk result (coins.new ≡ after_block coins.old block.now) }
    ensures spent { IfOk result (λ scripts. scripts ≡ prevouts coins.old block.now) }
{
    match spend_block(alloc, coins, block, txids) {
        Ok(spent) => Ok(spent),
        Err(Refused::NoMemory) => Err(Refused::NoMemory),
        Err(Refused::No(fault)) => Err(Refused::No(RecordCause::Coins(fault))),
    }
}

/// Judges what a block spends and makes by coins that stay as they are.
pub fn judge_by(
    alloc: Global,
    coins: &Coins,
    block: &Block,
    txids: &[Hash32],
) -> Result<(), Refused<RecordCause>>
    requires block { IsBlock block.now }
    requires hashes { AreTxids txids.now block.now.txs }
    ensures { FindsCause (in_coins (spend_txs coins.now block.now.txs)) result }
{
    match check_block(alloc, coins, block, txids) {
        Ok(()) => Ok(()),
        Err(Refused::NoMemory) => Err(Refused::NoMemory),
        Err(Refused::No(fault)) => Err(Refused::No(RecordCause::Coins(fault))),
    }
}

/// Judges a block's header, its height and its commitment, where it is to stand above so many blocks, on a header with
/// this hash and after these times. Answers the hashes of the transactions.
pub fn judge_before_coins(
    alloc: Global,
    tip: &Hash32,
    past: &Past,
    height: usize,
    block: &Block,
    hash: &Hash32,
) -> Result<TxIds, Refused<RecordCause>>
    requires { hash.now.0 ≡ block_hash_of block.now.header }
    ensures exact { FindsCause (cause_before_coins tip.now.0 past.now height block.now) result }
    ensures hashes { IfOk result (λ ids. AreTxids ids block.now.txs) }
{
    match judge_header(tip, past, &block.header, hash) {
        Ok(()) => {}
        Err(e) => return Err(e),
    }
    match judge_height(height) {
        Ok(()) => {}
        Err(e) => return Err(e),
    }
    judge_commitment(alloc, block)
}

/// What the check finds of a block: the hashes of its transactions, and the scripts that it spends.
#[derive(Drop)]
pub struct Found {
    pub txids: TxIds,
    pub spent: Spent,
}
