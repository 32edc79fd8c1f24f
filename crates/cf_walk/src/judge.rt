//! What the next block of a chain is judged by, where no block is kept.
ghost use Rattle.std.specs.Prelude.{◌≡◌, ◌≤◌, ◌<◌, ◌+◌, ◌++◌, ◌∷◌, [], List, suc, OnOk, IfOk, IfSome};
ghost use Rattle.cf_block.specs.{block_hash_of, IsBlock};
ghost use Rattle.cf_block.specs.declared.tx.Block.{Block};
ghost use Rattle.cf_chain.specs.{after_block, prevouts};
ghost use Rattle.cf_headers.specs.{height_limit};
ghost use Rattle.cf_walk.specs.Judging.{BeginsWith, StandsOn, Walks, after_by, cause_by, next_by, txids_of};
ghost use Rattle.cf_walk.specs.Progress.{FindsCause};

use crate::cause::RecordCause;
use crate::checks::{judge_coins, judge_commitment, judge_header, judge_height};
use crate::file::{block_of, is_end};
use crate::record::take_record;
use cf_block::{Block, TxIds, block_hash, genesis_header};
use cf_bytes::{Cut, Hash32, Listed, Refused};
use cf_coins::{Coins, Spent};
use cf_headers::Past;
use std::alloc::Global;

// What a good chain leaves for the next block: the hash of the highest header, the times that count for the next one,
// the height, and the coins. Beside it, what was found of the highest block: the hashes of its transactions, and the
// scripts that it spends.
#[derive(Drop)]
pub(crate) struct Judge {
    pub(crate) tip: Hash32,
    pub(crate) past: Past,
    pub(crate) height: usize,
    pub(crate) coins: Coins,
    pub(crate) txids: TxIds,
    pub(crate) spent: Spent,
}

// What genesis alone leaves.
pub(crate) fn new_judge(alloc: Global) -> Judge
    ensures { StandsOn result [] }
{
    Judge {
        tip: block_hash(&genesis_header()),
        past: Past::of_genesis(),
        height: 0,
        coins: Coins::new(alloc),
        txids: Listed::new(alloc),
        spent: Listed::new(alloc),
    }
}

// Judges a block, whose header has this hash, against what is kept, and puts the coins after it.
#[tactic(auto, using(crate::proofs::WalkSteps::ids_are))]
fn judge_on(
    alloc: Global,
    judge: &mut Judge,
    block: &Block,
    hash: &Hash32,
) -> Result<(), Refused<RecordCause>>
    requires block { IsBlock block.now }
    requires hash { hash.now.0 ≡ block_hash_of block.now.header }
    ensures exact { FindsCause (cause_by judge.old.tip.0 judge.old.past judge.old.height judge.old.coins block.now)
        result }
    ensures coins { OnOk result (judge.new.coins ≡ after_block judge.old.coins block.now) }
    ensures txids { OnOk result (judge.new.txids ≡ txids_of block.now) }
    ensures spent { OnOk result (judge.new.spent ≡ prevouts judge.old.coins block.now) }
    ensures low { OnOk result (judge.old.height < height_limit) }
    ensures tip { judge.new.tip ≡ judge.old.tip }
    ensures past { judge.new.past ≡ judge.old.past }
    ensures height { judge.new.height ≡ judge.old.height }
{
    match judge_header(&judge.tip, &judge.past, &block.header, hash) {
        Ok(()) => {}
        Err(e) => return Err(e),
    }
    match judge_height(judge.height) {
        Ok(()) => {}
        Err(e) => return Err(e),
    }
    let txids = match judge_commitment(alloc, block) {
        Ok(txids) => txids,
        Err(e) => return Err(e),
    };
    let spent = match judge_coins(alloc, &mut judge.coins, block, txids.as_slice()) {
        Ok(spent) => spent,
        Err(e) => return Err(e),
    };
    judge.txids = txids;
    judge.spent = spent;
    Ok(())
}

// Takes the next block of the records that stand here, where zeros alone don't: it may stand on those before it. No
// block is kept.
#[tactic(auto, using(crate::proofs::WalkSteps::walks), unfolding(crate::specs::Judging::next_by))]
pub(crate) fn walk_on(
    alloc: Global,
    judge: &mut Judge,
    cut: &mut Cut,
) -> Result<Option<Block>, Refused<RecordCause>>
    ensures exact { Walks (next_by judge.old cut.old) cut.old cut.new result }
    ensures after { IfOk result (λ o. IfSome o (λ b. judge.new ≡ after_by judge.old b)) }
    ensures stands { (blocks : List Block) → StandsOn judge.old blocks
        → IfOk result (λ o. IfSome o (λ b. StandsOn judge.new (blocks ++ b ∷ []))) }
    ensures found { IfOk result (λ o. IfSome o (λ b. BeginsWith b cut.old cut.new)) }
    ensures fits { IfOk result (λ o. IfSome o (λ b. IsBlock b)) }
{
    if is_end(cut.rest()) {
        return Ok(None);
    }
    let text = match take_record(cut) {
        Ok(text) => text,
        Err(cause) => return Err(Refused::No(cause)),
    };
    let block = match block_of(alloc, text) {
        Ok(block) => block,
        Err(e) => return Err(e),
    };
    let hash = block_hash(&block.header);
    let time = block.header.time;
    match judge_on(alloc, judge, &block, &hash) {
        Ok(()) => {}
        Err(e) => return Err(e),
    }
    judge.tip = hash;
    judge.past.push(time);
    judge.height += 1;
    Ok(Some(block))
}

// The number of the record of the block above this height, where so many records stand before those of the blocks.
pub(crate) fn number_at(before: u32, height: usize) -> u32
    ensures { before ≤ 1 → height ≤ height_limit → result ≡ suc (before + height) }
{
    u32::try_from(height)
        .unwrap_or(u32::MAX)
        .saturating_add(before)
        .saturating_add(1)
}
