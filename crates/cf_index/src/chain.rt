//! Blocks that are put on a good chain one by one.
ghost use Rattle.std.specs.Prelude.{◌≡◌, ◌++◌, ◌∷◌, [], IfOk, OnOk};
ghost use Rattle.cf_block.specs.{IsBlock, AreTxids, block_hash_of};
ghost use Rattle.cf_chain.specs.{after_block, prevouts};
ghost use Rattle.cf_walk.specs.{cause_on, FindsCause};
ghost use Rattle.cf_index.specs.Progress.{Keeps};

use cf_block::{Block, TxIds, block_hash, genesis_header};
use cf_bytes::{Hash32, Listed, Refused};
use cf_coins::{Coins, Spent};
use cf_headers::Past;
use cf_walk::{Found, RecordCause, judge_before_coins, judge_coins};
use std::alloc::Global;

// The blocks of a chain above genesis, the lowest first.
pub(crate) type Blocks = Listed<Block>;

// A good chain: its blocks, of each the hash, those of its transactions and the scripts that it spends, and what the
// next one is judged by: the hash of the highest header, the times that count for the next one, and the coins.
#[derive(Drop)]
pub(crate) struct Chain {
    pub(crate) blocks: Blocks,
    pub(crate) hashes: Listed<Hash32>,
    pub(crate) txids: Listed<TxIds>,
    pub(crate) spent: Listed<Spent>,
    pub(crate) tip: Hash32,
    pub(crate) past: Past,
    pub(crate) coins: Coins,
}

// The chain of genesis alone.
pub(crate) fn new_chain(alloc: Global) -> Chain
    ensures kept { Keeps result }
    ensures none { result.blocks ≡ [] }
{
    Chain {
        blocks: Listed::new(alloc),
        hashes: Listed::new(alloc),
        txids: Listed::new(alloc),
        spent: Listed::new(alloc),
        tip: block_hash(&genesis_header()),
        past: Past::of_genesis(),
        coins: Coins::new(alloc),
    }
}

// Judges a block against the chain that it is to stand on, and puts the chain's coins after it.
#[tactic(auto, using(crate::proofs::Judging::judged_so))]
fn judge(
    alloc: Global,
    chain: &mut Chain,
    block: &Block,
    hash: &Hash32,
) -> Result<Found, Refused<RecordCause>>
    requires kept { Keeps chain.old }
    requires block { IsBlock block.now }
    requires hash { hash.now.0 ≡ block_hash_of block.now.header }
    ensures exact { FindsCause (cause_on chain.old.blocks block.now) result }
    ensures coins { OnOk result (chain.new.coins ≡ after_block chain.old.coins block.now) }
    ensures hashed { IfOk result (λ found. AreTxids found.txids block.now.txs) }
    ensures spent { IfOk result (λ found. found.spent ≡ prevouts chain.old.coins block.now) }
    ensures blocks { chain.new.blocks ≡ chain.old.blocks }
    ensures hashes { chain.new.hashes ≡ chain.old.hashes }
    ensures past { chain.new.past ≡ chain.old.past }
    ensures txids { chain.new.txids ≡ chain.old.txids }
    ensures others { chain.new.spent ≡ chain.old.spent }
{
    let txids = match judge_before_coins(
        alloc,
        &chain.tip,
        &chain.past,
        chain.blocks.len(),
        block,
        hash,
    ) {
        Ok(txids) => txids,
        Err(e) => return Err(e),
    };
    match judge_coins(alloc, &mut chain.coins, block, txids.as_slice()) {
        Ok(spent) => Ok(Found { txids, spent }),
        Err(e) => Err(e),
    }
}

// Puts a block on the chain, or answers why it may not stand there. Its header and each transaction are hashed once.
pub(crate) fn put_on_chain(
    alloc: Global,
    chain: Chain,
    block: Block,
) -> Result<Chain, Refused<RecordCause>>
    requires kept { Keeps chain }
    requires block { IsBlock block }
    ensures exact { FindsCause (cause_on chain.blocks block) result }
    ensures kept { IfOk result (λ longer. Keeps longer) }
    ensures more { IfOk result (λ longer. longer.blocks ≡ chain.blocks ++ block ∷ []) }
{
    let mut chain = chain;
    let hash = block_hash(&block.header);
    let time = block.header.time;
    let found = match judge(alloc, &mut chain, &block, &hash) {
        Ok(found) => found,
        Err(e) => return Err(e),
    };
    chain.blocks.push(block)?;
    chain.hashes.push(hash)?;
    chain.txids.push(found.txids)?;
    chain.spent.push(found.spent)?;
    chain.tip = hash;
    chain.past.push(time);
    Ok(chain)
}
