//! The index of a checked chain: its blocks by their heights and their hashes, with their filters.
ghost use Rattle.std.specs.Prelude.{All, None, Some, ◌≡◌, ◌≤◌, ◌<◌, ◌+◌, ◌∷◌, ◌++◌, [], length, OnOk, OnErr, map, IfOk, IfSome, is_none, option_map, option_copied, position, slice_get};
ghost use Rattle.std.specs.FinMap.{get, empty};
ghost use Rattle.std.specs.Thread.{IsSync};
ghost use Rattle.cf_bytes.specs.declared.hash.Hash32.{Hash32};
ghost use Rattle.cf_block.specs.{AreTxids, block_hash_of, IsBlock};
ghost use Rattle.cf_chain.specs.{filter_at, filters_of, after_block, coins_after, IsGoodChain, headers_of, all_blocks, block_height};
ghost use Rattle.cf_headers.specs.{height_limit, past_of, tip_hash, same};
ghost use Rattle.cf_headers.specs.Rules.{fault_after, past_after};
ghost use Rattle.cf_coins.specs.{spend_txs};
ghost use Rattle.cf_filter.specs.{filter_hash_of};
ghost use Rattle.cf_index.specs.Adding.{AreTheirs, last_header};
ghost use Rattle.cf_index.specs.Bare.{AreKept};
ghost use Rattle.cf_index.specs.ByHash.{with_first};
ghost use Rattle.cf_index.specs.Committing.{IsCommitmentOf};
ghost use Rattle.cf_walk.specs.{cause_on, in_coins, FindsCause};
ghost use Rattle.cf_index.specs.Filtering.{shown};
ghost use Rattle.cf_index.specs.HeightMap.{AreHeightsOf, first_hash};

use crate::block_filter::BlockFilter;
use crate::checked::CheckedChain;
use crate::commitment::{Commitment, judge_next};
use crate::filters::{all_filters, bare_filter, with_header};
use crate::heights::{Heights, heights_of};
use crate::shared::{SharedBlock, SharedBlocks, SharedFilter, shared_blocks};
use cf_block::{Block, Header, TxIds, block_hash, genesis, txids};
use cf_bytes::{Hash32, Listed, NoMemory, Refused};
use cf_coins::{Coins, Spent, spend_block};
use cf_headers::{Past, check_on};
use cf_walk::{RecordCause, judge_by};
use std::alloc::Global;
use std::marker::Model;
use std::thread::{Threads, join};

// The filters of a chain's blocks, and beside them the heights of their hashes. The hashes of its transactions are let
// go.
fn filters_and_heights<R: Threads + Sync>(
    rt: &R,
    alloc: Global,
    blocks: &[Block],
    hashes: &[Hash32],
    spent: &[Spent],
    txids: Listed<TxIds>,
) -> Result<(Listed<BlockFilter>, Heights), NoMemory>
    requires { AreKept blocks.now hashes.now spent.now }
    ensures filters { IfOk result (λ both. map shown both.0 ≡ filters_of blocks.now) }
    ensures heights { IfOk result (λ both. AreHeightsOf both.1 blocks.now) }
{
    let (filters, heights) = join(
        rt,
        move || -> Result<Listed<BlockFilter>, NoMemory>
            requires { IsSync R.row × AreKept blocks.now hashes.now spent.now }
            ensures { IfOk result (λ list. map shown list ≡ filters_of blocks.entry.now) }
        { all_filters(rt, alloc, blocks, hashes, spent) },
        move || -> Result<Heights, NoMemory>
            requires { length hashes.now ≤ height_limit }
            ensures { IfOk result (λ heights. (hash : Hash32)
                → get heights hash ≡ position (λ h. same h.0 hash.0) (first_hash ∷ hashes.entry.now)) }
        {
            drop(txids);
            heights_of(alloc, hashes)
        },
    );
    Ok((filters?, heights?))
}

// Puts the outputs of a block of a good chain in, and takes what it spends out.
fn spend_on(alloc: Global, coins: &mut Coins, block: &Block) -> Result<(), NoMemory>
    requires { IsBlock block.now }
    ensures { OnOk result (coins.new ≡ after_block coins.old block.now) }
{
    let ids = txids(alloc, block.txs.as_slice())?;
    match spend_block(alloc, coins, block, ids.as_slice()) {
        Ok(_spent) => Ok(()),
        Err(_fault) => Err(NoMemory),
    }
}

// The coins of a good chain.
fn coins_of(alloc: Global, blocks: &[SharedBlock]) -> Result<Coins, NoMemory>
    requires { All IsBlock blocks.now }
    ensures { IfOk result (λ coins. coins ≡ coins_after empty blocks.now) }
{
    let mut coins = Coins::new(alloc);
    for block in blocks {
        spend_on(alloc, &mut coins, block.block())?;
    }
    Ok(coins)
}

// Takes the coins out, or finds them.
fn take_coins(
    alloc: Global,
    coins: &mut Option<Coins>,
    blocks: &[SharedBlock],
) -> Result<Coins, NoMemory>
    requires { AreTheirs coins.old blocks.now × IsGoodChain blocks.now }
    ensures found { IfOk result (λ all. all ≡ coins_after empty blocks.now) }
    ensures none { coins.new ≡ None }
{
    match coins.take() {
        Some(all) => Ok(all),
        None => coins_of(alloc, blocks),
    }
}

// Judges what a block spends and makes by the coins of a good chain, which are found where they weren't yet, and stay
// as they are.
fn judge_by_kept(
    alloc: Global,
    coins: &mut Option<Coins>,
    blocks: &[SharedBlock],
    block: &Block,
    txids: &[Hash32],
) -> Result<(), Refused<RecordCause>>
    requires chain { AreTheirs coins.old blocks.now × IsGoodChain blocks.now }
    requires block { IsBlock block.now }
    requires hashes { AreTxids txids.now block.now.txs }
    ensures exact { FindsCause (in_coins (spend_txs (coins_after empty blocks.now) block.now.txs)) result }
    ensures theirs { AreTheirs coins.new blocks.now }
{
    let all = take_coins(alloc, coins, blocks)?;
    let judged = judge_by(alloc, &all, block, txids);
    *coins = Some(all);
    judged
}

// Puts a block, its filter and its height at the end. Where no memory is found nothing has changed.
fn put_all(
    blocks: &mut SharedBlocks,
    filters: &mut Listed<BlockFilter>,
    heights: &mut Heights,
    block: SharedBlock,
    filter: BlockFilter,
    hash: Hash32,
) -> Result<(), NoMemory>
    requires { length blocks.old < height_limit }
    ensures blocks { OnOk result (blocks.new ≡ blocks.old ++ block ∷ []) }
    ensures filters { OnOk result (filters.new ≡ filters.old ++ filter ∷ []) }
    ensures heights { OnOk result (heights.new ≡ with_first heights.old hash (length blocks.old + 1)) }
    ensures kept { OnErr result ((blocks.new ≡ blocks.old) × (filters.new ≡ filters.old)
        × (heights.new ≡ heights.old)) }
{
    let below = blocks.len();
    let told = filters.len();
    filters.push(filter)?;
    match blocks.push(block) {
        Ok(()) => {}
        Err(e) => {
            filters.truncate(told);
            return Err(e);
        }
    }
    match heights.add(hash, below as u32 + 1) {
        Ok(()) => Ok(()),
        Err(e) => {
            blocks.truncate(below);
            filters.truncate(told);
            Err(e)
        }
    }
}

// What the next block is judged by, once one with this time was put on and these are the coins after it: they are kept,
// so no later block has the chain read anew for them.
fn go_on(past: &mut Past, kept: &mut Option<Coins>, time: u32, coins: Coins)
    ensures times { past.new ≡ past_after time past.old }
    ensures coins { kept.new ≡ Some coins }
{
    past.push(time);
    *kept = Some(coins);
}

/// A checked chain with its filters, by height and by hash. Contracts see the list of its blocks above genesis, the
/// lowest first.
#[derive(Drop)]
pub struct Index {
    genesis: SharedBlock,
    blocks: SharedBlocks,
    filters: Listed<BlockFilter>,
    heights: Heights,
    // The times that count for the next block.
    past: Past,
    // The coins after the highest block, once a block was put on.
    coins: Option<Coins>,
}

impl Model for Index {
    ghost use Rattle.std.specs.Prelude.{List};
    ghost use Rattle.cf_block.specs.declared.tx.Block.{Block};
    ghost use Rattle.cf_index.specs.Adding.{Awaits};
    ghost use Rattle.cf_index.specs.Indexed.{IsIndexed};

    ghost Value = { List Block };

    ghost view = { λ s. s.blocks };

    ghost invariant = { λ s. IsIndexed s.genesis s.blocks s.filters s.heights × Awaits s.past s.coins s.blocks };
}

impl Index {
    /// The index of a chain that was checked: the filters of its blocks are built, in as many threads as there are
    /// processors, and what the check has kept for them is let go.
    pub fn of(
        rt: &(impl Threads + Sync),
        alloc: Global,
        chain: CheckedChain,
    ) -> Result<Index, NoMemory>
        ensures { IfOk result (λ index. index ≡ chain) }
    {
        let CheckedChain {
            blocks,
            hashes,
            txids,
            spent,
            tip: _,
            past,
        } = chain;
        let first = genesis(alloc)?;
        let genesis = SharedBlock::new(alloc, first)?;
        let (filters, heights) = filters_and_heights(
            rt,
            alloc,
            blocks.as_slice(),
            hashes.as_slice(),
            spent.as_slice(),
            txids,
        )?;
        let blocks = shared_blocks(alloc, blocks)?;
        Ok(Index {
            genesis,
            blocks,
            filters,
            heights,
            past,
            coins: None,
        })
    }

    /// Puts a block on the chain where the chain with it is good. Otherwise nothing has changed, and the cause is
    /// answered. The chain's coins are found by the first call that comes to them, and kept, whether it puts its block
    /// on or not; want of memory may lose them again. `judge`, and `put` then, do the same.
    pub fn add(&mut self, alloc: Global, block: Block) -> Result<(), Refused<RecordCause>>
        requires block { IsBlock block }
        ensures exact { FindsCause (cause_on self.old block) result }
        ensures more { OnOk result (self.new ≡ self.old ++ block ∷ []) }
        ensures kept { OnErr result (self.new ≡ self.old) }
    {
        let txids = match self.judge(alloc, &block, None) {
            Ok(txids) => txids,
            Err(e) => return Err(e),
        };
        match self.put(alloc, block, &txids) {
            Ok(()) => Ok(()),
            Err(NoMemory) => Err(Refused::NoMemory),
        }
    }

    /// Judges whether a block may stand on the chain, which stays as it is. Answers the hashes of its transactions, by
    /// which it is put on then, or the cause. Where the block's commitment was found before, they aren't made again.
    /// The chain's coins are found by the first call that comes to them, and kept.
    pub fn judge(
        &mut self,
        alloc: Global,
        block: &Block,
        commitment: Option<Commitment>,
    ) -> Result<TxIds, Refused<RecordCause>>
        requires block { IsBlock block.now }
        requires commitment { IfSome commitment (IsCommitmentOf block.now) }
        ensures exact { FindsCause (cause_on self.old block.now) result }
        ensures hashes { IfOk result (λ ids. AreTxids ids block.now.txs) }
        ensures same { self.new ≡ self.old }
    {
        let hash = block_hash(&block.header);
        let tip = self.top_hash();
        let height = self.blocks.len();
        let txids = match judge_next(alloc, &tip, &self.past, height, block, &hash, commitment) {
            Ok(txids) => txids,
            Err(e) => return Err(e),
        };
        match judge_by_kept(
            alloc,
            &mut self.coins,
            self.blocks.as_slice(),
            block,
            txids.as_slice(),
        ) {
            Ok(()) => Ok(txids),
            Err(e) => Err(e),
        }
    }

    /// Puts a block on the chain that may stand there, with the hashes of its transactions. Where no memory is found
    /// the chain hasn't changed.
    #[tactic(auto, using(cf_chain::proofs::Bounds::block_few))]
    pub fn put(&mut self, alloc: Global, block: Block, txids: &TxIds) -> Result<(), NoMemory>
        requires block { IsBlock block }
        requires fits { cause_on self.old block ≡ None }
        requires hashes { AreTxids txids.now block.txs }
        ensures more { OnOk result (self.new ≡ self.old ++ block ∷ []) }
        ensures kept { OnErr result (self.new ≡ self.old) }
    {
        let hash = block_hash(&block.header);
        let time = block.header.time;
        let last = self.last_header();
        let mut coins = take_coins(alloc, &mut self.coins, self.blocks.as_slice())?;
        let Ok(spent) = spend_block(alloc, &mut coins, &block, txids.as_slice()) else {
            return Err(NoMemory);
        };
        let bare = bare_filter(alloc, &block, &hash, spent.as_slice())?;
        let filter = with_header(bare, &last);
        let shared = SharedBlock::new(alloc, block)?;
        put_all(
            &mut self.blocks,
            &mut self.filters,
            &mut self.heights,
            shared,
            filter,
            hash,
        )?;
        go_on(&mut self.past, &mut self.coins, time, coins);
        Ok(())
    }

    /// Whether a block's header may stand on the highest one. What else `judge` looks at isn't looked at.
    pub fn is_next(&self, header: &Header) -> bool
        ensures { result
            ≡ is_none (fault_after (tip_hash (headers_of self.now)) (past_of (headers_of self.now)) header.now) }
    {
        let tip = self.top_hash();
        check_on(&tip, self.past.times(), header, &block_hash(header)).is_ok()
    }

    /// Finds the chain's coins, by which `add` judges, so that the first call needn't.
    pub fn find_coins(&mut self, alloc: Global) -> Result<(), NoMemory>
        ensures { self.new ≡ self.old }
    {
        let coins = take_coins(alloc, &mut self.coins, self.blocks.as_slice())?;
        self.coins = Some(coins);
        Ok(())
    }

    // The hash of the highest block.
    fn top_hash(&self) -> Hash32
        ensures { result.0 ≡ tip_hash (headers_of self.now) }
    {
        match self.hash(self.tip()) {
            Some(hash) => hash,
            None => Hash32([0; 32]),
        }
    }

    // The filter header of the highest block.
    fn last_header(&self) -> Hash32
        ensures { result.0 ≡ last_header self.now }
    {
        match self.filter_header(self.tip()) {
            Some(header) => header,
            None => Hash32([0; 32]),
        }
    }

    /// The height of the chain.
    pub fn tip(&self) -> u32
        ensures height { result ≡ length self.now }
        ensures good { IsGoodChain self.now }
    {
        self.blocks.len() as u32
    }

    /// The height of the block with this hash, where there is one. The time is that of a search in a tree.
    pub fn height_of(&self, hash: &Hash32) -> Option<u32>
        ensures { result ≡ block_height hash.now self.now }
    {
        self.heights.height(hash)
    }

    /// The block at a height, genesis at 0, where the chain is as high.
    pub fn block(&self, height: u32) -> Option<&Block>
        ensures { option_copied result ≡ slice_get (all_blocks self.now) height }
    {
        self.shared(height).map(|shared| shared.block())
    }

    /// The same, to be shared.
    pub fn shared(&self, height: u32) -> Option<&SharedBlock>
        ensures { option_copied result ≡ slice_get (all_blocks self.now) height }
    {
        if height == 0 {
            return Some(&self.genesis);
        }
        self.blocks.as_slice().get(height as usize - 1)
    }

    /// Its header.
    pub fn header(&self, height: u32) -> Option<Header>
        ensures { result ≡ option_map (λ b. b.header) (slice_get (all_blocks self.now) height) }
    {
        self.block(height).map(|block| block.header)
    }

    /// Its hash.
    pub fn hash(&self, height: u32) -> Option<Hash32>
        ensures block { result ≡ option_map
            (λ b. record { 0 = block_hash_of b.header }) (slice_get (all_blocks self.now) height) }
        ensures filter { option_map (λ h. h.0) result ≡ option_map (λ f. f.block) (filter_at self.now height) }
    {
        self.filter_of(height).map(|filter| filter.block)
    }

    /// Its basic filter.
    pub fn filter(&self, height: u32) -> Option<&[u8]>
        ensures { option_copied result ≡ option_map (λ f. f.filter) (filter_at self.now height) }
    {
        self.filter_of(height)
            .map(|filter| filter.filter.as_slice())
    }

    /// The same, to be shared.
    pub fn shared_filter(&self, height: u32) -> Option<&SharedFilter>
        ensures { option_copied result ≡ option_map (λ f. f.filter) (filter_at self.now height) }
    {
        self.filter_of(height).map(|filter| &filter.filter)
    }

    /// The hash of its filter.
    pub fn filter_hash(&self, height: u32) -> Option<Hash32>
        ensures { result ≡ option_map (λ f. record { 0 = filter_hash_of f.filter }) (filter_at self.now height) }
    {
        self.filter_of(height).map(|filter| filter.hash)
    }

    /// Its filter header.
    pub fn filter_header(&self, height: u32) -> Option<Hash32>
        ensures { result ≡ option_map (λ f. record { 0 = f.header }) (filter_at self.now height) }
    {
        self.filter_of(height).map(|filter| filter.header)
    }

    // The filter at a height, with its hashes.
    fn filter_of(&self, height: u32) -> Option<&BlockFilter>
        ensures { option_map (λ f. shown f.now) result ≡ filter_at self.now height }
    {
        self.filters.as_slice().get(height as usize)
    }
}
