//! The basic filters of a chain's blocks.
ghost use Rattle.std.specs.Prelude.{◌≡◌, ◌≤◌, ◌<◌, ◌+◌, ◌∷◌, List, ℕ, map, length, flat_map, IfOk};
ghost use Rattle.std.specs.Thread.{IsSync};
ghost use Rattle.std.specs.List.{AllZip};
ghost use Rattle.rayon.specs.Numbers.{nat_range};
ghost use Rattle.cf_block.specs.declared.tx.Block.{Block as BlockOf};
ghost use Rattle.cf_block.specs.{block_hash_of};
ghost use Rattle.cf_chain.specs.{filtered, first_filtered, filters_of};
ghost use Rattle.cf_filter.specs.{paid_scripts};
ghost use Rattle.cf_index.specs.Bare.{AreKept, GoOn, IsBare, IsBareAt};
ghost use Rattle.cf_index.specs.Filtering.{shown};

use crate::block_filter::{BareFilter, BlockFilter};
use crate::shared::SharedFilter;
use cf_block::{Block, Script, block_hash, genesis};
use cf_bytes::{Hash32, Listed, NoMemory};
use cf_coins::Spent;
use cf_filter::{build, filter_hash, filter_header, items};
use rayon::prelude::*;
use std::alloc::Global;
use std::thread::{Threads, join};

// The filters of so many blocks are built at once, while the headers of as many before them are found.
const BLOCKS_AT_ONCE: usize = 16_384;

// The filter of a block of this hash, which spends these scripts.
pub(crate) fn bare_filter(
    alloc: Global,
    block: &Block,
    name: &Hash32,
    spent: &[Script],
) -> Result<BareFilter, NoMemory>
    requires name { name.now.0 ≡ block_hash_of block.now.header }
    requires few { length (flat_map paid_scripts block.now.txs) + length spent.now ≤ 33554432 }
    ensures { IfOk result (IsBare spent.now block.now) }
{
    let items = items(alloc, block, spent)?;
    let filter = build(alloc, name, &items)?;
    let hash = filter_hash(&filter);
    let filter = SharedFilter::new(alloc, Listed::from_vec(filter))?;
    Ok(BareFilter {
        block: *name,
        filter,
        hash,
    })
}

// The filter with its header, where this is the filter header before it.
pub(crate) fn with_header(bare: BareFilter, previous: &Hash32) -> BlockFilter
    ensures { (scripts : List (List ℕ)) (b : BlockOf) → IsBare scripts b bare
        → shown result ≡ filtered scripts previous.now.0 b }
{
    let BareFilter {
        block,
        filter,
        hash,
    } = bare;
    BlockFilter {
        block,
        filter,
        hash,
        header: filter_header(&hash, previous),
    }
}

// The filter of genesis, before which there is no filter header.
fn first_filter(alloc: Global) -> Result<BlockFilter, NoMemory>
    ensures { IfOk result (λ f. shown f ≡ first_filtered) }
{
    let block = genesis(alloc)?;
    let name = block_hash(&block.header);
    let bare = bare_filter(alloc, &block, &name, &[])?;
    Ok(with_header(bare, &Hash32([0; 32])))
}

// The filter of the block at this place, from 0.
fn filter_at(
    alloc: Global,
    blocks: &[Block],
    hashes: &[Hash32],
    spent: &[Spent],
    i: usize,
) -> Result<BareFilter, NoMemory>
    requires kept { AreKept blocks.now hashes.now spent.now }
    requires within { i < length blocks.now }
    ensures { IfOk result (IsBareAt blocks.now spent.now i) }
{
    bare_filter(alloc, &blocks[i], &hashes[i], spent[i].as_slice())
}

// The filters of the blocks from one place up to another, which threads of their own build.
fn filters_between(
    rt: &(impl Threads + Sync),
    alloc: Global,
    blocks: &[Block],
    hashes: &[Hash32],
    spent: &[Spent],
    from: usize,
    to: usize,
) -> Result<Vec<BareFilter>, NoMemory>
    requires kept { AreKept blocks.now hashes.now spent.now }
    requires within { to ≤ length blocks.now }
    ensures { IfOk result (λ all. AllZip (IsBareAt blocks.now spent.now) (nat_range from to) all.items) }
{
    let all: Result<Vec<BareFilter>, NoMemory> = (from..to)
        .into_par_iter()
        .map(
            |i: usize| -> Result<BareFilter, NoMemory>
                requires kept { AreKept blocks.now hashes.now spent.now }
                requires within { i < length blocks.now }
                ensures { IfOk result (IsBareAt blocks.entry.now spent.entry.now i) }
            { filter_at(alloc, blocks, hashes, spent, i) },
        )
        .collect(rt, alloc)?;
    all
}

/// The filters of the blocks of a chain above genesis, the lowest first, before their headers are known. As many
/// threads build them as there are processors.
pub(crate) fn bare_filters(
    rt: &(impl Threads + Sync),
    alloc: Global,
    blocks: &[Block],
    hashes: &[Hash32],
    spent: &[Spent],
) -> Result<Listed<BareFilter>, NoMemory>
    requires kept { AreKept blocks.now hashes.now spent.now }
    ensures names { IfOk result
        (λ list. first_filtered.block ∷ map (λ f. f.block.0) list ≡ map (λ f. f.block) (filters_of blocks.now)) }
    ensures filters { IfOk result
        (λ list. first_filtered.filter ∷ map (λ f. f.filter) list ≡ map (λ f. f.filter) (filters_of blocks.now)) }
{
    let all = filters_between(rt, alloc, blocks, hashes, spent, 0, blocks.len())?;
    Ok(Listed::from_vec(all))
}

// The first filters of a chain, with their headers, and the last one's header.
#[derive(Drop)]
struct Headed {
    filters: Vec<BlockFilter>,
    last: Hash32,
}

// These filters and the next ones behind them, whose headers are found one after the other.
fn with_headers(headed: Headed, bare: Vec<BareFilter>) -> Result<Headed, NoMemory>
    ensures { IfOk result
        (λ longer. GoOn headed.filters.items headed.last.0 bare.items longer.filters.items longer.last.0) }
{
    let Headed {
        mut filters,
        mut last,
    } = headed;
    for each in bare {
        let filter = with_header(each, &last);
        last = filter.header;
        filters.push(filter)?;
    }
    Ok(Headed { filters, last })
}

// Builds the filters of the blocks from one place up to another, while the headers of those built before them are
// found.
fn build_beside<R: Threads + Sync>(
    rt: &R,
    alloc: Global,
    blocks: &[Block],
    hashes: &[Hash32],
    spent: &[Spent],
    from: usize,
    to: usize,
    headed: Headed,
    bare: Vec<BareFilter>,
) -> Result<(Headed, Vec<BareFilter>), NoMemory>
    requires kept { AreKept blocks.now hashes.now spent.now }
    requires within { to ≤ length blocks.now }
    ensures headed { IfOk result
        (λ both. GoOn headed.filters.items headed.last.0 bare.items both.0.filters.items both.0.last.0) }
    ensures built { IfOk result (λ both. AllZip (IsBareAt blocks.now spent.now) (nat_range from to) both.1.items) }
{
    let (longer, built) = join(
        rt,
        move || -> Result<Headed, NoMemory>
            ensures { IfOk result
                (λ longer. GoOn headed.filters.items headed.last.0 bare.items longer.filters.items longer.last.0) }
        { with_headers(headed, bare) },
        move || -> Result<Vec<BareFilter>, NoMemory>
            requires { IsSync R.row × AreKept blocks.now hashes.now spent.now × (to ≤ length blocks.now) }
            ensures { IfOk result
                (λ all. AllZip (IsBareAt blocks.entry.now spent.entry.now) (nat_range from to) all.items) }
        { filters_between(rt, alloc, blocks, hashes, spent, from, to) },
    );
    Ok((longer?, built?))
}

/// The filters of genesis and of each block of a chain, in the order of their heights, from 0. As many threads build
/// them as there are processors. Each filter's header is found after the one before it, while the filters of the blocks
/// after it are built.
pub(crate) fn all_filters(
    rt: &(impl Threads + Sync),
    alloc: Global,
    blocks: &[Block],
    hashes: &[Hash32],
    spent: &[Spent],
) -> Result<Listed<BlockFilter>, NoMemory>
    requires kept { AreKept blocks.now hashes.now spent.now }
    ensures { IfOk result (λ list. map shown list ≡ filters_of blocks.now) }
{
    let first = first_filter(alloc)?;
    let last = first.header;
    let mut filters = Vec::with_capacity(alloc, blocks.len() + 1)?;
    filters.push(first)?;
    let mut headed = Headed { filters, last };
    let mut bare = Vec::new(alloc);
    let mut count = 0;
    while count < blocks.len() {
        let next = count + (blocks.len() - count).min(BLOCKS_AT_ONCE);
        let (longer, built) = build_beside(
            rt, alloc, blocks, hashes, spent, count, next, headed, bare,
        )?;
        headed = longer;
        bare = built;
        count = next;
    }
    let all = with_headers(headed, bare)?;
    Ok(Listed::from_vec(all.filters))
}
