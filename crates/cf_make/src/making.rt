//! The making of chains.
ghost use Rattle.std.specs.Prelude.{◌≡◌, ◌≤◌, ◌<◌, ◌+◌, [], length, take};
ghost use Rattle.cf_headers.specs.{height_limit};
ghost use Rattle.cf_make.specs.Made.{seed_limit, tip_of, genesis_tip, tip_after, first_coin, Extends};

use crate::copying::copy_blocks;
use crate::tipped::{AtHeight, Tip, make_tipped};
use cf_block::{Block, Listed, OutPoint, Tx, block_hash, genesis_header, txid};
use cf_bytes::Refused;
use std::alloc::Global;

/// The blocks of a chain above genesis, the lowest first.
pub type Chain = Listed<Block>;

/// The chain of so many blocks that the seed tells. `NoNonce` comes exactly at the lowest height at which none of the
/// nonces from 0 to 65,535 meets the target. Seeds are below 2 ^ 33, and there are at most 500,000 blocks.
pub fn chain(alloc: Global, seed: u64, blocks: u32) -> Result<Chain, Refused<AtHeight>>
    requires seeds { seed < seed_limit }
    requires heights { blocks ≤ height_limit }
    ensures { Extends [] seed blocks result }
{
    make_on(alloc, Listed::new(alloc), seed, blocks)
}

/// The chain up to a height, and above it so many blocks that the seed tells. `NoNonce` comes as for `chain`. The
/// height is at most the chain's own, seeds are below 2 ^ 33, and no block comes above height 500,000.
pub fn extend(
    alloc: Global,
    chain: &Chain,
    height: u32,
    seed: u64,
    blocks: u32,
) -> Result<Chain, Refused<AtHeight>>
    requires seeds { seed < seed_limit }
    requires stands { height ≤ length chain.now }
    requires heights { height + blocks ≤ height_limit }
    ensures { Extends (take height chain.now) seed blocks result }
{
    let base = copy_blocks(alloc, &chain.as_slice()[..height as usize])?;
    make_on(alloc, base, seed, blocks)
}

fn make_on(alloc: Global, base: Chain, seed: u64, blocks: u32) -> Result<Chain, Refused<AtHeight>>
    requires seeds { seed < seed_limit }
    requires heights { length base + blocks ≤ height_limit }
    ensures { Extends base seed blocks result }
{
    let mut tip = find_tip(base.as_slice());
    let mut height = base.len() as u32;
    let mut whole = base;
    for _ in 0..blocks {
        height += 1;
        let made = make_tipped(alloc, seed, height, tip)?;
        tip = made.tip;
        whole.push(made.block)?;
    }
    Ok(whole)
}

fn find_coin(txs: &[Tx]) -> Option<OutPoint>
    ensures { result ≡ first_coin txs.now }
{
    match txs {
        [coinbase, ..] => Some(OutPoint {
            txid: txid(coinbase),
            index: 0,
        }),
        [] => None,
    }
}

fn block_tip(block: &Block) -> Tip
    ensures { result ≡ tip_of block.now }
{
    Tip {
        hash: block_hash(&block.header),
        coin: find_coin(block.txs.as_slice()),
    }
}

fn find_tip(blocks: &[Block]) -> Tip
    ensures { result ≡ tip_after genesis_tip blocks.now }
{
    match blocks {
        [.., last] => block_tip(last),
        [] => Tip {
            hash: block_hash(&genesis_header()),
            coin: None,
        },
    }
}
