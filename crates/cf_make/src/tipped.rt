//! One made block, and what the block above it needs.
ghost use Rattle.std.specs.Prelude.{◌≡◌, ◌≤◌, ◌<◌, ◌+◌, ◌*◌, pos, Some, IfOk, length, map};
ghost use Rattle.cf_block.specs.{tx_spelling, merkle_root_of, txids as txids_of};
ghost use Rattle.cf_headers.specs.{height_limit};
ghost use Rattle.cf_make.specs.Made.{seed_limit, first_coin};
ghost use Rattle.cf_make.specs.Tipping.{MinesHashed, MakesTipped};

use crate::mining::NoNonce;
use crate::spending::make_txs;
use cf_block::{Block, Header, OutPoint, Tx, block_hash, merkle_root, txids};
use cf_bytes::{Hash32, NoMemory, Refused};
use cf_headers::meets_target;
use std::alloc::Global;
use thiserror::Error;

/// The height at which no nonce was found.
#[derive(Clone, Copy, Debug, PartialEq, Eq, Error)]
#[error("{cause}, at height {height}")]
pub struct AtHeight {
    pub height: u32,
    pub cause: NoNonce,
}

// What a block needs of the one below: its hash, and the first output of its coinbase, which genesis has none of.
#[derive(Clone, Copy)]
pub(crate) struct Tip {
    pub(crate) hash: Hash32,
    pub(crate) coin: Option<OutPoint>,
}

// The nonces that are tried for a block.
const TRIES: u32 = 65_536;

// The time of genesis, in seconds since 1970.
const GENESIS_TIME: u32 = 1_296_688_602;

// A mined header and its hash.
#[derive(Clone, Copy)]
struct Hashed {
    header: Header,
    hash: Hash32,
}

// What a header and the block above need of a block's transactions: their root, and the first output of the first.
#[derive(Clone, Copy)]
struct Named {
    root: Hash32,
    coin: OutPoint,
}

// A made block, and what the block above needs of it.
#[derive(Drop)]
pub(crate) struct Tipped {
    pub(crate) block: Block,
    pub(crate) tip: Tip,
}

// The header of a block at a height, before its nonce is sought: 600 seconds a block, from genesis's time on.
fn unmined(height: u32, previous: Hash32, root: Hash32) -> Header
    requires { height ≤ height_limit }
    ensures { result ≡ record {
      version = pos 4;
      previous = previous;
      root = root;
      time = 1296688602 + 600 * height;
      bits = 0x207fffff;
      nonce = 0;
    } }
{
    Header {
        version: 4,
        previous,
        root,
        time: GENESIS_TIME + 600 * height,
        bits: 0x207fffff,
        nonce: 0,
    }
}

// The header with the least nonce from 0 whose hash meets the target, with that hash.
fn mine_hashed(header: &Header, tries: u32) -> Result<Hashed, NoNonce>
    ensures { MinesHashed header.now tries result }
{
    for nonce in 0..tries {
        let mined = Header { nonce, ..*header };
        let hash = block_hash(&mined);
        if meets_target(&hash) {
            return Ok(Hashed {
                header: mined,
                hash,
            });
        }
    }
    Err(NoNonce)
}

// The transactions' root and their first coin; each is hashed once.
fn name_txs(alloc: Global, txs: &[Tx]) -> Result<Named, NoMemory>
    requires { 0 < length txs.now }
    ensures root { IfOk result (λ n. n.root.0 ≡ merkle_root_of (txids_of (map tx_spelling txs.now))) }
    ensures coin { IfOk result (λ n. Some n.coin ≡ first_coin txs.now) }
{
    let mut ids = txids(alloc, txs)?.into_vec();
    let txid = ids[0];
    let root = merkle_root(ids.as_mut_slice());
    Ok(Named {
        root,
        coin: OutPoint { txid, index: 0 },
    })
}

// The block that the seed tells at a height, above the tip.
pub(crate) fn make_tipped(
    alloc: Global,
    seed: u64,
    height: u32,
    tip: Tip,
) -> Result<Tipped, Refused<AtHeight>>
    requires seeds { seed < seed_limit }
    requires heights { height ≤ height_limit }
    ensures { MakesTipped seed height tip result }
{
    let txs = make_txs(alloc, seed, height, tip.coin)?;
    let named = name_txs(alloc, txs.as_slice())?;
    let header = unmined(height, tip.hash, named.root);
    match mine_hashed(&header, TRIES) {
        Ok(mined) => Ok(Tipped {
            block: Block {
                header: mined.header,
                txs,
            },
            tip: Tip {
                hash: mined.hash,
                coin: Some(named.coin),
            },
        }),
        Err(cause) => Err(Refused::No(AtHeight { height, cause })),
    }
}
