//! Made chains: a chain is told as `SEEDxBLOCKS`, or as `SEEDxBLOCKS/HEIGHT/SEEDxBLOCKS`, where other blocks stand
//! above a height.
use crate::fields::digits_of;
use cf_block::{Header, block_hash, genesis_header};
use cf_bytes::Hash32;
use cf_make::{Chain, chain, extend, mine, records};
use std::alloc::Global;

// The seed and the number of blocks.
fn numbers_of(text: &str) -> Option<(u64, u32)> {
    let (seed, blocks) = text.split_once('x')?;
    Some((seed.parse().ok()?, blocks.parse().ok()?))
}

fn made(alloc: Global, text: &str) -> Option<Chain> {
    let (seed, blocks) = numbers_of(text)?;
    if seed > 1000 || blocks > 10_000 {
        return None;
    }
    chain(alloc, seed, blocks).ok()
}

fn extended(alloc: Global, base: &Chain, height: u32, text: &str) -> Option<Chain> {
    let (seed, blocks) = numbers_of(text)?;
    if seed > 1000 || height > 10_000 || blocks > 10_000 || height as usize > base.len() {
        return None;
    }
    extend(alloc, base, height, seed, blocks).ok()
}

/// The chain that a text tells.
pub(crate) fn chain_in(alloc: Global, text: &str) -> Option<Chain> {
    match text.split_once('/') {
        None => made(alloc, text),
        Some((base, rest)) => {
            let (height, above) = rest.split_once('/')?;
            extended(alloc, &made(alloc, base)?, height.parse().ok()?, above)
        }
    }
}

/// The records of the chain of a row, as a file of blocks has them.
pub(crate) fn answer(alloc: Global, row: &str) -> Option<String> {
    let bytes = records(alloc, &chain_in(alloc, row)?).ok()?;
    digits_of(alloc, &bytes)
}

// A header on genesis.
fn second() -> Header {
    Header {
        version: 4,
        previous: block_hash(&genesis_header()),
        root: Hash32([7; 32]),
        time: 1_296_689_202,
        bits: 0x207fffff,
        nonce: 9,
    }
}

/// The nonce that is found for that header in so many tries.
pub(crate) fn mined(alloc: Global, row: &str) -> Option<String> {
    match mine(&second(), row.parse().ok()?) {
        Ok(header) => format!(in alloc; "{}", header.nonce).ok(),
        Err(fault) => format!(in alloc; "{fault:?}").ok(),
    }
}
