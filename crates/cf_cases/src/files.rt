//! Files of blocks.
use crate::fields::{bytes_in, digits_of, put_hash, put_word};
use cf_bytes::{Refused, show};
use cf_index::{BareFilter, CheckedChain, Index, read_chain};
use std::alloc::Global;
use std::fmt::Write;
use std::thread::Threads;

// The bytes of a row's fields, joined.
fn joined(alloc: Global, row: &str) -> Option<Vec<u8>> {
    let mut bytes = Vec::new(alloc);
    for field in row.split(' ') {
        bytes.extend_from_slice(&bytes_in(alloc, field)?).ok()?;
    }
    Some(bytes)
}

// Puts the height and the hash of the block at a height behind a text.
fn put_place(alloc: Global, index: &Index, height: u32, out: &mut String) -> Option<()> {
    let hash = index.hash(height)?;
    let place = index.height_of(&hash)?;
    write!(out, "{place}").ok()?;
    put_hash(alloc, &hash, out)
}

// Puts the filter at a height, its hash and its header behind a text.
fn put_filter(alloc: Global, index: &Index, height: u32, out: &mut String) -> Option<()> {
    put_word(&digits_of(alloc, index.filter(height)?)?, out)?;
    put_hash(alloc, &index.filter_hash(height)?, out)?;
    put_hash(alloc, &index.filter_header(height)?, out)
}

// Puts the bits and the number of transactions of the block at a height behind a text.
fn put_block(alloc: Global, index: &Index, height: u32, out: &mut String) -> Option<()> {
    let bits = index.header(height)?.bits;
    let txs = index.block(height)?.txs.len();
    put_word(&format!(in alloc; "{bits:x} {txs}").ok()?, out)
}

// Puts what an index tells of a height on a line of its own.
fn put_height(alloc: Global, index: &Index, height: u32, out: &mut String) -> Option<()> {
    out.push('\n').ok()?;
    put_place(alloc, index, height, out)?;
    put_filter(alloc, index, height, out)?;
    put_block(alloc, index, height, out)
}

fn told<R: Threads + Sync>(rt: &R, alloc: Global, chain: CheckedChain) -> Option<String> {
    let tip = show(alloc, &chain.tip_hash()).ok()?;
    let mut text = format!(in alloc; "{} {tip} {}", chain.tip(), chain.blocks().len()).ok()?;
    let index = Index::of(rt, alloc, chain).ok()?;
    for height in 0..=index.tip() {
        put_height(alloc, &index, height, &mut text)?;
    }
    Some(text)
}

/// What a file of blocks is: its tip, its number of blocks above genesis, and of each block from genesis on the height,
/// the hash, the filter, the filter's hash, the filter header, the bits and the number of transactions; or the first
/// record that is refused, and why.
pub(crate) fn answer<R: Threads + Sync>(rt: &R, alloc: Global, row: &str) -> Option<String> {
    match read_chain(alloc, &joined(alloc, row)?) {
        Ok(chain) => told(rt, alloc, chain),
        Err(Refused::No(bad)) => format!(in alloc; "{bad}").ok(),
        Err(Refused::NoMemory) => None,
    }
}

// Puts what was built of the block at a height on a line of its own.
fn put_bare(alloc: Global, height: usize, bare: &BareFilter, out: &mut String) -> Option<()> {
    out.push_str(&format!(in alloc; "\n{height}").ok()?).ok()?;
    put_hash(alloc, &bare.block, out)?;
    put_word(&digits_of(alloc, bare.filter.as_slice())?, out)?;
    put_hash(alloc, &bare.hash, out)
}

fn built<R: Threads + Sync>(rt: &R, alloc: Global, chain: &CheckedChain) -> Option<String> {
    let filters = chain.basic_filters(rt, alloc).ok()?;
    let mut text = format!(in alloc; "{}", filters.len()).ok()?;
    for (place, bare) in filters.as_slice().iter().enumerate() {
        put_bare(alloc, place.saturating_add(1), bare, &mut text)?;
    }
    Some(text)
}

/// The filters that are built of a good file's blocks above genesis, before their headers are known: how many there
/// are, and of each the height, the block's hash, the filter and its hash.
pub(crate) fn bare<R: Threads + Sync>(rt: &R, alloc: Global, row: &str) -> Option<String> {
    match read_chain(alloc, &joined(alloc, row)?) {
        Ok(chain) => built(rt, alloc, &chain),
        Err(_) => None,
    }
}
