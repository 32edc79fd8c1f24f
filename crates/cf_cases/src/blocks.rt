//! Transactions, blocks, and levels of hashes.
use crate::fields::{bytes_in, put_hash};
use cf_block::{
    Block, Tx, block_hash, check_commitment, check_commitment_by, genesis, is_mutated, merkle_root,
    parse_block, parse_stored, parse_tx, txid, txids, write_block, write_tx,
};
use cf_bytes::{Cut, Hash32, read_hash, show};
use std::alloc::Global;

// The hash of a transaction that is written as it was read.
fn tx_text(alloc: Global, tx: &Tx, bytes: &[u8]) -> Option<String> {
    let mut again = Vec::new(alloc);
    write_tx(tx, &mut again).ok()?;
    if again.as_slice() != bytes {
        return None;
    }
    show(alloc, &txid(tx)).ok()
}

/// The hash of the transaction of a row, or its fault, and how many bytes are left.
pub(crate) fn tx(alloc: Global, row: &str) -> Option<String> {
    let bytes = bytes_in(alloc, row)?;
    let mut cut = Cut::new(&bytes);
    match parse_tx(alloc, &mut cut) {
        Ok(tx) => {
            let hash = tx_text(alloc, &tx, &bytes)?;
            format!(in alloc; "{hash} {}", cut.rest().len()).ok()
        }
        Err(fault) => format!(in alloc; "{fault:?} {}", cut.rest().len()).ok(),
    }
}

// Whether a block is written as these bytes.
fn is_written_as(alloc: Global, block: &Block, bytes: &[u8]) -> Option<bool> {
    let mut again = Vec::new(alloc);
    write_block(block, &mut again).ok()?;
    Some(again.as_slice() == bytes)
}

// Hashes, as people read them, each after a space.
fn put_hashes(alloc: Global, hashes: &[Hash32], out: &mut String) -> Option<()> {
    for hash in hashes {
        put_hash(alloc, hash, out)?;
    }
    Some(())
}

// What the check of a block comes to, its hash and its transactions' hashes.
fn checked(alloc: Global, block: &Block) -> Option<String> {
    let ids = txids(alloc, block.txs.as_slice()).ok()?;
    let whole = check_commitment(alloc, block);
    if check_commitment_by(alloc, block, ids.as_slice()) != whole {
        return None;
    }
    let mut text = format!(in alloc; "{whole:?}").ok()?;
    put_hash(alloc, &block_hash(&block.header), &mut text)?;
    put_hashes(alloc, ids.as_slice(), &mut text)?;
    Some(text)
}

// The same of bytes, from which a block is read.
fn block_text(alloc: Global, block: &Block, bytes: &[u8]) -> Option<String> {
    if !is_written_as(alloc, block, bytes)? {
        return None;
    }
    checked(alloc, block)
}

// The same of the first block.
fn genesis_text(alloc: Global) -> Option<String> {
    let block = genesis(alloc).ok()?;
    checked(alloc, &block)
}

// The same of bytes, or their fault.
fn read_text(alloc: Global, bytes: &[u8]) -> Option<String> {
    match parse_block(alloc, bytes) {
        Ok(block) => block_text(alloc, &block, bytes),
        Err(fault) => format!(in alloc; "{fault:?}").ok(),
    }
}

/// What the check of the block of a row comes to, its hash and its transactions' hashes; or the block's fault.
/// `genesis` is the first block.
pub(crate) fn block(alloc: Global, row: &str) -> Option<String> {
    if row == "genesis" {
        return genesis_text(alloc);
    }
    let bytes = bytes_in(alloc, row)?;
    read_text(alloc, &bytes)
}

/// The same of the block that the bytes of a row store, with witnesses or without.
pub(crate) fn stored(alloc: Global, row: &str) -> Option<String> {
    let bytes = bytes_in(alloc, row)?;
    match parse_stored(alloc, &bytes) {
        Ok(block) => checked(alloc, &block),
        Err(fault) => format!(in alloc; "{fault:?}").ok(),
    }
}

// The hashes of a row.
fn level_in(alloc: Global, row: &str) -> Option<Vec<Hash32>> {
    let mut level = Vec::new(alloc);
    for digits in row.split(' ') {
        level.push(read_hash(digits)?).ok()?;
    }
    Some(level)
}

fn root_of(alloc: Global, row: &str) -> Option<Hash32> {
    let mut level = level_in(alloc, row)?;
    if level.is_empty() {
        return None;
    }
    Some(merkle_root(&mut level))
}

fn is_doubled(alloc: Global, row: &str) -> Option<bool> {
    let mut level = level_in(alloc, row)?;
    if level.is_empty() {
        return None;
    }
    Some(is_mutated(&mut level))
}

/// The Merkle root of the hashes of a row, and whether the list is doubled.
pub(crate) fn merkle(alloc: Global, row: &str) -> Option<String> {
    let doubled = is_doubled(alloc, row)?;
    let root = show(alloc, &root_of(alloc, row)?).ok()?;
    format!(in alloc; "{root} {doubled}").ok()
}
