//! Proofs of transactions.
use crate::fields::{block_in, bytes_in, digits_of};
use cf_block::{Block, Tx, parse_tx};
use cf_bytes::{Cut, Refused};
use cf_proof::{check_proof, make_proof};
use std::alloc::Global;

// The hash of the header of a proof that passes for this transaction, or its first fault.
fn checked(alloc: Global, proof: &[u8], tx: &Tx) -> Option<String> {
    match check_proof(alloc, proof, tx) {
        Ok(hash) => digits_of(alloc, &hash.0),
        Err(Refused::No(fault)) => format!(in alloc; "{fault:?}").ok(),
        Err(Refused::NoMemory) => None,
    }
}

// The same for the transaction of these bytes.
fn checked_for(alloc: Global, proof: &[u8], tx: &[u8]) -> Option<String> {
    match parse_tx(alloc, &mut Cut::new(tx)) {
        Ok(tx) => checked(alloc, proof, &tx),
        Err(_) => None,
    }
}

/// The hash of the header of a proof that passes for a transaction, or its first fault.
pub(crate) fn answer(alloc: Global, row: &str) -> Option<String> {
    let (proof, tx) = row.split_once(' ')?;
    let proof = bytes_in(alloc, proof)?;
    let tx = bytes_in(alloc, tx)?;
    checked_for(alloc, &proof, &tx)
}

// The proof of the transaction at a place of this block.
fn made_of(alloc: Global, block: &Block, place: u32) -> Option<String> {
    let count = block.txs.len();
    if count > 16_666 || place as usize >= count {
        return None;
    }
    digits_of(alloc, &make_proof(alloc, block, place).ok()?)
}

/// The proof of the transaction at a place of a block.
pub(crate) fn made(alloc: Global, row: &str) -> Option<String> {
    let (block, place) = row.split_once(' ')?;
    let place: u32 = place.parse().ok()?;
    let block = block_in(alloc, block)?;
    made_of(alloc, &block, place)
}
