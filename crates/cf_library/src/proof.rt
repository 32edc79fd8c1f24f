//! A proof that a block has a transaction (BIP 37).
use cf_block::{parse_block, parse_tx};
use cf_bytes::{Cut, Hash32};
use cf_proof::{check_proof, make_proof};
use std::alloc::Global;

/// The most transactions of a block.
const MOST_TXS: usize = 16_666;

/// The proof of the transaction at this place of a block, from 0, or `None` where there is none.
pub(crate) fn proof_at(alloc: Global, bytes: &[u8], place: u32) -> Option<Vec<u8>> {
    let block = parse_block(alloc, bytes).ok()?;
    if block.txs.len() > MOST_TXS || place as usize >= block.txs.len() {
        return None;
    }
    make_proof(alloc, &block, place).ok()
}

/// The hash of the block that a proof names for a transaction, or `None` where it proves nothing of it.
pub(crate) fn block_of(alloc: Global, proof: &[u8], tx: &[u8]) -> Option<Hash32> {
    let tx = parse_tx(alloc, &mut Cut::new(tx)).ok()?;
    check_proof(alloc, proof, &tx).ok()
}
