//! What a block has.
use cf_block::{block_hash, parse_block, txid};
use cf_bytes::show;
use std::alloc::Global;

/// The hash of a block and the hashes of its transactions, a line each, or `None` where the bytes are no block.
pub(crate) fn hashes_of(alloc: Global, bytes: &[u8]) -> Option<String> {
    let block = parse_block(alloc, bytes).ok()?;
    let mut text = show(alloc, &block_hash(&block.header)).ok()?;
    for tx in block.txs.as_slice() {
        text.push('\n').ok()?;
        text.push_str(&show(alloc, &txid(tx)).ok()?).ok()?;
    }
    Some(text)
}
