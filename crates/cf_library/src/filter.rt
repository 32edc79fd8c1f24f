//! The basic filter of a block (BIP 158).
use cf_block::{Script, block_hash, parse_block};
use cf_filter::{build, items, matches};
use std::alloc::Global;

/// The most items of a filter that is built.
const MOST_ITEMS: usize = 33_554_432;

/// The basic filter of a block. `spent` has the scripts of the outputs that its inputs spend, in order, but for the
/// coinbase's.
pub(crate) fn filter_of(alloc: Global, bytes: &[u8], spent: &[Script]) -> Option<Vec<u8>> {
    let block = parse_block(alloc, bytes).ok()?;
    let items = items(alloc, &block, spent).ok()?;
    if items.len() > MOST_ITEMS {
        return None;
    }
    build(alloc, &block_hash(&block.header), &items).ok()
}

/// Whether the filter of a block may hold one of these scripts.
pub(crate) fn may_hold(
    alloc: Global,
    bytes: &[u8],
    filter: &[u8],
    scripts: &[Script],
) -> Option<bool> {
    let block = parse_block(alloc, bytes).ok()?;
    let mut scratch = vec![in alloc; 0u64; scripts.len()].ok()?;
    matches(&block_hash(&block.header), filter, scripts, &mut scratch).ok()
}
