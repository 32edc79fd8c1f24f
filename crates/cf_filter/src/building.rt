//! Building a filter.
ghost use Rattle.std.specs.Prelude.{◌≡◌, ◌≤◌, length, IfOk};
ghost use Rattle.cf_filter.specs.Filter.{basic_filter_of};

use crate::key::values;
use crate::set::Items;
use cf_bytes::{Hash32, NoMemory};
use cf_golomb::encode;
use std::alloc::Global;

/// The basic filter of a block's items: the code of their values in ascending order, equal ones too
/// (BIP 158, "Construction"). The key is in the first 16 bytes of the block's hash in wire order. The
/// value of an item of N is its hash times N * 784,931, divided by 2^64. Without items it is one
/// byte, 0.
#[tactic(auto, unfolding(crate::specs::Filter::basic_filter_of))]
pub fn build(alloc: Global, block_hash: &Hash32, items: &Items) -> Result<Vec<u8>, NoMemory>
    requires { length items.now ≤ 33554432 }
    ensures { IfOk result (λ filter. filter.items ≡ basic_filter_of block_hash.now.0 items.now) }
{
    let mut values = values(alloc, block_hash, items.as_slice())?;
    values.sort_unstable();
    encode(alloc, &values)
}
