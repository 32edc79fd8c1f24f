//! The record of a block.
ghost use Rattle.std.specs.Prelude.{◌≡◌, IfOk};
ghost use Rattle.cf_walk.specs.{record_spelling};

use cf_block::{Block, write_block};
use cf_bytes::{MAGIC, NoMemory};
use std::alloc::Global;

/// The record of a block, as a file of blocks has it: the magic bytes, its length as a little-endian u32, and its bytes.
#[tactic(auto, unfolding(cf_walk::specs::Records::record_spelling))]
pub(crate) fn record_of(alloc: Global, block: &Block) -> Result<Vec<u8>, NoMemory>
    ensures { IfOk result (λ v. v.items ≡ record_spelling block.now) }
{
    let mut text = Vec::new(alloc);
    write_block(block, &mut text)?;
    let Ok(length) = u32::try_from(text.len()) else {
        return Err(NoMemory);
    };
    let mut record = Vec::with_capacity(alloc, text.len().saturating_add(8))?;
    record.extend_from_slice(&MAGIC)?;
    record.extend_from_slice(&length.to_le_bytes())?;
    record.extend_from_slice(&text)?;
    Ok(record)
}
