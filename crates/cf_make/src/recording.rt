//! Chains as block files hold them.
ghost use Rattle.std.specs.Prelude.{◌≡◌, ◌++◌, OnOk, IfOk};
ghost use Rattle.cf_make.specs.Records.{record_of, records_of};

use crate::making::Chain;
use cf_block::{Block, block_bytes};
use cf_bytes::{MAGIC, NoMemory};
use std::alloc::Global;

/// The records of a chain's blocks, the lowest first: for each the magic bytes, its length as a little-endian u32, and
/// its bytes. A block of 2 ^ 32 bytes or more, which has no record, is refused as for want of memory.
pub fn records(alloc: Global, chain: &Chain) -> Result<Vec<u8>, NoMemory>
    ensures { IfOk result (λ v. v.items ≡ records_of chain.now) }
{
    let mut out = Vec::new(alloc);
    for block in chain.as_slice() {
        put_record(block, &mut out)?;
    }
    Ok(out)
}

#[tactic(auto, unfolding(crate::specs::Records::record_of))]
fn put_record(block: &Block, out: &mut Vec<u8>) -> Result<(), NoMemory>
    ensures { OnOk result (out.new.items ≡ out.old.items ++ record_of block.now) }
{
    let bytes = block_bytes(*out.allocator(), block)?;
    let Ok(len) = u32::try_from(bytes.len()) else {
        return Err(NoMemory);
    };
    out.extend_from_slice(&MAGIC)?;
    out.extend_from_slice(&len.to_le_bytes())?;
    out.extend_from_slice(&bytes)?;
    Ok(())
}
