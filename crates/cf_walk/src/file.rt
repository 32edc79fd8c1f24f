//! What stands in a file of blocks: a block, genesis first, zeros at the end.
ghost use Rattle.std.specs.Prelude.{◌≡◌, IfOk, IfSome, option_map};
ghost use Rattle.cf_block.specs.{first_block, IsStored, stored_block_at, IsBlock, block_spelling};
ghost use Rattle.cf_walk.specs.Files.{HasFirst, all_zeros, in_block, is_first, after_genesis};
ghost use Rattle.cf_walk.specs.Progress.{GivesBlock};

use crate::cause::RecordCause;
use crate::record::take_record;
use cf_block::{Block, genesis, parse_stored, write_block};
use cf_bytes::{Cut, NoMemory, Refused};
use std::alloc::Global;

/// Whether zeros alone are left, or nothing: the end of a file of blocks.
pub fn is_end(bytes: &[u8]) -> bool
    ensures { result ≡ all_zeros bytes.now }
{
    bytes.iter().all(|b| *b == 0)
}

/// The block that these bytes store, with witnesses or without.
pub fn block_of(alloc: Global, text: &[u8]) -> Result<Block, Refused<RecordCause>>
    ensures exact { GivesBlock (in_block (stored_block_at text.now)) result }
    ensures found { IfOk result (λ b. IsStored text.now b) }
    ensures fits { IfOk result (λ b. IsBlock b) }
{
    match parse_stored(alloc, text) {
        Ok(block) => Ok(block),
        Err(Refused::NoMemory) => Err(Refused::NoMemory),
        Err(Refused::No(fault)) => Err(Refused::No(RecordCause::Block(fault.kind))),
    }
}

// The bytes of the genesis block, without witnesses.
fn genesis_text(alloc: Global) -> Result<Vec<u8>, NoMemory>
    ensures { IfOk result (λ text. text.items ≡ block_spelling first_block) }
{
    let block = genesis(alloc)?;
    let mut text = Vec::new(alloc);
    write_block(&block, &mut text)?;
    Ok(text)
}

fn is_genesis(alloc: Global, block: &Block) -> Result<bool, NoMemory>
    ensures { IfOk result (λ is. is ≡ is_first block.now) }
{
    let first = genesis_text(alloc)?;
    let mut text = Vec::new(alloc);
    write_block(block, &mut text)?;
    Ok(text.as_slice() == first.as_slice())
}

/// The bytes after the first record, where it is one of the genesis block.
#[tactic(auto, unfolding(crate::specs::Files::after_genesis, crate::specs::Files::block_here))]
pub fn after_genesis<'a>(alloc: Global, bytes: &'a [u8]) -> Result<Option<&'a [u8]>, NoMemory>
    ensures exact { IfOk result (λ rest. option_map (λ s. s.now) rest ≡ after_genesis bytes.now) }
    ensures found { IfOk result (λ rest. IfSome rest (λ s. HasFirst bytes.now s.now)) }
{
    let mut cut = Cut::new(bytes);
    match take_record(&mut cut) {
        Err(_) => Ok(None),
        Ok(text) => match block_of(alloc, text) {
            Err(Refused::NoMemory) => Err(NoMemory),
            Err(Refused::No(_)) => Ok(None),
            Ok(block) => {
                if is_genesis(alloc, &block)? {
                    return Ok(Some(cut.rest()));
                }
                Ok(None)
            }
        },
    }
}
