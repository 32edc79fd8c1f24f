//! Files of blocks.
ghost use Rattle.std.specs.Prelude.{◌≡◌, ◌≤◌, ◌+◌, [], zero, suc, length, IfOk};
ghost use Rattle.cf_chain.specs.{IsGoodChain};
ghost use Rattle.cf_headers.specs.{height_limit};
ghost use Rattle.cf_walk.specs.{IsGoodFile, StopsAt, IsBadFile, IfBad, next_at, blocks_from, blocks_at, Answers, HasRecord, IsRecordsOf};
ghost use Rattle.cf_index.specs.Progress.{Keeps, GivesNext};

use crate::chain::{Blocks, Chain, new_chain, put_on_chain};
use crate::checked::CheckedChain;
use cf_bytes::{Cut, Refused};
use cf_walk::{BadBlock, RecordCause, after_genesis, block_of, is_end, take_record};
use std::alloc::Global;

// Puts the block of the record that stands here on the chain.
#[tactic(auto, unfolding(cf_walk::specs::Files::next_at))]
fn take_next(alloc: Global, chain: Chain, cut: &mut Cut) -> Result<Chain, Refused<RecordCause>>
    requires { Keeps chain }
    ensures exact { GivesNext (next_at chain.blocks cut.old) result cut.new }
    ensures kept { IfOk result (λ longer. Keeps longer) }
    ensures found { IfOk result (λ longer. HasRecord chain.blocks longer.blocks cut.old cut.new) }
{
    match take_record(cut) {
        Err(cause) => Err(Refused::No(cause)),
        Ok(text) => match block_of(alloc, text) {
            Err(e) => Err(e),
            Ok(block) => put_on_chain(alloc, chain, block),
        },
    }
}

// The number of the record after those of these blocks, where so many stand before them.
fn number_after(before: u32, blocks: &Blocks) -> u32
    requires few { before ≤ 1 }
    requires low { length blocks.now ≤ height_limit }
    ensures { result ≡ suc (before + length blocks.now) }
{
    before + blocks.len() as u32 + 1
}

// The chain of the records that stand here, after so many others.
fn read_records(alloc: Global, before: u32, bytes: &[u8]) -> Result<CheckedChain, Refused<BadBlock>>
    requires { before ≤ 1 }
    ensures exact { Answers (blocks_from before zero [] bytes.now) result }
    ensures good { IfOk result (λ blocks. IsGoodChain blocks) }
    ensures found { IfOk result (λ blocks. IsRecordsOf bytes.now blocks) }
    ensures bad { IfBad result (λ bad. StopsAt bytes.now before bad) }
{
    let mut cut = Cut::new(bytes);
    let mut chain = new_chain(alloc);
    while !is_end(cut.rest()) {
        let number = number_after(before, &chain.blocks);
        match take_next(alloc, chain, &mut cut) {
            Ok(longer) => chain = longer,
            Err(Refused::NoMemory) => return Err(Refused::NoMemory),
            Err(Refused::No(cause)) => return Err(Refused::No(BadBlock { number, cause })),
        }
    }
    Ok(CheckedChain::of(chain))
}

/// The chain of the blocks of a file, each of which is read, hashed and judged once. The file is a run of records, each
/// of regtest's magic fa bf b5 da (hexadecimal), the block's length in 4 bytes, the low byte first, and the block,
/// whose transactions may stand with witnesses (BIP 144, "Serialization"), which aren't kept; the genesis block's may
/// stand first, and zeros alone may stand at the end. A record's block has at most 4,000,000 bytes, and without
/// witnesses at most 1,000,000.
///
/// # Errors
///
/// The first record that is no record, or whose block may not stand on those before it, with the first rule that it
/// breaks, in the order of `RecordCause`.
#[tactic(auto, unfolding(cf_walk::specs::Files::blocks_at))]
pub fn read_chain(alloc: Global, bytes: &[u8]) -> Result<CheckedChain, Refused<BadBlock>>
    ensures exact { Answers (blocks_at bytes.now) result }
    ensures found { IfOk result (λ blocks. IsGoodFile bytes.now blocks) }
    ensures bad { IfBad result (λ bad. IsBadFile bytes.now bad) }
{
    match after_genesis(alloc, bytes)? {
        Some(rest) => read_records(alloc, 1, rest),
        None => read_records(alloc, 0, bytes),
    }
}
