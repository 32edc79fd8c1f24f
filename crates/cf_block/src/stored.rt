//! The reader of blocks as files keep them, with witnesses or without.
ghost use Rattle.std.specs.Prelude.{◌≡◌, false, [], IfOk, length};
ghost use Rattle.std.specs.List.{AllByRecursion};
ghost use Rattle.cf_bytes.specs.{Reads, Gives, bytes_at, compact_at, list_at};
ghost use Rattle.cf_block.specs.Tx.{IsTx, IsBlock};
ghost use Rattle.cf_block.specs.Reading.{of_cut, script_at, GivesAll};
ghost use Rattle.cf_block.specs.Stored.{is_extended, stack_at, witness_at, extended_at, stored_tx_at, stored_fields_at, stored_block_at, IsStored, skip, seen_stack_at, seen_item};

use crate::fault::{BlockFault, BlockFaultKind};
use crate::parse::{
    LEAST_TX, MAX_BLOCK, place, read_count, read_counted, read_header, read_inputs, read_outputs,
    read_tx, read_u32, read_version, room,
};
use crate::size::block_size;
use crate::tx::{Block, Tx, Txs};
use cf_bytes::{Cut, Refused, read_list};
use std::alloc::Global;

// Whether the transaction that stands here is in the form with witnesses.
fn has_marker(bytes: &[u8]) -> bool
    ensures { result ≡ is_extended bytes.now }
{
    match bytes {
        [_, _, _, _, 0, 1, ..] => true,
        _ => false,
    }
}

// Passes over a stack's items.
#[tactic(auto, using(crate::proofs::Passing::passes))]
fn pass_items(count: u64, cut: &mut Cut) -> Result<(), BlockFaultKind>
    ensures { Reads (λ x. x) (skip (list_at script_at count cut.old)) result cut.new }
{
    for _ in 0..count {
        read_counted(cut)?;
    }
    Ok(())
}

fn read_size(cut: &mut Cut) -> Result<u64, BlockFaultKind>
    ensures { Reads (λ n. n) (of_cut (compact_at cut.old)) result cut.new }
{
    Ok(cut.compact()?)
}

// Passes over a stack, and tells whether it has an item.
#[tactic(auto, unfolding(crate::specs::Stored::seen_stack_at))]
fn pass_stack(cut: &mut Cut) -> Result<bool, BlockFaultKind>
    ensures { Reads (λ some. some) (seen_stack_at cut.old) result cut.new }
{
    let count = read_size(cut)?;
    pass_items(count, cut)?;
    Ok(count > 0)
}

// Passes over so many stacks, and tells whether one has an item.
#[tactic(auto, using(crate::proofs::Passing::sees))]
fn pass_stacks(count: u64, cut: &mut Cut) -> Result<bool, BlockFaultKind>
    ensures { Reads (λ some. some) (seen_item false (list_at stack_at count cut.old)) result cut.new }
{
    let mut some = false;
    for _ in 0..count {
        some |= pass_stack(cut)?;
    }
    Ok(some)
}

// Passes over the stacks of so many inputs, which may not all be empty.
#[tactic(auto, using(crate::proofs::Passing::witnesses))]
fn pass_witness(count: u64, cut: &mut Cut) -> Result<(), BlockFaultKind>
    ensures { Reads (λ x. x) (skip (witness_at count cut.old)) result cut.new }
{
    let start = cut.rest();
    if !pass_stacks(count, cut)? {
        *cut = Cut::new(start);
        return Err(BlockFaultKind::EmptyWitness);
    }
    Ok(())
}

// Passes over the zero byte and the one.
fn pass_marker(cut: &mut Cut) -> Result<(), BlockFaultKind>
    ensures { Reads (λ x. x) (skip (of_cut (bytes_at 2 cut.old))) result cut.new }
{
    cut.bytes(2)?;
    Ok(())
}

// Takes the bytes before the field that is refused.
#[tactic(auto, unfolding(crate::specs::Stored::extended_at))]
fn read_extended(alloc: Global, cut: &mut Cut) -> Result<Tx, Refused<BlockFaultKind>>
    ensures exact { Gives (λ t. t) (extended_at cut.old) result cut.new }
    ensures fits { IfOk result (λ t. IsTx t) }
{
    let version = read_version(cut)?;
    pass_marker(cut)?;
    let in_count = read_count(BlockFaultKind::NoInput, cut)?;
    let inputs = read_inputs(alloc, in_count, cut)?;
    let count = read_count(BlockFaultKind::NoOutput, cut)?;
    let outputs = read_outputs(alloc, count, cut)?;
    pass_witness(in_count, cut)?;
    let lock_time = read_u32(cut)?;
    Ok(Tx {
        version,
        inputs,
        outputs,
        lock_time,
    })
}

/// The transaction that begins the bytes, in the form with witnesses (BIP 144, "Serialization") or without. The
/// witnesses aren't kept, and they take no memory. The reader then stands behind it, or where a field is refused.
#[tactic(auto, unfolding(crate::specs::Stored::stored_tx_at))]
pub fn read_stored_tx(alloc: Global, cut: &mut Cut) -> Result<Tx, Refused<BlockFaultKind>>
    ensures exact { Gives (λ t. t) (stored_tx_at cut.old) result cut.new }
    ensures fits { IfOk result (λ t. IsTx t) }
{
    if has_marker(cut.rest()) {
        read_extended(alloc, cut)
    } else {
        read_tx(alloc, cut)
    }
}

#[tactic(auto, using(cf_bytes::proofs::ListLoops::all_of))]
fn read_stored_txs(alloc: Global, count: u64, cut: &mut Cut) -> Result<Txs, Refused<BlockFaultKind>>
    ensures exact { Gives (λ x. x) (list_at stored_tx_at count cut.old) result cut.new }
    ensures fits { IfOk result (λ xs. AllByRecursion IsTx xs × (length xs ≡ count)) }
{
    let room = room(count, cut.rest(), LEAST_TX);
    read_list(alloc, room, count, cut, |cut| read_stored_tx(alloc, cut))
}

// Takes the bytes before the field that is refused.
#[tactic(auto, unfolding(crate::specs::Stored::stored_fields_at))]
fn read_stored(alloc: Global, cut: &mut Cut) -> Result<Block, Refused<BlockFaultKind>>
    ensures exact { Gives (λ b. b) (stored_fields_at cut.old) result cut.new }
    ensures none { IfOk result (λ b. cut.new ≡ []) }
    ensures fits { IfOk result (λ b. IsBlock b) }
{
    let start = cut.rest();
    let header = read_header(cut)?;
    let count = read_count(BlockFaultKind::NoTx, cut)?;
    let txs = read_stored_txs(alloc, count, cut)?;
    let block = Block { header, txs };
    if block_size(&block) > MAX_BLOCK as u64 {
        *cut = Cut::new(start);
        return Err(Refused::No(BlockFaultKind::TooLong));
    }
    if !cut.rest().is_empty() {
        return Err(Refused::No(BlockFaultKind::Rest));
    }
    Ok(block)
}

/// The block whose bytes these are in a file, where each transaction may stand in the form with witnesses (BIP 144,
/// "Serialization"). The witnesses aren't kept, and they take no memory. The caller bounds how many bytes there are.
///
/// # Errors
///
/// The first field that is no spelling, with that field's place. A transaction whose witnesses are all empty is refused
/// where they begin. A block whose form without witnesses has more than 1,000,000 bytes is refused at its start, after
/// its last transaction was read and before a byte that follows.
#[tactic(auto, unfolding(crate::specs::Stored::stored_block_at))]
pub fn parse_stored(alloc: Global, b: &[u8]) -> Result<Block, Refused<BlockFault>>
    ensures exact { GivesAll (λ x. x) b.now (stored_block_at b.now) result }
    ensures found { IfOk result (λ x. IsStored b.now x) }
    ensures fits { IfOk result (λ x. IsBlock x) }
{
    let mut cut = Cut::new(b);
    match read_stored(alloc, &mut cut) {
        Ok(block) => Ok(block),
        Err(Refused::NoMemory) => Err(Refused::NoMemory),
        Err(Refused::No(kind)) => Err(Refused::No(BlockFault {
            kind,
            place: place(b, cut.rest()),
        })),
    }
}
