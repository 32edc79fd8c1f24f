//! The writers of transactions and blocks.
ghost use Rattle.std.specs.Prelude.{◌≡◌, ◌++◌, IfOk, OnOk, OnErr};
ghost use Rattle.std.specs.List.{flat_map};
ghost use Rattle.cf_bytes.specs.{counted_bytes};
ghost use Rattle.cf_block.specs.Tx.{input_spelling, output_spelling, tx_spelling, block_spelling};

use crate::header::write_header;
use crate::size::{block_room, tx_size};
use crate::tx::{Block, Tx, TxIn, TxOut};
use cf_bytes::{NoMemory, put_compact};
use std::alloc::Global;

pub(crate) fn put_counted(bytes: &[u8], out: &mut Vec<u8>) -> Result<(), NoMemory>
    ensures { OnOk result (out.new.items ≡ out.old.items ++ counted_bytes bytes.now) }
{
    put_compact(out, bytes.len() as u64)?;
    out.extend_from_slice(bytes)?;
    Ok(())
}

#[tactic(auto, unfolding(crate::specs::Tx::input_spelling))]
fn put_input(input: &TxIn, out: &mut Vec<u8>) -> Result<(), NoMemory>
    ensures { OnOk result (out.new.items ≡ out.old.items ++ input_spelling input.now) }
{
    out.extend_from_slice(&input.prev.txid.0)?;
    out.extend_from_slice(&input.prev.index.to_le_bytes())?;
    put_counted(input.script.as_slice(), out)?;
    out.extend_from_slice(&input.sequence.to_le_bytes())?;
    Ok(())
}

#[tactic(auto, unfolding(crate::specs::Tx::output_spelling))]
fn put_output(output: &TxOut, out: &mut Vec<u8>) -> Result<(), NoMemory>
    ensures { OnOk result (out.new.items ≡ out.old.items ++ output_spelling output.now) }
{
    out.extend_from_slice(&output.amount().to_le_bytes())?;
    put_counted(output.script.as_slice(), out)?;
    Ok(())
}

pub(crate) fn put_inputs(inputs: &[TxIn], out: &mut Vec<u8>) -> Result<(), NoMemory>
    ensures { OnOk result (out.new.items ≡ out.old.items ++ flat_map input_spelling inputs.now) }
{
    for input in inputs {
        put_input(input, out)?;
    }
    Ok(())
}

pub(crate) fn put_outputs(outputs: &[TxOut], out: &mut Vec<u8>) -> Result<(), NoMemory>
    ensures { OnOk result (out.new.items ≡ out.old.items ++ flat_map output_spelling outputs.now) }
{
    for output in outputs {
        put_output(output, out)?;
    }
    Ok(())
}

#[tactic(auto, unfolding(crate::specs::Tx::tx_spelling))]
pub(crate) fn put_tx(t: &Tx, out: &mut Vec<u8>) -> Result<(), NoMemory>
    ensures { OnOk result (out.new.items ≡ out.old.items ++ tx_spelling t.now) }
{
    out.extend_from_slice(&t.version.cast_unsigned().to_le_bytes())?;
    put_compact(out, t.inputs.len() as u64)?;
    put_inputs(t.inputs.as_slice(), out)?;
    put_compact(out, t.outputs.len() as u64)?;
    put_outputs(t.outputs.as_slice(), out)?;
    out.extend_from_slice(&t.lock_time.to_le_bytes())?;
    Ok(())
}

fn put_txs(txs: &[Tx], out: &mut Vec<u8>) -> Result<(), NoMemory>
    ensures { OnOk result (out.new.items ≡ out.old.items ++ flat_map tx_spelling txs.now) }
{
    for tx in txs {
        put_tx(tx, out)?;
    }
    Ok(())
}

#[tactic(auto, unfolding(crate::specs::Tx::block_spelling))]
fn put_block(b: &Block, out: &mut Vec<u8>) -> Result<(), NoMemory>
    ensures { OnOk result (out.new.items ≡ out.old.items ++ block_spelling b.now) }
{
    write_header(&b.header, out)?;
    put_compact(out, b.txs.len() as u64)?;
    put_txs(b.txs.as_slice(), out)?;
    Ok(())
}

/// The transaction's bytes, in its form without witnesses.
pub fn tx_bytes(alloc: Global, t: &Tx) -> Result<Vec<u8>, NoMemory>
    ensures { IfOk result (λ bytes. bytes.items ≡ tx_spelling t.now) }
{
    let mut bytes = Vec::with_capacity(alloc, tx_size(t) as usize)?;
    put_tx(t, &mut bytes)?;
    Ok(bytes)
}

/// The block's bytes, in its form without witnesses.
pub fn block_bytes(alloc: Global, b: &Block) -> Result<Vec<u8>, NoMemory>
    ensures { IfOk result (λ bytes. bytes.items ≡ block_spelling b.now) }
{
    let mut bytes = Vec::with_capacity(alloc, block_room(b))?;
    put_block(b, &mut bytes)?;
    Ok(bytes)
}

/// Writes the transaction's bytes at the end, in its form without witnesses. Where no memory is found nothing is
/// written, so they are first written apart.
pub fn write_tx(t: &Tx, out: &mut Vec<u8>) -> Result<(), NoMemory>
    ensures ok { OnOk result (out.new.items ≡ out.old.items ++ tx_spelling t.now) }
    ensures err { OnErr result (out.new.items ≡ out.old.items) }
{
    let bytes = tx_bytes(*out.allocator(), t)?;
    out.extend_from_slice(&bytes)?;
    Ok(())
}

/// Writes the block's bytes at the end. Where no memory is found nothing is written, so they are first written apart.
pub fn write_block(b: &Block, out: &mut Vec<u8>) -> Result<(), NoMemory>
    ensures ok { OnOk result (out.new.items ≡ out.old.items ++ block_spelling b.now) }
    ensures err { OnErr result (out.new.items ≡ out.old.items) }
{
    let bytes = block_bytes(*out.allocator(), b)?;
    out.extend_from_slice(&bytes)?;
    Ok(())
}
