//! Copies of blocks.
ghost use Rattle.std.specs.Prelude.{◌≡◌, IfOk};

use cf_block::{Block, Listed, Tx, TxIn, TxIns, TxOut, TxOuts, Txs};
use cf_bytes::NoMemory;
use std::alloc::Global;

fn copy_inputs(alloc: Global, inputs: &[TxIn]) -> Result<TxIns, NoMemory>
    ensures { IfOk result (λ copy. copy ≡ inputs.now) }
{
    let mut copy = Listed::new(alloc);
    for input in inputs {
        let script = input.script.copy(alloc)?;
        copy.push(TxIn {
            prev: input.prev,
            script,
            sequence: input.sequence,
        })?;
    }
    Ok(copy)
}

fn copy_outputs(alloc: Global, outputs: &[TxOut]) -> Result<TxOuts, NoMemory>
    ensures { IfOk result (λ copy. copy ≡ outputs.now) }
{
    let mut copy = Listed::new(alloc);
    for output in outputs {
        let one = output.copy(alloc)?;
        copy.push(one)?;
    }
    Ok(copy)
}

fn copy_txs(alloc: Global, txs: &[Tx]) -> Result<Txs, NoMemory>
    ensures { IfOk result (λ copy. copy ≡ txs.now) }
{
    let mut copy = Listed::new(alloc);
    for tx in txs {
        let inputs = copy_inputs(alloc, tx.inputs.as_slice())?;
        let outputs = copy_outputs(alloc, tx.outputs.as_slice())?;
        copy.push(Tx {
            version: tx.version,
            inputs,
            outputs,
            lock_time: tx.lock_time,
        })?;
    }
    Ok(copy)
}

// The same blocks again.
pub(crate) fn copy_blocks(alloc: Global, blocks: &[Block]) -> Result<Listed<Block>, NoMemory>
    ensures { IfOk result (λ copy. copy ≡ blocks.now) }
{
    let mut copy = Listed::new(alloc);
    for block in blocks {
        let txs = copy_txs(alloc, block.txs.as_slice())?;
        copy.push(Block {
            header: block.header,
            txs,
        })?;
    }
    Ok(copy)
}
