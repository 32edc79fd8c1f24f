//! The hash of a transaction, which is fed to the hasher field by field, so that no memory is taken.
ghost use Rattle.std.specs.Prelude.{◌≡◌};
ghost use Rattle.std.specs.List.{flat_map};
ghost use Rattle.cf_bytes.specs.{compact, counted_bytes};
ghost use Rattle.cf_block.specs.Fed.{Fed};
ghost use Rattle.cf_block.specs.Tx.{input_spelling, output_spelling, tx_spelling, txid_of};

use crate::tx::{Tx, TxIn, TxOut};
use cf_bytes::Hash32;
use sha2::{Digest, Sha256};

fn feed(hasher: &mut Sha256, bytes: &[u8])
    ensures { Fed hasher.old hasher.new bytes.now }
{
    hasher.update(bytes);
}

fn feed_compact(hasher: &mut Sha256, n: u64)
    ensures { Fed hasher.old hasher.new (compact n) }
{
    if n < 253 {
        feed(hasher, &[n as u8]);
        return;
    }
    if n < 1 << 16 {
        feed(hasher, &[253]);
        feed(hasher, &(n as u16).to_le_bytes());
        return;
    }
    if n < 1 << 32 {
        feed(hasher, &[254]);
        feed(hasher, &(n as u32).to_le_bytes());
        return;
    }
    feed(hasher, &[255]);
    feed(hasher, &n.to_le_bytes());
}

fn feed_counted(hasher: &mut Sha256, bytes: &[u8])
    ensures { Fed hasher.old hasher.new (counted_bytes bytes.now) }
{
    feed_compact(hasher, bytes.len() as u64);
    feed(hasher, bytes);
}

fn feed_input(hasher: &mut Sha256, input: &TxIn)
    ensures { Fed hasher.old hasher.new (input_spelling input.now) }
{
    feed(hasher, &input.prev.txid.0);
    feed(hasher, &input.prev.index.to_le_bytes());
    feed_counted(hasher, input.script.as_slice());
    feed(hasher, &input.sequence.to_le_bytes());
}

fn feed_output(hasher: &mut Sha256, output: &TxOut)
    ensures { Fed hasher.old hasher.new (output_spelling output.now) }
{
    feed(hasher, &output.amount().to_le_bytes());
    feed_counted(hasher, output.script.as_slice());
}

fn feed_inputs(hasher: &mut Sha256, inputs: &[TxIn])
    ensures { Fed hasher.old hasher.new (flat_map input_spelling inputs.now) }
{
    for input in inputs {
        feed_input(hasher, input);
    }
}

fn feed_outputs(hasher: &mut Sha256, outputs: &[TxOut])
    ensures { Fed hasher.old hasher.new (flat_map output_spelling outputs.now) }
{
    for output in outputs {
        feed_output(hasher, output);
    }
}

fn feed_tx(hasher: &mut Sha256, t: &Tx)
    ensures { Fed hasher.old hasher.new (tx_spelling t.now) }
{
    feed(hasher, &t.version.cast_unsigned().to_le_bytes());
    feed_compact(hasher, t.inputs.len() as u64);
    feed_inputs(hasher, t.inputs.as_slice());
    feed_compact(hasher, t.outputs.len() as u64);
    feed_outputs(hasher, t.outputs.as_slice());
    feed(hasher, &t.lock_time.to_le_bytes());
}

/// The hash of the transaction's bytes. It takes no memory.
pub fn txid(t: &Tx) -> Hash32
    ensures { result.0 ≡ txid_of t.now }
{
    let mut hasher = Sha256::new();
    feed_tx(&mut hasher, t);
    Hash32(Sha256::digest(&hasher.finalize()))
}
