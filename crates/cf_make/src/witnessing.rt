//! The bytes of a block whose coinbase has a witness.
ghost use Rattle.std.specs.Prelude.{◌≡◌, ◌++◌, OnOk};
ghost use Rattle.std.specs.List.{flat_map};
ghost use Rattle.cf_block.specs.{tx_spelling};
ghost use Rattle.cf_make.specs.Records.{with_witness, witness_spelling, text_of};

use cf_block::{Block, Tx, write_block, write_header, write_tx, write_with_witness};
use cf_bytes::{NoMemory, put_compact};

// The only item of a coinbase's witness.
const RESERVED: [u8; 32] = [0; 32];

fn put_others(txs: &[Tx], out: &mut Vec<u8>) -> Result<(), NoMemory>
    ensures { OnOk result (out.new.items ≡ out.old.items ++ flat_map tx_spelling txs.now) }
{
    for tx in txs {
        write_tx(tx, out)?;
    }
    Ok(())
}

// Puts a block's transactions at the end, the first with its witness.
fn put_txs(txs: &[Tx], out: &mut Vec<u8>) -> Result<(), NoMemory>
    ensures { OnOk result (out.new.items ≡ out.old.items ++ with_witness txs.now) }
{
    match txs {
        [] => Ok(()),
        [coinbase, others @ ..] => {
            write_with_witness(coinbase, &RESERVED, out)?;
            put_others(others, out)
        }
    }
}

// Puts a block's bytes at the end, its coinbase with its witness.
#[tactic(auto, unfolding(crate::specs::Records::witness_spelling))]
fn put_witnessed(block: &Block, out: &mut Vec<u8>) -> Result<(), NoMemory>
    ensures { OnOk result (out.new.items ≡ out.old.items ++ witness_spelling block.now) }
{
    write_header(&block.header, out)?;
    put_compact(out, block.txs.len() as u64)?;
    put_txs(block.txs.as_slice(), out)
}

// Puts a block's bytes at the end, with its coinbase's witness or without.
pub(crate) fn put_text(witness: bool, block: &Block, out: &mut Vec<u8>) -> Result<(), NoMemory>
    ensures { OnOk result (out.new.items ≡ out.old.items ++ text_of witness block.now) }
{
    if witness {
        put_witnessed(block, out)
    } else {
        write_block(block, out)
    }
}
