//! The first block of regtest's chain.
ghost use Rattle.std.specs.Prelude.{◌≡◌, IfOk};
ghost use Rattle.cf_block.specs.Genesis.{signing_script, paid_script, first_input, first_output, first_block};

use crate::header::genesis_header;
use crate::script::Script;
use crate::tx::{Block, OutPoint, Tx, TxIn, TxOut};
use cf_bytes::{Hash32, Listed, NoMemory};
use std::alloc::Global;

/// The bits of the first target, the number 4, and a headline of the day.
const SIGNING: [u8; 77] = [
    0x04, 0xff, 0xff, 0x00, 0x1d, 0x01, 0x04, 0x45, 0x54, 0x68, 0x65, 0x20, 0x54, 0x69, 0x6d, 0x65,
    0x73, 0x20, 0x30, 0x33, 0x2f, 0x4a, 0x61, 0x6e, 0x2f, 0x32, 0x30, 0x30, 0x39, 0x20, 0x43, 0x68,
    0x61, 0x6e, 0x63, 0x65, 0x6c, 0x6c, 0x6f, 0x72, 0x20, 0x6f, 0x6e, 0x20, 0x62, 0x72, 0x69, 0x6e,
    0x6b, 0x20, 0x6f, 0x66, 0x20, 0x73, 0x65, 0x63, 0x6f, 0x6e, 0x64, 0x20, 0x62, 0x61, 0x69, 0x6c,
    0x6f, 0x75, 0x74, 0x20, 0x66, 0x6f, 0x72, 0x20, 0x62, 0x61, 0x6e, 0x6b, 0x73,
];

/// A public key, and the word that checks a signature by it.
const PAID: [u8; 67] = [
    0x41, 0x04, 0x67, 0x8a, 0xfd, 0xb0, 0xfe, 0x55, 0x48, 0x27, 0x19, 0x67, 0xf1, 0xa6, 0x71, 0x30,
    0xb7, 0x10, 0x5c, 0xd6, 0xa8, 0x28, 0xe0, 0x39, 0x09, 0xa6, 0x79, 0x62, 0xe0, 0xea, 0x1f, 0x61,
    0xde, 0xb6, 0x49, 0xf6, 0xbc, 0x3f, 0x4c, 0xef, 0x38, 0xc4, 0xf3, 0x55, 0x04, 0xe5, 0x1e, 0xc1,
    0x12, 0xde, 0x5c, 0x38, 0x4d, 0xf7, 0xba, 0x0b, 0x8d, 0x57, 0x8a, 0x4c, 0x70, 0x2b, 0x6b, 0xf1,
    0x1d, 0x5f, 0xac,
];

/// The first block of regtest's chain: one transaction, of which no output can be spent.
#[tactic(auto, unfolding(crate::specs::Genesis::first_block))]
pub fn genesis(alloc: Global) -> Result<Block, NoMemory>
    ensures { IfOk result (λ b. b ≡ first_block) }
{
    let mut inputs = Listed::new(alloc);
    let input = genesis_input(alloc)?;
    inputs.push(input)?;
    let mut outputs = Listed::new(alloc);
    let output = genesis_output(alloc)?;
    outputs.push(output)?;
    let mut txs = Listed::new(alloc);
    txs.push(Tx {
        version: 1,
        inputs,
        outputs,
        lock_time: 0,
    })?;
    Ok(Block {
        header: genesis_header(),
        txs,
    })
}

#[tactic(auto, unfolding(crate::specs::Genesis::first_input))]
fn genesis_input(alloc: Global) -> Result<TxIn, NoMemory>
    ensures { IfOk result (λ i. i ≡ first_input) }
{
    let script = signing(alloc)?;
    Ok(TxIn {
        prev: OutPoint {
            txid: Hash32([0; 32]),
            index: u32::MAX,
        },
        script,
        sequence: u32::MAX,
    })
}

#[tactic(auto, unfolding(crate::specs::Genesis::first_output))]
fn genesis_output(alloc: Global) -> Result<TxOut, NoMemory>
    ensures { IfOk result (λ o. o ≡ first_output) }
{
    let script = paid(alloc)?;
    Ok(TxOut {
        value: 5_000_000_000,
        script,
    })
}

#[tactic(auto, unfolding(crate::specs::Genesis::signing_script))]
fn signing(alloc: Global) -> Result<Script, NoMemory>
    ensures { IfOk result (λ s. s ≡ signing_script) }
{
    Ok(Script::from_vec(Vec::from_slice(alloc, &SIGNING)?))
}

#[tactic(auto, unfolding(crate::specs::Genesis::paid_script))]
fn paid(alloc: Global) -> Result<Script, NoMemory>
    ensures { IfOk result (λ s. s ≡ paid_script) }
{
    Ok(Script::from_vec(Vec::from_slice(alloc, &PAID)?))
}
