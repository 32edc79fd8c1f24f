//! The transactions of made chains.
ghost use Rattle.std.specs.Prelude.{◌≡◌, ◌≤◌, ◌<◌, ◌+◌, ◌^◌, ◌∷◌, [], length, IfOk};
ghost use Rattle.cf_headers.specs.{height_limit};
ghost use Rattle.cf_make.specs.Made.{seed_limit, mark_of, coinbase_of, second_of, seconds_of, made_txs};

use crate::paying::pay;
use cf_block::{Listed, OutPoint, Script, Tx, TxIn, TxIns, TxOuts, Txs};
use cf_bytes::{Hash32, NoMemory};
use std::alloc::Global;

// The script of the coinbase: the height and the seed, each pushed.
#[tactic(auto, unfolding(crate::specs::Made::mark_of))]
fn mark(alloc: Global, seed: u64, height: u32) -> Result<Script, NoMemory>
    ensures { IfOk result (λ s. s ≡ mark_of seed height) }
{
    let mut bytes = Vec::new(alloc);
    bytes.push(4)?;
    bytes.extend_from_slice(&height.to_le_bytes())?;
    bytes.push(8)?;
    bytes.extend_from_slice(&seed.to_le_bytes())?;
    Ok(Script::from_vec(bytes))
}

// The list of this input alone.
fn one_input(alloc: Global, prev: OutPoint, script: Script) -> Result<TxIns, NoMemory>
    ensures { IfOk result (λ is. is ≡ record { prev = prev; script = script; sequence = 0xffffffff } ∷ []) }
{
    let mut inputs = Listed::new(alloc);
    inputs.push(TxIn {
        prev,
        script,
        sequence: u32::MAX,
    })?;
    Ok(inputs)
}

#[tactic(auto, unfolding(crate::specs::Made::coinbase_of))]
fn coinbase(alloc: Global, seed: u64, height: u32) -> Result<Tx, NoMemory>
    requires seeds { seed < seed_limit }
    requires heights { height ≤ height_limit }
    ensures { IfOk result (λ t. t ≡ coinbase_of seed height) }
{
    let nothing = OutPoint {
        txid: Hash32([0; 32]),
        index: u32::MAX,
    };
    let script = mark(alloc, seed, height)?;
    let inputs = one_input(alloc, nothing, script)?;
    let mut outputs: TxOuts = Listed::new(alloc);
    let output = pay(alloc, 5_000_000_000, seed + height as u64)?;
    outputs.push(output)?;
    Ok(Tx {
        version: 1,
        inputs,
        outputs,
        lock_time: 0,
    })
}

#[tactic(auto, unfolding(crate::specs::Made::second_of))]
fn second(alloc: Global, coin: OutPoint, turn: u64) -> Result<Tx, NoMemory>
    requires { turn < 2 ^ 34 }
    ensures { IfOk result (λ t. t ≡ second_of coin turn) }
{
    let inputs = one_input(alloc, coin, Script::from_vec(Vec::new(alloc)))?;
    let mut outputs: TxOuts = Listed::new(alloc);
    let change = pay(alloc, 2_000_000_000, turn + 5)?;
    outputs.push(change)?;
    let rest = pay(alloc, 3_000_000_000, turn + 11)?;
    outputs.push(rest)?;
    Ok(Tx {
        version: 1,
        inputs,
        outputs,
        lock_time: 0,
    })
}

// The block's transactions: a coinbase, and where seed + height is a multiple of 3 the spending of the coin below.
pub(crate) fn make_txs(
    alloc: Global,
    seed: u64,
    height: u32,
    coin: Option<OutPoint>,
) -> Result<Txs, NoMemory>
    requires seeds { seed < seed_limit }
    requires heights { height ≤ height_limit }
    ensures { IfOk result (λ ts. ts ≡ made_txs seed height coin) }
{
    let turn = seed + height as u64;
    let mut txs = Listed::new(alloc);
    let first = coinbase(alloc, seed, height)?;
    txs.push(first)?;
    match coin {
        Some(coin) => {
            if turn % 3 == 0 {
                let next = second(alloc, coin, turn)?;
                txs.push(next)?;
            }
            Ok(txs)
        }
        None => Ok(txs),
    }
}
