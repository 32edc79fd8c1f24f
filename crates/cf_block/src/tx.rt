//! Transactions and blocks, as values.
ghost use Rattle.std.specs.Prelude.{◌≡◌, ◌≤◌, IfOk};

use crate::header::Header;
use crate::script::Script;
use cf_bytes::{Hash32, Listed, NoMemory};
use std::alloc::Global;
use std::marker::Model;

/// An output, by the transaction's hash and its place there, counted from 0.
#[derive(Clone, Copy, Debug, PartialEq, Eq, PartialOrd, Ord)]
pub struct OutPoint {
    pub txid: Hash32,
    pub index: u32,
}

/// An input: the output that it spends, the script that allows it, and its sequence number.
#[derive(Drop, Debug)]
pub struct TxIn {
    pub prev: OutPoint,
    pub script: Script,
    pub sequence: u32,
}

/// An output: its value, in hundred millionths of a coin, from 0 to 2,100,000,000,000,000, and the script that it pays.
#[derive(Drop, Debug)]
pub struct TxOut {
    pub value: i64,
    pub script: Script,
}

impl Model for TxOut {
    ghost use Rattle.std.specs.Prelude.{pos, nat_abs, ◌≤ℤ◌};
    ghost use Rattle.cf_block.specs.Output.{Output, max_value};

    ghost Value = { Output };

    ghost view = { λ o. record { value = nat_abs o.value; script = o.script } };

    ghost invariant = { λ o. (pos 0 ≤ℤ o.value) × (o.value ≤ℤ pos max_value) };
}

impl TxOut {
    /// The value, which is never negative.
    pub fn amount(&self) -> u64
        ensures value { result ≡ self.now.value }
        ensures range { self.now.value ≤ 2100000000000000 }
    {
        self.value.unsigned_abs()
    }

    /// The same output again.
    pub fn copy(&self, alloc: Global) -> Result<TxOut, NoMemory>
        ensures { IfOk result (λ copy. copy ≡ self.now) }
    {
        let script = self.script.copy(alloc)?;
        Ok(TxOut {
            value: self.value,
            script,
        })
    }
}

pub type TxIns = Listed<TxIn>;

pub type TxOuts = Listed<TxOut>;

pub type Txs = Listed<Tx>;

/// A transaction, in its form without witnesses.
#[derive(Drop, Debug)]
pub struct Tx {
    pub version: i32,
    pub inputs: TxIns,
    pub outputs: TxOuts,
    /// The height or the time from which it may stand in a block.
    pub lock_time: u32,
}

/// A block: a header and the transactions that it stands for.
#[derive(Drop, Debug)]
pub struct Block {
    pub header: Header,
    pub txs: Txs,
}
