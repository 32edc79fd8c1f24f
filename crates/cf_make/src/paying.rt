//! The outputs of made chains.
ghost use Rattle.std.specs.Prelude.{◌≡◌, pos, nat_abs, ◌≤ℤ◌, IfOk};
ghost use Rattle.cf_block.specs.{max_value};
ghost use Rattle.cf_make.specs.Made.{script_of, paid_to};

use cf_block::{Script, TxOut};
use cf_bytes::NoMemory;
use std::alloc::Global;

/// The four bytes `01 kk 75 51`: a script that pushes the byte `k`, drops it and pushes 1, so that any input may spend
/// what it is paid.
#[tactic(auto, unfolding(crate::specs::Made::script_of))]
pub fn script(alloc: Global, k: u8) -> Result<Script, NoMemory>
    ensures { IfOk result (λ s. s ≡ script_of k) }
{
    let mut bytes = Vec::new(alloc);
    bytes.extend_from_slice(&[0x01, k, 0x75, 0x51])?;
    Ok(Script::from_vec(bytes))
}

// The value to the script of k, modulo 16.
pub(crate) fn pay(alloc: Global, value: i64, k: u64) -> Result<TxOut, NoMemory>
    requires low { pos 0 ≤ℤ value }
    requires high { value ≤ℤ pos max_value }
    ensures { IfOk result (λ o. o ≡ paid_to (nat_abs value) k) }
{
    let script = script(alloc, (k % 16) as u8)?;
    Ok(TxOut { value, script })
}
