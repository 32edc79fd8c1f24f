//! The items of a block.
ghost use Rattle.std.specs.Prelude.{◌≡◌, ◌++◌, IfOk, OnOk, map, filter};
ghost use Rattle.cf_filter.specs.Items.{texts, is_paid_item as pays_item, is_spent_item as spends_item, paid_scripts, items_of};

use crate::set::Items;
use cf_block::{Block, Script, TxOut};
use cf_bytes::NoMemory;
use std::alloc::Global;

/// The first byte of a script that only carries data.
const OP_RETURN: u8 = 0x6a;

pub(crate) fn is_paid_item(script: &[u8]) -> bool
    ensures { result ≡ pays_item script.now }
{
    match script {
        [] => false,
        [first, ..] => *first != OP_RETURN,
    }
}

// Puts copies of the scripts of some outputs at the end, of those that are items.
fn put_paid(alloc: Global, scripts: &mut Vec<Vec<u8>>, outputs: &[TxOut]) -> Result<(), NoMemory>
    ensures { OnOk result
        (texts scripts.new.items ≡ texts scripts.old.items ++ filter pays_item (map (λ o. o.script) outputs.now)) }
{
    for output in outputs {
        let script = output.script.as_slice();
        if is_paid_item(script) {
            scripts.push(Vec::from_slice(alloc, script)?)?;
        }
    }
    Ok(())
}

// The same of the scripts of spent outputs.
fn put_spent(alloc: Global, scripts: &mut Vec<Vec<u8>>, prevouts: &[Script]) -> Result<(), NoMemory>
    ensures { OnOk result (texts scripts.new.items ≡ texts scripts.old.items ++ filter spends_item prevouts.now) }
{
    for script in prevouts {
        if script.len() != 0 {
            scripts.push(Vec::from_slice(alloc, script.as_slice())?)?;
        }
    }
    Ok(())
}

/// The items of a block's basic filter: the script of each output, unless it is empty or begins with
/// OP_RETURN (0x6a), and of each output that is spent, unless it is empty (BIP 158, "Contents").
/// `prevouts` has the scripts of the outputs that the block's inputs spend, the coinbase's input
/// excepted.
#[tactic(auto, unfolding(crate::specs::Items::items_of))]
pub fn items(alloc: Global, block: &Block, prevouts: &[Script]) -> Result<Items, NoMemory>
    ensures { IfOk result (λ items. items ≡ items_of block.now prevouts.now) }
{
    let mut scripts = Vec::new(alloc);
    for tx in block.txs.as_slice() {
        put_paid(alloc, &mut scripts, tx.outputs.as_slice())?;
    }
    put_spent(alloc, &mut scripts, prevouts)?;
    Ok(Items::of(scripts))
}
