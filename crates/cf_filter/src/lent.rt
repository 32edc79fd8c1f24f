//! The items of the outputs of a block that lends its bytes.
ghost use Rattle.std.specs.Prelude.{◌≡◌, ◌++◌, IfOk, OnOk, map, filter};
ghost use Rattle.cf_filter.specs.Items.{texts, is_paid_item as pays_item};
ghost use Rattle.cf_filter.specs.Lacking.{output_items_of};

use crate::collecting::is_paid_item;
use crate::set::Items;
use cf_bytes::NoMemory;
use cf_view::{BlockView, OutsView};
use std::alloc::Global;

// Puts copies of the scripts of some outputs at the end, of those that are items.
fn put_lent(alloc: Global, scripts: &mut Vec<Vec<u8>>, outputs: OutsView) -> Result<(), NoMemory>
    ensures { OnOk result (texts scripts.new.items
        ≡ texts scripts.old.items ++ filter pays_item (map (λ o. o.script) outputs.entry)) }
{
    let mut outputs = outputs;
    while let Some(output) = outputs.next() {
        if is_paid_item(output.script) {
            scripts.push(Vec::from_slice(alloc, output.script)?)?;
        }
    }
    Ok(())
}

/// The same items as of `output_items`, of a block that lends its bytes.
#[tactic(auto, unfolding(crate::specs::Items::items_of))]
pub fn view_output_items(alloc: Global, block: &BlockView) -> Result<Items, NoMemory>
    ensures { IfOk result (λ items. items ≡ output_items_of block.now) }
{
    let mut scripts = Vec::new(alloc);
    let mut txs = block.txs();
    while let Some(tx) = txs.next() {
        put_lent(alloc, &mut scripts, tx.outputs())?;
    }
    Ok(Items::of(scripts))
}
