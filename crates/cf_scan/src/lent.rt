//! What is kept of a block whose transactions are lent.
ghost use Rattle.std.specs.Prelude.{◌≡◌, IfOk, map};
ghost use Rattle.cf_block.specs.{AreTxids, spends_of, txid_of};
ghost use Rattle.cf_scan.specs.Extract.{pays_from, tx_extract_of, extract_of};

use crate::extracts::{Extract, Paid, TxExtract};
use crate::watch::Watch;
use cf_block::OutPoint;
use cf_bytes::{Hash32, Listed, NoMemory};
use cf_view::{BlockView, InsView, OutsView, TxView};
use std::alloc::Global;

/// What a history needs of a block whose transactions are lent. Of it nothing is copied but the outputs to watched
/// scripts.
pub fn extract_view(alloc: Global, block: &BlockView, watch: &Watch) -> Result<Extract, NoMemory>
    ensures { IfOk result (λ e. e ≡ extract_of block.now watch.now) }
{
    let mut txs = block.txs();
    let mut out = Vec::new(alloc);
    while let Some(tx) = txs.next() {
        let txid = tx.txid();
        let extract = extract_lent(alloc, &tx, txid, watch)?;
        out.push(extract)?;
    }
    Ok(Listed::from_vec(out))
}

/// What a history needs of a block whose transactions are lent, where their hashes are given, in their order, as
/// `cf_view::view_txids` makes them.
pub fn extract_view_by(
    alloc: Global,
    block: &BlockView,
    txids: &[Hash32],
    watch: &Watch,
) -> Result<Extract, NoMemory>
    requires { AreTxids txids.now block.now.txs }
    ensures { IfOk result (λ e. e ≡ extract_of block.now watch.now) }
{
    let mut txs = block.txs();
    let mut out = Vec::with_capacity(alloc, txids.len())?;
    for txid in txids {
        let Some(tx) = txs.next() else { unreachable!() };
        let extract = extract_lent(alloc, &tx, *txid, watch)?;
        out.push(extract)?;
    }
    Ok(Listed::from_vec(out))
}

fn extract_lent(
    alloc: Global,
    tx: &TxView,
    txid: Hash32,
    watch: &Watch,
) -> Result<TxExtract, NoMemory>
    requires { txid.0 ≡ txid_of tx.now }
    ensures { IfOk result (λ e. e ≡ tx_extract_of watch.now tx.now) }
{
    let spends = outpoints_of(alloc, tx)?;
    let pays = outputs_of(alloc, tx.outputs(), watch)?;
    Ok(TxExtract { txid, spends, pays })
}

fn outpoints_of(alloc: Global, tx: &TxView) -> Result<Listed<OutPoint>, NoMemory>
    ensures { IfOk result (λ spends. spends ≡ spends_of tx.now) }
{
    if tx.is_coinbase() {
        return Ok(Listed::new(alloc));
    }
    all_outpoints(alloc, tx.inputs())
}

fn all_outpoints(alloc: Global, inputs: InsView) -> Result<Listed<OutPoint>, NoMemory>
    ensures { IfOk result (λ spends. spends ≡ map (λ i. i.prev) inputs.entry) }
{
    let mut inputs = inputs;
    let mut spends = Listed::new(alloc);
    while let Some(input) = inputs.next() {
        spends.push(input.prev)?;
    }
    Ok(spends)
}

fn outputs_of(alloc: Global, outputs: OutsView, watch: &Watch) -> Result<Listed<Paid>, NoMemory>
    ensures { IfOk result (λ pays. pays ≡ pays_from 0 watch.now outputs.entry) }
{
    let mut outputs = outputs;
    let mut pays = Listed::new(alloc);
    let mut place: u64 = 0;
    while let Some(output) = outputs.next() {
        if watch.has(output.script) {
            let index = u32::try_from(place).map_err(|_| NoMemory)?;
            let output = output.copy(alloc)?;
            pays.push(Paid { index, output })?;
        }
        place = place.checked_add(1).ok_or(NoMemory)?;
    }
    Ok(pays)
}
