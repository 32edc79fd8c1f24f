//! What is kept of a block that was fetched.
ghost use Rattle.std.specs.Prelude.{◌≡◌, IfOk, map};
ghost use Rattle.cf_block.specs.{AreTxids, spends_of, txid_of};
ghost use Rattle.cf_scan.specs.Extract.{pays_from, tx_extract_of, extract_of};

use crate::watch::Watch;
use cf_block::{Block, OutPoint, Tx, TxIn, TxOut, is_coinbase, txids};
use cf_bytes::{Hash32, Listed, NoMemory};
use std::alloc::Global;

/// An output to a watched script.
#[derive(Drop, Debug)]
pub struct Paid {
    /// Its place in its transaction, counted from 0.
    pub index: u32,
    pub output: TxOut,
}

/// What is kept of a transaction.
#[derive(Drop, Debug)]
pub struct TxExtract {
    pub txid: Hash32,
    /// Every outpoint that its inputs name, in their order, and none for a coinbase.
    pub spends: Listed<OutPoint>,
    /// Its outputs to watched scripts, in their order.
    pub pays: Listed<Paid>,
}

/// What is kept of a block: one entry for each of its transactions, in their order.
pub type Extract = Listed<TxExtract>;

/// The extract of a block at a height. Genesis has height 0.
#[derive(Drop, Debug)]
pub struct Placed {
    pub height: u32,
    pub extract: Extract,
}

/// Keeps of a block what a history needs: of each transaction its hash, the outpoints that it
/// spends, and its outputs to watched scripts.
///
/// Every outpoint is kept, also of coins that aren't watched: blocks may be fetched in any order,
/// and which coins are watched is known only once all blocks below are there.
///
/// It answers `NoMemory` also where 4,294,967,296 or more outputs of a transaction come before one
/// to a watched script. No block of the protocol has as many.
pub fn extract(alloc: Global, block: &Block, watch: &Watch) -> Result<Extract, NoMemory>
    ensures { IfOk result (λ e. e ≡ extract_of block.now watch.now) }
{
    let ids = txids(alloc, block.txs.as_slice())?;
    extract_by(alloc, block, ids.as_slice(), watch)
}

/// The same of a block whose transactions' hashes are given, in their order, as `cf_block::txids` makes them.
pub fn extract_by(
    alloc: Global,
    block: &Block,
    txids: &[Hash32],
    watch: &Watch,
) -> Result<Extract, NoMemory>
    requires { AreTxids txids.now block.now.txs }
    ensures { IfOk result (λ e. e ≡ extract_of block.now watch.now) }
{
    extract_txs(alloc, block.txs.as_slice(), txids, watch)
}

fn extract_txs(
    alloc: Global,
    txs: &[Tx],
    txids: &[Hash32],
    watch: &Watch,
) -> Result<Extract, NoMemory>
    requires { AreTxids txids.now txs.now }
    ensures { IfOk result (λ e. e ≡ map (tx_extract_of watch.now) txs.now) }
{
    let mut out = Vec::with_capacity(alloc, txs.len())?;
    for (i, tx) in txs.iter().enumerate() {
        let extract = extract_tx(alloc, tx, txids[i], watch)?;
        out.push(extract)?;
    }
    Ok(Listed::from_vec(out))
}

fn extract_tx(alloc: Global, tx: &Tx, txid: Hash32, watch: &Watch) -> Result<TxExtract, NoMemory>
    requires { txid.0 ≡ txid_of tx.now }
    ensures { IfOk result (λ e. e ≡ tx_extract_of watch.now tx.now) }
{
    let spends = spent_outpoints(alloc, tx)?;
    let pays = watched_outputs(alloc, tx.outputs.as_slice(), watch)?;
    Ok(TxExtract { txid, spends, pays })
}

fn spent_outpoints(alloc: Global, tx: &Tx) -> Result<Listed<OutPoint>, NoMemory>
    ensures { IfOk result (λ spends. spends ≡ spends_of tx.now) }
{
    if is_coinbase(tx) {
        return Ok(Listed::new(alloc));
    }
    named_outpoints(alloc, tx.inputs.as_slice())
}

fn named_outpoints(alloc: Global, inputs: &[TxIn]) -> Result<Listed<OutPoint>, NoMemory>
    ensures { IfOk result (λ spends. spends ≡ map (λ i. i.prev) inputs.now) }
{
    let mut spends = Listed::new(alloc);
    for input in inputs {
        spends.push(input.prev)?;
    }
    Ok(spends)
}

fn watched_outputs(
    alloc: Global,
    outputs: &[TxOut],
    watch: &Watch,
) -> Result<Listed<Paid>, NoMemory>
    ensures { IfOk result (λ pays. pays ≡ pays_from 0 watch.now outputs.now) }
{
    let mut pays = Listed::new(alloc);
    for (place, output) in outputs.iter().enumerate() {
        if watch.has(output.script.as_slice()) {
            let index = u32::try_from(place).map_err(|_| NoMemory)?;
            let output = output.copy(alloc)?;
            pays.push(Paid { index, output })?;
        }
    }
    Ok(pays)
}
