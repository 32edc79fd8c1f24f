//! Whether a header stands for transactions that are lent.
ghost use Rattle.std.specs.Prelude.{◌≡◌, map, IfOk};
ghost use Rattle.std.specs.List.{list_any};
ghost use Rattle.cf_block.specs.{tx_spelling, AreTxids, has_64 as is_64, commit_fault, FindsFault};

use crate::view::BlockView;
use cf_block::{CommitFault, TxIds, fault_by};
use cf_bytes::{Hash32, Listed, NoMemory, Refused};
use std::alloc::Global;

// What one walk over a block's transactions finds: their hashes, and whether one of them has 64 bytes.
#[derive(Drop)]
struct Walked {
    level: Vec<Hash32>,
    is_long: bool,
}

fn walk(alloc: Global, b: &BlockView) -> Result<Walked, NoMemory>
    ensures hashes { IfOk result (λ w. AreTxids w.level.items b.now.txs) }
    ensures long { IfOk result (λ w. w.is_long ≡ list_any is_64 (map tx_spelling b.now.txs)) }
{
    let mut txs = b.txs();
    let mut level = Vec::new(alloc);
    let mut is_long = false;
    while let Some(tx) = txs.next() {
        level.push(tx.txid())?;
        is_long |= tx.len() == 64;
    }
    Ok(Walked { level, is_long })
}

/// Whether the header of a block whose transactions are lent stands for them, as `check_commitment` looks for it. Each
/// of them is read over once and hashed from its bytes; memory is taken for the hashes alone.
pub fn check_view(alloc: Global, b: &BlockView) -> Result<(), Refused<CommitFault>>
    ensures { FindsFault (commit_fault b.now) result }
{
    let mut walked = walk(alloc, b)?;
    match fault_by(
        &b.header().root,
        walked.is_long,
        walked.level.as_mut_slice(),
    ) {
        Some(fault) => Err(Refused::No(fault)),
        None => Ok(()),
    }
}

/// The hashes of a block's transactions, which are lent, in their order. Each is hashed once, from its bytes.
pub fn view_txids(alloc: Global, b: &BlockView) -> Result<TxIds, NoMemory>
    ensures { IfOk result (λ ids. AreTxids ids b.now.txs) }
{
    let walked = walk(alloc, b)?;
    Ok(Listed::from_vec(walked.level))
}

// Whether a transaction has 64 bytes.
fn has_long(b: &BlockView) -> bool
    ensures { result ≡ list_any is_64 (map tx_spelling b.now.txs) }
{
    let mut txs = b.txs();
    while let Some(tx) = txs.next() {
        if tx.len() == 64 {
            return true;
        }
    }
    false
}

/// Whether the header of a block whose transactions are lent stands for them, as `check_commitment` looks for it. The
/// transactions' hashes are given, as `view_txids` makes them.
pub fn check_view_by(
    alloc: Global,
    b: &BlockView,
    txids: &[Hash32],
) -> Result<(), Refused<CommitFault>>
    requires { AreTxids txids.now b.now.txs }
    ensures { FindsFault (commit_fault b.now) result }
{
    let mut level = Vec::from_slice(alloc, txids)?;
    match fault_by(&b.header().root, has_long(b), level.as_mut_slice()) {
        Some(fault) => Err(Refused::No(fault)),
        None => Ok(()),
    }
}
