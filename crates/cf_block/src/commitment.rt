//! Whether a block's header stands for its transactions.
ghost use Rattle.std.specs.Prelude.{◌≡◌, map, IfOk};
ghost use Rattle.std.specs.List.{list_any};
ghost use Rattle.cf_block.specs.declared.tx.Block.{Block};
ghost use Rattle.cf_block.specs.Tx.{tx_spelling};
ghost use Rattle.cf_block.specs.Commitment.{AreTxids, has_64 as is_64, first_fault, commit_fault, FindsFault, is_coinbase_tx};

use crate::feeding::txid;
use crate::merkle::tree_over;
use crate::size::tx_size;
use crate::tx::{Block, Tx};
use cf_bytes::{Hash32, Listed, NoMemory, Refused};
use std::alloc::Global;
use thiserror::Error;

/// The first rule by which a header doesn't stand for its block's transactions.
#[derive(Clone, Copy, Debug, PartialEq, Eq, Error)]
pub enum CommitFault {
    /// The header's root isn't the root of the transactions' hashes.
    #[error("the Merkle root is another one")]
    Root = 5,
    /// A pair of equal hashes stands in the tree, so that another list has the same root.
    #[error("the list of transactions is doubled")]
    Mutated = 6,
    /// A transaction has 64 bytes, so that it can be read as a node of the tree.
    #[error("a transaction has 64 bytes")]
    Tx64 = 7,
}

/// The hashes of transactions, in order.
pub type TxIds = Listed<Hash32>;

/// The hashes of the transactions' bytes, in order. Each transaction is hashed once.
pub fn txids(alloc: Global, txs: &[Tx]) -> Result<TxIds, NoMemory>
    ensures { IfOk result (λ ids. AreTxids ids txs.now) }
{
    let hashes = hashes(alloc, txs)?;
    Ok(Listed::from_vec(hashes))
}

fn hashes(alloc: Global, txs: &[Tx]) -> Result<Vec<Hash32>, NoMemory>
    ensures { IfOk result (λ v. AreTxids v.items txs.now) }
{
    let mut hashes = Vec::with_capacity(alloc, txs.len())?;
    for tx in txs {
        let hash = txid(tx);
        hashes.push(hash)?;
    }
    Ok(hashes)
}

fn has_64(txs: &[Tx]) -> bool
    ensures { result ≡ list_any is_64 (map tx_spelling txs.now) }
{
    for tx in txs {
        if tx_size(tx) == 64 {
            return true;
        }
    }
    false
}

/// The first of the three rules that a block breaks whose header has this root: the level holds the hashes of its
/// transactions, and is spent, and it is said whether one of them has 64 bytes. It takes no memory.
pub fn fault_by(root: &Hash32, is_long: bool, level: &mut [Hash32]) -> Option<CommitFault>
    ensures { (b : Block) → b.header.root.0 ≡ root.now.0 → AreTxids level.old b.txs
        → is_long ≡ list_any is_64 (map tx_spelling b.txs) → result ≡ commit_fault b }
{
    if level.is_empty() {
        return Some(CommitFault::Root);
    }
    let found = tree_over(level);
    first_fault(found.root == *root, found.is_doubled, is_long)
}

// The first of the three rules that is broken, by what holds.
fn first_fault(has_root: bool, is_doubled: bool, is_long: bool) -> Option<CommitFault>
    ensures { result ≡ first_fault has_root is_doubled is_long }
{
    if !has_root {
        return Some(CommitFault::Root);
    }
    if is_doubled {
        return Some(CommitFault::Mutated);
    }
    if is_long {
        return Some(CommitFault::Tx64);
    }
    None
}

/// Whether the header's root is that of the transactions, their list isn't doubled, and none has 64 bytes; looked for
/// in this order. The transactions' hashes are given, as `txids` makes them.
pub fn check_commitment_by(
    alloc: Global,
    b: &Block,
    txids: &[Hash32],
) -> Result<(), Refused<CommitFault>>
    requires { AreTxids txids.now b.now.txs }
    ensures { FindsFault (commit_fault b.now) result }
{
    let mut level = Vec::from_slice(alloc, txids)?;
    let is_long = has_64(b.txs.as_slice());
    match fault_by(&b.header.root, is_long, level.as_mut_slice()) {
        Some(fault) => Err(Refused::No(fault)),
        None => Ok(()),
    }
}

/// Whether the header's root is that of the transactions, their list isn't doubled, and none has 64 bytes; looked for
/// in this order.
pub fn check_commitment(alloc: Global, b: &Block) -> Result<(), Refused<CommitFault>>
    ensures { FindsFault (commit_fault b.now) result }
{
    let mut level = hashes(alloc, b.txs.as_slice())?;
    let is_long = has_64(b.txs.as_slice());
    match fault_by(&b.header.root, is_long, level.as_mut_slice()) {
        Some(fault) => Err(Refused::No(fault)),
        None => Ok(()),
    }
}

/// Whether a transaction makes new coins: it has one input, which names the output 0xffffffff of the hash zero.
pub fn is_coinbase(t: &Tx) -> bool
    ensures { result ≡ is_coinbase_tx t.now }
{
    match t.inputs.as_slice() {
        [input] => input.prev.index == u32::MAX && input.prev.txid == Hash32([0; 32]),
        _ => false,
    }
}
