//! What a block's header stands for, which is found before it is known where the block is to stand.
ghost use Rattle.std.specs.Prelude.{◌≡◌, IfOk, IfSome};
ghost use Rattle.cf_block.specs.{AreTxids, block_hash_of, commit_fault};
ghost use Rattle.cf_walk.specs.{cause_before_coins, in_commitment, FindsCause};
ghost use Rattle.cf_index.specs.Committing.{IsCommitmentOf};

use cf_block::{Block, TxIds};
use cf_bytes::{Hash32, NoMemory, Refused};
use cf_headers::Past;
use cf_walk::{RecordCause, judge_commitment, judge_header, judge_height};
use std::alloc::Global;

/// The hashes of a block's transactions, or why its header doesn't stand for them. It needs no chain, and its making is
/// most of what judging a block takes.
#[derive(Drop)]
pub struct Commitment {
    txids: Result<TxIds, RecordCause>,
}

impl Commitment {
    /// Hashes a block's transactions, each once, and judges whether its header stands for them.
    pub fn of(alloc: Global, block: &Block) -> Result<Commitment, NoMemory>
        ensures { IfOk result (λ commitment. IsCommitmentOf block.now commitment) }
    {
        match judge_commitment(alloc, block) {
            Ok(txids) => Ok(Commitment { txids: Ok(txids) }),
            Err(Refused::No(cause)) => Ok(Commitment { txids: Err(cause) }),
            Err(Refused::NoMemory) => Err(NoMemory),
        }
    }
}

// A block's commitment, which is found now where it wasn't before.
fn judge_commitment_by(
    alloc: Global,
    block: &Block,
    commitment: Option<Commitment>,
) -> Result<TxIds, Refused<RecordCause>>
    requires { IfSome commitment (IsCommitmentOf block.now) }
    ensures exact { FindsCause (in_commitment (commit_fault block.now)) result }
    ensures hashes { IfOk result (λ ids. AreTxids ids block.now.txs) }
{
    match commitment {
        Some(Commitment { txids: Ok(txids) }) => Ok(txids),
        Some(Commitment { txids: Err(cause) }) => Err(Refused::No(cause)),
        None => judge_commitment(alloc, block),
    }
}

// Judges a block's header, its height and its commitment, in this order, where it is to stand above so many blocks, on
// a header with this hash and after these times. Answers the hashes of the transactions, which are made here only where
// the commitment wasn't found before.
pub(crate) fn judge_next(
    alloc: Global,
    tip: &Hash32,
    past: &Past,
    height: usize,
    block: &Block,
    hash: &Hash32,
    commitment: Option<Commitment>,
) -> Result<TxIds, Refused<RecordCause>>
    requires hash { hash.now.0 ≡ block_hash_of block.now.header }
    requires commitment { IfSome commitment (IsCommitmentOf block.now) }
    ensures exact { FindsCause (cause_before_coins tip.now.0 past.now height block.now) result }
    ensures hashes { IfOk result (λ ids. AreTxids ids block.now.txs) }
{
    match judge_header(tip, past, &block.header, hash) {
        Ok(()) => {}
        Err(e) => return Err(e),
    }
    match judge_height(height) {
        Ok(()) => {}
        Err(e) => return Err(e),
    }
    judge_commitment_by(alloc, block, commitment)
}
