//! What proofs say.
ghost use Rattle.std.specs.Prelude.{◌≡◌, ◌<◌, ◌≤◌, List, ℕ, Result, length, slice_index_or};
ghost use Rattle.cf_bytes.specs.declared.hash.Hash32.{Hash32};
ghost use Rattle.cf_bytes.specs.declared.memory.Refused.{Refused};
ghost use Rattle.cf_block.specs.declared.tx.Tx.{Tx};
ghost use Rattle.cf_block.specs.declared.tx.Block.{Block};
ghost use Rattle.cf_block.specs.{IsHeader, tx_spelling, IsCommitted};
ghost use Rattle.cf_proof.specs.declared.fault.ProofFault.{ProofFault};
ghost use Rattle.cf_proof.specs.Checks.{Answers};
ghost use Rattle.cf_proof.specs.Holds.{Proves, AnswersHeader};
ghost use Rattle.cf_proof.specs.Made.{IsProofOf};

/// Says that a transaction that a proof passes for stands in each block with the proof's header whose header stands for
/// its transactions, where no two different strings have one hash: of those that are hashed in the block and in the
/// walk, and the transaction's bytes. And that the check of a proof that was made of such a block answers the hash of
/// its header, or finds no memory.
pub fn laws_of_proofs()
    ensures proves { (bytes : List ℕ) (tx : Tx) → Proves bytes tx }
    ensures again { (b : Block) (place : ℕ) (bytes : List ℕ) (tx : Tx) (answer : Result Hash32 (Refused ProofFault))
        → IsCommitted b → IsHeader b.header → length b.txs ≤ 16666 → place < length b.txs
        → slice_index_or b.txs place tx ≡ tx → IsProofOf b place bytes → Answers bytes (tx_spelling tx) answer
        → AnswersHeader b answer }
{}
