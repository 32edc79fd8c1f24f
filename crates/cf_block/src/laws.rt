//! Laws of the formats: functions that do nothing, whose contracts say them.
ghost use Rattle.std.specs.Prelude.{◌≡◌, ◌++◌, [], ℕ, List, Ok, None};
ghost use Rattle.cf_block.specs.declared.header.Header.{Header};
ghost use Rattle.cf_block.specs.declared.tx.Tx.{Tx};
ghost use Rattle.cf_block.specs.declared.tx.Block.{Block};
ghost use Rattle.cf_block.specs.Header.{IsHeader, header_spelling, header_at, block_hash_of, genesis_header};
ghost use Rattle.cf_block.specs.Genesis.{first_tx, first_block, first_tx_bytes, genesis_hash};
ghost use Rattle.cf_block.specs.Tx.{IsTx, IsBlock, tx_spelling, block_spelling};
ghost use Rattle.cf_bytes.specs.{IsBytes};
ghost use Rattle.cf_block.specs.Reading.{tx_at, block_at};
ghost use Rattle.cf_block.specs.Stored.{IsStored, stored_block_at};
ghost use Rattle.cf_block.specs.Merkle.{hashed, NoClash};
ghost use Rattle.cf_block.specs.Commitment.{spelled_txs, IsCommitted, commit_fault};

/// A header is read again from its bytes, whatever follows them, and what is read as a header was spelled so. A header
/// is known by its bytes.
pub fn laws_of_headers()
    ensures again { (h : Header) (more : List ℕ) → IsHeader h → header_at (header_spelling h ++ more) ≡ Ok (h, more) }
    ensures taken { (bytes : List ℕ) (h : Header) (rest : List ℕ) → IsBytes bytes → header_at bytes ≡ Ok (h, rest)
        → (bytes ≡ header_spelling h ++ rest) × IsHeader h }
    ensures one { (a : Header) (b : Header) → IsHeader a → IsHeader b → header_spelling a ≡ header_spelling b → a ≡ b }
{}

/// A transaction is read again from its bytes, whatever follows them, and what is read as a transaction was spelled
/// so. A transaction is known by its bytes.
pub fn laws_of_transactions()
    ensures again { (t : Tx) (more : List ℕ) → IsTx t → tx_at (tx_spelling t ++ more) ≡ Ok (t, more) }
    ensures taken { (bytes : List ℕ) (t : Tx) (rest : List ℕ) → IsBytes bytes → tx_at bytes ≡ Ok (t, rest)
        → (bytes ≡ tx_spelling t ++ rest) × IsTx t }
    ensures one { (a b : Tx) → IsTx a → IsTx b → tx_spelling a ≡ tx_spelling b → a ≡ b }
{}

/// A block is read again from its bytes, and what is read as a block is its spelling, whole. The check of the
/// commitment passes exactly on committed blocks. Two blocks whose headers stand for their transactions are one block
/// where their headers are equal, and no two of the strings that are hashed below the root have one hash.
pub fn laws_of_blocks()
    ensures again { (b : Block) → IsBlock b → block_at (block_spelling b) ≡ Ok (b, []) }
    ensures taken { (bytes : List ℕ) (b : Block) (rest : List ℕ) → IsBytes bytes → block_at bytes ≡ Ok (b, rest)
        → (bytes ≡ block_spelling b) × (rest ≡ []) × IsBlock b }
    ensures passes { (b : Block) → commit_fault b ≡ None → IsCommitted b }
    ensures good { (b : Block) → IsCommitted b → commit_fault b ≡ None }
    ensures one { (a b : Block) → IsBlock a → IsBlock b → IsCommitted a → IsCommitted b
        → NoClash (hashed (spelled_txs a) ++ hashed (spelled_txs b)) → a.header ≡ b.header → a ≡ b }
{}

/// A block that is stored is read again, whichever of its transactions stand there with witnesses, and what is read was
/// stored. A block's bytes without witnesses are one way to store it, and no bytes store two blocks.
pub fn laws_of_stored_blocks()
    ensures plain { (b : Block) → IsBlock b → IsStored (block_spelling b) b }
    ensures again { (bytes : List ℕ) (b : Block) → IsStored bytes b → stored_block_at bytes ≡ Ok (b, []) }
    ensures taken { (bytes : List ℕ) (b : Block) (rest : List ℕ) → IsBytes bytes → stored_block_at bytes ≡ Ok (b, rest)
        → IsStored bytes b × (rest ≡ []) }
    ensures one { (bytes : List ℕ) (a b : Block) → IsStored bytes a → IsStored bytes b → a ≡ b }
{}

/// The first block of regtest's chain has a spelling, its transaction and its hash are the published ones, and its
/// header stands for its transaction.
pub fn laws_of_genesis()
    ensures block { IsBlock first_block }
    ensures tx { tx_spelling first_tx ≡ first_tx_bytes }
    ensures hash { block_hash_of genesis_header ≡ genesis_hash }
    ensures committed { IsCommitted first_block }
{}
