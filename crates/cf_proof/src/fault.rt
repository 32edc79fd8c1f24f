//! Why bytes are no proof of a transaction.
ghost use Rattle.std.specs.Prelude.{◌≡◌};
ghost use Rattle.cf_proof.specs.Causes.{of_cut};

use cf_bytes::{CutFault, Fault};
use thiserror::Error;

/// Why bytes are no proof of a transaction: the first of these that holds, where the first four are told of the first
/// field that can't be read.
#[derive(Clone, Copy, Debug, PartialEq, Eq, Error)]
pub enum ProofFault {
    /// Fewer bytes are left than a field has.
    #[error("fewer bytes are left than a field has")]
    Short = 1,
    /// A CompactSize isn't in its shortest form.
    #[error("a CompactSize isn't in its shortest form")]
    NotShortest = 2,
    /// A CompactSize is above 33,554,432.
    #[error("a CompactSize is above 33,554,432")]
    TooLarge = 3,
    /// Bytes follow the last field.
    #[error("bytes follow the proof")]
    Rest = 4,
    /// The number of transactions is 0 or above 16,666.
    #[error("there are no transactions, or more than 16,666")]
    Total = 5,
    /// There are more hashes than transactions.
    #[error("there are more hashes than transactions")]
    Hashes = 6,
    /// The transaction has 64 bytes, so that it can be read as a node of the tree.
    #[error("the transaction has 64 bytes")]
    Tx64 = 7,
    /// There are fewer bits than hashes.
    #[error("there are fewer bits than hashes")]
    Bits = 8,
    /// The walk lacks a bit or a hash.
    #[error("the walk through the tree lacks a bit or a hash")]
    Ends = 9,
    /// Two children of a node that are both there are equal.
    #[error("two children of a node are equal")]
    Same = 10,
    /// A hash, or a whole byte of bits, isn't used.
    #[error("a hash or a byte of bits isn't used")]
    Left = 11,
    /// The root of the tree isn't the header's.
    #[error("the Merkle root is another one")]
    Root = 12,
    /// The transaction's hash isn't matched.
    #[error("the proof is of another transaction")]
    Absent = 13,
}

impl Fault for ProofFault {}

impl From<CutFault> for ProofFault {
    ghost from_gives = { λ fault e. e ≡ of_cut fault };

    fn from(fault: CutFault) -> ProofFault {
        match fault {
            CutFault::Short => ProofFault::Short,
            CutFault::NotShortest => ProofFault::NotShortest,
            CutFault::TooLarge => ProofFault::TooLarge,
        }
    }
}
