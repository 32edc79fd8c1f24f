//! Proofs, in parts.
use cf_block::Header;
use cf_bytes::{Hash32, Listed};

/// A partial Merkle tree under a header (BIP 37 "merkleblock").
#[derive(Drop, Debug)]
pub struct Proof {
    pub header: Header,
    /// How many transactions the block has.
    pub total: u32,
    /// The hashes of nodes, in the order of the walk.
    pub hashes: Listed<Hash32>,
    /// The bits of nodes in the same order, the least significant of each byte first.
    pub flags: Listed<u8>,
}
