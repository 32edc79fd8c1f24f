//! Headers, their bytes and their hashes.
ghost use Rattle.std.specs.Prelude.{◌≡◌, ◌++◌, IfOk, OnOk, OnErr};
ghost use Rattle.cf_bytes.specs.{Reads};
ghost use Rattle.cf_block.specs.Genesis.{genesis_hash as genesis_hash_is};
ghost use Rattle.cf_block.specs.Header.{IsHeader, header_spelling, header_fields_at, header_at, block_hash_of, genesis_header as genesis_header_is};

use crate::fault::{BlockFault, BlockFaultKind};
use cf_bytes::{Cut, CutFault, Hash32, NoMemory};
use sha2::{Digest, Sha256};

/// A block's header: 80 bytes, in the order of the fields (Bitcoin developer reference, "Block Headers").
#[derive(Clone, Copy, Debug, PartialEq, Eq)]
pub struct Header {
    pub version: i32,
    /// The hash of the header below.
    pub previous: Hash32,
    /// The root of the Merkle tree of the block's transactions.
    pub root: Hash32,
    /// Seconds since 1970.
    pub time: u32,
    /// The target that the hash must meet, in its short form.
    pub bits: u32,
    pub nonce: u32,
}

/// The first header of regtest's chain.
const GENESIS_HEADER: Header = Header {
    version: 1,
    previous: Hash32([0; 32]),
    root: Hash32([
        0x3b, 0xa3, 0xed, 0xfd, 0x7a, 0x7b, 0x12, 0xb2, 0x7a, 0xc7, 0x2c, 0x3e, 0x67, 0x76, 0x8f,
        0x61, 0x7f, 0xc8, 0x1b, 0xc3, 0x88, 0x8a, 0x51, 0x32, 0x3a, 0x9f, 0xb8, 0xaa, 0x4b, 0x1e,
        0x5e, 0x4a,
    ]),
    time: 1296688602,
    bits: 0x207fffff,
    nonce: 2,
};

/// The hash of that header, first byte first.
const GENESIS_HASH: Hash32 = Hash32([
    0x06, 0x22, 0x6e, 0x46, 0x11, 0x1a, 0x0b, 0x59, 0xca, 0xaf, 0x12, 0x60, 0x43, 0xeb, 0x5b, 0xbf,
    0x28, 0xc3, 0x4f, 0x3a, 0x5e, 0x33, 0x2a, 0x1f, 0xc7, 0xb2, 0xb7, 0x3c, 0xf1, 0x88, 0x91, 0x0f,
]);

/// The first header of regtest's chain. Its hash, last byte first, is
/// 0f9188f13cb7b2c71f2a335e3a4fc328bf5beb436012afca590b1a11466e2206.
#[tactic(auto, unfolding(crate::specs::Header::genesis_header))]
pub fn genesis_header() -> Header
    ensures { result ≡ genesis_header_is }
{
    GENESIS_HEADER
}

/// The hash of the first header of regtest's chain, as it is published. Nothing is hashed here.
#[tactic(auto, unfolding(crate::specs::Genesis::genesis_hash), using(crate::proofs::GenesisLaws::hash_is))]
pub fn genesis_hash() -> Hash32
    ensures published { result.0 ≡ genesis_hash_is }
    ensures hash { result.0 ≡ block_hash_of genesis_header_is }
{
    GENESIS_HASH
}

/// The header in the next 80 bytes. Where fewer are left it answers `Short` at place 0, and the reader stands where
/// it stood.
#[tactic(auto, unfolding(crate::specs::Header::header_at))]
pub fn parse_header(cut: &mut Cut) -> Result<Header, BlockFault>
    ensures exact { Reads (λ h. h) (header_at cut.old) result cut.new }
    ensures found { IfOk result (λ h. cut.old ≡ header_spelling h ++ cut.new) }
    ensures fits { IfOk result (λ h. IsHeader h) }
{
    let start = cut.rest();
    match parse_fields(cut) {
        Ok(header) => Ok(header),
        Err(_) => {
            *cut = Cut::new(start);
            Err(BlockFault {
                kind: BlockFaultKind::Short,
                place: 0,
            })
        }
    }
}

// Takes the bytes before the field that is cut off.
#[tactic(auto, unfolding(crate::specs::Header::header_fields_at, crate::specs::Header::header_spelling))]
fn parse_fields(cut: &mut Cut) -> Result<Header, CutFault>
    ensures exact { Reads (λ h. h) (header_fields_at cut.old) result cut.new }
    ensures found { IfOk result (λ h. cut.old ≡ header_spelling h ++ cut.new) }
    ensures fits { IfOk result (λ h. IsHeader h) }
{
    let version = cut.i32()?;
    let previous = cut.hash()?;
    let root = cut.hash()?;
    let time = cut.u32()?;
    let bits = cut.u32()?;
    let nonce = cut.u32()?;
    Ok(Header {
        version,
        previous,
        root,
        time,
        bits,
        nonce,
    })
}

/// Writes the header's 80 bytes at the end. Where no memory is found nothing is written.
#[tactic(auto, unfolding(crate::specs::Header::header_spelling))]
pub fn write_header(h: &Header, out: &mut Vec<u8>) -> Result<(), NoMemory>
    ensures ok { OnOk result (out.new.items ≡ out.old.items ++ header_spelling h.now) }
    ensures err { OnErr result (out.new.items ≡ out.old.items) }
{
    out.reserve(80)?;
    out.extend_from_slice(&h.version.cast_unsigned().to_le_bytes())
        .unwrap();
    out.extend_from_slice(&h.previous.0).unwrap();
    out.extend_from_slice(&h.root.0).unwrap();
    out.extend_from_slice(&h.time.to_le_bytes()).unwrap();
    out.extend_from_slice(&h.bits.to_le_bytes()).unwrap();
    out.extend_from_slice(&h.nonce.to_le_bytes()).unwrap();
    Ok(())
}

/// The hash of the header's 80 bytes.
pub fn block_hash(h: &Header) -> Hash32
    ensures { result.0 ≡ block_hash_of h.now }
{
    let mut hasher = Sha256::new();
    hasher.update(&h.version.cast_unsigned().to_le_bytes());
    hasher.update(&h.previous.0);
    hasher.update(&h.root.0);
    hasher.update(&h.time.to_le_bytes());
    hasher.update(&h.bits.to_le_bytes());
    hasher.update(&h.nonce.to_le_bytes());
    Hash32(Sha256::digest(&hasher.finalize()))
}
