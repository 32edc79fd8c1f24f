//! The hashes of filters.
ghost use Rattle.std.specs.Prelude.{◌≡◌};
ghost use Rattle.cf_filter.specs.Filter.{filter_hash_of, filter_header_of};

use cf_bytes::{Hash32, double_hash};
use sha2::{Digest, Sha256};

/// The hash of a filter: SHA-256 of SHA-256 of its bytes (BIP 157, "Filter Headers"). It takes no memory.
#[tactic(auto, unfolding(crate::specs::Filter::filter_hash_of))]
pub fn filter_hash(filter: &[u8]) -> Hash32
    ensures { result.0 ≡ filter_hash_of filter.now }
{
    double_hash(filter)
}

/// The header of a filter: SHA-256 of SHA-256 of its hash and the header before it, 64 bytes. Before
/// the first filter's stand 32 zero bytes (BIP 157, "Filter Headers"). It takes no memory.
#[tactic(auto, unfolding(crate::specs::Filter::filter_header_of, cf_bytes::specs::Hash::hash_of))]
pub fn filter_header(hash: &Hash32, previous: &Hash32) -> Hash32
    ensures { result.0 ≡ filter_header_of hash.now.0 previous.now.0 }
{
    let mut hasher = Sha256::new();
    hasher.update(&hash.0);
    hasher.update(&previous.0);
    Hash32(Sha256::digest(&hasher.finalize()))
}
