//! The filter of a block, and what goes with it.
ghost use Rattle.std.specs.Prelude.{◌≡◌};
ghost use Rattle.cf_filter.specs.{filter_hash_of};

use crate::shared::SharedFilter;
use cf_bytes::Hash32;

/// A block's hash, its basic filter, the filter's hash, and the filter's header, which stands for all filters up to it
/// (BIP 157, "Filter Headers").
#[derive(Drop)]
pub(crate) struct BlockFilter {
    pub block: Hash32,
    pub filter: SharedFilter,
    pub hash: Hash32,
    pub header: Hash32,
    ghost hashed: { hash.0 ≡ filter_hash_of filter },
}

/// A block's hash, its basic filter (BIP 158, "Contents") and the filter's hash (BIP 157, "Filter Headers"), before the
/// filter's header is known.
#[derive(Drop)]
pub struct BareFilter {
    /// The block's hash, in wire order.
    pub block: Hash32,
    /// The filter's bytes: the number of its values and their Golomb code (BIP 158, "Construction").
    pub filter: SharedFilter,
    /// SHA-256 of SHA-256 of the filter's bytes, in wire order.
    pub hash: Hash32,
    ghost hashed: { hash.0 ≡ filter_hash_of filter },
}
