//! What is to be matched, and what comes of it.
use cf_bytes::{Hash32, Listed};

/// A filter that came for a block (BIP 157, "cfilter").
#[derive(Drop, Debug)]
pub struct Job {
    /// The block's hash, in wire order. Its first 16 bytes are the filter's key (BIP 158, "Hashing Data Objects").
    pub block: Hash32,
    /// The filter as it came, any bytes.
    pub filter: Listed<u8>,
}

/// What a filter says of the watched scripts (BIP 158, "Golomb-Coded Set Multi-Match").
#[derive(Clone, Copy, Debug, PartialEq, Eq)]
pub enum Verdict {
    /// It is a Golomb code, and none of them has a value in it: where it was made of the block's items, none is an
    /// item.
    Miss,
    /// One of them has a value in it, and so may be an item; or the bytes are no Golomb code.
    Hit,
}
