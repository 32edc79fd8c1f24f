//! Filters that a peer makes otherwise.
use cf_bytes::{Hash32, Listed};

// A block's hash, the filter that is sent for it, that filter's hash, and the filter header that goes with it.
#[derive(Drop, Debug)]
pub(crate) struct Filtered {
    pub(crate) block: Hash32,
    pub(crate) filter: Listed<u8>,
    pub(crate) hash: Hash32,
    pub(crate) header: Hash32,
}
