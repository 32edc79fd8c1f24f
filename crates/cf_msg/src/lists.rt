//! Lists that messages hold. Contracts see each as its list.
use crate::msg::Inventory;
use cf_block::{Header, Listed};
use cf_bytes::Hash32;

/// Hashes, as of a locator.
pub type Hashes = Listed<Hash32>;

/// Headers of blocks.
pub type Headers = Listed<Header>;

/// Entries of an inventory.
pub type Entries = Listed<Inventory>;

/// Any bytes.
pub type Bytes = Listed<u8>;
