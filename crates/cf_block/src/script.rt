//! Scripts.
use cf_bytes::Listed;

/// A script: any bytes. Contracts see it as their list.
pub type Script = Listed<u8>;
