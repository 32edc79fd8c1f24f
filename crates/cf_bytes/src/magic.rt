//! The network that all of it is for.

/// The bytes that begin each frame and each record of a block file on regtest.
pub const MAGIC: [u8; 4] = [0xfa, 0xbf, 0xb5, 0xda];
