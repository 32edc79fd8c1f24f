//! Why a text is no address.

use cf_bytes::Fault;
use thiserror::Error;

/// Why a text is no address: the first of these that holds.
#[derive(Clone, Copy, Debug, PartialEq, Eq, Error)]
pub enum AddressFault {
    /// It has more than 90 bytes.
    #[error("the address has more than 90 characters")]
    Long = 1,
    /// A byte is outside 0x21 to 0x7e.
    #[error("a character can't stand in an address")]
    Byte = 2,
    /// It has letters of both cases.
    #[error("the address has both capital and small letters")]
    Mixed = 3,
    /// There is no `1`, or other text than the prefix before the last one.
    #[error("the address is not of this network")]
    Prefix = 4,
    /// A character after the prefix stands for no value.
    #[error("a character can't stand after the prefix")]
    Digit = 5,
    /// Fewer than seven values follow the prefix, or the first one is above 16.
    #[error("the address is too short, or of an unknown version")]
    Version = 6,
    /// The check value is not that of the version.
    #[error("a character is mistyped")]
    Checksum = 7,
    /// More than four bits are left over, or one that isn't zero.
    #[error("the padding isn't zero")]
    Padding = 8,
    /// A program of this version can't have so many bytes.
    #[error("the address has the wrong length")]
    Length = 9,
}

impl Fault for AddressFault {}
