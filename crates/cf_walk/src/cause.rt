//! Why a file of blocks is refused.

use cf_block::{BlockFaultKind, CommitFault};
use cf_bytes::Fault;
use cf_coins::CoinFault;
use cf_headers::HeaderFault;
use thiserror::Error;

/// The first rule that a record of a file breaks, in this order.
#[derive(Clone, Copy, Debug, PartialEq, Eq, Error)]
pub enum RecordCause {
    /// Fewer than 8 bytes are left, or fewer than the record's length says.
    #[error("the record is cut off")]
    Cut,
    /// The record doesn't begin with regtest's magic.
    #[error("the record begins with another magic")]
    Magic,
    /// Its length is above 4,000,000.
    #[error("the record is too long")]
    TooLong,
    /// Its bytes are no block.
    #[error("no block: {0}")]
    Block(BlockFaultKind),
    /// The header may not stand on the one before.
    #[error("no header here: {0}")]
    Header(HeaderFault),
    /// The block would stand above height 500,000.
    #[error("the chain is too high")]
    TooHigh,
    /// The header doesn't stand for the transactions.
    #[error("{0}")]
    Commit(CommitFault),
    /// The transactions don't fit the coins.
    #[error("{0}")]
    Coins(CoinFault),
}

impl Fault for RecordCause {}

/// The first record of a file that is refused, by its number, counted from 1, and why.
#[derive(Clone, Copy, Debug, PartialEq, Eq, Error)]
#[error("record {number}: {cause}")]
pub struct BadBlock {
    pub number: u32,
    pub cause: RecordCause,
}
