//! Why a block's transactions don't fit the coins.

use cf_block::OutPoint;
use cf_bytes::Fault;
use std::fmt;
use thiserror::Error;

// An outpoint as people read it: the transaction's hash, its last byte first, and the output's number.
#[derive(Clone, Copy)]
struct Named<'a>(&'a OutPoint);

impl fmt::Display for Named<'_> {
    fn fmt<W: fmt::Write>(&self, f: &mut fmt::Formatter<W>) -> fmt::Result {
        for byte in self.0.txid.0.iter().rev() {
            write!(f, "{byte:02x}")?;
        }
        write!(f, ":{}", self.0.index)
    }
}

/// The first rule by which a block's transactions don't fit the coins: the coinbases are judged first, and then each
/// transaction, its inputs before its outputs.
#[derive(Clone, Copy, Debug, PartialEq, Eq, Error)]
pub enum CoinFault {
    /// The first transaction is no coinbase.
    #[error("the first transaction is no coinbase")]
    NoCoinbase,
    /// A transaction after the first is a coinbase.
    #[error("a second transaction is a coinbase")]
    SecondCoinbase,
    /// An input names an output that isn't there, or isn't there any more.
    #[error("an input spends {coin}, which isn't there", coin = Named(.0))]
    Missing(OutPoint),
    /// An output would be put over one that still stands.
    #[error("the output {coin} stands already", coin = Named(.0))]
    Exists(OutPoint),
}

impl Fault for CoinFault {}
