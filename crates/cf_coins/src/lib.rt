//! The coins of a chain, and what the transactions of a block spend of them and put in.
#![tactic(auto)]

mod check;
mod coins;
mod fault;
mod spend;

pub use check::check_block;
pub use coins::Coins;
pub use fault::CoinFault;
pub use spend::{Spent, spend_block};
