//! The commands that need no peer: over files of blocks, proofs of transactions, addresses, and made chains.
#![tactic(auto)]

mod addressing;
mod making;
mod proving;
mod reading;

pub use addressing::address;
pub use making::make;
pub use proving::{check, prove};
pub use reading::{filter, scan};
