//! Standard error, which holds nobody up where it isn't read.
#![tactic(auto)]

mod teller;

pub use teller::Teller;
