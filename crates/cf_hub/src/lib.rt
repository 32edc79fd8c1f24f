//! Peers over threads: a reader for each, a ticker, and one queue from which the deliveries come.
#![tactic(auto)]

mod book;
mod hub;
mod joining;
mod making;
mod taking;
mod writers;

pub use book::HubLog;
pub use hub::Hub;
pub use joining::{Joined, Rested};
