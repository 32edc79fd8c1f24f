//! Peers over TCP, as wires that tell the user what passes: a hub, and what is told of it on standard error.
#![tactic(auto)]

mod calls;
mod counting;
mod network;
mod outside;
mod pacing;
mod passed;
mod pulse;

pub use network::Network;
pub use passed::{Asked, FilterSpan};
