//! Peers in memory, as wires: each answers at once what it is sent, as the serving machine of a chain does.
#![tactic(auto)]

mod checking;
mod filtered;
mod frames;
mod hearing;
mod kind;
mod laws;
mod omitting;
mod played;
mod player;
mod turns;
mod waiting;

pub use kind::{Manner, Way};
pub use laws::laws_of_made_files;
pub use played::Played;
