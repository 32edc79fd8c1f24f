//! The place of each peer's number: a connected peer, or how it was lost; and the state that the places show.
#![tactic(auto)]

mod place;
mod state;

pub use place::{Loss, PeerEnd, Place};
pub use state::State;
