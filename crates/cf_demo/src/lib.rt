//! The client over played peers: what `demo` runs and writes, and that an honest played peer is an honest peer.
#![tactic(auto)]

mod counting;
mod demo;
mod laws;
mod playing;
mod running;
mod unplayed;

pub use demo::Demo;
pub use laws::{
    a_played_peer_is_honest, a_played_peer_shows_parts_of_its_chain,
    a_silent_peer_is_left_with_another_chain, three_played_peers_tell_the_honest_chain,
};
pub use playing::{play_demo, play_session};
pub use running::sync_played;
pub use unplayed::Unplayed;
