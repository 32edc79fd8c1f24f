//! The command that shows the client over played peers.
#![tactic(auto)]

mod demoing;

pub use demoing::{demo, demo_text, session};
