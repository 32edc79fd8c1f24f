//! The headline of the program, for `cf sync WATCH PEER..` and `cf replay WATCH SESSION` as they are written.
#![tactic(auto)]

mod laws;

pub use laws::{the_headline_of_replay, the_headline_of_sync};
