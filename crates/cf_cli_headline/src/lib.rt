//! The headline of a run of the program, from what `sync` and `replay` keep.
#![tactic(auto)]

mod laws;

pub use laws::{the_headline_of_a_run, the_headline_over_a_watch_file};
