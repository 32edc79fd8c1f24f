//! What the program does of a run of the client: it follows over any wires, and what is written of the run, and its
//! record.
#![tactic(auto)]

mod following;
mod once;
mod recording;
mod telling;

pub use following::{follow_and_record, follow_on_tape};
pub use once::run_once;
