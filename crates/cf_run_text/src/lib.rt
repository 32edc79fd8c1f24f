//! What the program writes of a run: its trace, its history and its tip.
#![tactic(auto)]

mod texts;

pub use texts::{put_trace, text_of};
