//! The command that serves a file of blocks.
#![tactic(auto)]

mod serving;

pub use serving::serve;
