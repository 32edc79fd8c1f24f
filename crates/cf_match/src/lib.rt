//! Matching basic filters (BIP 158) with watched scripts.
#![tactic(auto)]

mod job;
mod laws;
mod matcher;

pub use job::{Job, Verdict};
pub use laws::laws_of_verdicts;
pub use matcher::{Matcher, Plain};
