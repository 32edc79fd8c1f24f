//! What the record of a run reads as.
#![tactic(auto)]

mod laws;

pub use laws::laws_of_records;
