//! Filters matched with watched scripts by threads that were started before.
#![tactic(auto)]

mod gate;
mod hand;
mod laws;
mod packed;
mod parallel;
mod parts;
mod same;
mod worker;

pub use gate::{Gate, Open};
pub use laws::laws_of_parts;
pub use parallel::Parallel;
pub use parts::place;
