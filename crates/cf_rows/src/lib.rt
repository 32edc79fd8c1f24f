//! What cf_cases, cf_hub_cases and cf_tests have in common: calls of the program in memory, and their texts.
#![tactic(auto)]

mod calls;
mod host;
mod spawning;

pub use calls::{answered, no_link, shown};
pub use host::Host;
pub use spawning::Limited;
