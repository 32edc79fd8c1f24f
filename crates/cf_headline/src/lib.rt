//! The headline: what the sync theorem says by the bytes that passed alone, and the laws by which it follows.
#![tactic(auto)]

mod laws;

pub use laws::{a_run_that_the_headline_speaks_of, the_headline, what_is_sent_is_messages};
