//! What the plainest words ask for, and what the plainest watch files name.
#![tactic(auto)]

mod laws;

pub use laws::{a_watch_file_of_scripts, the_words_of_replay, the_words_of_sync};
