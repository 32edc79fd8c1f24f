//! The answers of the program, with what is wrong and where, how a text is written, and what the program says of itself.
#![tactic(auto)]

mod own_texts;
mod pages;
mod status;
mod writing;

pub use own_texts::own_text;
pub use status::{FileCause, Status, Which};
pub use writing::{hash_line, line_of, write};
