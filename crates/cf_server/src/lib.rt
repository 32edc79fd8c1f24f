//! The serving machine: it answers the messages of a connection from the index of a checked chain.
#![tactic(auto)]

mod answering;
mod frames;
mod laws;
mod outcome;
mod plan;
mod reply;
mod serve;

pub use answering::{Serving, answer};
pub use frames::{filter_bytes, message_bytes, write_reply};
pub use laws::laws_of_courses;
pub use outcome::ServeEnd;
pub use reply::{Replies, Reply};
pub use serve::{MOST_FRAMES, PIECE, flush, serve_one};
