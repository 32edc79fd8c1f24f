//! One connected peer: its framer, its handshake and its one open request; and the client's words: Act, Cause, Mode and
//! Reaction.
#![tactic(auto)]

mod act;
mod claims;
mod filters;
mod held;
mod lent;
mod mode;
mod peer;

pub use act::Act;
pub use claims::cause_of;
pub use filters::Heard;
pub use lent::{Coming, next_coming};
pub use mode::Mode;
pub use peer::{Batch, Cause, Peer, Range, Reaction, Request};
