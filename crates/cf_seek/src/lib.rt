//! What is open to a client's peers, and what one of them is to be asked for next.
#![tactic(auto)]

mod aims;
mod cursors;
mod ends;
mod known;
mod laws;
mod open_at;
mod opens;
mod seek;
mod spans;
mod testing;
mod tried;
mod want;
mod wishes;

pub use aims::Aims;
pub use cursors::Cursors;
pub use known::Known;
pub use laws::what_is_passed_stays_so;
pub use opens::Opens;
pub use seek::{fall_below_hits, is_any_left, next_sought, passed_below};
pub use spans::{Span, Wish, raise_asked};
pub use testing::{Exposure, Trial, first_exposed, is_claimed, next_trial};
pub use tried::{Tried, fall_below_dispute, fall_below_disputes};
pub use wishes::wish_for;
