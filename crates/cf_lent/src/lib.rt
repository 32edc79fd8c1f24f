//! Messages that are read without memory: their lists and bytes are lent out of the payload.
#![tactic(auto)]

mod viewing;
mod views;

pub use viewing::{EntriesView, HashesView, HeadersView, Text, view};
pub use views::View;
