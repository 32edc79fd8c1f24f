//! A plain store of the chains that peers show: a list of headers for each peer.
#![tactic(auto)]

mod kept;
mod lists;
mod slot;
mod table;

pub use lists::Lists;
