//! The client: a machine that takes deliveries and says what is to be done.
#![tactic(auto)]

mod ask;
mod blame;
mod client;
mod deliver;
mod held;
mod laws;

pub use client::Client;
pub use held::Held;
pub use laws::laws_of_holding;
