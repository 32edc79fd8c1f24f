//! The wires between the client and its peers: what passes them, and their log.
#![tactic(auto)]

mod event;
mod memory;
mod session;
mod wires;

pub use event::{Delivery, Dial, Event, Mark, Name, Piece};
pub use memory::{MemoryWires, Scripted};
pub use session::{put_deliveries, put_dials};
pub use wires::{WireFail, Wires};
