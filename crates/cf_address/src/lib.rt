//! Addresses of witness programs (BIP 173 and BIP 350), and their scripts.
#![tactic(auto)]

mod alphabet;
mod checksum;
mod fault;
mod fives;
mod laws;
mod reading;
mod scripts;
mod witness;
mod writing;

pub use fault::AddressFault;
pub use laws::laws_of_addresses;
pub use reading::{is_prefix, read};
pub use scripts::{program, script};
pub use witness::Program;
pub use writing::write;
