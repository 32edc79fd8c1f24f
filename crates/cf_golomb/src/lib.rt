//! The Golomb code of a sorted list of values, by BIP 158 with P = 19 and M = 784,931.
#![tactic(auto)]

mod fault;
mod laws;
mod meeting;
mod reading;
mod source;
mod word_reader;
mod writing;

pub use fault::SetFault;
pub use laws::laws_of_sets;
pub use meeting::meets;
pub use reading::{count, decode};
pub use writing::encode;
