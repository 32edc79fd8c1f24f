//! Chains of blocks that are read from files and sources and checked, and the index of such a chain: its blocks and
//! filters by height and by hash.
#![tactic(auto)]

mod block_filter;
mod chain;
mod checked;
mod commitment;
mod file;
mod filters;
mod heights;
mod index;
mod laws;
mod shared;
mod source;
mod tx_index;

pub use block_filter::BareFilter;
pub use checked::CheckedChain;
pub use commitment::Commitment;
pub use file::read_chain;
pub use index::Index;
pub use laws::{laws_of_adding, laws_of_files};
pub use shared::{SharedBlock, SharedFilter};
pub use source::read_source;
pub use tx_index::TxIndex;
