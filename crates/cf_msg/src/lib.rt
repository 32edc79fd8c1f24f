//! Messages of the Bitcoin protocol, and the frames that carry them (Bitcoin developer reference, "P2P Network").
#![tactic(auto)]

mod command;
mod laws;
mod lent;
mod lists;
mod msg;
mod reader;
mod writer;

pub use command::{Kind, kind_of};
pub use laws::laws_of_messages;
pub use lent::frame_block;
pub use lists::{Bytes, Entries, Hashes, Headers};
pub use msg::{BLOCK_KIND, Cause, Inventory, Malformed, Msg, NetAddress};
pub use reader::{
    MAX_ENTRIES, MAX_FILTER_HASHES, MAX_HEADERS, MAX_LOCATOR, address_of, byte_or_none, count_of,
    entry_of, hash_of, header_of, read,
};
pub use writer::write;
