//! Basic filters of blocks, by BIP 158: their items, their bytes, their hashes and headers, and whether
//! a script may be among the items.
#![tactic(auto)]

mod building;
mod collecting;
mod hashes;
mod key;
mod lacking;
mod laws;
mod lent;
mod matching;
mod set;

pub use building::build;
pub use collecting::items;
pub use hashes::{filter_hash, filter_header};
pub use lacking::{lacks, output_items};
pub use laws::{laws_of_filters, laws_of_items, laws_of_outputs};
pub use lent::view_output_items;
pub use matching::matches;
pub use set::Items;
