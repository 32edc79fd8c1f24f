//! Blocks that lend the bytes that they were read from, and whether their headers stand for their transactions.
#![tactic(auto)]

mod commitment;
mod items;
mod view;

pub use commitment::{check_view, check_view_by, view_txids};
pub use items::Items;
pub use view::{BlockView, InView, InsView, OutView, OutsView, TxView, TxsView, view_block};
