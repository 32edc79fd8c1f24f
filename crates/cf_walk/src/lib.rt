//! Records of a file of blocks, the checks of a block on the chain below it, and a walk over a source's records that
//! keeps no block.
#![tactic(auto)]

mod cause;
mod checks;
mod fault;
mod file;
mod judge;
mod record;
mod walk;

pub use cause::{BadBlock, RecordCause};
pub use cf_coins::CoinFault;
pub use checks::{
    Found, judge_before_coins, judge_by, judge_coins, judge_commitment, judge_header, judge_height,
};
pub use fault::{LoadFault, MOST_BLOCKS, fault_of};
pub use file::{after_genesis, block_of, is_end};
pub use record::take_record;
pub use walk::Walk;
