//! Made chains of regtest, told by a seed: for `make`, `demo` and tests.
#![tactic(auto)]

mod copying;
mod laws;
mod making;
mod mining;
mod paying;
mod recording;
mod spending;
mod streaming;
mod tipped;
mod witnessing;

pub use laws::{laws_of_made_chains, laws_of_made_records};
pub use making::{Chain, chain, extend};
pub use mining::{NoNonce, mine};
pub use paying::script;
pub use recording::records;
pub use streaming::made_records;
pub use tipped::AtHeight;
