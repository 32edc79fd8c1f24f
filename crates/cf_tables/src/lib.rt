//! Tables by block: extracts, outputs, verdicts on filters, and tests of filters; and what is still to be done about a
//! block.
#![tactic(auto)]

mod extracts;
mod first;
mod judged;
mod kind;
mod outputs;
mod tests;

pub use extracts::Extracts;
pub use first::First;
pub use judged::Judged;
pub use kind::{
    BlockKind, is_any_disputed, is_differing, is_done, is_unclaimed, is_unjudged, kind_above,
    kind_of,
};
pub use outputs::Outputs;
pub use tests::Tests;
