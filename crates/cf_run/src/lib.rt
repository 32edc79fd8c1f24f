//! The run over wires: a client is told what the wires bring, and what it answers is sent, until nothing more comes.
#![tactic(auto)]

mod follow;
mod outcome;
mod over;
mod progress;
mod shown;
mod texts;
mod trace;

pub use follow::{follow_over, follow_traced};
pub use outcome::{End, Outcome};
pub use over::{sync_over, sync_traced};
pub use texts::{KeptTexts, Live, TextFail, Texts};
pub use trace::TraceLine;
