//! What a user gives the program: the words of a command, numbers, addresses, the watch file, the session file and that
//! of a proof.
#![tactic(auto)]

mod addresses;
mod laws;
mod lines;
mod mistakes;
mod number;
mod proof_file;
mod session;
mod text;
mod watch_file;
mod words;

pub use addresses::{AddressCause, other_form};
pub use laws::{laws_of_lines, laws_of_numbers};
pub use mistakes::mistake_text;
pub use number::number_within;
pub use proof_file::{ProofCause, ProofFileFault, Proven, read_proof_file};
pub use session::{MOST_SECONDS, Session, SessionCause, SessionFault, read_session};
pub use text::{PeerNames, Word, is_name};
pub use watch_file::{WatchCause, WatchFileFault, read_watch};
pub use words::{
    Command, ENDLESS, Growth, MOST_AT_ONCE, MOST_BUDGET, MOST_CONNECTIONS, MOST_GROWTH,
    MOST_HEIGHT, MOST_MADE, MOST_PLAYED, MOST_SEED, MOST_TURNS, MOST_WORKERS, USUAL_AT_ONCE,
    USUAL_BUDGET, USUAL_GROWTH, USUAL_WORKERS, Usage, is_help, is_help_word, is_version,
    read_words,
};
