//! A command's files, read and judged: the watch file, the session file, the file of blocks and that of a proof, and
//! the scan of the blocks.
#![tactic(auto)]

mod loading;
mod scanning;

pub use loading::{
    MOST_PROOF, MOST_SESSION, MOST_WATCH, load_chain, load_proof, load_session, load_watch,
    scan_file,
};
