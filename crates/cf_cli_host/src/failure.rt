//! A call over a file, or over the output, that failed.
use std::io;

/// What the call was for.
#[derive(Clone, Copy, Debug, PartialEq, Eq)]
pub enum Asked {
    /// The file that a command reads first.
    First,
    /// The file that it reads after that one.
    Second,
    /// The file that it writes.
    Written,
    /// Standard output.
    Output,
}

/// The last call that failed, and why, as the system says it.
#[derive(Clone, Copy)]
pub struct Failure {
    pub asked: Asked,
    pub reason: io::Error,
}
