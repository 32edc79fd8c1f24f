//! Why bytes aren't the code of a list.

use cf_bytes::{CutFault, Fault};
use thiserror::Error;

/// Why bytes aren't the code of a list: the first that comes up in reading.
#[derive(Clone, Copy, Debug, PartialEq, Eq, Error)]
pub enum SetFault {
    /// The number of values can't be read.
    #[error("the number of values can't be read")]
    Cut(CutFault),
    /// A code isn't whole, or there are too few bits for so many.
    #[error("a code isn't whole")]
    Ends,
    /// A value is at or above the number of values times 784,931.
    #[error("a value is above the limit")]
    Over,
    /// A bit after the last code in its byte isn't zero.
    #[error("the padding isn't zero")]
    Padding,
    /// A byte follows the last code's.
    #[error("bytes follow the last code")]
    Excess,
}

impl Fault for SetFault {}
