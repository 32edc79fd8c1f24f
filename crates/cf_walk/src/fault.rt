//! Why no chain of blocks was read from a source.
ghost use Rattle.cf_walk.specs.Striding.{IsUnread};

use crate::cause::BadBlock;
use cf_conn::ReadFail;
use thiserror::Error;

/// The most bytes of a file of blocks.
pub const MOST_BLOCKS: usize = 1_073_741_824;

/// Why no chain was read.
#[derive(Clone, Copy, Debug, PartialEq, Eq, Error)]
pub enum LoadFault {
    /// The first record that is refused.
    #[error("{0}")]
    BadBlock(BadBlock),
    /// There are more than 1,073,741,824 bytes.
    #[error("the blocks have too many bytes")]
    TooBig,
    /// The source has failed.
    #[error("the blocks can't be read")]
    ReadFault,
    /// No memory was found.
    #[error("no memory")]
    NoMemory,
}

/// The answer where not all bytes were read.
pub fn fault_of(fail: ReadFail) -> LoadFault
    ensures { IsUnread fail result }
{
    match fail {
        ReadFail::Failed => LoadFault::ReadFault,
        ReadFail::TooBig => LoadFault::TooBig,
        ReadFail::NoMemory => LoadFault::NoMemory,
    }
}
