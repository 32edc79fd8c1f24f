//! All the bytes of a source.
ghost use Rattle.std.specs.Prelude.{◌≡◌, ◌+◌, ◌||◌, is_ok};
ghost use Rattle.cf_conn.specs.ReadAll.{ReadsAll, Counts, HasRead};
ghost use Rattle.cf_conn.specs.declared.reading.ReadFail.TheVariants as fails;

use crate::source::Source;
use cf_bytes::Failed;
use std::alloc::{AllocError, AllocFailed, Global};
use thiserror::Error;

/// Why a source was not read to its end.
#[derive(Clone, Copy, Debug, PartialEq, Eq, Error)]
pub enum ReadFail {
    /// The source has failed.
    #[error("the source failed")]
    Failed,
    /// It has more bytes than the call allows.
    #[error("there are too many bytes")]
    TooBig,
    /// No memory was found.
    #[error("no memory")]
    NoMemory,
}

impl From<Failed> for ReadFail {
    ghost from_gives = { λ _ e. e ≡ fails.Failed };

    fn from(_e: Failed) -> ReadFail {
        ReadFail::Failed
    }
}

impl From<AllocError> for ReadFail {
    ghost from_gives = { λ _ e. e ≡ fails.NoMemory };

    fn from(_e: AllocError) -> ReadFail {
        ReadFail::NoMemory
    }
}

impl<T: Drop> From<AllocFailed<T>> for ReadFail {
    ghost from_gives = { λ _ e. e ≡ fails.NoMemory };

    fn from(_e: AllocFailed<T>) -> ReadFail {
        ReadFail::NoMemory
    }
}

/// Reads a source to its end. `TooBig` comes where it has more than `most` bytes; at most one byte past
/// `most` is read.
#[tactic(auto, using(crate::proofs::Steps::read_more, std::proofs::lemmas::Grind::common_steps))]
pub fn read_all<S: Source>(alloc: Global, source: &mut S, most: usize) -> Result<Vec<u8>, ReadFail>
    ensures answer { ReadsAll most (S.left source.old) (S.left source.new) result }
    ensures no_further { HasRead (most + 1) (S.left source.old) (S.left source.new) }
    ensures ended { S.ended source.new ≡ (S.ended source.old || is_ok result) }
    ensures count { Counts result (S.faults source.old) (S.faults source.new) }
{
    let mut bytes = Vec::new(alloc);
    let mut piece = [0u8; 4096];
    while bytes.len() <= most {
        let room = (most - bytes.len()).saturating_add(1).min(piece.len());
        let n = source.read(&mut piece[..room])?;
        if n == 0 {
            return Ok(bytes);
        }
        bytes.extend_from_slice(&piece[..n])?;
    }
    Err(ReadFail::TooBig)
}
