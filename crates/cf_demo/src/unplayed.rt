//! Why nothing was played.
ghost use Rattle.std.specs.Prelude.{◌≡◌};
ghost use Rattle.cf_demo.specs.declared.unplayed.Unplayed.TheVariants.{NoMemory as OutOfMemory};

use cf_bytes::NoMemory;
use cf_make::AtHeight;
use thiserror::Error;

/// Why no run was made.
#[derive(Clone, Copy, Debug, PartialEq, Eq, Error)]
pub enum Unplayed {
    /// None of the nonces from 0 to 65,535 meets the target at this height of a chain that was to be made.
    #[error("{0}")]
    NoNonce(AtHeight),
    /// Two different transactions of a made chain have one hash, so the chain isn't good.
    #[error("two transactions of a made chain have one hash")]
    Clash,
    /// No memory was found.
    #[error("no memory")]
    NoMemory,
}

impl From<NoMemory> for Unplayed {
    ghost from_gives = { λ _ e. e ≡ OutOfMemory };

    fn from(_e: NoMemory) -> Unplayed {
        Unplayed::NoMemory
    }
}
