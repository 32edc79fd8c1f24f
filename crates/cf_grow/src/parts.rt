//! What a message is answered with, as it is held.
ghost use Rattle.std.specs.Prelude.{◌≡◌, length};

use crate::held::HeldParts;
use cf_msg::Bytes;

/// An answer, held: the bytes that are told first, and the parts behind them, so many.
#[derive(Drop)]
pub struct Parts {
    pub(crate) told: Bytes,
    pub(crate) rest: HeldParts,
    pub(crate) count: usize,
    ghost whole: { count ≡ length rest },
}
