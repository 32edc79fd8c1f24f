//! Mining.
ghost use Rattle.std.specs.Prelude.{◌≡◌};
ghost use Rattle.cf_make.specs.Mined.{Mines};

use cf_block::{Header, block_hash};
use cf_headers::meets_target;
use thiserror::Error;

/// None of the nonces that were tried meets the target.
#[derive(Clone, Copy, Debug, PartialEq, Eq, Error)]
#[error("no nonce meets the target")]
pub struct NoNonce;

/// The header with the least nonce from 0 whose hash meets the target, of the nonces below `tries`. `NoNonce` comes
/// exactly where none of them does, so always where `tries` is 0. It takes no memory.
pub fn mine(header: &Header, tries: u32) -> Result<Header, NoNonce>
    ensures { Mines header.now tries result }
{
    for nonce in 0..tries {
        let mined = Header { nonce, ..*header };
        if meets_target(&block_hash(&mined)) {
            return Ok(mined);
        }
    }
    Err(NoNonce)
}
