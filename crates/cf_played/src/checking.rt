//! The check of a chain that is to be served.
ghost use Rattle.std.specs.Prelude.{◌≡◌, IfOk};
ghost use Rattle.cf_chain.specs.{IsGoodChain};
ghost use Rattle.cf_played.specs.Told.{IfRefused};

use cf_bytes::Refused;
use cf_index::{CheckedChain, read_chain};
use cf_make::{Chain, records};
use cf_walk::BadBlock;
use std::alloc::Global;

// The chain, checked. It is refused only where it isn't good, or for want of memory.
pub(crate) fn checked(alloc: Global, chain: &Chain) -> Result<CheckedChain, Refused<BadBlock>>
    ensures same { IfOk result (λ blocks. IsGoodChain chain.now → blocks ≡ chain.now) }
    ensures good { IfOk result (λ blocks. IsGoodChain blocks) }
    ensures bad { IfRefused result (¬ (IsGoodChain chain.now)) }
{
    let bytes = records(alloc, chain)?;
    read_chain(alloc, &bytes)
}
