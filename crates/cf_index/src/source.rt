//! Chains of blocks that are read from a source.
ghost use Rattle.std.specs.Prelude.{◌≡◌, ℕ, List, Some, true, IfOk};
ghost use Rattle.cf_chain.specs.{IsGoodChain};
ghost use Rattle.cf_conn.specs.Steps.{Steps};
ghost use Rattle.cf_walk.specs.{CountsLoad, ReadsAs};

use crate::checked::CheckedChain;
use cf_bytes::NoMemory;
use cf_conn::Source;
use cf_walk::{LoadFault, Walk};
use std::alloc::Global;

/// The chain of the blocks that a source gives, whose bytes are those of a file of blocks (`read_chain`). Each block is
/// read, hashed and judged once, as its bytes come: of these fewer than 4,065,544 are held, those of one record and one
/// piece that is read at once (`Walk`). Of the source the first 1,073,741,824 bytes count.
///
/// # Errors
///
/// `BadBlock` for the first record that is refused within the source's first 1,073,741,824 bytes. `TooBig` where none
/// is and the source gives another byte. `ReadFault` where the source fails.
#[tactic(auto, using(crate::proofs::Sources::reading))]
pub fn read_source<S: Source>(alloc: Global, source: &mut S) -> Result<CheckedChain, LoadFault>
    ensures reads { (bytes : List ℕ) → S.left source.old ≡ Some bytes → ReadsAs bytes result }
    ensures good { IfOk result (λ blocks. IsGoodChain blocks) }
    ensures ended { IfOk result (λ _. S.ended source.new ≡ true) }
    ensures count { CountsLoad result (S.faults source.old) (S.faults source.new) }
    ensures steps { Steps S.reads source.old source.new }
{
    let mut walk = Walk::new(alloc);
    let mut chain = CheckedChain::new(alloc);
    loop {
        match walk.next_block(alloc, source) {
            Ok(Some(block)) => {
                let hash = walk.tip_hash();
                let found = walk.take_found(alloc);
                match chain.with(block, hash, found) {
                    Ok(longer) => chain = longer,
                    Err(NoMemory) => return Err(LoadFault::NoMemory),
                }
            }
            Ok(None) => return Ok(chain),
            Err(fault) => return Err(fault),
        }
    }
}
