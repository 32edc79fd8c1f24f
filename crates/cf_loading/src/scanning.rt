//! The scan of the blocks that a source gives, one by one.
ghost use Rattle.std.specs.Prelude.{◌≡◌, ℕ, List, Some, length, IfOk, string_bytes};
ghost use Rattle.cf_block.specs.declared.tx.Block.{Block};
ghost use Rattle.cf_block.specs.{AreTxids};
ghost use Rattle.cf_conn.specs.Steps.{Steps};
ghost use Rattle.cf_walk.specs.{StandsOn, CountsLoad};
ghost use Rattle.cf_scan.specs.{after_placed, extract_of, history_text};
ghost use Rattle.cf_loading.specs.Scanning.{TellsScan};

use cf_block::Block;
use cf_bytes::{Hash32, NoMemory};
use cf_conn::Source;
use cf_scan::{Ledger, Watch, extract_by};
use cf_walk::{LoadFault, Walk};
use std::alloc::Global;

// How many blocks a walk has given.
#[tactic(auto, using(crate::proofs::Scans::few_blocks))]
fn height_of(walk: &Walk) -> u32
    ensures { (blocks : List Block) → StandsOn walk.now.judge blocks → result ≡ length blocks }
{
    u32::try_from(walk.height()).unwrap_or(u32::MAX)
}

// Takes the last block that a walk has given into a ledger.
fn add_last(
    alloc: Global,
    ledger: Ledger,
    walk: &Walk,
    block: &Block,
    watch: &Watch,
) -> Result<Ledger, NoMemory>
    requires { AreTxids walk.now.judge.txids block.now.txs }
    ensures { (blocks : List Block) → StandsOn walk.now.judge blocks → IfOk result (λ more. more
        ≡ after_placed ledger (record { height = length blocks; extract = extract_of block.now watch.now })) }
{
    let extract = extract_by(alloc, block, walk.txids(), watch)?;
    ledger.add_block(height_of(walk), &extract)
}

// The history of a ledger of so many blocks, of which the last one has this hash.
fn text_of(
    alloc: Global,
    ledger: Ledger,
    height: u32,
    tip_hash: &Hash32,
) -> Result<String, NoMemory>
    ensures { IfOk result (λ text. string_bytes text ≡ history_text ledger.entries height tip_hash.now.0) }
{
    let history = ledger.into_history();
    history.text(alloc, height, tip_hash)
}

/// The history of the watched scripts in the blocks that a source gives, and the tip. Of the blocks one is held at a
/// time, and the text is made at the end.
#[tactic(auto, using(cf_conn::proofs::Stepping::more_steps))]
pub(crate) fn scan_source<S: Source>(
    alloc: Global,
    source: &mut S,
    watch: &Watch,
) -> Result<String, LoadFault>
    ensures told { (bytes : List ℕ) → S.left source.old ≡ Some bytes → TellsScan bytes watch.now result }
    ensures count { CountsLoad result (S.faults source.old) (S.faults source.new) }
    ensures steps { Steps S.reads source.old source.new }
{
    let mut walk = Walk::new(alloc);
    let mut ledger = Ledger::new(alloc);
    let (height, tip_hash) = loop {
        let height = height_of(&walk);
        let tip_hash = walk.tip_hash();
        match walk.next_block(alloc, source) {
            Ok(Some(block)) => match add_last(alloc, ledger, &walk, &block, watch) {
                Ok(more) => ledger = more,
                Err(NoMemory) => return Err(LoadFault::NoMemory),
            },
            Ok(None) => break (height, tip_hash),
            Err(fault) => return Err(fault),
        }
    };
    match text_of(alloc, ledger, height, &tip_hash) {
        Ok(text) => Ok(text),
        Err(NoMemory) => Err(LoadFault::NoMemory),
    }
}
