//! Laws of files that are made: a function that does nothing, whose contract says them.
ghost use Rattle.std.specs.Prelude.{Bool, List};
ghost use Rattle.cf_block.specs.declared.tx.Block.{Block};
ghost use Rattle.cf_chain.specs.{IsGoodChain};
ghost use Rattle.cf_walk.specs.{IsGoodFile};
ghost use Rattle.cf_make.specs.{made_records_of};

/// The records that are made of a good chain, with the witnesses of its coinbases or without, are a good file of its
/// blocks.
pub fn laws_of_made_files()
    ensures { (witness : Bool) (blocks : List Block) → IsGoodChain blocks
        → IsGoodFile (made_records_of witness blocks) blocks }
{}
