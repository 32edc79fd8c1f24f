//! Laws of the check: functions that do nothing, whose contracts say them.
ghost use Rattle.std.specs.Prelude.{◌≡◌, ◌≤◌, ◌++◌, ◌∷◌, [], ℕ, List, Ok, Err, None, length, replicate};
ghost use Rattle.std.specs.List.{flat_map, AllByRecursion};
ghost use Rattle.cf_block.specs.declared.tx.Block.{Block};
ghost use Rattle.cf_block.specs.{first_block, IsStored, IsBlock};
ghost use Rattle.cf_chain.specs.{IsGoodChain};
ghost use Rattle.cf_walk.specs.declared.cause.BadBlock.{BadBlock};
ghost use Rattle.cf_walk.specs.{IsGoodFile, IsBadFile, blocks_at, cause_on, record_with, max_record, record_spelling};

/// A good file is read as its blocks, and so as no others; a bad one is refused for its first bad record; and no file
/// is both. With `read_chain`'s clauses, a file is taken exactly where it is good, and refused exactly where it isn't.
/// The records of a good chain's blocks without witnesses are a good file, also behind a record of genesis, with
/// witnesses or without, and before zeros; and so are records of any bytes that store the blocks, 4,000,000 for a block
/// at most.
pub fn laws_of_files()
    ensures taken { (bytes : List ℕ) (blocks : List Block) → IsGoodFile bytes blocks → blocks_at bytes ≡ Ok blocks }
    ensures refused { (bytes : List ℕ) (bad : BadBlock) → IsBadFile bytes bad → blocks_at bytes ≡ Err bad }
    ensures apart { (bytes : List ℕ) (blocks : List Block) (bad : BadBlock) → IsGoodFile bytes blocks
        → IsBadFile bytes bad → ⊥ }
    ensures one { (bytes : List ℕ) (a b : List Block) → IsGoodFile bytes a → IsGoodFile bytes b → a ≡ b }
    ensures plain { (blocks : List Block) (zeros : ℕ) → IsGoodChain blocks
        → IsGoodFile (flat_map record_spelling blocks ++ replicate zeros 0) blocks }
    ensures first { (blocks : List Block) (zeros : ℕ) → IsGoodChain blocks
        → IsGoodFile (record_spelling first_block ++ (flat_map record_spelling blocks ++ replicate zeros 0)) blocks }
    ensures behind { (text : List ℕ) (blocks : List Block) (zeros : ℕ) → IsGoodChain blocks → IsStored text first_block
        → length text ≤ max_record
        → IsGoodFile (record_with text ++ (flat_map record_spelling blocks ++ replicate zeros 0)) blocks }
    ensures stored { (text : Block → List ℕ) (blocks : List Block) → IsGoodChain blocks
        → AllByRecursion (λ b. IsStored (text b) b) blocks → AllByRecursion (λ b. length (text b) ≤ max_record) blocks
        → IsGoodFile (flat_map (λ b. record_with (text b)) blocks) blocks }
{}

/// A block may stand on a good chain exactly where the chain with it is good: no cause is found of it there. With the
/// clauses of `Index::add`, a block is put on exactly where the chain with it is good.
pub fn laws_of_adding()
    ensures good { (blocks : List Block) (b : Block) → IsGoodChain blocks → IsBlock b → cause_on blocks b ≡ None
        → IsGoodChain (blocks ++ b ∷ []) }
    ensures only { (blocks : List Block) (b : Block) → IsGoodChain (blocks ++ b ∷ []) → cause_on blocks b ≡ None }
{}
