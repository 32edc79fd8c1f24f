//! Laws of made chains: functions that do nothing, whose contracts say them.
ghost use Rattle.std.specs.Prelude.{◌≡◌, ◌≤◌, ◌<◌, ◌+◌, ℕ, Bool, false, List, [], length, take};
ghost use Rattle.std.specs.List.{flat_map, AllByRecursion};
ghost use Rattle.cf_block.specs.declared.tx.Block.{Block};
ghost use Rattle.cf_block.specs.{spelled_txs, NoClash, IsStored, block_spelling};
ghost use Rattle.cf_chain.specs.{IsGoodChain};
ghost use Rattle.cf_headers.specs.{height_limit};
ghost use Rattle.cf_make.specs.Made.{seed_limit, IsExtension, StopsAt, IsMadeChain};
ghost use Rattle.cf_make.specs.Records.{records_of, text_of, made_records_of};

/// A seed tells one chain of each length above a given one, or a height at which none can be made. A made chain, also
/// one that several seeds have made in turn, is a good chain where no two different transactions of it have one hash.
pub fn laws_of_made_chains()
    ensures one { (base a b : List Block) (seed n : ℕ) → IsExtension base seed n a → IsExtension base seed n b → a ≡ b }
    ensures stops { (base whole : List Block) (seed n height : ℕ) → IsExtension base seed n whole
        → StopsAt base seed n height → ⊥ }
    ensures extended { (base whole : List Block) (k seed n : ℕ) → seed < seed_limit → IsMadeChain base
        → IsExtension (take k base) seed n whole → IsMadeChain whole }
    ensures chain { (seed n : ℕ) (whole : List Block) → seed < seed_limit → n ≤ height_limit → IsExtension [] seed n whole
        → NoClash (flat_map spelled_txs whole) → IsGoodChain whole }
    ensures good { (blocks : List Block) → IsMadeChain blocks → length blocks ≤ height_limit
        → NoClash (flat_map spelled_txs blocks) → IsGoodChain blocks }
{}

/// The bytes in the records of a good chain store its blocks, with the witnesses of their coinbases or without, and so
/// do those of a made chain, whatever clashes. A witness takes 36 bytes at most. The records without witnesses are
/// those that `records` gives.
pub fn laws_of_made_records()
    ensures stored { (witness : Bool) (blocks : List Block) → IsGoodChain blocks
        → AllByRecursion (λ b. IsStored (text_of witness b) b) blocks }
    ensures made { (witness : Bool) (blocks : List Block) → IsMadeChain blocks → length blocks ≤ height_limit
        → AllByRecursion (λ b. IsStored (text_of witness b) b) blocks }
    ensures short { (witness : Bool) (blocks : List Block)
        → AllByRecursion (λ b. length (text_of witness b) ≤ length (block_spelling b) + 36) blocks }
    ensures plain { (blocks : List Block) → made_records_of false blocks ≡ records_of blocks }
{}
