//! The hash of the first block.
ghost use Rattle.std.specs.Prelude.{◌≡◌, true, false};
ghost use Rattle.cf_block.specs.{block_hash_of, genesis_header};
ghost use Rattle.cf_headers.specs.{IsAbove};

use cf_block::{block_hash, genesis_header};
use cf_bytes::Hash32;

/// The hash of regtest's first block, made once.
#[derive(Drop)]
pub struct First {
    hash: Hash32,
    ghost own: { hash.0 ≡ block_hash_of genesis_header },
}

impl First {
    /// Makes it.
    pub fn new() -> First
        ensures { result.hash.0 ≡ block_hash_of genesis_header }
    {
        First {
            hash: block_hash(&genesis_header()),
        }
    }

    /// Whether a block has it.
    #[tactic(auto, unfolding(cf_headers::specs::Rules::same))]
    pub fn is(&self, block: &Hash32) -> bool
        ensures yes { result ≡ true → block.now.0 ≡ block_hash_of genesis_header }
        ensures no { result ≡ false → IsAbove block.now.0 }
    {
        self.hash == *block
    }
}
