//! Blocks and filters that an index shares with those who send them.
ghost use Rattle.std.specs.Prelude.{◌≡◌, IfOk};

use cf_block::Block;
use cf_bytes::{Listed, NoMemory};
use std::alloc::Global;
use std::marker::Model;
use std::sync::Arc;

/// A block that several may hold at once. Contracts see the block.
#[derive(Drop)]
pub struct SharedBlock {
    block: Arc<Block, Global>,
}

impl Model for SharedBlock {
    ghost use Rattle.std.specs.Arc.{arc_value};
    ghost use Rattle.cf_block.specs.declared.tx.Block.{Block};

    ghost Value = { Block };

    ghost view = { λ s. arc_value s.block };
}

impl SharedBlock {
    /// A block that nobody holds yet.
    pub fn new(alloc: Global, block: Block) -> Result<SharedBlock, NoMemory>
        ensures { IfOk result (λ shared. shared ≡ block) }
    {
        let block = Arc::new(alloc, block)?;
        Ok(SharedBlock { block })
    }

    /// The same block once more. It isn't copied.
    pub fn share(&self) -> Result<SharedBlock, NoMemory>
        ensures { IfOk result (λ shared. shared ≡ self.now) }
    {
        let block = Arc::try_clone(&self.block)?;
        Ok(SharedBlock { block })
    }

    /// The block.
    pub fn block(&self) -> &Block
        ensures { result.now ≡ self.now }
    {
        &self.block
    }
}

/// The bytes of a basic filter, which several may hold at once. Contracts see the bytes.
#[derive(Drop)]
pub struct SharedFilter {
    bytes: Arc<Listed<u8>, Global>,
}

impl Model for SharedFilter {
    ghost use Rattle.std.specs.Prelude.{List, ℕ};
    ghost use Rattle.std.specs.Arc.{arc_value};

    ghost Value = { List ℕ };

    ghost view = { λ s. arc_value s.bytes };
}

impl SharedFilter {
    /// A filter that nobody holds yet.
    pub fn new(alloc: Global, bytes: Listed<u8>) -> Result<SharedFilter, NoMemory>
        ensures { IfOk result (λ shared. shared ≡ bytes) }
    {
        let bytes = Arc::new(alloc, bytes)?;
        Ok(SharedFilter { bytes })
    }

    /// The same filter once more. It isn't copied.
    pub fn share(&self) -> Result<SharedFilter, NoMemory>
        ensures { IfOk result (λ shared. shared ≡ self.now) }
    {
        let bytes = Arc::try_clone(&self.bytes)?;
        Ok(SharedFilter { bytes })
    }

    /// Its bytes.
    pub fn as_slice(&self) -> &[u8]
        ensures { result.now ≡ self.now }
    {
        self.bytes.as_slice()
    }
}

/// Blocks that may be shared, in their order.
pub(crate) type SharedBlocks = Listed<SharedBlock>;

/// These blocks, to be shared from now on.
pub(crate) fn shared_blocks(alloc: Global, blocks: Listed<Block>) -> Result<SharedBlocks, NoMemory>
    ensures { IfOk result (λ shared. shared ≡ blocks) }
{
    let mut shared = Listed::from_vec(Vec::with_capacity(alloc, blocks.len())?);
    for block in blocks.into_vec() {
        let held = SharedBlock::new(alloc, block)?;
        shared.push(held)?;
    }
    Ok(shared)
}
