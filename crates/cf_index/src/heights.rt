//! Heights by the hashes of blocks.
ghost use Rattle.std.specs.Prelude.{◌≡◌, ◌≤◌, ◌∷◌, [], length, IfOk, OnOk, OnErr, position};
ghost use Rattle.std.specs.FinMap.{get, empty};
ghost use Rattle.cf_bytes.specs.declared.hash.Hash32.{Hash32};
ghost use Rattle.cf_headers.specs.{height_limit, same};
ghost use Rattle.cf_index.specs.ByHash.{with_first};
ghost use Rattle.cf_index.specs.HeightMap.{first_hash};

use cf_block::{block_hash, genesis_header};
use cf_bytes::{Hash32, NoMemory};
use std::alloc::Global;
use std::collections::BTreeMap;
use std::marker::Model;

/// The height of each hash. Contracts see a finite map.
#[derive(Drop)]
pub(crate) struct Heights {
    map: BTreeMap<Hash32, u32>,
}

impl Model for Heights {
    ghost use Rattle.std.specs.FinMap.{from_entries};
    ghost use Rattle.cf_index.specs.HeightMap.{HeightMap, heights_code};

    ghost Value = { HeightMap };

    ghost coded = { heights_code };

    ghost view = { λ s. from_entries s.map.entries };
}

impl Heights {
    /// No heights; it takes no memory.
    pub(crate) fn new(alloc: Global) -> Heights
        ensures { result ≡ empty }
    {
        Heights {
            map: BTreeMap::new(alloc),
        }
    }

    /// The height of a hash.
    pub(crate) fn height(&self, hash: &Hash32) -> Option<u32>
        ensures { result ≡ get self.now hash.now }
    {
        self.map.get(hash).copied()
    }

    /// Gives a height to a hash that has none yet. Where no memory is found nothing has changed.
    pub(crate) fn add(&mut self, hash: Hash32, height: u32) -> Result<(), NoMemory>
        ensures ok { OnOk result (self.new ≡ with_first self.old hash height) }
        ensures err { OnErr result (self.new ≡ self.old) }
    {
        if self.map.contains_key(&hash) {
            return Ok(());
        }
        self.map.insert(hash, height)?;
        Ok(())
    }
}

// The height of genesis alone.
fn first_height(alloc: Global) -> Result<Heights, NoMemory>
    ensures { IfOk result (λ heights. (hash : Hash32)
        → get heights hash ≡ position (λ h. same h.0 hash.0) (first_hash ∷ [])) }
{
    let mut heights = Heights::new(alloc);
    heights.add(block_hash(&genesis_header()), 0)?;
    Ok(heights)
}

/// The heights of genesis and of the blocks above it, which have these hashes. A hash that stands several times has its
/// lowest.
pub(crate) fn heights_of(alloc: Global, hashes: &[Hash32]) -> Result<Heights, NoMemory>
    requires { length hashes.now ≤ height_limit }
    ensures { IfOk result (λ heights. (hash : Hash32)
        → get heights hash ≡ position (λ h. same h.0 hash.0) (first_hash ∷ hashes.now)) }
{
    let mut heights = first_height(alloc)?;
    let mut height = 1u32;
    for hash in hashes {
        heights.add(*hash, height)?;
        height += 1;
    }
    Ok(heights)
}
