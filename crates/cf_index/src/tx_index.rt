//! The transaction index of a checked chain: where each transaction stands, by its hash.
ghost use Rattle.std.specs.Prelude.{◌≡◌, ◌≤◌, ◌<◌, ◌^◌, IfOk, OnOk, OnErr, map, length};
ghost use Rattle.std.specs.FinMap.{get, empty};
ghost use Rattle.std.specs.List.{AllByRecursion};
ghost use Rattle.std.specs.Option.{option_or};
ghost use Rattle.cf_block.specs.{bytes_of};
ghost use Rattle.cf_bytes.specs.declared.hash.Hash32.{Hash32};
ghost use Rattle.cf_headers.specs.{height_limit};
ghost use Rattle.cf_index.specs.ByHash.{with_first};
ghost use Rattle.cf_index.specs.Finding.{found_from, place_at, AreFirstPlaces, AreTaken};

use crate::checked::CheckedChain;
use cf_block::TxIds;
use cf_bytes::{Hash32, NoMemory};
use std::alloc::Global;
use std::collections::BTreeMap;
use std::marker::Model;

/// The height and the place of the first transaction above genesis with each hash. Contracts see a finite map.
///
/// It takes 41 to 90 bytes for each hash: 40 for the hash, the height and the place, in nodes of 15, of which all but
/// the root are filled by 7 or more.
#[derive(Drop)]
pub struct TxIndex {
    map: BTreeMap<Hash32, (u32, u32)>,
}

impl Model for TxIndex {
    ghost use Rattle.std.specs.FinMap.{from_entries};
    ghost use Rattle.cf_index.specs.Finding.{PlaceMap, places_code};

    ghost Value = { PlaceMap };

    ghost coded = { places_code };

    ghost view = { λ s. from_entries s.map.entries };
}

impl TxIndex {
    /// The index of all transactions above genesis, from the hashes that the check has kept. A hash that stands several
    /// times has its lowest height, and there its lowest place.
    pub fn of(alloc: Global, chain: &CheckedChain) -> Result<TxIndex, NoMemory>
        ensures first { IfOk result (λ index. AreFirstPlaces index chain.now) }
        ensures taken { IfOk result (λ index. AreTaken index chain.now) }
    {
        index_of(alloc, chain.txids.as_slice())
    }

    /// The height of the block and the place there, from 0, of the first transaction with this hash, or `None` exactly
    /// where no block has one. The time is that of a search in a tree. It takes no memory.
    pub fn find(&self, txid: &Hash32) -> Option<(u32, u32)>
        ensures { result ≡ get self.now txid.now }
    {
        self.map.get(txid).copied()
    }

    // No transactions; it takes no memory.
    fn new(alloc: Global) -> TxIndex
        ensures { result ≡ empty }
    {
        TxIndex {
            map: BTreeMap::new(alloc),
        }
    }

    // Gives a height and a place to a hash that has none yet. Where no memory is found nothing has changed.
    fn add(&mut self, txid: Hash32, at: (u32, u32)) -> Result<(), NoMemory>
        ensures ok { OnOk result (self.new ≡ with_first self.old txid at) }
        ensures err { OnErr result (self.new ≡ self.old) }
    {
        if self.map.contains_key(&txid) {
            return Ok(());
        }
        self.map.insert(txid, at)?;
        Ok(())
    }

    // Gives the places in the block at a height to its hashes, each where it has none yet.
    fn add_block(&mut self, height: u32, txids: &[Hash32]) -> Result<(), NoMemory>
        requires { length txids.now < 2 ^ 32 }
        ensures { OnOk result ((txid : Hash32)
            → get self.new txid ≡ option_or (get self.old txid) (place_at height txid.0 (bytes_of txids.now))) }
    {
        let mut place = 0u32;
        for txid in txids {
            self.add(*txid, (height, place))?;
            place += 1;
        }
        Ok(())
    }
}

// The index of the transactions with these hashes, those of the block at height 1 first.
fn index_of(alloc: Global, blocks: &[TxIds]) -> Result<TxIndex, NoMemory>
    requires low { length blocks.now ≤ height_limit }
    requires few { AllByRecursion (λ ids. length ids < 2 ^ 32) blocks.now }
    ensures { IfOk result (λ index. (txid : Hash32) → get index txid ≡ found_from 1 txid.0 (map bytes_of blocks.now)) }
{
    let mut index = TxIndex::new(alloc);
    let mut height = 1u32;
    for txids in blocks {
        index.add_block(height, txids.as_slice())?;
        height += 1;
    }
    Ok(index)
}
