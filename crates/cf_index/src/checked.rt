//! Chains that were checked.
ghost use Rattle.std.specs.Prelude.{◌≡◌, ◌∷◌, ◌++◌, [], length, map, IfOk};
ghost use Rattle.std.specs.FinMap.{empty};
ghost use Rattle.cf_block.specs.{AreTxids, block_hash_of, txid_of, bytes_of};
ghost use Rattle.cf_chain.specs.{coins_after, filters_of, first_filtered, prevouts, IsGoodChain, headers_of};
ghost use Rattle.cf_headers.specs.{tip_hash};
ghost use Rattle.cf_index.specs.Progress.{Keeps};

use crate::block_filter::BareFilter;
use crate::chain::{Blocks, Chain};
use crate::filters::bare_filters;
use cf_block::{Block, TxIds, block_hash, genesis_header};
use cf_bytes::{Hash32, Listed, NoMemory};
use cf_coins::Spent;
use cf_headers::Past;
use cf_walk::Found;
use std::alloc::Global;
use std::marker::Model;
use std::thread::Threads;

/// The blocks of a chain that was checked, with what the check has found of each: its hash, those of its transactions,
/// and the scripts that its inputs spend. Contracts see the list of the blocks above genesis, the lowest first.
#[derive(Drop)]
pub struct CheckedChain {
    pub(crate) blocks: Blocks,
    pub(crate) hashes: Listed<Hash32>,
    pub(crate) txids: Listed<TxIds>,
    pub(crate) spent: Listed<Spent>,
    pub(crate) tip: Hash32,
    pub(crate) past: Past,
}

impl Model for CheckedChain {
    ghost use Rattle.std.specs.Prelude.{◌≡◌, List};
    ghost use Rattle.cf_block.specs.declared.tx.Block.{Block};
    ghost use Rattle.cf_headers.specs.{tip_hash, past_of};
    ghost use Rattle.cf_chain.specs.{headers_of};
    ghost use Rattle.cf_index.specs.Checked.{IsChecked};

    ghost Value = { List Block };

    ghost view = { λ s. s.blocks };

    ghost invariant = { λ s. IsChecked s.blocks s.hashes s.txids s.spent
        × (s.tip.0 ≡ tip_hash (headers_of s.blocks)) × (s.past ≡ past_of (headers_of s.blocks)) };
}

impl CheckedChain {
    // The chain of genesis alone.
    pub(crate) fn new(alloc: Global) -> CheckedChain
        ensures { result ≡ [] }
    {
        CheckedChain {
            blocks: Listed::new(alloc),
            hashes: Listed::new(alloc),
            txids: Listed::new(alloc),
            spent: Listed::new(alloc),
            tip: block_hash(&genesis_header()),
            past: Past::of_genesis(),
        }
    }

    // The chain with one block more, which is good, and what was found of that block.
    #[tactic(auto, using(crate::proofs::Sources::one_checked))]
    pub(crate) fn with(
        self,
        block: Block,
        hash: Hash32,
        found: Found,
    ) -> Result<CheckedChain, NoMemory>
        requires good { IsGoodChain (self ++ block ∷ []) }
        requires hash { hash.0 ≡ block_hash_of block.header }
        requires hashed { AreTxids found.txids block.txs }
        requires spent { found.spent ≡ prevouts (coins_after empty self) block }
        ensures { IfOk result (λ longer. longer ≡ self ++ block ∷ []) }
    {
        let CheckedChain {
            mut blocks,
            mut hashes,
            mut txids,
            mut spent,
            tip: _,
            mut past,
        } = self;
        past.push(block.header.time);
        blocks.push(block)?;
        hashes.push(hash)?;
        txids.push(found.txids)?;
        spent.push(found.spent)?;
        Ok(CheckedChain {
            blocks,
            hashes,
            txids,
            spent,
            tip: hash,
            past,
        })
    }

    // A chain whose last block was put on it. Its coins are let go.
    pub(crate) fn of(chain: Chain) -> CheckedChain
        requires { Keeps chain }
        ensures { result ≡ chain.blocks }
    {
        CheckedChain {
            blocks: chain.blocks,
            hashes: chain.hashes,
            txids: chain.txids,
            spent: chain.spent,
            tip: chain.tip,
            past: chain.past,
        }
    }

    /// The height of the chain.
    pub fn tip(&self) -> u32
        ensures height { result ≡ length self.now }
        ensures good { IsGoodChain self.now }
    {
        self.blocks.len() as u32
    }

    /// The hash of the highest block.
    pub fn tip_hash(&self) -> Hash32
        ensures { result.0 ≡ tip_hash (headers_of self.now) }
    {
        self.tip
    }

    /// The blocks above genesis, the lowest first.
    pub fn blocks(&self) -> &[Block]
        ensures { result.now ≡ self.now }
    {
        self.blocks.as_slice()
    }

    /// The basic filters of these blocks (BIP 158, "Contents"), the lowest first, without filter headers and without
    /// genesis's filter. As many threads build them as there are processors.
    pub fn basic_filters(
        &self,
        rt: &(impl Threads + Sync),
        alloc: Global,
    ) -> Result<Listed<BareFilter>, NoMemory>
        ensures names { IfOk result
            (λ list. first_filtered.block ∷ map (λ f. f.block.0) list ≡ map (λ f. f.block) (filters_of self.now)) }
        ensures filters { IfOk result
            (λ list. first_filtered.filter ∷ map (λ f. f.filter) list ≡ map (λ f. f.filter) (filters_of self.now)) }
    {
        bare_filters(
            rt,
            alloc,
            self.blocks.as_slice(),
            self.hashes.as_slice(),
            self.spent.as_slice(),
        )
    }

    /// The hashes of the transactions of each of these blocks.
    pub fn txids(&self) -> &[TxIds]
        ensures { map bytes_of result.now ≡ map (λ b. map txid_of b.txs) self.now }
    {
        self.txids.as_slice()
    }
}
