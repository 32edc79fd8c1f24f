//! One peer's chain as the list of its headers, the lowest first.
ghost use Rattle.std.specs.Prelude.{◌≡◌, ◌≤◌, ◌<◌, ◌^◌, [], ◌++◌, Some, None, take, vec_len, length, IfSome, IfOk, OnOk, OnErr};
ghost use Rattle.std.specs.List.{common_prefix_len};
ghost use Rattle.cf_headers.specs.{IsValidChain, IsWithinLimit, past_of, lower, accept, accept_on, hash_at, AreGoodAbove, height_of, is_same_header, common_of, link_height, change_of, chain_after, headers_of, past_through};

use cf_block::{Header, block_hash, genesis_header};
use cf_bytes::{Hash32, NoMemory};
use cf_headers::{Anew, Change, Checked, HashedHeader, Past, SPAN, check_all, greatest_height};
use std::alloc::Global;
use std::marker::Model;

/// A valid chain within the height limit.
#[derive(Drop)]
pub(crate) struct KeptChain {
    entries: Vec<HashedHeader>,
}

impl Model for KeptChain {
    ghost use Rattle.cf_headers.specs.{IsValidChain, IsWithinLimit, chain_of};
    ghost use Rattle.cf_headers.specs.Chain.{Chain};

    ghost Value = { Chain };

    ghost view = { λ k. chain_of k.entries.items };

    ghost invariant = { λ k. IsValidChain (chain_of k.entries.items) × IsWithinLimit (chain_of k.entries.items) };
}

// Leaves the first k entries and puts these after them.
#[tactic(auto, using(cf_headers::proofs::EntryLists::longer))]
fn replace_after(
    kept: &mut Vec<HashedHeader>,
    k: usize,
    entries: &[HashedHeader],
) -> Result<(), NoMemory>
    requires { k ≤ vec_len kept.old }
    ensures ok { OnOk result
        (headers_of kept.new.items ≡ take k (headers_of kept.old.items) ++ headers_of entries.now) }
    ensures err { OnErr result (kept.new.items ≡ kept.old.items) }
{
    kept.reserve(entries.len())?;
    kept.truncate(k);
    kept.extend_from_slice(entries).unwrap();
    Ok(())
}

// How many headers two lists have in common at their start, where they have this many at least.
#[tactic(auto, using(crate::proofs::Keeping::counts))]
fn count_common(mine: &[HashedHeader], theirs: &[HashedHeader], known: usize) -> usize
    requires { known ≤ common_prefix_len is_same_header (headers_of mine.now) (headers_of theirs.now) }
    ensures value { result ≡ common_prefix_len is_same_header (headers_of mine.now) (headers_of theirs.now) }
    ensures low { result ≤ length mine.now }
{
    let most = mine.len().min(theirs.len());
    for i in known..most {
        if mine[i].header != theirs[i].header {
            return i;
        }
    }
    most
}

// The times that count after these entries, where genesis's alone counted before them.
#[tactic(auto, using(cf_headers::proofs::Pasts::through_on), unfolding(cf_headers::specs::Entries::past_through))]
fn past_of_entries(entries: &[HashedHeader]) -> Past
    ensures { result ≡ past_through (headers_of entries.now) (past_of []) }
{
    let mut past = Past::of_genesis();
    for entry in entries {
        past.push(entry.header.time);
    }
    past
}

impl KeptChain {
    /// The chain of genesis alone.
    pub(crate) fn new(alloc: Global) -> KeptChain
        ensures { result ≡ [] }
    {
        KeptChain {
            entries: Vec::new(alloc),
        }
    }

    /// The height of the tip.
    #[tactic(auto, using(cf_headers::proofs::Stacks::entries_fit, cf_headers::proofs::Stacks::height_is))]
    pub(crate) fn height(&self) -> u32
        ensures value { result ≡ length self.now }
        ensures valid { IsValidChain self.now }
        ensures within { IsWithinLimit self.now }
        ensures small { result < 2 ^ 30 }
    {
        self.entries.len() as u32
    }

    /// The hash at a height.
    #[tactic(auto, using(crate::proofs::Keeping::hashes))]
    pub(crate) fn hash_at(&self, h: u32) -> Hash32
        requires { h ≤ length self.now }
        ensures { result.0 ≡ hash_at self.now h }
    {
        if h == 0 {
            block_hash(&genesis_header())
        } else {
            self.entries[h as usize - 1].hash
        }
    }

    // The times that count for a header on the one at a height.
    #[tactic(auto, using(cf_headers::proofs::Pasts::past_is, cf_headers::proofs::Stacks::height_is))]
    fn past_at(&self, k: u32) -> Past
        requires { k ≤ length self.now }
        ensures { result ≡ past_of (lower k self.now) }
    {
        let end = k as usize;
        past_of_entries(&self.entries[end.saturating_sub(SPAN)..end])
    }

    /// The height at which a hash stands, the lowest of several.
    #[tactic(auto, using(crate::proofs::Keeping::places), unfolding(cf_headers::specs::Rules::same))]
    pub(crate) fn place(&self, hash: &Hash32) -> Option<u32>
        ensures { result ≡ height_of hash.now.0 self.now }
    {
        if block_hash(&genesis_header()) == *hash {
            return Some(0);
        }
        for (i, entry) in self.entries.iter().enumerate() {
            if entry.hash == *hash {
                return Some(i as u32 + 1);
            }
        }
        None
    }

    /// The height of the last block of both chains, which is known to be at least k. To find it goes along the headers
    /// above k.
    #[tactic(auto, using(crate::proofs::Keeping::commons))]
    pub(crate) fn common_above(&self, other: &KeptChain, k: u32) -> u32
        requires { k ≤ common_of self.now other.now }
        ensures { result ≡ common_of self.now other.now }
    {
        count_common(&self.entries, &other.entries, k as usize) as u32
    }

    /// Takes headers that the peer sent.
    #[tactic(auto, using(crate::proofs::Keeping::accepts))]
    pub(crate) fn accept(&mut self, alloc: Global, headers: &[Header]) -> Result<Change, NoMemory>
        ensures answer { IfOk result
            (λ a. a ≡ change_of (link_height headers.now self.old) (accept headers.now self.old)) }
        ensures after { OnOk result (self.new ≡ chain_after (accept headers.now self.old) self.old) }
        ensures err { OnErr result (self.new ≡ self.old) }
    {
        let Some(first) = headers.first() else {
            return Ok(Change::NoLonger);
        };
        let Some(k) = self.place(&first.previous) else {
            return Ok(Change::Unlinked);
        };
        self.accept_at(alloc, k, headers)
    }

    // Takes headers that link at height k.
    #[tactic(auto, using(cf_headers::proofs::Accepting::on_bad))]
    fn accept_at(&mut self, alloc: Global, k: u32, headers: &[Header]) -> Result<Change, NoMemory>
        requires { k ≤ length self.old }
        ensures answer { IfOk result (λ a. a ≡ change_of k (accept_on (Some (lower k self.old)) headers.now self.old)) }
        ensures after { OnOk result
            (self.new ≡ chain_after (accept_on (Some (lower k self.old)) headers.now self.old) self.old) }
        ensures err { OnErr result (self.new ≡ self.old) }
    {
        match check_all(alloc, &Anew, &self.hash_at(k), self.past_at(k), headers)? {
            Checked::Bad(i, fault) => Ok(Change::Invalid(i, fault)),
            Checked::Good(entries) => {
                let change = self.put_at(k, &entries)?;
                Ok(change)
            }
        }
    }

    // Takes headers that break no rule from height k up.
    #[tactic(auto, using(crate::proofs::Keeping::puts))]
    fn put_at(&mut self, k: u32, entries: &[HashedHeader]) -> Result<Change, NoMemory>
        requires within { k ≤ length self.old }
        requires good { AreGoodAbove self.old k (headers_of entries.now) }
        ensures answer { IfOk result
            (λ a. a ≡ change_of k (accept_on (Some (lower k self.old)) (headers_of entries.now) self.old)) }
        ensures after { OnOk result
            (self.new ≡ chain_after (accept_on (Some (lower k self.old)) (headers_of entries.now) self.old) self.old) }
        ensures err { OnErr result (self.new ≡ self.old) }
    {
        let height = k as usize + entries.len();
        if height > greatest_height() as usize {
            return Ok(Change::TooHigh);
        }
        if height <= self.entries.len() {
            return Ok(Change::NoLonger);
        }
        replace_after(&mut self.entries, k as usize, entries)?;
        Ok(Change::Longer(k))
    }
}
