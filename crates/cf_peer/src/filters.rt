//! The filters of a batch, as they come (BIP 157, "cfilter").
ghost use Rattle.std.specs.Prelude.{◌≡◌, ◌<◌, ℕ, List, nat_le, IfOk, OnOk, OnErr, true, length, slice_index_or};
ghost use Rattle.cf_bytes.specs.declared.hash.Hash32.{Hash32};
ghost use Rattle.cf_msg.specs.declared.msg.Msg.TheVariants.{Cfilter};
ghost use Rattle.cf_dispute.specs.{tables_of};
ghost use Rattle.cf_filter.specs.{filter_hash_of};
ghost use Rattle.cf_peer.specs.Trail.{Trail};
ghost use Rattle.cf_peer.specs.Asking.{claims as claims_in, filter_of, is_this, hash_claimed};
ghost use Rattle.cf_peer.specs.declared.peer.Batch.{Batch};
ghost use Rattle.cf_peer.specs.declared.peer.Request.TheVariants.{Filters, Nothing};
ghost use Rattle.cf_peer.specs.Peer.{Holds, calm, IsPut, IsRight, TakesFilter, no_hash32, with_filter};

use crate::claims::is_answer;
use crate::peer::{Batch, Cause, Peer, Request};
use cf_bytes::{Hash32, Listed, NoMemory, PeerNo};
use cf_dispute::Claims;
use cf_filter::filter_hash;
use cf_match::Job;
use std::alloc::Global;
use std::mem;

/// What a filter does.
#[derive(Drop, Debug)]
pub enum Heard {
    /// Nothing more.
    Nothing,
    /// It was the last of its batch: all filters of the batch, the lowest block's first.
    Whole(Listed<Job>),
    /// The peer is closed.
    Close(Cause),
}

// Whether a peer claims the hash of these bytes for a block.
#[tactic(auto, unfolding(cf_headers::specs::Rules::same))]
fn is_claimed(claims: &Claims, p: PeerNo, block: &Hash32, bytes: &[u8]) -> bool
    ensures { result ≡ is_this (hash_claimed (tables_of claims.now p.0) block.now.0) (filter_hash_of bytes.now) }
{
    match claims.claim(p, block) {
        Some(claim) => claim.hash == filter_hash(bytes),
        None => false,
    }
}

impl Batch {
    // The block whose filter is to come next.
    fn next(&self) -> Hash32
        requires { length self.now.came < length self.now.blocks }
        ensures { result ≡ slice_index_or self.now.blocks (length self.now.came) no_hash32 }
    {
        self.blocks.as_slice()[self.came.len()]
    }

    // The batch with one filter more.
    fn with(self, alloc: Global, block: &Hash32, bytes: &[u8]) -> Result<Batch, NoMemory>
        ensures { IfOk result (λ b. b ≡ with_filter self (filter_of block.now bytes.now)) }
    {
        let mut batch = self;
        let bytes = Vec::from_slice(alloc, bytes)?;
        batch.came.push(Job {
            block: *block,
            filter: Listed::from_vec(bytes),
        })?;
        Ok(batch)
    }

    // Whether each filter has come.
    fn is_whole(&self) -> bool
        ensures { result ≡ nat_le (length self.now.blocks) (length self.now.came) }
    {
        self.came.len() >= self.blocks.len()
    }
}

impl Peer {
    /// Takes a filter that the peer sent: its type, its block's hash in wire order, and its bytes. One that isn't the
    /// next of what is open to it is read over, and one of another hash than the peer claims has it closed for
    /// `OtherFilter`. The last of a batch ends the open request. Where no memory is found nothing is open to it, and
    /// what came of the batch is lost.
    pub fn take_filter(
        &mut self,
        alloc: Global,
        claims: &Claims,
        p: PeerNo,
        filter: u8,
        block: &Hash32,
        bytes: &[u8],
    ) -> Result<Heard, NoMemory>
        requires right { IsRight self.old.request (tables_of claims.now p.0) }
        ensures heard { IfOk result (λ o. (t : Trail) → Holds self.old t
            → ((hash : List ℕ) → tables_of claims.now p.0 hash ≡ claims_in t hash)
            → TakesFilter self.new (Cfilter filter block.now bytes.now) t o) }
        ensures right { OnOk result (IsRight self.new.request (tables_of claims.now p.0)) }
        ensures err { OnErr result (self.new ≡ record self.old { request = Nothing }) }
        ensures waits { self.new.framer ≡ self.old.framer }
        ensures calm { calm self.old ≡ true → calm self.new ≡ true }
    {
        let Request::Filters(batch, _) = &self.request else {
            return Ok(Heard::Nothing);
        };
        let next = batch.next();
        if !is_answer(filter, block, &next) {
            return Ok(Heard::Nothing);
        }
        if !is_claimed(claims, p, &next, bytes) {
            return Ok(Heard::Close(Cause::OtherFilter));
        }
        self.put_filter(alloc, block, bytes)
    }

    // Puts the next filter of the open batch, and gives the filters back where it was the last.
    fn put_filter(&mut self, alloc: Global, block: &Hash32, bytes: &[u8]) -> Result<Heard, NoMemory>
        ensures err { OnErr result (self.new ≡ record self.old { request = Nothing }) }
        ensures put { IfOk result (λ o. (batch : Batch) (age : ℕ) → self.old.request ≡ Filters batch age
            → IsPut self.old self.new (with_filter batch (filter_of block.now bytes.now)) age o) }
        ensures waits { self.new.framer ≡ self.old.framer }
        ensures calm { calm self.old ≡ true → calm self.new ≡ true }
    {
        let request = mem::replace(&mut self.request, Request::Nothing);
        if let Request::Filters(batch, age) = request {
            let batch = batch.with(alloc, block, bytes)?;
            if batch.is_whole() {
                return Ok(Heard::Whole(batch.came));
            }
            self.request = Request::Filters(batch, age);
        }
        Ok(Heard::Nothing)
    }
}
