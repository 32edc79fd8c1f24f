//! What a peer claims of filters (BIP 157, "cfheaders"), and what it is asked of them.
ghost use Rattle.std.specs.Prelude.{◌≡◌, ℕ, Some, true};
ghost use Rattle.cf_peer.specs.declared.peer.Range.{Range};
ghost use Rattle.cf_peer.specs.declared.peer.Request.TheVariants.{Claims, Nothing};
ghost use Rattle.cf_peer.specs.Asking.{is_answer_of};
ghost use Rattle.cf_peer.specs.Peer.{TookRange, asked_for_claims, asked_for_filters, calm, cause_of_claims, is_idle_peer};

use crate::peer::{Batch, Cause, Peer, Range, Request};
use cf_bytes::{Hash32, Listed};
use cf_dispute::ClaimFault;
use cf_msg::Hashes;
use std::alloc::Global;
use std::mem;

/// The cause for which a peer is closed whose claims are refused.
pub fn cause_of(fault: ClaimFault) -> Cause
    ensures { result ≡ cause_of_claims fault }
{
    match fault {
        ClaimFault::Count { .. } => Cause::WrongCount,
        ClaimFault::Previous { .. } => Cause::WrongPrevious,
    }
}

// Whether an answer about basic filters is for this hash.
#[tactic(auto, unfolding(cf_headers::specs::Rules::same))]
pub(crate) fn is_answer(filter: u8, hash: &Hash32, wanted: &Hash32) -> bool
    ensures { result ≡ is_answer_of filter hash.now.0 wanted.now.0 }
{
    filter == 0 && hash == wanted
}

impl Peer {
    /// The run of blocks whose claims are open to the peer, taken from it, where an answer of this filter type up to
    /// this block is one to them: the type is 0 (basic) and the hash, in wire order, that of the last block. Claims
    /// that don't answer what is open are read over.
    pub fn take_range(&mut self, filter: u8, stop: &Hash32) -> Option<Range>
        ensures took { TookRange self.old self.new filter stop.now result }
        ensures waits { self.new.framer ≡ self.old.framer }
        ensures calm { calm self.old ≡ true → calm self.new ≡ true }
    {
        let Request::Claims(range, _) = &self.request else {
            return None;
        };
        if !is_answer(filter, stop, &range.stop) {
            return None;
        }
        self.give_range()
    }

    // Gives the open run of blocks back.
    fn give_range(&mut self) -> Option<Range>
        ensures given { (range : Range) (age : ℕ) → self.old.request ≡ Claims range age
            → (result ≡ Some range) × (self.new ≡ record self.old { request = Nothing }) }
        ensures waits { self.new.framer ≡ self.old.framer }
        ensures calm { calm self.old ≡ true → calm self.new ≡ true }
    {
        let request = mem::replace(&mut self.request, Request::Nothing);
        match request {
            Request::Claims(range, _) => Some(range),
            _ => None,
        }
    }

    /// Opens a request for claims of a run of blocks (BIP 157, "getcfheaders") to a peer to whom nothing is open.
    pub fn ask_claims(&mut self, range: Range)
        requires { is_idle_peer self.old ≡ true }
        ensures asked { self.new ≡ asked_for_claims range self.old }
    {
        self.request = Request::Claims(range, 0);
    }

    /// Opens a request for the filters of blocks, given by their hashes, the lowest first (BIP 157, "getcfilters"), to
    /// a peer to whom nothing is open.
    pub fn ask_filters(&mut self, alloc: Global, blocks: Hashes)
        requires { is_idle_peer self.old ≡ true }
        ensures asked { self.new ≡ asked_for_filters blocks self.old }
    {
        let came = Listed::new(alloc);
        self.request = Request::Filters(Batch { blocks, came }, 0);
    }
}
