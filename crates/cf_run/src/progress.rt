//! What a run notes beside the client: how the sends have gone, who was closed, and the trace.
ghost use Rattle.std.specs.Prelude.{◌≡◌, ℕ, ◌<◌, ◌≤◌, IfSome, IfNone, true, false, length, slice_set, slice_index_or};
ghost use Rattle.cf_run.specs.States.{IsUnused, state_at, is_pending as pending_at, is_fine, trouble};

use crate::trace::Trace;
use cf_bytes::{PLACES, PeerNo};
use std::alloc::Global;

/// How the sends to a peer have gone.
#[derive(Clone, Copy, Debug, PartialEq, Eq)]
pub enum SendState {
    /// None has failed.
    Fine,
    /// One has failed, and the client isn't told yet.
    Pending,
    /// One has failed, and the client knows.
    Known,
}

/// What a run notes, by the numbers of the peers, 1 to 8.
#[derive(Drop)]
pub struct Progress {
    pub(crate) sends: [SendState; PLACES],
    pub(crate) closed: [bool; PLACES],
    pub(crate) trace: Trace,
}

impl Progress {
    /// Nothing has passed. The lines of the trace are kept where they are wanted.
    pub(crate) fn new(alloc: Global, trace: bool) -> Progress
        ensures unused { IsUnused result }
        ensures wanted { result.trace.wanted ≡ trace }
    {
        Progress {
            sends: [SendState::Fine; PLACES],
            closed: [false; PLACES],
            trace: Trace::new(alloc, trace),
        }
    }

    // Whether the client is still to be told that a send to this peer has failed.
    pub(crate) fn is_pending(&self, p: PeerNo) -> bool
        requires { p.0 < 9 }
        ensures { result ≡ pending_at (state_at self.now.sends p.0) }
    {
        self.sends[p.0 as usize] == SendState::Pending
    }

    // Whether this peer was closed.
    pub(crate) fn is_closed(&self, p: PeerNo) -> bool
        requires { p.0 < 9 }
        ensures { result ≡ slice_index_or self.now.closed p.0 false }
    {
        self.closed[p.0 as usize]
    }

    // Notes a failed send, of which the client is to be told.
    pub(crate) fn note_failure(&mut self, p: PeerNo)
        requires { p.0 < 9 }
        ensures noted { is_fine (state_at self.old.sends p.0) ≡ true
            → self.new ≡ record self.old { sends = slice_set self.old.sends p.0 SendState.Pending } }
        ensures fewer { trouble self.new ≤ trouble self.old }
        ensures closed { self.new.closed ≡ self.old.closed }
        ensures trace { self.new.trace ≡ self.old.trace }
    {
        if self.sends[p.0 as usize] == SendState::Fine {
            self.sends[p.0 as usize] = SendState::Pending;
        }
    }

    // Notes that the client is told of a failed send.
    pub(crate) fn note_told(&mut self, p: PeerNo)
        requires number { p.0 < 9 }
        requires pending { pending_at (state_at self.old.sends p.0) ≡ true }
        ensures told { self.new ≡ record self.old { sends = slice_set self.old.sends p.0 SendState.Known } }
        ensures fewer { trouble self.new < trouble self.old }
        ensures within { p.0 < length self.old.sends }
    {
        self.sends[p.0 as usize] = SendState::Known;
    }

    /// The lowest peer whose failed send is still to be told.
    pub(crate) fn next_pending(&self) -> Option<PeerNo>
        ensures some { IfSome result (λ p. (p.0 < 9) × (pending_at (state_at self.now.sends p.0) ≡ true) × ((q : ℕ)
            → q < p.0 → pending_at (state_at self.now.sends q) ≡ false)) }
        ensures none { IfNone result ((q : ℕ) → pending_at (state_at self.now.sends q) ≡ false) }
    {
        for i in 0..PLACES {
            if self.sends[i] == SendState::Pending {
                return Some(PeerNo(i as u32));
            }
        }
        None
    }
}
