//! What the client keeps of a peer's number.
ghost use Rattle.std.specs.Prelude.{◌≡◌, not};
ghost use Rattle.cf_place.specs.Places.{is_busy as busy_at, is_here as here_at, is_idle as idle_at, is_wanting, is_calm, end_by, end_of};

use cf_peer::{Cause, Mode, Peer};
use thiserror::Error;

/// How a peer stands when a run ends.
#[derive(Clone, Copy, Debug, PartialEq, Eq, Error)]
pub enum PeerEnd {
    /// Its handshake is over, and it is connected.
    #[error("ready")]
    Ready,
    /// Its dial failed.
    #[error("not dialled")]
    NotDialled,
    /// It has gone.
    #[error("gone")]
    Gone,
    /// It was closed for this cause.
    #[error("closed: {0}")]
    Closed(Cause),
    /// It is connected, and its handshake is open.
    #[error("waiting")]
    Waiting,
}

/// How a peer was lost.
#[derive(Clone, Copy, Debug, PartialEq, Eq)]
pub enum Loss {
    /// Its dial failed.
    NotDialled,
    /// It has gone.
    Gone,
    /// It was closed for this cause.
    Closed(Cause),
}

/// A connected peer, or how one was lost.
#[derive(Drop)]
pub enum Place {
    /// A connected peer.
    Here(Peer),
    /// A peer that isn't connected.
    Lost(Loss),
}

impl Loss {
    /// How a peer stands that was lost so.
    pub fn end(self) -> PeerEnd
        ensures { result ≡ end_by self }
    {
        match self {
            Loss::NotDialled => PeerEnd::NotDialled,
            Loss::Gone => PeerEnd::Gone,
            Loss::Closed(cause) => PeerEnd::Closed(cause),
        }
    }
}

impl Place {
    /// Whether something is open to a connected peer.
    pub fn is_busy(&self) -> bool
        ensures { result ≡ busy_at self.now }
    {
        match self {
            Place::Here(peer) => !peer.is_idle(),
            Place::Lost(_) => false,
        }
    }

    /// Whether a peer is connected.
    pub fn is_here(&self) -> bool
        ensures { result ≡ here_at self.now }
    {
        matches!(self, Place::Here(_))
    }

    /// Whether nothing is open to a connected peer.
    pub fn is_idle(&self) -> bool
        ensures { result ≡ idle_at self.now }
    {
        match self {
            Place::Here(peer) => peer.is_idle(),
            Place::Lost(_) => false,
        }
    }

    /// Whether a client of this mode is to ask a connected peer for headers.
    pub fn wants_headers(&self, mode: Mode) -> bool
        ensures { result ≡ is_wanting mode self.now }
    {
        match self {
            Place::Here(peer) => peer.wants_headers(mode),
            Place::Lost(_) => false,
        }
    }

    /// Whether a connected peer's open request is 60 seconds old or more.
    pub fn is_late(&self) -> bool
        ensures { result ≡ not (is_calm self.now) }
    {
        match self {
            Place::Here(peer) => peer.is_late(),
            Place::Lost(_) => false,
        }
    }

    /// How the peer stands.
    pub fn end(&self) -> PeerEnd
        ensures { result ≡ end_of self.now }
    {
        match self {
            Place::Here(peer) => {
                if peer.is_ready() {
                    PeerEnd::Ready
                } else {
                    PeerEnd::Waiting
                }
            }
            Place::Lost(loss) => loss.end(),
        }
    }
}
