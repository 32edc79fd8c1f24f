//! What passes the wires.
ghost use Rattle.std.specs.Prelude.{◌≡◌, IfOk};

use cf_bytes::{Listed, NoMemory, PeerNo};
use std::alloc::Global;
use std::marker::Model;

/// Bytes that came from a peer together.
pub type Piece = Listed<u8>;

/// The name by which a peer is dialled, seen as the list of its bytes.
#[derive(Drop, Debug)]
pub struct Name {
    text: String,
}

impl Model for Name {
    ghost use Rattle.std.specs.Prelude.{ℕ, List, string_bytes};

    ghost Value = { List ℕ };

    ghost view = { λ n. string_bytes n.text };
}

impl Name {
    /// A copy of a name.
    pub fn from_text(alloc: Global, text: &str) -> Result<Name, NoMemory>
        ensures { IfOk result (λ n. n ≡ text.now) }
    {
        Ok(Name {
            text: String::from_str(alloc, text)?,
        })
    }

    /// Its bytes.
    pub fn as_bytes(&self) -> &[u8]
        ensures { result.now ≡ self.now }
    {
        self.text.as_bytes()
    }

    /// The text itself.
    pub fn as_str(&self) -> &str
        ensures { result.now ≡ self.now }
    {
        self.text.as_str()
    }
}

/// A dial: its name, and whether the peer answered.
#[derive(Drop, Debug)]
pub struct Dial {
    /// The name that was dialled.
    pub name: Name,
    /// Whether the dial went well.
    pub answered: bool,
}

/// What comes from the outside, one at a time.
#[derive(Drop, Debug)]
pub enum Delivery {
    /// A peer has sent these bytes, at least one.
    Got(PeerNo, Piece),
    /// A peer has gone, and sends no more.
    Gone(PeerNo),
    /// So many seconds have passed since the last tick, from 1 to 86,400.
    Tick(u32),
    /// Nothing more comes.
    Ended,
}

/// What passed the wires.
#[derive(Drop, Debug)]
pub enum Event {
    /// A peer was dialled by this name.
    Dialled(PeerNo, Name),
    /// A dial of this name failed.
    NotDialled(PeerNo, Name),
    /// These bytes were sent to a peer.
    Sent(PeerNo, Piece),
    /// A send to a peer failed.
    SendFailed(PeerNo),
    /// The connection to a peer was closed.
    Closed(PeerNo),
    /// A delivery was taken.
    Took(Delivery),
}

/// How a peer stands, by what passed last of these.
#[derive(Clone, Copy, Debug, PartialEq, Eq)]
pub enum Mark {
    /// It was not dialled yet.
    NotYet,
    /// It was dialled.
    Dialled,
    /// Its dial failed.
    NotDialled,
    /// It has gone.
    Gone,
    /// It was closed.
    Closed,
    /// A send to it failed.
    SendFailed,
}

impl Delivery {
    /// The same delivery once more.
    pub fn copy(&self, alloc: Global) -> Result<Delivery, NoMemory>
        ensures { IfOk result (λ d. d ≡ self.now) }
    {
        match self {
            Delivery::Got(p, piece) => {
                let piece = Piece::from_slice(alloc, piece.as_slice())?;
                Ok(Delivery::Got(*p, piece))
            }
            Delivery::Gone(p) => Ok(Delivery::Gone(*p)),
            Delivery::Tick(seconds) => Ok(Delivery::Tick(*seconds)),
            Delivery::Ended => Ok(Delivery::Ended),
        }
    }
}
