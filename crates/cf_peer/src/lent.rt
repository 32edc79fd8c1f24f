//! How the bytes of a peer are read where they are lent.
ghost use Rattle.std.specs.Prelude.{◌≡◌, []};
ghost use Rattle.cf_peer.specs.Lent.{ReadsOn};

use crate::peer::{Cause, Peer};
use cf_frame::Framer;
use cf_lent::{View, view};
use std::alloc::Global;
use std::mem;

/// What the frame at the front of a peer's bytes says, lent.
#[derive(Drop)]
pub enum Coming<'a> {
    /// A message.
    Message(View<'a>),
    /// It is no frame, or its payload no spelling: the peer deserves this cause.
    Fault(Cause),
}

/// Reads the frame at the front, if one waits whole. `None` where the bytes that wait are no whole frame and not bad.
/// It takes no memory, and nothing from the framer: that is for `done` to do, after a message.
pub fn next_coming(framer: &Framer) -> Option<Coming<'_>>
    ensures { ReadsOn framer.now result }
{
    match framer.next_lent() {
        Ok(None) => None,
        Ok(Some(lent)) => match view(&lent) {
            Ok(message) => Some(Coming::Message(message)),
            Err(_) => Some(Coming::Fault(Cause::Malformed)),
        },
        Err(_) => Some(Coming::Fault(Cause::BadFrame)),
    }
}

impl Peer {
    /// Takes the framer out of the peer, which keeps one to which nothing was fed. So a frame that is lent leaves the
    /// rest of the peer free to change. It takes no memory.
    pub fn take_framer(&mut self, alloc: Global) -> Framer
        ensures framer { result ≡ self.old.framer }
        ensures others { self.new ≡ record self.old { framer = [] } }
    {
        mem::replace(&mut self.framer, Framer::new(alloc))
    }

    /// Puts a framer into the peer, in place of its own.
    pub fn put_framer(&mut self, framer: Framer)
        ensures { self.new ≡ record self.old { framer = framer } }
    {
        self.framer = framer;
    }
}
