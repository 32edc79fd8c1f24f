//! Wires that may be called in any order: a call that must not come is not made.
ghost use Rattle.std.specs.Prelude.{◌≡◌, [], false};
ghost use Rattle.cf_wires.specs.{Tells};

use cf_bytes::PeerNo;
use cf_wires::{Delivery, MemoryWires, WireFail, Wires};

/// Wires that tell whether all that they started was joined, and what still comes once they are finished.
pub(crate) trait Joins: Wires {
    /// Whether it was.
    fn is_joined(&self) -> bool;

    /// What comes of wires that are finished. `None` for want of memory, and where that is not told.
    fn next_finished(&mut self) -> Option<Delivery>
        ensures dials { (Self.told self.new).tally.dials ≡ (Self.told self.old).tally.dials }
        ensures closed { (Self.told self.new).tally.closed ≡ (Self.told self.old).tally.closed }
        ensures finished { (Self.told self.new).finished ≡ (Self.told self.old).finished };
}

impl Joins for MemoryWires {
    fn is_joined(&self) -> bool {
        true
    }

    fn next_finished(&mut self) -> Option<Delivery> {
        None
    }
}

/// Wires, and what has to be known of them before a call.
#[derive(Drop)]
pub(crate) struct Guide<W: Wires + Joins + Drop> {
    wires: W,
    dials: u32,
    closed: [bool; 9],
    finished: bool,
    ghost dials_are: { (W.told wires).tally.dials ≡ dials },
    ghost closed_are: { (W.told wires).tally.closed ≡ closed },
    ghost is_finished: { (W.told wires).finished ≡ finished },
}

impl<W: Wires + Joins + Drop> Guide<W> {
    /// Over wires that nothing has passed. They keep their log from now on.
    pub(crate) fn new(wires: W) -> Guide<W>
        requires new { Tells [] (W.told wires) }
        requires running { (W.told wires).finished ≡ false }
    {
        let mut wires = wires;
        wires.keep_log();
        Guide {
            wires,
            dials: 0,
            closed: [false; 9],
            finished: false,
        }
    }

    /// How many were dialled.
    pub(crate) fn dials(&self) -> u32 {
        self.dials
    }

    /// Dials a peer. Whether it answers. `None` for a ninth dial, for want of memory, and where the wires are finished.
    pub(crate) fn dial(&mut self, name: &str) -> Option<bool> {
        if self.finished || self.dials >= 8 {
            return None;
        }
        match self.wires.dial(name) {
            Ok(_) => {
                self.dials += 1;
                Some(true)
            }
            Err(WireFail::Failed) => {
                self.dials += 1;
                Some(false)
            }
            Err(WireFail::NoMemory) => None,
        }
    }

    /// Sends to a peer. Whether that went well. `None` for want of memory.
    pub(crate) fn send(&mut self, p: PeerNo, bytes: &[u8]) -> Option<bool> {
        if self.finished {
            return None;
        }
        match self.wires.send(p, bytes) {
            Ok(()) => Some(true),
            Err(WireFail::Failed) => Some(false),
            Err(WireFail::NoMemory) => None,
        }
    }

    /// Closes a peer. `None` for one that was closed, and for no number of a peer.
    pub(crate) fn close(&mut self, p: PeerNo) -> Option<()> {
        let place = p.0 as usize;
        if self.finished || place >= 9 || self.closed[place] {
            return None;
        }
        self.closed[place] = true;
        self.wires.close(p);
        Some(())
    }

    /// Takes a delivery. `None` for want of memory.
    pub(crate) fn next(&mut self) -> Option<Delivery> {
        if self.finished {
            return self.wires.next_finished();
        }
        self.wires.next().ok()
    }

    /// Finishes the wires. `None` where they are finished.
    pub(crate) fn finish(&mut self) -> Option<()> {
        if self.finished {
            return None;
        }
        self.finished = true;
        self.wires.finish();
        Some(())
    }

    /// The lines of the session.
    pub(crate) fn session(&self) -> Option<String> {
        self.wires.session().ok()
    }

    /// Whether all that was started was joined.
    pub(crate) fn is_joined(&self) -> bool {
        self.wires.is_joined()
    }
}
