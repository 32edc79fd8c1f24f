//! A course of calls over any wires, and what came of them.
ghost use Rattle.std.specs.Prelude.{◌≡◌, [], false};
ghost use Rattle.cf_wires.specs.{Tells};

use crate::guide::{Guide, Joins};
use crate::lines::{are_in_order, put_bytes, put_firsts, put_peers};
use cf_bytes::PeerNo;
use cf_wires::{Delivery, Wires};
use std::alloc::Global;

/// The most deliveries that one step takes.
pub(crate) const MOST: u32 = 100_000;

/// Wires with the lines of what passed them: one for each dial, and one for each delivery and each failed send, as a
/// session has them.
#[derive(Drop)]
pub(crate) struct Course<W: Wires + Joins + Drop> {
    alloc: Global,
    guide: Guide<W>,
    dials: String,
    lines: String,
    // How many bytes came.
    bytes: usize,
    is_ended: bool,
}

/// What a step has to take before it stops.
#[derive(Clone, Copy)]
pub(crate) enum Until {
    /// So many deliveries that are no ticks.
    Others(u32),
    /// A tick.
    Tick,
    /// So many bytes, with those that came before.
    Bytes(usize),
    /// The end.
    End,
}

impl<W: Wires + Joins + Drop> Course<W> {
    /// Over wires that nothing has passed.
    pub(crate) fn new(alloc: Global, wires: W) -> Course<W>
        requires new { Tells [] (W.told wires) }
        requires running { (W.told wires).finished ≡ false }
    {
        Course {
            alloc,
            guide: Guide::new(wires),
            dials: String::new(alloc),
            lines: String::new(alloc),
            bytes: 0,
            is_ended: false,
        }
    }

    /// Dials a peer. Whether it answers.
    pub(crate) fn dial(&mut self, name: &str) -> Option<bool> {
        let answers = self.guide.dial(name)?;
        let word = if answers { "dial" } else { "nodial" };
        let line = format!(in self.alloc; "{word} {name}\n").ok()?;
        self.dials.push_str(line.as_str()).ok()?;
        Some(answers)
    }

    /// Sends to a peer. Whether that went well.
    pub(crate) fn send(&mut self, p: PeerNo, bytes: &[u8]) -> Option<bool> {
        let is_sent = self.guide.send(p, bytes)?;
        if !is_sent {
            self.put_gone(p)?;
        }
        Some(is_sent)
    }

    /// Closes a peer.
    pub(crate) fn close(&mut self, p: PeerNo) -> Option<()> {
        self.guide.close(p)
    }

    /// Finishes the wires.
    pub(crate) fn finish(&mut self) -> Option<()> {
        self.guide.finish()
    }

    /// Whether all that was started was joined.
    pub(crate) fn is_joined(&self) -> bool {
        self.guide.is_joined()
    }

    // A line on a peer that is gone.
    fn put_gone(&mut self, p: PeerNo) -> Option<()> {
        let line = format!(in self.alloc; "gone {}\n", p.0).ok()?;
        self.lines.push_str(line.as_str()).ok()
    }

    // A line on bytes.
    fn put_got(&mut self, p: PeerNo, bytes: &[u8]) -> Option<()> {
        let digits = hex::encode(self.alloc, bytes).ok()?;
        let line = format!(in self.alloc; "got {} {digits}\n", p.0).ok()?;
        self.bytes = self.bytes.saturating_add(bytes.len());
        self.lines.push_str(line.as_str()).ok()
    }

    // A line on a tick.
    fn put_tick(&mut self, seconds: u32) -> Option<()> {
        let line = format!(in self.alloc; "tick {seconds}\n").ok()?;
        self.lines.push_str(line.as_str()).ok()
    }

    // Takes one delivery. Whether it was a tick; the end is noted.
    fn take_one(&mut self) -> Option<bool> {
        match self.guide.next()? {
            Delivery::Got(p, piece) => self.put_got(p, piece.as_slice())?,
            Delivery::Gone(p) => self.put_gone(p)?,
            Delivery::Tick(seconds) => {
                self.put_tick(seconds)?;
                return Some(true);
            }
            Delivery::Ended => self.is_ended = true,
        }
        Some(false)
    }

    // Whether it has come so far, with so many that are no ticks, and a tick at last or none.
    fn is_there(&self, until: Until, others: u32, is_tick: bool) -> bool {
        match until {
            Until::Others(wanted) => others >= wanted,
            Until::Tick => is_tick,
            Until::Bytes(wanted) => self.bytes >= wanted,
            Until::End => self.is_ended,
        }
    }

    /// Takes deliveries until the end, or so far. Whether it came so far.
    pub(crate) fn take(&mut self, until: Until) -> Option<bool> {
        self.is_ended = false;
        let mut others = 0u32;
        let mut is_tick = false;
        for _ in 0..MOST {
            if self.is_there(until, others, is_tick) {
                return Some(true);
            }
            if self.is_ended {
                return Some(false);
            }
            is_tick = self.take_one()?;
            if !is_tick {
                others = others.saturating_add(1);
            }
        }
        Some(false)
    }

    /// Puts what came of each peer behind a text: its pieces, and whether it is gone.
    pub(crate) fn put_peers(&self, out: &mut String) -> Option<()> {
        put_peers(self.alloc, self.guide.dials(), self.lines.as_str(), out)
    }

    /// Puts what came of each peer behind a text: its bytes, and whether it is gone.
    pub(crate) fn put_bytes(&self, out: &mut String) -> Option<()> {
        put_bytes(self.alloc, self.guide.dials(), self.lines.as_str(), out)
    }

    /// Puts behind a text of each peer whether its pieces are the first of what its name tells, and how many pieces
    /// came.
    pub(crate) fn put_firsts(&self, out: &mut String) -> Option<()> {
        put_firsts(self.alloc, self.dials.as_str(), self.lines.as_str(), out)
    }

    /// Whether there are ticks, and they are 1, 2 and so on.
    pub(crate) fn has_ticks(&self) -> Option<bool> {
        are_in_order(self.alloc, self.lines.as_str())
    }

    /// Whether the lines of the session are those of what passed.
    pub(crate) fn is_recorded(&self) -> Option<bool> {
        let passed = format!(in self.alloc; "{}{}", self.dials, self.lines).ok()?;
        let session = self.guide.session()?;
        Some(session.as_str() == passed.as_str())
    }

    /// The lines of the session.
    pub(crate) fn session(&self) -> Option<String> {
        self.guide.session()
    }
}
