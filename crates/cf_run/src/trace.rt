//! What a run has done, line by line.
ghost use Rattle.std.specs.Prelude.{◌≡◌, ◌++◌, ◌∷◌, [], OnOk, if◌then◌else◌};

use cf_bytes::{NoMemory, PeerNo};
use cf_peer::Cause;
use std::alloc::Global;

/// One thing that a run has done.
#[derive(Clone, Copy, Debug, PartialEq, Eq)]
pub enum TraceLine {
    /// A message with this command was sent to a peer.
    Sent(PeerNo, [u8; 12]),
    /// A peer was closed.
    Closed(PeerNo, Cause),
}

/// The lines of a run, where they are wanted; else none is kept.
#[derive(Drop)]
pub struct Trace {
    wanted: bool,
    lines: Vec<TraceLine>,
}

impl Trace {
    /// No line yet.
    pub(crate) fn new(alloc: Global, wanted: bool) -> Trace
        ensures wanted { result.wanted ≡ wanted }
        ensures empty { result.lines.items ≡ [] }
    {
        Trace {
            wanted,
            lines: Vec::new(alloc),
        }
    }

    /// Keeps one line more, where lines are wanted.
    pub(crate) fn push(&mut self, line: TraceLine) -> Result<(), NoMemory>
        ensures kept { OnOk result (self.new.lines.items
            ≡ (if self.old.wanted then self.old.lines.items ++ line ∷ [] else self.old.lines.items)) }
        ensures wanted { self.new.wanted ≡ self.old.wanted }
    {
        if self.wanted {
            self.lines.push(line)?;
        }
        Ok(())
    }

    /// The lines that were kept.
    pub(crate) fn into_lines(self) -> Vec<TraceLine>
        ensures { result ≡ self.lines }
    {
        self.lines
    }
}
