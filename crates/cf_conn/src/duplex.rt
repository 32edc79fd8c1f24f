//! Connections, as a trait.
ghost use Rattle.std.specs.Prelude.{◌≡◌, ℕ, ◌≤◌, ◌<◌, ◌||◌, [], length, take, drop, IfOk, IfSome, OnOk, OnErr};
ghost use Rattle.cf_bytes.specs.{HasRisen, with_more};
ghost use Rattle.cf_conn.specs.Source.{with_front, is_end};
ghost use Rattle.cf_conn.specs.Told.{ConnTold};

use crate::source::Source;
use cf_bytes::{Failed, Sink};

/// A connection: bytes come from it and go to it, and neither way disturbs the other.
pub trait Duplex: Source + Sink {
    /// What stays of a connection that was closed.
    type End;

    /// What such an end tells.
    ghost tells: { Self.End → ConnTold };

    /// Reads as `read` does. What the connection tells of its writes stays as it is.
    fn receive(&mut self, into: &mut [u8]) -> Result<usize, Failed>
        ensures some { IfOk result (λ n. n ≤ length into.new) }
        ensures rest { IfOk result (λ n. drop n into.new ≡ drop n into.old) }
        ensures ok { IfOk result (λ n. Self.left self.old ≡ with_front (take n into.new) (Self.left self.new)) }
        ensures end { IfOk result (λ n. 0 < length into.old → n ≡ 0
            → IfSome (Self.left self.old) (λ bytes. bytes ≡ [])) }
        ensures ended { Self.ended self.new ≡ (Self.ended self.old || is_end (length into.old) result) }
        ensures err { OnErr result (Self.left self.new ≡ Self.left self.old) }
        ensures kept { OnOk result (Self.Source.faults self.new ≡ Self.Source.faults self.old) }
        ensures cause { OnErr result (HasRisen (Self.Source.faults self.old) (Self.Source.faults self.new)) }
        ensures written { Self.written self.new ≡ Self.written self.old }
        ensures write_faults { Self.Sink.faults self.new ≡ Self.Sink.faults self.old };

    /// Writes as `write` does. What the connection tells of its reads stays as it is.
    fn send(&mut self, from: &[u8]) -> Result<usize, Failed>
        ensures some { IfOk result (λ n. (n ≤ length from.now) × (0 < length from.now → 0 < n)) }
        ensures ok { IfOk result (λ n. Self.written self.new ≡ with_more (Self.written self.old) (take n from.now)) }
        ensures err { OnErr result (Self.written self.new ≡ Self.written self.old) }
        ensures kept { OnOk result (Self.Sink.faults self.new ≡ Self.Sink.faults self.old) }
        ensures cause { OnErr result (HasRisen (Self.Sink.faults self.old) (Self.Sink.faults self.new)) }
        ensures left { Self.left self.new ≡ Self.left self.old }
        ensures ended { Self.ended self.new ≡ Self.ended self.old }
        ensures read_faults { Self.Source.faults self.new ≡ Self.Source.faults self.old }
        ensures exact { Self.writes self.old from.now result self.new };

    /// Closes the connection. The end tells what the connection told until then.
    fn close(self) -> Self::End
        ensures { tells result ≡ record {
          left = Self.left self;
          written = Self.written self;
          ended = Self.ended self;
          read_faults = Self.Source.faults self;
          write_faults = Self.Sink.faults self;
        } };
}
