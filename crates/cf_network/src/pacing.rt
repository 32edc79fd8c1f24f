//! A source that is read no faster than its pace.
ghost use Rattle.std.specs.Prelude.{◌≡◌, None, false};

use crate::counting::Counts;
use crate::pulse::Bell;
use cf_bytes::Failed;
use cf_conn::Source;
use cf_outside::TcpSource;
use std::alloc::Global;
use std::sync::Arc;
use std::thread;
use std::time::Duration;

// The pings of a peer that are taken between two ticks: each of them is answered.
const PINGS: u32 = 100;

// How long more bytes are waited for after a piece that was not full.
fn pause() -> Duration {
    Duration::from_millis(1)
}

/// A connection of which bytes are read at a pace. After a piece that isn't full a millisecond passes, so that a peer
/// which sends byte by byte gives a thousand pieces a second at most; and a peer whose bytes have more than a hundred
/// pings in them between two ticks of the pulse is read no further until the next one, or until the pulse is at its
/// end.
#[derive(Drop)]
pub(crate) struct PacedSource {
    rt: HostRuntime,
    source: TcpSource,
    bell: Arc<Bell, Global>,
    // How many ticks there were when pings were counted from 0.
    ticks: u64,
    counts: Counts,
    // Whether the last piece was not full.
    is_short: bool,
}

impl PacedSource {
    /// This connection, of which nothing was read yet, at the pace of this bell's pulse.
    pub(crate) fn new(rt: HostRuntime, source: TcpSource, bell: Arc<Bell, Global>) -> PacedSource
        ensures { result.source ≡ source }
    {
        PacedSource {
            rt,
            source,
            ticks: bell.ticks(),
            bell,
            counts: Counts::new(),
            is_short: false,
        }
    }

    // Counts pings from 0, if there was a tick since they were last.
    fn begin_anew(&mut self)
        ensures { self.new.source ≡ self.old.source }
    {
        let ticks = self.bell.ticks();
        if ticks != self.ticks {
            self.ticks = ticks;
            self.counts.forget_pings();
        }
    }

    // Waits until more may be read.
    fn wait(&mut self)
        ensures { self.new.source ≡ self.old.source }
    {
        if self.is_short {
            thread::sleep(&self.rt, pause());
        }
        if self.counts.pings() > PINGS {
            self.bell.wait_for_tick(&self.rt, self.ticks);
        }
        self.begin_anew();
    }

    // Notes a piece, and for how many bytes there was room.
    fn note(&mut self, piece: &[u8], room: usize)
        ensures { self.new.source ≡ self.old.source }
    {
        self.is_short = piece.len() < room;
        self.counts.take(piece);
    }
}

impl Source for PacedSource {
    ghost left = { λ _. None };

    ghost ended = { λ s. s.source.ended };

    ghost faults = { λ s. s.source.faults };

    fn read(&mut self, into: &mut [u8]) -> Result<usize, Failed> {
        self.wait();
        let room = into.len();
        let n = self.source.read(into)?;
        self.note(&into[..n], room);
        Ok(n)
    }
}
