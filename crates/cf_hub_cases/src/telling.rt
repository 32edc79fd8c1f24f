//! The outside of a hub in memory that tells all that it gives and gets: the bytes of each peer, what is written to it,
//! and the seconds of a pulse.
ghost use Rattle.std.specs.Prelude.{◌≡◌, ◌≤◌, ◌<◌, Some, [], false, IfOk, IfSome};
ghost use Rattle.cf_hub_cases.specs.Telling.{up_to};

use crate::doors::{Count, Door, add, count, nap, same};
use crate::outside::{PlannedWriter, writer_of};
use cf_bytes::{Failed, VecSink};
use cf_conn::{MemoryConn, Source};
use cf_outside::{Dialer, Pulse};
use std::alloc::Global;
use std::sync::Wait;

/// Gives the bytes of a connection in memory once its door is open, or isn't in time, and tells which are left. It
/// never fails.
#[derive(Drop)]
pub(crate) struct ToldSource {
    conn: MemoryConn,
    door: Door,
    // How many doors were not open in time.
    vain: Count,
    pub(crate) ghost no_plan: { conn.source.plan.failing ≡ [] },
    pub(crate) ghost calm: { conn.source.plan.faults ≡ 0 },
}

impl Source for ToldSource {
    ghost left = { λ s. Some s.conn.source.rest };

    ghost ended = { λ s. s.conn.source.ended };

    ghost faults = { λ s. s.conn.source.plan.faults };

    #[tactic(auto, using(crate::proofs::Comes::after_reads, std::proofs::lemmas::Grind::common_steps))]
    fn read(&mut self, into: &mut [u8]) -> Result<usize, Failed> {
        if !self.door.pass() {
            add(&self.vain, 1);
        }
        self.conn.read(into)
    }
}

/// What the peers of a row are told, and tell.
#[derive(Drop)]
pub(crate) struct ToldCounts {
    /// How many bytes were written to them, and `SHUT` more for each that was shut.
    pub(crate) written: Count,
    /// How many of their reads found a door that was not open in time.
    pub(crate) vain: Count,
}

impl ToldCounts {
    /// Counts of nothing.
    pub(crate) fn new(alloc: Global) -> Option<ToldCounts> {
        let written = count(alloc)?;
        Some(ToldCounts {
            written,
            vain: count(alloc)?,
        })
    }

    /// The same counts once more.
    pub(crate) fn again(&self) -> Option<ToldCounts> {
        let written = same(&self.written)?;
        Some(ToldCounts {
            written,
            vain: same(&self.vain)?,
        })
    }
}

/// What a peer gives: its bytes, at most so many with one read, once so many were written to it.
#[derive(Drop)]
pub(crate) struct ToldPeer {
    pub(crate) bytes: Vec<u8>,
    pub(crate) most: usize,
    pub(crate) wanted: u32,
    pub(crate) ghost some: { 0 < most },
}

/// Opens connections, each to such a peer.
#[derive(Drop)]
pub(crate) struct ToldDialer {
    rt: HostRuntime,
    alloc: Global,
    peer: ToldPeer,
    counts: ToldCounts,
    faults: u64,
}

impl ToldDialer {
    /// A dialer of such peers.
    pub(crate) fn new(rt: HostRuntime, peer: ToldPeer, counts: ToldCounts) -> ToldDialer
        ensures { result.peer ≡ peer }
    {
        ToldDialer {
            rt,
            alloc: rt.alloc(),
            peer,
            counts,
            faults: 0,
        }
    }

    // The door before a peer's bytes.
    fn door(&self) -> Option<Door> {
        Door::new(self.rt, &self.counts.written, self.peer.wanted, false)
    }

    // What a peer gives, beyond its door.
    fn conn(&self) -> Option<MemoryConn>
        ensures { IfSome result (λ c. (c.source.rest ≡ self.now.peer.bytes.items) × (c.source.ended ≡ false)
            × (c.source.plan.failing ≡ []) × (c.source.plan.faults ≡ 0)) }
    {
        let bytes = Vec::from_slice(self.alloc, &self.peer.bytes).ok()?;
        let unused = VecSink::new(self.alloc, 1, 0).ok()?;
        Some(MemoryConn::new(self.alloc, bytes, self.peer.most, unused))
    }

    // The source of a peer.
    fn source(&self) -> Option<ToldSource>
        ensures { IfSome result
            (λ s. (s.conn.source.rest ≡ self.now.peer.bytes.items) × (s.conn.source.ended ≡ false)) }
    {
        let door = self.door()?;
        let vain = same(&self.counts.vain)?;
        Some(ToldSource {
            conn: self.conn()?,
            door,
            vain,
        })
    }

    // Both sides of a peer.
    fn open(&self) -> Option<(ToldSource, PlannedWriter)>
        ensures source { IfSome result
            (λ c. (c.0.conn.source.rest ≡ self.now.peer.bytes.items) × (c.0.conn.source.ended ≡ false)) }
        ensures writer { IfSome result (λ c. (c.1.faults ≡ 0) × (c.1.shut ≡ false) × (c.1.sink.bytes ≡ [])) }
    {
        let source = self.source()?;
        let writer = writer_of(self.alloc, false, same(&self.counts.written)?)?;
        Some((source, writer))
    }
}

impl Dialer for ToldDialer {
    type Read = ToldSource;

    type Write = PlannedWriter;

    ghost faults = { λ d. d.faults };

    ghost dials = { λ before _ answer after. IfOk answer (λ c. c.0.conn.source.rest ≡ before.peer.bytes.items)
        × (after.peer ≡ before.peer) };

    fn dial(&mut self, _name: &str) -> Result<(ToldSource, PlannedWriter), Failed> {
        if let Some(both) = self.open() {
            return Ok(both);
        }
        self.faults = self.faults.saturating_add(1);
        Err(Failed)
    }
}

/// Tells the seconds 1, 2 and so on to 86,400, a millisecond apart, and which it has told. After the last of them it
/// waits for good.
#[derive(Drop)]
pub(crate) struct ToldPulse<R> {
    rt: HostRuntime,
    handle: R,
    given: u32,
    pub(crate) ghost within: { given ≤ 86400 },
}

impl<R: Wait + Copy + Drop> ToldPulse<R> {
    /// A pulse that has told nothing.
    pub(crate) fn new(rt: HostRuntime, handle: R) -> ToldPulse<R>
        ensures { result.given ≡ 0 }
    {
        ToldPulse {
            rt,
            handle,
            given: 0,
        }
    }
}

impl<R: Wait + Copy + Drop> Pulse for ToldPulse<R> {
    ghost answers = { λ p. Some (up_to p.given) };

    #[tactic(auto, using(crate::proofs::Comes::up_more))]
    fn wait(&mut self) -> u32 {
        let rt = self.rt;
        nap(&rt);
        if self.given == 86_400 {
            for _ in self.handle.forever() {
                nap(&rt);
            }
            unreachable!()
        }
        self.given += 1;
        self.given
    }
}
