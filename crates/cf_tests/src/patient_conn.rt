//! A connection in memory that may wait until another one was answered. It stands outside the tests, since its list of
//! connections has a proof.
ghost use Rattle.std.specs.Prelude.{◌≡◌, All, IfSome, Some, [], false};
ghost use Rattle.cf_conn.specs.{Writes};

use cf_bytes::{Failed, Sink, VecSink};
use cf_conn::{Duplex, MemoryConn, MemoryEnd, Source};
use cf_link::Observed;
use std::alloc::Global;
use std::marker::Model;
use std::sync::Arc;
use std::sync::atomic::{AtomicBool, Ordering};
use std::thread;

// How often a flag is looked for.
const LOOKS: u32 = 20_000_000;

/// What connections tell each other: whether one was answered, and whether another one has waited for that in vain.
#[derive(Drop)]
pub(crate) struct Flags {
    pub(crate) answered: Arc<AtomicBool, Global>,
    pub(crate) in_vain: Arc<AtomicBool, Global>,
}

/// Gives nothing before its first flag is raised, where it is to wait; it raises the second one where it has looked in
/// vain. What is written raises the third.
#[derive(Drop)]
pub(crate) struct PatientConn {
    pub(crate) conn: MemoryConn,
    pub(crate) waits: bool,
    pub(crate) answered: Arc<AtomicBool, Global>,
    pub(crate) in_vain: Arc<AtomicBool, Global>,
}

impl Model for PatientConn {
    ghost use Rattle.cf_conn.specs.{BothWays};

    ghost Value = { BothWays };

    ghost view = { λ c. c.conn };
}

// Looks for the flag so often. Whether it was raised.
fn was_raised(flag: &AtomicBool) -> bool {
    for _ in 0..LOOKS {
        if flag.load(Ordering::SeqCst) {
            return true;
        }
        thread::yield_now();
    }
    false
}

impl Source for PatientConn {
    ghost left = { λ c. Some c.source.rest };

    ghost ended = { λ c. c.source.ended };

    ghost faults = { λ c. c.source.plan.faults };

    fn read(&mut self, into: &mut [u8]) -> Result<usize, Failed> {
        self.receive(into)
    }
}

impl Sink for PatientConn {
    ghost written = { λ c. Some c.sink.bytes };

    ghost faults = { λ c. c.sink.plan.faults };

    ghost writes = { Writes };

    fn write(&mut self, from: &[u8]) -> Result<usize, Failed> {
        self.send(from)
    }
}

impl Duplex for PatientConn {
    type End = MemoryEnd;

    ghost tells = { λ end. end };

    fn receive(&mut self, into: &mut [u8]) -> Result<usize, Failed> {
        if self.waits && !was_raised(&self.answered) {
            self.in_vain.store(true, Ordering::SeqCst);
        }
        self.conn.receive(into)
    }

    fn send(&mut self, from: &[u8]) -> Result<usize, Failed> {
        if !self.waits {
            self.answered.store(true, Ordering::SeqCst);
        }
        self.conn.send(from)
    }

    fn close(self) -> MemoryEnd {
        self.conn.close()
    }
}

impl Observed for PatientConn {
    fn ended(&self, _how: u8) {}
}

// A connection whose peer sends these bytes.
fn conn_of(alloc: Global, asked: &[u8], waits: bool, flags: &Flags) -> Option<PatientConn>
    ensures { IfSome result
        (λ c. (c.source.ended ≡ false) × (c.source.plan.faults ≡ 0) × (c.sink.plan.faults ≡ 0) × (c.sink.bytes ≡ [])) }
{
    let sink = VecSink::new(alloc, 4096, 10_000).ok()?;
    let asked = Vec::from_slice(alloc, asked).ok()?;
    Some(PatientConn {
        conn: MemoryConn::new(alloc, asked, 4096, sink),
        waits,
        answered: Arc::try_clone(&flags.answered).ok()?,
        in_vain: Arc::try_clone(&flags.in_vain).ok()?,
    })
}

/// Two connections whose peers send these bytes. The first gives nothing until the second was answered.
pub(crate) fn two_conns(alloc: Global, asked: &[u8], flags: &Flags) -> Option<Vec<PatientConn>>
    ensures { IfSome result (λ v. All (λ c. (c.source.ended ≡ false) × (c.source.plan.faults ≡ 0)
        × (c.sink.plan.faults ≡ 0) × (c.sink.bytes ≡ [])) v.items) }
{
    let mut conns = Vec::new(alloc);
    for waits in [true, false] {
        let conn = conn_of(alloc, asked, waits, flags)?;
        conns.reserve(1).ok()?;
        conns.push_reserved(conn);
    }
    Some(conns)
}
