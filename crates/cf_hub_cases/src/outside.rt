//! The outside of a hub in memory: peers of which each is told by the name under which it is dialled, and a pulse.
ghost use Rattle.std.specs.Prelude.{◌≡◌, ◌<◌, None, Some, [], false, IfSome};

use crate::doors::{Count, Door, SHUT, add, count, same};
use cf_bytes::{Failed, Sink, VecSink};
use cf_conn::{MemoryConn, Source};
use cf_outside::{Dialer, Pulse, Writer};
use std::alloc::Global;

/// Gives the bytes of a connection in memory once its door is open, and none where that isn't in time. A read takes no
/// memory.
#[derive(Drop)]
pub(crate) struct PlannedSource {
    conn: MemoryConn,
    door: Door,
    // How many reads of all sources gave bytes.
    reads: Count,
    // How many doors were not open in time.
    vain: Count,
    ended: bool,
}

impl Source for PlannedSource {
    ghost left = { λ _. None };

    ghost ended = { λ s. s.ended };

    ghost faults = { λ s. s.conn.source.plan.faults };

    fn read(&mut self, into: &mut [u8]) -> Result<usize, Failed> {
        if !self.door.pass() {
            add(&self.vain, 1);
            self.ended = self.ended || !into.is_empty();
            return Ok(0);
        }
        let n = self.conn.read(into)?;
        if n > 0 {
            add(&self.reads, 1);
        } else if !into.is_empty() {
            self.ended = true;
        }
        Ok(n)
    }
}

/// Keeps what is written and counts its bytes, or fails each time; and counts once it is shut.
#[derive(Drop)]
pub(crate) struct PlannedWriter {
    sink: VecSink,
    fails: bool,
    count: Count,
    faults: u64,
    shut: bool,
}

impl Sink for PlannedWriter {
    ghost written = { λ w. Some w.sink.bytes };

    ghost faults = { λ w. w.faults };

    ghost writes = { λ _ _ _ _. Unit {0} };

    fn write(&mut self, from: &[u8]) -> Result<usize, Failed> {
        self.put(from)
    }
}

impl Writer for PlannedWriter {
    ghost was_shut = { λ w. w.shut };

    fn put(&mut self, from: &[u8]) -> Result<usize, Failed> {
        if self.fails {
            self.faults = self.faults.saturating_add(1);
            return Err(Failed);
        }
        match self.sink.write(from) {
            Ok(n) => {
                add(&self.count, u32::try_from(n).unwrap_or(0));
                Ok(n)
            }
            Err(_) => {
                self.faults = self.faults.saturating_add(1);
                Err(Failed)
            }
        }
    }

    fn shut(&mut self) {
        self.shut = true;
        add(&self.count, SHUT);
    }
}

// How a peer goes on.
#[derive(Clone, Copy)]
enum Way {
    // It gives its bytes at once.
    Free,
    // It gives its bytes once so many have entered the gate.
    Gate,
    // It gives its bytes once so many bytes were written to it.
    Sent,
    // It gives its bytes once its connection is shut.
    Shut,
    // It gives its bytes at once; what is written to it fails.
    Mute,
    // It gives its bytes at once, until the read of this number, which fails.
    Fault,
}

// What the name of a peer tells but for its bytes.
#[derive(Clone, Copy)]
struct Plan {
    way: Way,
    wanted: u32,
    // How many bytes come with one read, at most.
    most: usize,
}

fn way_in(text: &str) -> Option<Way> {
    match text {
        "free" => Some(Way::Free),
        "gate" => Some(Way::Gate),
        "sent" => Some(Way::Sent),
        "shut" => Some(Way::Shut),
        "mute" => Some(Way::Mute),
        "fault" => Some(Way::Fault),
        _ => None,
    }
}

// What a name `WAY,WANTED,HEX,MOST` tells.
fn plan_in(name: &str) -> Option<Plan>
    ensures { IfSome result (λ p. 0 < p.most) }
{
    let (way, rest) = name.split_once(',')?;
    let (wanted, rest) = rest.split_once(',')?;
    let (_, most) = rest.split_once(',')?;
    let most: usize = most.parse().ok()?;
    if most == 0 {
        return None;
    }
    Some(Plan {
        way: way_in(way)?,
        wanted: wanted.parse().ok()?,
        most,
    })
}

/// The digits of the bytes that the peer of a name gives, where `z` stands for eight bytes that are zero.
pub(crate) fn digits_in(name: &str) -> Option<&str> {
    let (_, rest) = name.split_once(',')?;
    let (_, rest) = rest.split_once(',')?;
    let (digits, _) = rest.split_once(',')?;
    Some(digits)
}

/// The counts of a row: who has entered the gate, how many reads gave bytes, and how many sources waited in vain.
#[derive(Drop)]
pub(crate) struct Counts {
    pub(crate) gate: Count,
    pub(crate) reads: Count,
    pub(crate) vain: Count,
}

impl Counts {
    /// Counts of nothing.
    pub(crate) fn new(alloc: Global) -> Option<Counts> {
        let gate = count(alloc)?;
        let reads = count(alloc)?;
        Some(Counts {
            gate,
            reads,
            vain: count(alloc)?,
        })
    }
}

/// Opens the connections that names tell. A name that tells none does not answer.
#[derive(Drop)]
pub(crate) struct PlannedDialer {
    rt: HostRuntime,
    alloc: Global,
    gate: Count,
    reads: Count,
    vain: Count,
    faults: u64,
}

// The bytes that a name tells.
fn bytes_in(alloc: Global, name: &str) -> Option<Vec<u8>> {
    let digits = digits_in(name)?;
    let digits = digits.replace(alloc, "z", "0000000000000000").ok()?;
    hex::decode(alloc, digits.as_str()).ok()
}

// What a peer gives, beyond a closed door.
fn conn_in(alloc: Global, name: &str, plan: Plan) -> Option<MemoryConn>
    requires { 0 < plan.most }
    ensures { IfSome result (λ c. (c.source.ended ≡ false) × (c.source.plan.faults ≡ 0)) }
{
    let bytes = bytes_in(alloc, name)?;
    let unused = VecSink::new(alloc, 1, 0).ok()?;
    let mut conn = MemoryConn::new(alloc, bytes, plan.most, unused);
    if matches!(plan.way, Way::Fault) {
        conn.failing_reads(&[u64::from(plan.wanted)]).ok()?;
    }
    Some(conn)
}

/// The writer of a peer.
pub(crate) fn writer_of(alloc: Global, fails: bool, count: Count) -> Option<PlannedWriter>
    ensures { IfSome result (λ w. (w.faults ≡ 0) × (w.shut ≡ false) × (w.sink.bytes ≡ [])) }
{
    Some(PlannedWriter {
        sink: VecSink::new(alloc, 1000, 10_000).ok()?,
        fails,
        count,
        faults: 0,
        shut: false,
    })
}

impl PlannedDialer {
    // The door before a peer's bytes. The count is that of its own connection.
    fn door_of(&self, plan: Plan, own: &Count) -> Option<Door> {
        let (count, wanted, enters) = match plan.way {
            Way::Free | Way::Mute | Way::Fault => (own, 0, false),
            Way::Gate => (&self.gate, plan.wanted, true),
            Way::Sent => (own, plan.wanted, false),
            Way::Shut => (own, SHUT, false),
        };
        Door::new(self.rt, count, wanted, enters)
    }

    // The source of a peer.
    fn source_of(&self, plan: Plan, name: &str, own: &Count) -> Option<PlannedSource>
        requires { 0 < plan.most }
        ensures { IfSome result (λ s. (s.ended ≡ false) × (s.conn.source.plan.faults ≡ 0)) }
    {
        let door = self.door_of(plan, own)?;
        let reads = same(&self.reads)?;
        let vain = same(&self.vain)?;
        Some(PlannedSource {
            conn: conn_in(self.alloc, name, plan)?,
            door,
            reads,
            vain,
            ended: false,
        })
    }

    // Both sides of a peer.
    fn open(&self, name: &str) -> Option<(PlannedSource, PlannedWriter)>
        ensures { IfSome result (λ c. (c.0.ended ≡ false) × (c.0.conn.source.plan.faults ≡ 0) × (c.1.faults ≡ 0)
            × (c.1.shut ≡ false) × (c.1.sink.bytes ≡ [])) }
    {
        let plan = plan_in(name)?;
        let own = count(self.alloc)?;
        let source = self.source_of(plan, name, &own)?;
        let writer = writer_of(self.alloc, matches!(plan.way, Way::Mute), own)?;
        Some((source, writer))
    }
}

impl Dialer for PlannedDialer {
    type Read = PlannedSource;

    type Write = PlannedWriter;

    ghost faults = { λ d. d.faults };

    ghost dials = { λ _ _ _ _. Unit {0} };

    fn dial(&mut self, name: &str) -> Result<(PlannedSource, PlannedWriter), Failed> {
        if let Some(both) = self.open(name) {
            return Ok(both);
        }
        self.faults = self.faults.saturating_add(1);
        Err(Failed)
    }
}

/// A pulse that enters the gate, and answers once that is open: 1, then 2 and so on, a millisecond apart.
#[derive(Drop)]
pub(crate) struct PlannedPulse {
    door: Door,
    seconds: u32,
}

impl Pulse for PlannedPulse {
    ghost answers = { λ _. None };

    fn wait(&mut self) -> u32 {
        self.door.pass_late();
        self.seconds = self.seconds.saturating_add(1);
        self.seconds.clamp(1, 86_400)
    }
}

/// A pulse that waits for so many at the gate.
pub(crate) fn pulse_of(rt: HostRuntime, counts: &Counts, wanted: u32) -> Option<PlannedPulse> {
    let door = Door::new(rt, &counts.gate, wanted, true)?;
    Some(PlannedPulse { door, seconds: 0 })
}

/// A dialer that has opened nothing.
pub(crate) fn dialer_of(rt: HostRuntime, alloc: Global, counts: &Counts) -> Option<PlannedDialer> {
    Some(PlannedDialer {
        rt,
        alloc,
        gate: same(&counts.gate)?,
        reads: same(&counts.reads)?,
        vain: same(&counts.vain)?,
        faults: 0,
    })
}
