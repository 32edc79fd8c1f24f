//! Conversations with a server whose chain grows.
ghost use Rattle.std.specs.Prelude.{◌≡◌, Some};
ghost use Rattle.cf_conn.specs.{Writes};

use crate::conversations::{MOMENT, NONCE, conn_in, index_in, shown as bytes_shown};
use cf_bytes::{Failed, Sink};
use cf_conn::{Duplex, MemoryConn, MemoryEnd, Source};
use cf_grow::{Ending, Grown, KeptBytes, MOST_JOINED, Nobody, Tip, serve_grown};
use cf_rows::Host;
use std::alloc::Global;
use std::marker::Model;
use std::sync::{Arc, Mutex, Wait};
use std::thread::Threads;

// The most bytes that are written to a connection, and the most that are kept.
const ROOM: usize = 4_000_000;

/// A connection by which another one is served, whole, before one of its reads.
#[derive(Drop)]
struct Around<R: Wait + Copy + Drop> {
    rt: R,
    alloc: Global,
    grown: Arc<Mutex<Grown<KeptBytes>>, Global>,
    first: Tip,
    conn: MemoryConn,
    within: MemoryConn,
    // How many reads come before.
    before: u32,
    how: Option<Ending>,
}

impl<R: Wait + Copy + Drop> Model for Around<R> {
    ghost use Rattle.cf_conn.specs.{BothWays};

    ghost Value = { BothWays };

    ghost view = { λ c. c.conn };
}

impl<R: Wait + Copy + Drop> Around<R> {
    // Serves the one within, once so many reads have come. This connection stays as it is.
    fn serve_within(&mut self)
        ensures { self.new ≡ self.old }
    {
        if self.before > 0 {
            self.before -= 1;
            return;
        }
        if self.how.is_none() {
            let ending = serve_grown(
                &self.rt,
                self.alloc,
                &self.grown,
                &Nobody,
                &mut self.within,
                MOMENT,
                NONCE,
                self.first,
            );
            self.how = Some(ending);
        }
    }
}

impl<R: Wait + Copy + Drop> Source for Around<R> {
    ghost left = { λ c. Some c.source.rest };

    ghost ended = { λ c. c.source.ended };

    ghost faults = { λ c. c.source.plan.faults };

    fn read(&mut self, into: &mut [u8]) -> Result<usize, Failed> {
        self.receive(into)
    }
}

impl<R: Wait + Copy + Drop> Sink for Around<R> {
    ghost written = { λ c. Some c.sink.bytes };

    ghost faults = { λ c. c.sink.plan.faults };

    ghost writes = { Writes };

    fn write(&mut self, from: &[u8]) -> Result<usize, Failed> {
        self.send(from)
    }
}

impl<R: Wait + Copy + Drop> Duplex for Around<R> {
    type End = MemoryEnd;

    ghost tells = { λ end. end };

    fn receive(&mut self, into: &mut [u8]) -> Result<usize, Failed> {
        self.serve_within();
        self.conn.receive(into)
    }

    fn send(&mut self, from: &[u8]) -> Result<usize, Failed> {
        self.conn.send(from)
    }

    fn close(self) -> MemoryEnd {
        self.conn.close()
    }
}

// How a connection ended, and what was written to it.
fn shown(alloc: Global, how: &Option<Ending>, conn: &MemoryConn) -> Option<String> {
    let text = bytes_shown(alloc, conn.written())?;
    match how {
        Some(ending) => format!(in alloc; "{ending:?} {text}").ok(),
        None => format!(in alloc; "unserved {text}").ok(),
    }
}

// A chain that grows on the made one that a text tells, and that one's tip.
fn grown_in<R: Threads + Sync>(
    rt: &R,
    alloc: Global,
    chain: &str,
) -> Option<(Arc<Mutex<Grown<KeptBytes>>, Global>, Tip)> {
    let index = index_in(rt, alloc, chain)?;
    let first = Tip::of(&index);
    let keeper = KeptBytes::new(Vec::new(alloc), ROOM);
    let grown = Grown::new(alloc, index, MOST_JOINED, keeper);
    let grown = Arc::new(alloc, Mutex::new(grown)).ok()?;
    Some((grown, first))
}

// Both connections of a row.
fn around_in<R: Wait + Copy + Drop>(
    rt: R,
    alloc: Global,
    grown: &Arc<Mutex<Grown<KeptBytes>>, Global>,
    first: Tip,
    row: &str,
) -> Option<Around<R>> {
    let (most, rest) = row.split_once(' ')?;
    let (before, rest) = rest.split_once(' ')?;
    let (within, around) = rest.split_once(' ')?;
    let most: usize = most.parse().ok()?;
    let before: u32 = before.parse().ok()?;
    let grown = Arc::try_clone(grown).ok()?;
    let conn = conn_in(alloc, around, most, ROOM)?;
    let within = conn_in(alloc, within, most, ROOM)?;
    Some(Around {
        rt,
        alloc,
        grown,
        first,
        conn,
        within,
        before,
        how: None,
    })
}

// How both connections ended, and what was written to them.
fn both_shown<R: Wait + Copy + Drop>(
    alloc: Global,
    conn: &Around<R>,
    how: Ending,
) -> Option<String> {
    let first = shown(alloc, &conn.how, &conn.within)?;
    let second = shown(alloc, &Some(how), &conn.conn)?;
    format!(in alloc; "{first}\n{second}").ok()
}

/// How two connections end over a chain that grows, and what is written. The first one is served whole, once so many
/// reads of the second have come.
pub(crate) fn answer<R: Host>(rt: R, alloc: Global, row: &str) -> Option<String> {
    let (chain, rest) = row.split_once(' ')?;
    let (grown, first) = grown_in(&rt, alloc, chain)?;
    let mut conn = around_in(rt, alloc, &grown, first, rest)?;
    let how = serve_grown(&rt, alloc, &grown, &Nobody, &mut conn, MOMENT, NONCE, first);
    both_shown(alloc, &conn, how)
}
