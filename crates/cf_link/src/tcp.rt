//! Connections over TCP. They tell no bytes.
ghost use Rattle.std.specs.Prelude.{◌≡◌, ◌≤◌, ◌-◌, None, IfOk};
ghost use Rattle.cf_bytes.specs.{HasRisen};

use crate::door::Door;
use crate::limits::Limits;
use crate::link::Link;
use crate::paced::Paced;
use crate::task::Observed;
use cf_bytes::{Failed, Hash32, NoMemory, Sink};
use cf_conn::{Duplex, Source};
use std::alloc::Global;
use std::io::{Eprint, ErrorKind};
use std::net::{Net, SocketAddr, TcpListener, TcpStream};
use std::time::{Clock, Duration};
use std::{io, thread};

// How long a pause is, in milliseconds.
const PAUSE: u64 = 100;

/// Who is told of the connections of a listener over TCP, each by its number, from 1.
pub trait Watcher {
    /// This connection was accepted, from this address where the system tells it.
    fn came(&self, number: u64, peer: Option<SocketAddr>);

    /// This connection has ended in the way of the second number. The thread that served it tells so.
    fn ended(&self, number: u64, how: u8);
}

/// Nobody is told.
impl Watcher for () {
    fn came(&self, _number: u64, _peer: Option<SocketAddr>) {}

    fn ended(&self, _number: u64, _how: u8) {}
}

/// A connection over TCP. Its peer is held to times, and what it sends to a budget: where the peer is late, a read or
/// a write fails.
#[derive(Drop)]
pub struct TcpConn<R, W> {
    paced: Paced<R>,
    watcher: W,
    number: u64,
    ended: bool,
    reads: u64,
    writes: u64,
}

/// What stays of a connection over TCP.
#[derive(Drop)]
pub struct TcpEnd {
    ended: bool,
    reads: u64,
    writes: u64,
}

impl<R: Clock + Drop, W: Drop> Source for TcpConn<R, W> {
    ghost left = { λ _. None };

    ghost ended = { λ c. c.ended };

    ghost faults = { λ c. c.reads };

    fn read(&mut self, into: &mut [u8]) -> Result<usize, Failed> {
        self.receive(into)
    }
}

impl<R: Clock + Drop, W: Drop> Sink for TcpConn<R, W> {
    ghost written = { λ _. None };

    ghost faults = { λ c. c.writes };

    ghost writes = { λ _ _ _ _. Unit {0} };

    fn write(&mut self, from: &[u8]) -> Result<usize, Failed> {
        self.send(from)
    }
}

impl<R: Clock + Drop, W: Drop> Duplex for TcpConn<R, W> {
    type End = TcpEnd;

    ghost tells = { λ e. record {
      left = None;
      written = None;
      ended = e.ended;
      read_faults = e.reads;
      write_faults = e.writes;
    } };

    fn receive(&mut self, into: &mut [u8]) -> Result<usize, Failed> {
        match self.paced.read(into) {
            Ok(n) => {
                self.ended = self.ended || (n == 0 && !into.is_empty());
                Ok(n)
            }
            Err(_) => {
                self.reads = self.reads.saturating_add(1);
                Err(Failed)
            }
        }
    }

    fn send(&mut self, from: &[u8]) -> Result<usize, Failed> {
        match self.paced.write(from) {
            Ok(n) => Ok(n),
            Err(_) => {
                self.writes = self.writes.saturating_add(1);
                Err(Failed)
            }
        }
    }

    fn close(self) -> TcpEnd {
        let TcpConn {
            paced,
            ended,
            reads,
            writes,
            ..
        } = self;
        paced.close();
        TcpEnd {
            ended,
            reads,
            writes,
        }
    }
}

impl<R, W: Watcher> Observed for TcpConn<R, W> {
    fn ended(&self, how: u8) {
        self.watcher.ended(self.number, how);
    }
}

/// A listener over TCP. It tells neither addresses nor bytes. It serves so many connections at a time as its limits
/// say; the next ones wait, or one is cut for them that has told no `version` for a second, that has left a message or
/// an answer where it is for five, that is idle for a minute, or whose address has more than a quarter of all. Where the
/// system has no memory or no descriptor for the next connection, it waits, and tells that on standard error, at most
/// once a minute.
#[derive(Drop)]
pub struct TcpLink<R, W> {
    rt: R,
    watcher: W,
    door: Door,
    reason: Option<io::Error>,
    faults: u64,
    accepted: u64,
    returned: u64,
    ghost order: { returned ≤ accepted },
}

impl<R: Net<Listener = TcpListener, Stream = TcpStream>, W> TcpLink<R, W> {
    /// A link that doesn't listen yet, with these limits. The watcher is told of its connections.
    ///
    /// # Errors
    ///
    /// Where no memory is found.
    pub fn new(rt: R, alloc: Global, limits: Limits, watcher: W) -> Result<TcpLink<R, W>, NoMemory>
    where
        R: Drop,
        W: Drop,
        ensures { IfOk result (λ l. (l.faults ≡ 0) × (l.accepted ≡ 0) × (l.returned ≡ 0)) }
    {
        match Door::new(alloc, limits) {
            Some(door) => Ok(TcpLink {
                rt,
                watcher,
                door,
                reason: None,
                faults: 0,
                accepted: 0,
                returned: 0,
            }),
            None => Err(NoMemory),
        }
    }

    /// Takes an address before `listen` is called for it: connections wait in the system's queue from now on.
    ///
    /// # Errors
    ///
    /// The system's reason, where it can't be listened at.
    pub fn prepare(&mut self, address: &str) -> io::Result<()>
        ensures faults { self.new.faults ≡ self.old.faults }
        ensures accepted { self.new.accepted ≡ self.old.accepted }
        ensures returned { self.new.returned ≡ self.old.returned }
    {
        let listener = TcpListener::bind(&self.rt, address)?;
        self.door.open(listener);
        Ok(())
    }

    /// Where it listens, with the port that the system chose where 0 was asked for.
    pub fn local_addr(&self) -> Option<SocketAddr> {
        let listener = self.door.listener()?;
        listener.local_addr().ok()
    }

    /// The system's reason for the last call that failed.
    pub fn reason(&self) -> Option<io::Error> {
        self.reason
    }

    // Counts a call that failed, and keeps its reason.
    fn failed(&mut self, reason: io::Error) -> Failed
        ensures faults { HasRisen self.old.faults self.new.faults }
        ensures accepted { self.new.accepted ≡ self.old.accepted }
        ensures returned { self.new.returned ≡ self.old.returned }
    {
        self.faults = self.faults.saturating_add(1);
        self.reason = Some(reason);
        Failed
    }
}

impl<
    R: Net<Listener = TcpListener, Stream = TcpStream> + Clock + Eprint + Copy + Drop,
    W: Watcher + Copy + Drop,
> Link for TcpLink<R, W> {
    type Conn = TcpConn<R, W>;

    ghost faults = { λ l. l.faults };

    ghost addresses = { λ _. None };

    ghost accepted = { λ l. l.accepted };

    ghost owed = { λ l. l.accepted - l.returned };

    ghost conns = { λ _. None };

    ghost given = { λ _. None };

    fn listen(&mut self, address: &str) -> Result<(), Failed> {
        if self.door.listener().is_some() {
            return Ok(());
        }
        match self.prepare(address) {
            Ok(()) => Ok(()),
            Err(reason) => Err(self.failed(reason)),
        }
    }

    fn announce(&mut self, _height: u32, _tip: &Hash32) {}

    fn accept(&mut self) -> Result<TcpConn<R, W>, Failed> {
        if self.accepted == u64::MAX {
            return Err(self.failed(io::Error::from(ErrorKind::QuotaExceeded)));
        }
        match self.door.next(&self.rt) {
            Ok(paced) => {
                self.accepted += 1;
                self.watcher.came(self.accepted, paced.peer_addr().ok());
                Ok(TcpConn {
                    paced,
                    watcher: self.watcher,
                    number: self.accepted,
                    ended: false,
                    reads: 0,
                    writes: 0,
                })
            }
            Err(reason) => Err(self.failed(reason)),
        }
    }

    fn pause(&mut self) {
        thread::sleep(&self.rt, Duration::from_millis(PAUSE));
    }

    fn give_back(&mut self, _end: TcpEnd, _how: u8) {
        self.returned += 1;
    }
}
