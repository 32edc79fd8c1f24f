//! Who is served next: the seats of a listener over TCP, and who waits for one.
use crate::limits::{Budget, Limits};
use crate::paced::{Paced, set_up};
use crate::pass::{Pass, millis};
use std::alloc::Global;
use std::io::{Eprint, ErrorKind};
use std::net::{IpAddr, TcpListener, TcpStream};
use std::sync::Arc;
use std::time::{Clock, Duration};
use std::{io, thread};

/// So many connections wait for a seat at most, beside those in the system's queue.
pub const MOST_WAITING: usize = 256;

/// A connection is cut for another one only where it was there for so long without a `version`, in milliseconds.
pub const VERSION_GRACE: u64 = 1000;

/// Or where it has left a message or an answer where it is for so long, in milliseconds.
pub const WITHIN_GRACE: u64 = 5000;

/// Or where nothing has come and nothing was taken for so long, in milliseconds.
pub const IDLE_GRACE: u64 = 60_000;

// The share of the seats that one address has while others wait.
const SHARE: usize = 4;

// How long the system is given to get what it lacks for a connection, before it is asked again, in milliseconds.
const PAUSE: u64 = 100;

// How often at most it is told that the system lacks something for a connection, in milliseconds.
const TELL: u64 = 60_000;

// How long a connection waits before the seats are looked at again, in milliseconds.
const LOOK: u64 = 20;

// A connection that is served, or was until now.
#[derive(Drop)]
struct Seat {
    pass: Arc<Pass, Global>,
    address: IpAddr,
    since: u64,
}

// A connection that waits for a seat.
#[derive(Drop)]
struct Waiting {
    stream: TcpStream,
    address: IpAddr,
}

// What asking the system for a connection came to.
#[derive(Clone, Copy, PartialEq, Eq)]
enum Asked {
    Came,
    Lost,
    Lacking,
    Nobody,
}

/// A listener, the connections that are served, and those that wait.
#[derive(Drop)]
pub(crate) struct Door {
    alloc: Global,
    at_once: usize,
    budget: Arc<Budget, Global>,
    listener: Option<TcpListener>,
    seats: Vec<Seat>,
    waiting: Vec<Waiting>,
    // When it was last told that something is lacking, in milliseconds.
    told: Option<u64>,
}

// Whether the system lacked something for a connection that it may have later: memory, or descriptors, of its own or of
// this process, which connections give back as they end. (ENOMEM, ENFILE, EMFILE, ENOBUFS)
fn is_want(e: &io::Error) -> bool {
    matches!(e.raw_os_error(), Some(12 | 23 | 24 | 105))
}

// Whether a connection was given up, forbidden or cut before it was accepted, or the call was interrupted. The next one
// may do. (EPERM, EINTR, ENONET, EPROTO, ENOPROTOOPT, ENETDOWN, ENETUNREACH, ECONNABORTED, EHOSTDOWN, EHOSTUNREACH)
fn is_lost(e: &io::Error) -> bool {
    matches!(
        e.raw_os_error(),
        Some(1 | 4 | 64 | 71 | 92 | 100 | 101 | 103 | 112 | 113)
    )
}

// The share of so many, at least one.
fn share_of(all: usize) -> usize {
    all.checked_div(SHARE).unwrap_or(0).max(1)
}

// How many seats this address has.
fn seats_of(seats: &[Seat], address: IpAddr) -> usize {
    seats.iter().filter(|seat| seat.address == address).count()
}

// Since when a seat is without a `version`, where that is for long enough.
fn silent_since(seat: &Seat, now: u64) -> Option<u64> {
    if !seat.pass.is_greeted() && now.saturating_sub(seat.since) >= VERSION_GRACE {
        return Some(seat.since);
    }
    None
}

// Since when a seat is idle, where that is for long enough: less of it is where a message or an answer is under way.
fn idle_since(seat: &Seat, within: bool, now: u64) -> Option<u64> {
    let grace = if within { WITHIN_GRACE } else { IDLE_GRACE };
    let since = seat.pass.moved();
    if (seat.pass.is_within() || !within) && now.saturating_sub(since) >= grace {
        return Some(since);
    }
    None
}

// The seat that is without a `version` for longest, of this address alone where it has its share of them.
fn silent_one(seats: &[Seat], address: IpAddr, has_share: bool, now: u64) -> Option<usize> {
    let mut found = None;
    let mut oldest = u64::MAX;
    for (i, seat) in seats.iter().enumerate() {
        if has_share && seat.address != address {
            continue;
        }
        if let Some(since) = silent_since(seat, now) {
            if since < oldest {
                oldest = since;
                found = Some(i);
            }
        }
    }
    found
}

// How many have an address.
#[derive(Clone, Copy)]
struct Crowd {
    address: IpAddr,
    count: usize,
}

// How many there are of each address, as they are counted one by one.
#[derive(Drop)]
struct Crowds {
    rows: Vec<Crowd>,
}

impl Crowds {
    // None was counted.
    fn new(alloc: Global) -> Crowds {
        Crowds {
            rows: Vec::new(alloc),
        }
    }

    // Counts one more of this address, and tells how many there are with it. Where no memory is found it isn't counted.
    fn add(&mut self, address: IpAddr) -> usize {
        for row in self.rows.iter_mut() {
            if row.address == address {
                row.count = row.count.saturating_add(1);
                return row.count;
            }
        }
        let _counted = self.rows.push(Crowd { address, count: 1 });
        1
    }

    // How many were counted of this address.
    fn count(&self, address: IpAddr) -> usize {
        for row in &self.rows {
            if row.address == address {
                return row.count;
            }
        }
        0
    }
}

// How many seats each address has.
fn crowds_of(alloc: Global, seats: &[Seat]) -> Crowds {
    let mut crowds = Crowds::new(alloc);
    for seat in seats {
        let _count = crowds.add(seat.address);
    }
    crowds
}

// The seat that is idle for longest: of those within a message or an answer, or of all. Its address has more seats than
// so many.
fn idle_one(
    seats: &[Seat],
    crowds: &Crowds,
    fewer: usize,
    within: bool,
    now: u64,
) -> Option<usize> {
    let mut found = None;
    let mut oldest = u64::MAX;
    for (i, seat) in seats.iter().enumerate() {
        if crowds.count(seat.address) <= fewer {
            continue;
        }
        if let Some(since) = idle_since(seat, within, now) {
            if since < oldest {
                oldest = since;
                found = Some(i);
            }
        }
    }
    found
}

// The last one that waits from the address that has most of them, if it has more than one.
fn crowded_one(alloc: Global, waiting: &[Waiting]) -> Option<usize> {
    let mut crowds = Crowds::new(alloc);
    let mut most = 1;
    let mut found = None;
    for (i, next) in waiting.iter().enumerate() {
        let count = crowds.add(next.address);
        if count > most {
            most = count;
            found = Some(i);
        }
    }
    found
}

// A seat of an address that has more than its share.
fn surplus_one(alloc: Global, seats: &[Seat], share: usize) -> Option<usize> {
    let mut crowds = Crowds::new(alloc);
    let mut most = share;
    let mut found = None;
    for (i, seat) in seats.iter().enumerate() {
        let count = crowds.add(seat.address);
        if count > most {
            most = count;
            found = Some(i);
        }
    }
    found
}

impl Door {
    /// A door that doesn't listen yet, or none where no memory is found.
    pub(crate) fn new(alloc: Global, limits: Limits) -> Option<Door> {
        let budget = Arc::new(alloc, Budget::new(limits.bytes)).ok()?;
        Some(Door {
            alloc,
            at_once: usize::try_from(limits.at_once).unwrap_or(usize::MAX).max(1),
            budget,
            listener: None,
            seats: Vec::new(alloc),
            waiting: Vec::new(alloc),
            told: None,
        })
    }

    /// Listens by this listener.
    pub(crate) fn open(&mut self, listener: TcpListener) {
        self.listener = Some(listener);
    }

    /// What it listens by.
    pub(crate) fn listener(&self) -> Option<&TcpListener> {
        self.listener.as_ref()
    }

    // Takes the seats that are free again: whoever served the connection has let it go.
    fn sweep(&mut self) {
        self.seats.retain(|seat| Arc::strong_count(&seat.pass) > 1);
    }

    // Tells on standard error what is lacking, unless that was told within the last minute.
    fn tell_want<R: Clock + Eprint>(&mut self, rt: &R, e: &io::Error) {
        let now = millis(rt);
        if let Some(last) = self.told {
            if now.saturating_sub(last) < TELL {
                return;
            }
        }
        self.told = Some(now);
        let _told = eprintln!(rt; "cf: the next connection waits: {e}");
    }

    // Asks the system for a connection, which waits for a seat then.
    fn ask<R: Clock + Eprint>(&mut self, rt: &R) -> io::Result<Asked> {
        if self.waiting.reserve(1).is_err() {
            self.tell_want(rt, &io::Error::from(ErrorKind::OutOfMemory));
            return Ok(Asked::Lacking);
        }
        let Some(listener) = &self.listener else {
            return Err(io::Error::from(ErrorKind::NotConnected));
        };
        match listener.accept() {
            Ok((stream, place)) => {
                if set_up(&stream).is_err() {
                    return Ok(Asked::Lost);
                }
                let address = place.ip().to_canonical();
                let _kept = self.waiting.push(Waiting { stream, address });
                Ok(Asked::Came)
            }
            Err(e) if e.kind() == ErrorKind::WouldBlock => Ok(Asked::Nobody),
            Err(e) if is_lost(&e) => Ok(Asked::Lost),
            Err(e) if is_want(&e) => {
                self.tell_want(rt, &e);
                Ok(Asked::Lacking)
            }
            Err(e) => Err(e),
        }
    }

    // Waits until a connection comes. One that is lost before it was accepted is passed over, and what the system lacks
    // is waited for.
    fn wait<R: Clock + Eprint>(&mut self, rt: &R) -> io::Result<()> {
        for _ in 0..u64::MAX {
            match self.ask(rt)? {
                Asked::Came => return Ok(()),
                Asked::Lacking => thread::sleep(rt, Duration::from_millis(PAUSE)),
                Asked::Lost | Asked::Nobody => {}
            }
        }
        Err(io::Error::from(ErrorKind::ConnectionAborted))
    }

    // Whether there is room for one more to wait. Where there is none, the last one of the address that has most of
    // them is let go, if it has more than one.
    fn has_room(&mut self) -> bool {
        if self.waiting.len() < MOST_WAITING {
            return true;
        }
        match crowded_one(self.alloc, &self.waiting) {
            Some(i) if i < self.waiting.len() => {
                drop(self.waiting.remove(i));
                true
            }
            _ => false,
        }
    }

    // Takes those that are in the system's queue now.
    fn take_all<R: Clock + Eprint>(&mut self, rt: &R) -> io::Result<()> {
        for _ in 0..MOST_WAITING {
            if !self.has_room() {
                return Ok(());
            }
            match self.ask(rt)? {
                Asked::Came | Asked::Lost => {}
                Asked::Lacking | Asked::Nobody => return Ok(()),
            }
        }
        Ok(())
    }

    // The same, and waits for none.
    fn take_those_there<R: Clock + Eprint>(&mut self, rt: &R) -> io::Result<()> {
        self.set_nonblocking(true)?;
        let answer = self.take_all(rt);
        self.set_nonblocking(false)?;
        answer
    }

    // Whether a call of the listener that would wait answers at once.
    fn set_nonblocking(&self, nonblocking: bool) -> io::Result<()> {
        match &self.listener {
            Some(listener) => listener.set_nonblocking(nonblocking),
            None => Ok(()),
        }
    }

    // Which of those that wait is the next one: the first of those whose address has the fewest seats.
    fn next_waiting(&self) -> Option<usize> {
        let mut found = None;
        let mut fewest = usize::MAX;
        for (i, next) in self.waiting.iter().enumerate() {
            let seats = seats_of(&self.seats, next.address);
            if seats < fewest {
                fewest = seats;
                found = Some(i);
            }
        }
        found
    }

    // How many seats were cut and aren't free yet.
    fn ending(&self) -> usize {
        self.seats.iter().filter(|seat| seat.pass.is_cut()).count()
    }

    // The seat that is given up for a connection from this address, if one is: without a `version`, else one that leaves
    // a message or an answer where it is, else an idle one, else one of an address that has more than its share. The
    // second and the third are of an address with two seats more, or of any where this one has none. Where it has its
    // share, only one of its own without a `version` is given up.
    fn to_give_up(&self, address: IpAddr, now: u64) -> Option<usize> {
        let share = share_of(self.at_once);
        let own = seats_of(&self.seats, address);
        let silent = silent_one(&self.seats, address, own >= share, now);
        if silent.is_some() || own >= share {
            return silent;
        }
        let crowds = crowds_of(self.alloc, &self.seats);
        let fewer = if own == 0 { 0 } else { own.saturating_add(1) };
        let within = idle_one(&self.seats, &crowds, fewer, true, now);
        if within.is_some() {
            return within;
        }
        let idle = idle_one(&self.seats, &crowds, fewer, false, now);
        if idle.is_some() {
            return idle;
        }
        surplus_one(self.alloc, &self.seats, share)
    }

    // Cuts a connection for the next one that waits, if one may be cut and none is ending.
    fn make_way(&self, now: u64) {
        if self.ending() > 0 {
            return;
        }
        let Some(i) = self.next_waiting() else {
            return;
        };
        let Some(next) = self.waiting.get(i) else {
            return;
        };
        let Some(place) = self.to_give_up(next.address, now) else {
            return;
        };
        if let Some(seat) = self.seats.get(place) {
            seat.pass.cut();
        }
    }

    // Gives a seat to one that waits. Where no memory is found it waits on.
    fn seat<R: Clock + Copy + Drop>(&mut self, rt: &R, i: usize) -> Option<Paced<R>> {
        if i >= self.waiting.len() || self.seats.reserve(1).is_err() {
            return None;
        }
        let budget = Arc::try_clone(&self.budget).ok()?;
        let now = millis(rt);
        let Waiting { stream, address } = self.waiting.remove(i);
        match Arc::new(self.alloc, Pass::new(stream, now)) {
            Ok(pass) => {
                let theirs = Arc::try_clone(&pass).ok()?;
                let _kept = self.seats.push(Seat {
                    pass,
                    address,
                    since: now,
                });
                Some(Paced::new(*rt, theirs, budget))
            }
            Err(failed) => {
                let stream = failed.value.into_stream();
                let _kept = self.waiting.push(Waiting { stream, address });
                None
            }
        }
    }

    // The next connection, where there are a seat and one that waits.
    fn seat_next<R: Clock + Copy + Drop>(&mut self, rt: &R) -> Option<Paced<R>> {
        if self.seats.len() >= self.at_once {
            return None;
        }
        let i = self.next_waiting()?;
        self.seat(rt, i)
    }

    /// Waits for the next connection that has a seat.
    ///
    /// # Errors
    ///
    /// Where nothing listens, and where the system gives no connection any more.
    pub(crate) fn next<R: Clock + Eprint + Copy + Drop>(&mut self, rt: &R) -> io::Result<Paced<R>> {
        for _ in 0..u64::MAX {
            if self.waiting.is_empty() {
                self.wait(rt)?;
            }
            self.sweep();
            if let Some(conn) = self.seat_next(rt) {
                return Ok(conn);
            }
            self.take_those_there(rt)?;
            self.make_way(millis(rt));
            thread::sleep(rt, Duration::from_millis(LOOK));
        }
        Err(io::Error::from(ErrorKind::ConnectionAborted))
    }
}
