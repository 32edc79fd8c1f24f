//! A connection over TCP whose peer is held to times, and whose large messages are held to a budget.
ghost use Rattle.std.specs.Prelude.{◌≤◌, ◌<◌, ◌≡◌, length, drop, IfOk};

use crate::limits::Budget;
use crate::meter::Meter;
use crate::pass::{Pass, millis};
use cf_tasks::{read_some, write_some};
use std::alloc::Global;
use std::io::ErrorKind;
use std::net::{Shutdown, SocketAddr, TcpStream};
use std::sync::Arc;
use std::time::{Clock, Duration};
use std::{io, thread};

/// How long a peer may take until its `version` was answered, in seconds.
pub const VERSION_SECONDS: u64 = 60;

/// How long a message may take from its first byte to its last, in seconds, beside those of its length.
pub const MESSAGE_SECONDS: u64 = 60;

/// How long an answer may take that is read, in seconds, beside those of its length.
pub const ANSWER_SECONDS: u64 = 60;

/// How long an answer may wait until a peer reads something of it, in seconds.
pub const WRITE_SECONDS: u64 = 60;

/// How long a peer may be silent, in seconds.
pub const READ_SECONDS: u64 = 1200;

/// For so many bytes of a message or of an answer a second more is given.
pub const BYTES_A_SECOND: u64 = 16_000;

/// A message is large where more bytes than these are to come once its length is known.
pub const LARGE: u32 = 65_536;

/// Of a large message so many times its length is held: its bytes, what is read from them, and what is answered.
pub const HELD_FOR_EACH: u64 = 6;

// How long a write waits before times are looked at, in milliseconds.
const WRITE_LOOK: u64 = 1000;

// How long a message waits before the budget is looked at again, in milliseconds.
const BUDGET_LOOK: u64 = 200;

/// Sets what stays as it is of a stream: how long a write waits at once, and that nothing waits to be sent.
pub(crate) fn set_up(stream: &TcpStream) -> io::Result<()> {
    stream.set_write_timeout(Some(Duration::from_millis(WRITE_LOOK)))?;
    stream.set_nodelay(true)
}

// Seconds in milliseconds, and those of so many bytes beside.
fn millis_for(seconds: u64, bytes: u64) -> u64 {
    let own = seconds.saturating_mul(1000);
    own.saturating_add(
        bytes
            .saturating_mul(1000)
            .checked_div(BYTES_A_SECOND)
            .unwrap_or(0),
    )
}

// What is late has failed.
fn late() -> io::Error {
    io::Error::from(ErrorKind::TimedOut)
}

// An answer that is being written: when it began, and how many bytes of it were taken.
#[derive(Clone, Copy)]
struct Answer {
    began: u64,
    taken: u64,
}

impl Answer {
    // Whether it is late, where nothing was taken of it since then.
    fn is_late(&self, since: u64, now: u64) -> bool {
        now.saturating_sub(since) >= millis_for(WRITE_SECONDS, 0)
            || now.saturating_sub(self.began) >= millis_for(ANSWER_SECONDS, self.taken)
    }
}

/// A connection, the times of its peer, and what is held of its large messages. All times are in milliseconds.
#[derive(Drop)]
pub(crate) struct Paced<R> {
    rt: R,
    pass: Arc<Pass, Global>,
    budget: Arc<Budget, Global>,
    accepted: u64,
    meter: Meter,
    // When the message began that is under way, and how long it is as far as that is known.
    began: u64,
    length: u32,
    // What is counted against the budget, and for which message.
    held: u64,
    held_for: u64,
    answer: Option<Answer>,
    // For how long the next read waits, as it was set last.
    patience: u64,
}

impl<R: Clock + Drop> Paced<R> {
    /// A connection that was accepted now.
    pub(crate) fn new(rt: R, pass: Arc<Pass, Global>, budget: Arc<Budget, Global>) -> Paced<R> {
        let now = millis(&rt);
        Paced {
            rt,
            pass,
            budget,
            accepted: now,
            meter: Meter::new(),
            began: now,
            length: 0,
            held: 0,
            held_for: 0,
            answer: None,
            patience: 0,
        }
    }

    /// The address of the peer.
    ///
    /// # Errors
    ///
    /// Where the system doesn't tell it, as it does of a peer that has gone.
    pub(crate) fn peer_addr(&self) -> io::Result<SocketAddr> {
        self.pass.stream().peer_addr()
    }

    // The last answer is over, and with it what was held for a message that has come as a whole.
    fn end_answer(&mut self) {
        self.answer = None;
        self.pass.set_within(false);
        if self.meter.is_between() || self.meter.begun() > self.held_for {
            self.let_go();
        }
    }

    // Holds nothing of the budget.
    fn let_go(&mut self) {
        if self.held > 0 {
            self.budget.give_back(self.held);
            self.held = 0;
        }
    }

    // Whether a large message is under way that isn't counted yet.
    fn is_uncounted(&self) -> bool {
        self.held == 0 && self.meter.left() > LARGE
    }

    // Counts a large message against the budget, as soon as it fits.
    fn count(&mut self) -> io::Result<()> {
        let bytes = u64::from(self.meter.left()).saturating_mul(HELD_FOR_EACH);
        for _ in 0..u64::MAX {
            if self.pass.is_cut() {
                break;
            }
            if self.budget.take(bytes) {
                self.held = bytes;
                self.held_for = self.meter.begun();
                self.began = millis(&self.rt);
                return Ok(());
            }
            thread::sleep(&self.rt, Duration::from_millis(BUDGET_LOOK));
        }
        Err(io::Error::from(ErrorKind::ConnectionAborted))
    }

    // For how long the next read may wait.
    fn patience_at(&self, now: u64) -> u64 {
        let mut patience = millis_for(READ_SECONDS, 0);
        if !self.pass.is_greeted() {
            let passed = now.saturating_sub(self.accepted);
            patience = patience.min(millis_for(VERSION_SECONDS, 0).saturating_sub(passed));
        }
        if !self.meter.is_between() {
            let passed = now.saturating_sub(self.began);
            let given = millis_for(MESSAGE_SECONDS, u64::from(self.length));
            patience = patience.min(given.saturating_sub(passed));
        }
        patience
    }

    // Sets for how long the next read waits.
    fn set_patience(&mut self, now: u64) -> io::Result<()> {
        let patience = self.patience_at(now);
        if patience == 0 {
            return Err(late());
        }
        if patience != self.patience {
            self.pass
                .stream()
                .set_read_timeout(Some(Duration::from_millis(patience)))?;
            self.patience = patience;
        }
        Ok(())
    }

    // Makes ready for the next read.
    fn make_ready(&mut self) -> io::Result<()> {
        self.end_answer();
        if self.is_uncounted() {
            self.count()?;
        }
        self.pass.set_within(!self.meter.is_between());
        let now = millis(&self.rt);
        self.set_patience(now)
    }

    // Takes note of what has come.
    fn note(&mut self, bytes: &[u8]) {
        let now = millis(&self.rt);
        self.pass.set_moved(now);
        let begun = self.meter.begun();
        self.meter.add(bytes);
        if self.meter.begun() > begun {
            self.began = now;
            self.length = 0;
        }
        self.length = self.length.max(self.meter.left());
    }

    /// Reads some bytes, at most 4,096, and leaves what stands behind them as it was. None are read where the peer has
    /// ended its side, and where there is no room.
    ///
    /// # Errors
    ///
    /// Where the peer is late, the listener has cut the connection, or the system reads nothing.
    pub(crate) fn read(&mut self, into: &mut [u8]) -> io::Result<usize>
        ensures some { IfOk result (λ n. n ≤ length into.new) }
        ensures rest { IfOk result (λ n. drop n into.new ≡ drop n into.old) }
    {
        self.make_ready()?;
        let n = read_some(self.pass.stream(), into)?;
        if self.pass.is_cut() {
            return Err(io::Error::from(ErrorKind::ConnectionAborted));
        }
        self.note(&into[..n]);
        Ok(n)
    }

    // The answer that is being written, or one that begins now.
    fn answer_at(&self, now: u64) -> Answer {
        match self.answer {
            Some(answer) => answer,
            None => Answer {
                began: now,
                taken: 0,
            },
        }
    }

    // So many bytes of an answer were taken.
    fn take(&mut self, answer: Answer, bytes: usize) {
        let bytes = u64::try_from(bytes).unwrap_or(u64::MAX);
        self.answer = Some(Answer {
            began: answer.began,
            taken: answer.taken.saturating_add(bytes),
        });
        self.pass.set_moved(millis(&self.rt));
        self.pass.set_within(false);
        self.pass.greet();
    }

    /// Writes some of the bytes, at least one where there is one.
    ///
    /// # Errors
    ///
    /// Where the peer takes the answer too slowly, the listener has cut the connection, or the system takes none.
    pub(crate) fn write(&mut self, from: &[u8]) -> io::Result<usize>
        ensures { IfOk result (λ n. (n ≤ length from.now) × (0 < length from.now → 0 < n)) }
    {
        let since = millis(&self.rt);
        let answer = self.answer_at(since);
        self.pass.set_within(true);
        for _ in 0..u64::MAX {
            if answer.is_late(since, millis(&self.rt)) {
                break;
            }
            match write_some(self.pass.stream(), from) {
                Ok(n) => {
                    self.take(answer, n);
                    return Ok(n);
                }
                Err(e) if e.kind() == ErrorKind::WouldBlock => {}
                Err(e) => return Err(e),
            }
        }
        Err(late())
    }

    /// Closes the connection at once, whoever else has a share of it, and holds nothing any more.
    pub(crate) fn close(self) {
        let Paced {
            pass,
            budget,
            held,
            ..
        } = self;
        budget.give_back(held);
        // Where the peer has gone already there is nothing to shut.
        let _shut = pass.stream().shutdown(Shutdown::Both);
    }
}
