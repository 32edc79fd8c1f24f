//! The handle by which lines are written to standard error.
ghost use Rattle.std.specs.Prelude.{◌≤◌, length, IfOk};

use libc::STDERR_FILENO;
use libc::net::{POLLOUT, poll};
use libc::types::pollfd;
use std::alloc::AllocError;
use std::boxed::Box;
use std::fmt::Display;
use std::io::{self, Eprint};
use std::net::{Net, SocketAddr, TcpListener, TcpStream};
use std::sync::atomic::{AtomicBool, AtomicU64, Ordering};
use std::time::{Clock, Duration};

/// How long standard error is waited for until it has room, in milliseconds. It isn't waited for while there are lines
/// that were not written.
const PATIENCE: i32 = 10;

// How often a thread asks for its turn, a millisecond after it has asked last.
const TRIES: u32 = 200;

/// Writes lines to standard error, and waits only a moment for whoever reads them. A line for which there is no room is
/// counted instead. Before the next line for which there is room, one line tells how many were not written. Of several
/// threads one writes at a time, so that the room which was found is there. The clock and the network are those of the
/// process.
#[derive(Drop)]
pub struct Teller {
    rt: HostRuntime,
    // Whether a thread looks for room now, or writes.
    busy: AtomicBool,
    // How many lines were not written and not told of yet.
    unwritten: AtomicU64,
}

impl Teller {
    /// Nothing was told.
    pub fn new(rt: HostRuntime) -> Teller {
        Teller {
            rt,
            busy: AtomicBool::new(false),
            unwritten: AtomicU64::new(0),
        }
    }

    /// Nothing was told. It stays as long as the process.
    ///
    /// # Errors
    ///
    /// Where no memory is found for it.
    pub fn kept(rt: HostRuntime) -> Result<&'static Teller, AllocError> {
        Ok(Box::leak(Box::new(rt.alloc(), Teller::new(rt))?))
    }

    /// What the process runs by.
    pub fn runtime(&self) -> HostRuntime {
        self.rt
    }

    // Whether some lines were not written, and not told of yet.
    fn lacks(&self) -> bool {
        self.unwritten.load(Ordering::SeqCst) > 0
    }

    // Takes note of lines that were not written.
    fn note(&self, n: u64) {
        self.unwritten.fetch_add(n, Ordering::SeqCst);
    }

    // Whether standard error has room for a line.
    fn has_room(&self) -> bool {
        let patience = if self.lacks() { 0 } else { PATIENCE };
        let mut asked = [pollfd {
            fd: STDERR_FILENO,
            events: POLLOUT,
            revents: 0,
        }];
        poll(&mut asked, patience) > 0
    }

    // Tells how many lines were not written.
    fn write_count(&self, n: u64) -> io::Result<()> {
        if n == 1 {
            return eprintln!(&self.rt; "cf: 1 line was not written");
        }
        eprintln!(&self.rt; "cf: {n} lines were not written")
    }

    // Waits for its turn. False where others have it for all the time that may be waited.
    fn take_turn(&self) -> bool {
        for _ in 0..TRIES {
            if !self.busy.swap(true, Ordering::SeqCst) {
                return true;
            }
            self.rt.sleep(Duration::from_millis(1));
        }
        false
    }

    // Its turn is over.
    fn end_turn(&self) {
        self.busy.store(false, Ordering::SeqCst);
    }

    // Tells how many lines were not written, where standard error has room.
    fn tell_count(&self) {
        if !self.lacks() || !self.has_room() {
            return;
        }
        let n = self.unwritten.swap(0, Ordering::SeqCst);
        if n > 0 && self.write_count(n).is_err() {
            self.note(n);
        }
    }

    /// Tells how many lines were not written, where that is any number but 0 and standard error has room.
    pub fn tell_unwritten(&self) {
        if self.take_turn() {
            self.tell_count();
            self.end_turn();
        }
    }

    // Writes in its turn, where there is room. Else the line is counted.
    fn write<D: Display + Drop>(&self, value: D, as_line: bool) -> io::Result<()> {
        self.tell_count();
        if !self.has_room() {
            self.note(1);
            return Ok(());
        }
        if as_line {
            self.rt.eprintln(value)
        } else {
            self.rt.eprint(value)
        }
    }

    // Waits for its turn, and writes.
    fn tell<D: Display + Drop>(&self, value: D, as_line: bool) -> io::Result<()> {
        if !self.take_turn() {
            self.note(1);
            return Ok(());
        }
        let answer = self.write(value, as_line);
        self.end_turn();
        answer
    }
}

/// A line that is counted counts as told.
impl Eprint for Teller {
    fn eprint<D: Display + Drop>(&self, value: D) -> io::Result<()> {
        self.tell(value, false)
    }

    fn eprintln<D: Display + Drop>(&self, value: D) -> io::Result<()> {
        self.tell(value, true)
    }
}

impl Clock for Teller {
    fn monotonic(&self) -> io::Result<Duration> {
        self.rt.monotonic()
    }

    fn since_1970(&self) -> io::Result<Duration> {
        self.rt.since_1970()
    }

    fn sleep(&self, duration: Duration) {
        self.rt.sleep(duration)
    }
}

impl Net for Teller {
    type Stream = TcpStream;

    type Listener = TcpListener;

    fn bind(&self, addr: SocketAddr) -> io::Result<TcpListener> {
        self.rt.bind(addr)
    }

    fn connect(&self, addr: SocketAddr) -> io::Result<TcpStream> {
        self.rt.connect(addr)
    }

    fn lookup_host(&self, host: &str, port: u16, found: &mut [SocketAddr]) -> io::Result<usize>
        ensures in_bounds { IfOk result (λ n. n ≤ length found.new) }
    {
        self.rt.lookup_host(host, port, found)
    }
}
