//! How long a command works of which nothing else is seen, told on a terminal.
use cf_tasks::{Running, Spawner, Task};
use cf_tell::Teller;
use std::alloc::Global;
use std::io::{self, IsTerminal};
use std::sync::Arc;
use std::sync::atomic::{AtomicBool, Ordering};
use std::time::{Clock, Duration};

// How long is waited until it is looked whether the command is over, in milliseconds.
const LOOK: u64 = 20;

// What a command does that makes its text or its file first, and writes it then.
fn work_of(words: &[String]) -> Option<&'static str> {
    match words.get(1)?.as_str() {
        "make" => Some("making blocks"),
        "demo" => Some("making blocks and playing them"),
        _ => None,
    }
}

// Tells once a second for how long a command works, in one line that is overwritten, and taken away at the end.
#[derive(Drop)]
struct TellSeconds {
    teller: &'static Teller,
    work: &'static str,
    over: Arc<AtomicBool, Global>,
}

impl TellSeconds {
    fn tell(&self, seconds: u64) -> io::Result<()> {
        eprint!(self.teller; "\rcf: {}, {seconds} s", self.work)
    }

    // Takes the line away.
    fn clear(&self) -> io::Result<()> {
        eprint!(self.teller; "\r{:60}\r", "")
    }

    // Tells it until the command is over, and how many seconds were told.
    fn tell_all(&self, start: Duration) -> u64 {
        let mut told = 0;
        for _ in 0..u64::MAX {
            if self.over.load(Ordering::SeqCst) {
                break;
            }
            self.teller.sleep(Duration::from_millis(LOOK));
            let now = self.teller.monotonic().unwrap_or(start);
            let seconds = now.saturating_sub(start).as_secs();
            if seconds > told {
                told = seconds;
                let _told = self.tell(seconds);
            }
        }
        told
    }
}

impl Task for TellSeconds {
    type Out = ();

    ghost gives = { λ _ _. Unit {0} };

    fn run(self) {
        let Ok(start) = self.teller.monotonic() else {
            return;
        };
        if self.tell_all(start) > 0 {
            let _cleared = self.clear();
        }
    }
}

// The thread that tells it, and how it is told that the command is over.
#[derive(Drop)]
struct Telling {
    over: Arc<AtomicBool, Global>,
    running: Running<TellSeconds>,
}

impl Telling {
    // Begins it, where memory and a thread are found.
    fn begin<K: Spawner>(
        teller: &'static Teller,
        spawner: &mut K,
        work: &'static str,
    ) -> Option<Telling> {
        let alloc = teller.runtime().alloc();
        let over = Arc::new(alloc, AtomicBool::new(false)).ok()?;
        let theirs = Arc::try_clone(&over).ok()?;
        let task = TellSeconds {
            teller,
            work,
            over: theirs,
        };
        match spawner.start(alloc, task) {
            Ok(running) => Some(Telling { over, running }),
            Err(_) => None,
        }
    }
}

/// A command that works. Where standard error is a terminal, and nothing else is seen of the command, a thread tells
/// there once a second for how long it has worked.
#[derive(Drop)]
pub struct Working {
    telling: Option<Telling>,
}

impl Working {
    /// The command of these words begins. Where no memory or no thread is found for it, nothing is told.
    pub fn begin<K: Spawner>(
        teller: &'static Teller,
        spawner: &mut K,
        words: &[String],
    ) -> Working {
        let telling = match work_of(words) {
            Some(work) if teller.runtime().stderr().is_terminal() => {
                Telling::begin(teller, spawner, work)
            }
            _ => None,
        };
        Working { telling }
    }

    /// The command is over. The line that stands there is taken away.
    pub fn end<K: Spawner>(self, spawner: &mut K) {
        let Working { telling } = self;
        if let Some(Telling { over, running }) = telling {
            over.store(true, Ordering::SeqCst);
            let _ended = spawner.join(running);
        }
    }
}
