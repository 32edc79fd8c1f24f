//! A dial that runs in a thread of its own, and is waited for no longer than its limits.
ghost use Rattle.std.specs.Prelude.{◌≡◌, ◌⊎◌, false, IfOk};
ghost use Rattle.cf_bytes.specs.{HasRisen};

use crate::tcp::{TcpSource, TcpWriter, connect};
use cf_bytes::NoMemory;
use cf_tasks::{Running, Spawner, Task, joined};
use std::alloc::Global;
use std::io;
use std::io::ErrorKind;
use std::net::{Net, TcpListener, TcpStream};
use std::sync::atomic::{AtomicU64, Ordering};
use std::sync::{Arc, Wait};
use std::thread::Threads;
use std::time::{Clock, Duration};

// Its name is looked up.
const LOOKING: u64 = 0;

// Its addresses are known, and it is waited for one that answers.
const FOUND: u64 = 1;

// It is over.
const OVER: u64 = 2;

// Nobody waits for it any more.
const GIVEN_UP: u64 = 3;

/// How long the look-up of a name is waited for, in seconds. A system that asks a second name server does so after five.
const LOOK_UP_SECONDS: u64 = 10;

/// How long a call is waited for in all, in seconds: its look-up, its addresses, and a second beside.
const CALL_SECONDS: u64 = 15;

/// How far a call has come, as its thread and whoever waits for it see it.
#[derive(Drop)]
pub(crate) struct Stage {
    state: AtomicU64,
}

impl Stage {
    /// Its name is to be looked up.
    pub(crate) fn new() -> Stage {
        Stage {
            state: AtomicU64::new(LOOKING),
        }
    }

    fn get(&self) -> u64 {
        self.state.load(Ordering::SeqCst)
    }

    // Comes to a state, unless it was given up, and wakes who waits for that. False where it was given up.
    fn comes_to(&self, state: u64) -> bool {
        if self.state.swap(state, Ordering::SeqCst) == GIVEN_UP {
            self.state.store(GIVEN_UP, Ordering::SeqCst);
            return false;
        }
        self.state.wake_all();
        true
    }

    /// Its addresses are known.
    pub(crate) fn note_found(&self) {
        let _is_waited_for = self.comes_to(FOUND);
    }

    // How much of its time is left, where so much has passed since it began.
    fn left_at(state: u64, passed: Duration) -> Duration {
        let seconds = if state == LOOKING {
            LOOK_UP_SECONDS
        } else {
            CALL_SECONDS
        };
        Duration::from_secs(seconds).saturating_sub(passed)
    }

    // Waits until it is over. False where its time is up before, or the clock can't be read: then it is given up.
    fn is_over_in_time<C: Clock, T: Wait>(&self, clock: &C, handle: &T, start: Duration) -> bool {
        for _ in handle.forever() {
            let state = self.get();
            if state == OVER {
                return true;
            }
            let left = match clock.monotonic() {
                Ok(now) => Stage::left_at(state, now.saturating_sub(start)),
                Err(_) => Duration::ZERO,
            };
            if left.is_zero() {
                return self.state.swap(GIVEN_UP, Ordering::SeqCst) == OVER;
            }
            self.state
                .park_timeout(handle, u32::try_from(state).unwrap_or(0), left);
        }
        unreachable!()
    }
}

/// A dial as a task: it opens a connection over TCP by its name, as `TcpDialer` does.
#[derive(Drop)]
pub struct TcpCall<R> {
    rt: R,
    name: String,
    stage: Arc<Stage, Global>,
}

impl<R: Net<Listener = TcpListener, Stream = TcpStream> + Clock + Drop> Task for TcpCall<R> {
    type Out = io::Result<(TcpSource, TcpWriter)>;

    ghost gives = { λ _ o. IfOk o
        (λ c. (c.0.ended ≡ false) × (c.0.faults ≡ 0) × (c.1.faults ≡ 0) × (c.1.shut ≡ false)) };

    /// What nobody waits for any more is let go at once.
    fn run(self) -> io::Result<(TcpSource, TcpWriter)> {
        let TcpCall { rt, name, stage } = self;
        let answer = connect(&rt, name.as_str(), &stage);
        if stage.comes_to(OVER) {
            answer
        } else {
            Err(io::Error::from(ErrorKind::TimedOut))
        }
    }
}

/// A dial over TCP that was begun in a thread of its own. Its name is looked up for ten seconds at most, and its
/// addresses have four seconds together; one that takes longer has failed.
#[derive(Drop)]
pub struct Call<R: Net<Listener = TcpListener, Stream = TcpStream> + Clock + Drop> {
    clock: R,
    name: String,
    stage: Arc<Stage, Global>,
    start: Duration,
    running: Running<TcpCall<R>>,
}

impl<
    R: Net<Listener = TcpListener, Stream = TcpStream> + Clock + Copy + Drop + Send + 'static,
> Call<R> {
    /// Begins one. `None` where no thread can be made for it.
    pub fn begin<K: Spawner>(
        rt: R,
        alloc: Global,
        spawner: &mut K,
        name: &str,
    ) -> Result<Option<Call<R>>, NoMemory>
        ensures { (K.refusals spawner.new ≡ K.refusals spawner.old)
            ⊎ HasRisen (K.refusals spawner.old) (K.refusals spawner.new) }
    {
        let stage = Arc::new(alloc, Stage::new())?;
        let theirs = Arc::try_clone(&stage)?;
        let kept = String::from_str(alloc, name)?;
        let call = TcpCall {
            rt,
            name: String::from_str(alloc, name)?,
            stage: theirs,
        };
        let start = rt.monotonic().unwrap_or(Duration::ZERO);
        match spawner.start(alloc, call) {
            Ok(running) => Ok(Some(Call {
                clock: rt,
                name: kept,
                stage,
                start,
                running,
            })),
            Err(_) => Ok(None),
        }
    }

    /// Whether it is a dial of this name.
    pub fn is_to(&self, name: &str) -> bool {
        self.name.as_str() == name
    }

    /// Waits for what it comes to.
    pub fn answer<T: Wait + Threads>(self, handle: &T) -> io::Result<(TcpSource, TcpWriter)>
        ensures { IfOk result (λ c. (c.0.ended ≡ false) × (c.0.faults ≡ 0) × (c.1.faults ≡ 0) × (c.1.shut ≡ false)) }
    {
        let Call {
            clock,
            stage,
            start,
            running,
            ..
        } = self;
        if !stage.is_over_in_time(&clock, handle, start) {
            return Err(io::Error::from(ErrorKind::TimedOut));
        }
        let (_, answer) = joined(handle, running);
        answer
    }
}
