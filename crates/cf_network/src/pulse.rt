//! The pulse of `sync`, which tells a second only where one is asked for, and ends at once when it is told to. Who reads
//! at its pace waits for its ticks.
ghost use Rattle.std.specs.Prelude.{None};

use cf_outside::Pulse;
use cf_wires::Delivery;
use std::alloc::Global;
use std::sync::atomic::{AtomicU64, Ordering};
use std::sync::{Arc, Wait};
use std::thread;
use std::time::{Clock, Duration};

// Nothing is asked for, or what was asked for is waited for.
const HELD: u64 = 0;

// A second is asked for.
const ASKED: u64 = 1;

// Nothing is waited for any more.
const RUNG: u64 = 2;

// How long it waits for.
fn second() -> Duration {
    Duration::from_secs(1)
}

// How long it is until who waits for a tick looks again.
fn look() -> Duration {
    Duration::from_millis(10)
}

/// What a pulse is to do, as those who wait for it see it, and how often it has told its time.
#[derive(Drop)]
pub(crate) struct Bell {
    state: AtomicU64,
    ticks: AtomicU64,
}

impl Bell {
    /// Nothing is asked for yet.
    pub(crate) fn new() -> Bell {
        Bell {
            state: AtomicU64::new(HELD),
            ticks: AtomicU64::new(0),
        }
    }

    // Goes from one state to another, where it is in the first.
    fn exchange(&self, from: u64, to: u64) -> bool {
        self.state
            .compare_exchange(from, to, Ordering::SeqCst, Ordering::SeqCst)
            .is_ok()
    }

    // Asks for one second, and wakes who waits for that.
    fn ask(&self) {
        if self.exchange(HELD, ASKED) {
            self.state.wake_all();
        }
    }

    // Rings it for good, and wakes all who wait for it.
    fn ring(&self) {
        self.state.store(RUNG, Ordering::SeqCst);
        self.state.wake_all();
    }

    // Counts a tick.
    fn tick(&self) {
        self.ticks.fetch_add(1, Ordering::SeqCst);
    }

    /// How many ticks there were.
    pub(crate) fn ticks(&self) -> u64 {
        self.ticks.load(Ordering::SeqCst)
    }

    /// Waits until there were more ticks than so many, or until it is rung.
    pub(crate) fn wait_for_tick(&self, rt: &HostRuntime, ticks: u64) {
        for _ in 0..u64::MAX {
            if self.is_rung() || self.ticks() != ticks {
                return;
            }
            thread::sleep(rt, look());
        }
    }

    // Whether it was rung.
    fn is_rung(&self) -> bool {
        self.state.load(Ordering::SeqCst) == RUNG
    }

    // Waits until a second is asked for, which is then taken, or until it is rung.
    fn take<R: Wait>(&self, handle: &R) {
        for _ in handle.forever() {
            if self.exchange(ASKED, HELD) || self.is_rung() {
                return;
            }
            self.state.park(handle, HELD as u32);
        }
    }

    // Waits for so long, or until it is rung. It may return sooner.
    fn wait<R: Wait>(&self, handle: &R, longest: Duration) {
        self.state.park_timeout(handle, HELD as u32, longest);
    }
}

/// What asks a pulse for seconds. Of those that are asked for and weren't delivered yet there is never more than one:
/// else a run that was busy with others would find many in its queue, and take them for the age of what it asked for
/// long after.
#[derive(Drop)]
pub(crate) struct Asker {
    bell: Arc<Bell, Global>,
    // Whether one is asked for that was not delivered yet.
    waits: bool,
}

impl Asker {
    /// None is asked for yet.
    pub(crate) fn new(bell: Arc<Bell, Global>) -> Asker {
        Asker { bell, waits: false }
    }

    /// Asks for one, unless one is asked for already.
    pub(crate) fn ask(&mut self) {
        if !self.waits {
            self.bell.ask();
            self.waits = true;
        }
    }

    /// What was delivered.
    pub(crate) fn note(&mut self, delivery: &Delivery) {
        if matches!(delivery, Delivery::Tick(_)) {
            self.waits = false;
        }
    }

    /// Ends the pulse: it waits for nothing any more.
    pub(crate) fn end(&self) {
        self.bell.ring();
    }
}

/// A pulse of about a second. It tells no answers. It waits until a second is asked for, and only then begins to count
/// it, so that what nobody waited for isn't told: dials, work on a delivery, or a time in which the process was
/// stopped. Once its bell is rung it doesn't wait any more.
#[derive(Drop)]
pub(crate) struct Naps<R> {
    rt: HostRuntime,
    // The handle by which it waits.
    handle: R,
    bell: Arc<Bell, Global>,
}

// What is left of a second since a moment.
fn left_of(start: Duration, now: Duration) -> Duration {
    second().saturating_sub(now.saturating_sub(start))
}

impl<R: Wait> Naps<R> {
    /// A pulse by the clock of this runtime, until the bell is rung.
    pub(crate) fn new(rt: HostRuntime, handle: R, bell: Arc<Bell, Global>) -> Naps<R> {
        Naps { rt, handle, bell }
    }

    // Sleeps for a second, or until the bell is rung. Where the clock can't be read the second may be cut short.
    fn sleep(&self) {
        let Ok(start) = self.rt.monotonic() else {
            self.bell.wait(&self.handle, second());
            return;
        };
        let mut left = second();
        for _ in self.handle.forever() {
            if left.is_zero() || self.bell.is_rung() {
                return;
            }
            self.bell.wait(&self.handle, left);
            left = match self.rt.monotonic() {
                Ok(now) => left_of(start, now),
                Err(_) => Duration::ZERO,
            };
        }
    }
}

impl<R: Wait + Drop> Pulse for Naps<R> {
    ghost answers = { λ _. None };

    /// The second that was asked for is told as 1, however long it took.
    fn wait(&mut self) -> u32 {
        self.bell.take(&self.handle);
        self.sleep();
        self.bell.tick();
        1
    }
}
