//! Counts that threads share, and doors that open by them.
use std::alloc::Global;
use std::sync::Arc;
use std::sync::atomic::{AtomicU32, Ordering};
use std::thread;
use std::time::Duration;

// How often a count is looked at before a door, at most: once a millisecond.
const LOOKS: u32 = 10_000;

// How long a count has to stand, in milliseconds.
const STANDS: u64 = 100;

/// What is added to a count of bytes as its connection is shut, and to the gate's as a row is at its end.
pub(crate) const SHUT: u32 = 1_000_000;

/// A count that threads share.
pub(crate) type Count = Arc<AtomicU32, Global>;

/// A count of nothing.
pub(crate) fn count(alloc: Global) -> Option<Count> {
    Arc::new(alloc, AtomicU32::new(0)).ok()
}

/// The same count once more.
pub(crate) fn same(count: &Count) -> Option<Count> {
    Arc::try_clone(count).ok()
}

/// Counts so many more.
pub(crate) fn add(count: &Count, more: u32) {
    count.fetch_add(more, Ordering::SeqCst);
}

/// Whether a count is of nothing.
pub(crate) fn is_none(count: &Count) -> bool {
    count.load(Ordering::SeqCst) == 0
}

/// How much was counted.
pub(crate) fn amount(count: &Count) -> u32 {
    count.load(Ordering::SeqCst)
}

/// Waits for a millisecond.
pub(crate) fn nap(rt: &HostRuntime) {
    thread::sleep(rt, Duration::from_millis(1));
}

/// Whether a count is so high, at one of so many looks.
pub(crate) fn is_reached(rt: &HostRuntime, count: &Count, wanted: u32) -> bool {
    for _ in 0..LOOKS {
        if count.load(Ordering::SeqCst) >= wanted {
            return true;
        }
        nap(rt);
    }
    false
}

/// Whether a count comes to a number, and stays there for a while.
pub(crate) fn stands_at(rt: &HostRuntime, count: &Count, wanted: u32) -> bool {
    if !is_reached(rt, count, wanted) {
        return false;
    }
    thread::sleep(rt, Duration::from_millis(STANDS));
    count.load(Ordering::SeqCst) == wanted
}

/// Is open once a count is as high as it wants. One that enters counts itself before it waits. Passing it takes no
/// memory.
#[derive(Drop)]
pub(crate) struct Door {
    rt: HostRuntime,
    count: Count,
    wanted: u32,
    enters: bool,
}

impl Door {
    /// A door that is open once this count is so high, for one that counts itself where it enters.
    pub(crate) fn new(rt: HostRuntime, count: &Count, wanted: u32, enters: bool) -> Option<Door> {
        Some(Door {
            rt,
            count: same(count)?,
            wanted,
            enters,
        })
    }

    /// Waits until it is open. False where it isn't after so many looks.
    pub(crate) fn pass(&mut self) -> bool {
        if self.enters {
            self.enters = false;
            add(&self.count, 1);
        }
        is_reached(&self.rt, &self.count, self.wanted)
    }

    /// Waits until it is open, and a millisecond more.
    pub(crate) fn pass_late(&mut self) {
        self.pass();
        nap(&self.rt);
    }
}
