//! What connections over TCP may hold and take.
use std::sync::atomic::{AtomicU64, Ordering};

/// So many connections are served at a time where nothing else is said.
const USUAL_AT_ONCE: u32 = 125;

/// So many bytes of large messages are held at a time where nothing else is said.
const USUAL_BYTES: u64 = 268_435_456;

// How often it is tried to count against a budget while others count too.
const TRIES: u32 = 1000;

/// What a listener over TCP allows its connections.
#[derive(Clone, Copy, Debug, PartialEq, Eq)]
pub struct Limits {
    /// How many connections are served at a time. At least one is.
    pub at_once: u32,
    /// How many bytes of large messages all connections hold together. One message may always be held.
    pub bytes: u64,
}

impl Limits {
    /// The limits where nothing else is said: 125 connections at a time, and 268,435,456 bytes.
    pub fn usual() -> Limits {
        Limits {
            at_once: USUAL_AT_ONCE,
            bytes: USUAL_BYTES,
        }
    }
}

/// The bytes of large messages that all connections hold together.
#[derive(Drop)]
pub(crate) struct Budget {
    most: u64,
    held: AtomicU64,
}

impl Budget {
    /// Nothing is held.
    pub(crate) fn new(most: u64) -> Budget {
        Budget {
            most,
            held: AtomicU64::new(0),
        }
    }

    /// Counts so many bytes as held, where they fit beside what is held already, or nothing is held.
    pub(crate) fn take(&self, bytes: u64) -> bool {
        for _ in 0..TRIES {
            let held = self.held.load(Ordering::SeqCst);
            let sum = held.saturating_add(bytes);
            if held > 0 && sum > self.most {
                return false;
            }
            if self
                .held
                .compare_exchange(held, sum, Ordering::SeqCst, Ordering::SeqCst)
                .is_ok()
            {
                return true;
            }
        }
        false
    }

    /// Counts so many bytes as held no longer.
    pub(crate) fn give_back(&self, bytes: u64) {
        let _held = self.held.fetch_sub(bytes, Ordering::SeqCst);
    }
}
