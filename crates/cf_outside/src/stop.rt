//! How a ticker is told to stop.
ghost use Rattle.std.specs.Prelude.{◌≡◌, Bool, true, false};

use std::alloc::Global;
use std::marker::Model;
use std::sync::Arc;
use std::sync::atomic::{AtomicBool, Ordering};

/// A flag that another thread may set. Contracts see whether it was seen to be set.
#[derive(Drop)]
pub struct StopFlag {
    flag: Arc<AtomicBool, Global>,
    seen: bool,
}

impl Model for StopFlag {
    ghost Value = { Bool };

    ghost view = { λ s. s.seen };
}

impl StopFlag {
    /// A flag that was not looked at yet.
    pub fn new(flag: Arc<AtomicBool, Global>) -> StopFlag
        ensures { result ≡ false }
    {
        StopFlag { flag, seen: false }
    }

    /// Looks whether it is set.
    pub fn is_told(&mut self) -> bool
        ensures seen { result ≡ self.new }
        ensures kept { self.old ≡ true → self.new ≡ true }
    {
        self.seen = self.seen || self.flag.load(Ordering::SeqCst);
        self.seen
    }
}
