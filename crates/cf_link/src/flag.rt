//! Flags that tasks raise as they end.
ghost use Rattle.std.specs.Prelude.{Bool};

use cf_bytes::NoMemory;
use std::alloc::Global;
use std::sync::Arc;
use std::sync::atomic::{AtomicBool, Ordering};

/// A flag that a task raises as it ends, as another thread looks at it. What it tells is known of its answers alone.
pub(crate) trait Flag: Drop {
    /// What was answered where it was asked whether it is raised.
    ghost tells: { Self → Bool → Type 0 };

    /// A flag that isn't raised, and what raises it.
    fn pair(alloc: Global) -> Result<(Self, Arc<AtomicBool, Global>), NoMemory>;

    /// Whether it is raised.
    fn is_raised(&self) -> bool
        ensures { tells self.now result };
}

/// A flag that two threads share.
#[derive(Drop)]
pub(crate) struct SharedFlag {
    over: Arc<AtomicBool, Global>,
}

impl Flag for SharedFlag {
    ghost tells = { λ _ _. Unit {0} };

    fn pair(alloc: Global) -> Result<(SharedFlag, Arc<AtomicBool, Global>), NoMemory> {
        let over = Arc::new(alloc, AtomicBool::new(false))?;
        let theirs = Arc::try_clone(&over)?;
        Ok((SharedFlag { over }, theirs))
    }

    fn is_raised(&self) -> bool {
        self.over.load(Ordering::SeqCst)
    }
}
