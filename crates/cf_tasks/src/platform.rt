//! What a thread needs of the platform.
ghost use Rattle.std.specs.Prelude.{◌≡◌, Bool, true, false, OnOk, OnErr};

use cf_bytes::NoMemory;
use std::alloc::Global;
use std::sync::Arc;
use std::sync::atomic::AtomicBool;
use std::thread::{Promise, PromisedHandle, SpawnError, Threads};

/// A flag that two threads share.
pub type Flag = Arc<AtomicBool, Global>;

/// What the platform answers where a thread is asked for, by a handle. It is known of its answers alone: who says that
/// there was no thread or no memory has such an answer.
pub trait Platform: Threads {
    /// What a call for a thread answered: whether one was made.
    ghost made: { Self → Bool → Type 0 };
    /// What a call for a thread's memory answered: whether there was some.
    ghost found: { Self → Bool → Type 0 };

    /// Takes note of what a call for a thread has answered.
    fn noted<T, P: Promise<T>, F>(
        &self,
        answer: Result<PromisedHandle<T, P>, SpawnError<F>>,
    ) -> Result<PromisedHandle<T, P>, SpawnError<F>>
        ensures same { result ≡ answer }
        ensures made { OnOk result (made self.now true) }
        ensures none { OnErr result (made self.now false) };

    /// A flag that isn't set, for this thread and for another.
    fn flag(&self, alloc: Global) -> Result<(Flag, Flag), NoMemory>
        ensures memory { OnOk result (found self.now true) }
        ensures none { OnErr result (found self.now false) };
}

impl<R: Threads> Platform for R {
    ghost made = { λ _ _. Unit {0} };

    ghost found = { λ _ _. Unit {0} };

    fn noted<T, P: Promise<T>, F>(
        &self,
        answer: Result<PromisedHandle<T, P>, SpawnError<F>>,
    ) -> Result<PromisedHandle<T, P>, SpawnError<F>> {
        answer
    }

    fn flag(&self, alloc: Global) -> Result<(Flag, Flag), NoMemory> {
        let flag = Arc::new(alloc, AtomicBool::new(false))?;
        let theirs = Arc::try_clone(&flag)?;
        Ok((flag, theirs))
    }
}
