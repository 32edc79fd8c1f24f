//! The dials that are begun side by side.
ghost use Rattle.std.specs.Prelude.{◌≡◌, ◌⊎◌};
ghost use Rattle.cf_bytes.specs.{HasRisen};

use crate::outside::Opened;
use cf_bytes::NoMemory;
use cf_outside::Call;
use cf_tasks::Spawner;
use std::io;
use std::sync::Wait;
use std::thread::Threads;

/// Calls of peers that were begun, each in a thread of its own, and are not taken yet.
#[derive(Drop)]
pub(crate) struct Calls {
    // The next one last; none where there was no thread for it.
    waiting: Vec<Option<Call<HostRuntime>>>,
}

impl Calls {
    // Takes the next call, if it is one of this name.
    fn next(&mut self, name: &str) -> Option<Call<HostRuntime>> {
        match self.waiting.pop() {
            Some(Some(call)) if call.is_to(name) => Some(call),
            _ => None,
        }
    }

    /// Waits for what the next call comes to, if it is one of this name.
    pub(crate) fn answer<R: Wait + Threads>(
        &mut self,
        handle: &R,
        name: &str,
    ) -> Option<io::Result<Opened>> {
        let call = self.next(name)?;
        match call.answer(handle) {
            Ok((source, writer)) => Some(Ok(Opened { source, writer })),
            Err(reason) => Some(Err(reason)),
        }
    }
}

/// Begins a call of each of these names.
#[tactic(auto, using(crate::proofs::Refusals::both))]
pub(crate) fn calls_of<K: Spawner>(
    rt: &HostRuntime,
    spawner: &mut K,
    names: &[String],
) -> Result<Calls, NoMemory>
    ensures { (K.refusals spawner.new ≡ K.refusals spawner.old)
        ⊎ HasRisen (K.refusals spawner.old) (K.refusals spawner.new) }
{
    let alloc = rt.alloc();
    let mut waiting = Vec::with_capacity(alloc, names.len())?;
    for name in names.iter().rev() {
        waiting.push(Call::begin(*rt, alloc, spawner, name.as_str())?)?;
    }
    Ok(Calls { waiting })
}
