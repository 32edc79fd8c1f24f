//! A thread that judges, as seen by what hands parts over to it.
ghost use Rattle.std.specs.Prelude.{◌≡◌, map, IfOk, IfSome, IfNone, OnOk};
ghost use Rattle.cf_bytes.specs.{HasRisen};
ghost use Rattle.cf_tasks.specs.{IsPut};
ghost use Rattle.cf_match.specs.{verdict_of};

use crate::gate::Gate;
use crate::same::are_same_scripts;
use crate::worker::{Judged, Part, Worker};
use cf_bytes::NoMemory;
use cf_match::{Job, Verdict};
use cf_scan::Watch;
use cf_tasks::{Running, Spawner, joined};
use crossbeam_channel::{Receiver, Sender, bounded};
use std::alloc::Global;
use std::sync::{Arc, Wait};
use std::thread::Threads;

/// A thread that judges, and the ends by which parts go there and answers come. It ends with its value.
pub struct Hand<G: Gate, R: Wait + Threads + Drop> {
    rt: R,
    parts: Sender<Part, Global>,
    answers: Receiver<Result<Judged, NoMemory>, Global>,
    running: Running<Worker<G, R>>,
    owes: bool,
}

impl<G: Gate, R: Wait + Threads + Drop> Drop for Hand<G, R> {
    fn drop(self) {
        let Hand {
            rt,
            parts,
            answers,
            running,
            owes: _,
        } = self;
        drop(parts);
        drop(answers);
        let _ended = joined(&rt, running);
    }
}

/// Starts a thread that judges; `None` only where the start is refused.
pub(crate) fn start<
    G: Gate + Send + Sync + 'static,
    R: Wait + Threads + Drop + Copy + Send + 'static,
    K: Spawner,
>(
    rt: R,
    alloc: Global,
    spawner: &mut K,
    gate: &Arc<G, Global>,
) -> Result<Option<Hand<G, R>>, NoMemory>
    ensures some { IfOk result (λ o. IfSome o (λ _. K.refusals spawner.new ≡ K.refusals spawner.old)) }
    ensures none { IfOk result (λ o. IfNone o (HasRisen (K.refusals spawner.old) (K.refusals spawner.new))) }
    ensures put { OnOk result (IsPut K.moves spawner.old spawner.new) }
{
    let gate = Arc::try_clone(gate)?;
    let (parts, theirs) = bounded(alloc, 1)?;
    let (to, answers) = bounded(alloc, 1)?;
    let worker = Worker {
        rt,
        gate,
        alloc,
        parts: theirs,
        answers: to,
    };
    match spawner.start(alloc, worker) {
        Ok(running) => Ok(Some(Hand {
            rt,
            parts,
            answers,
            running,
            owes: false,
        })),
        Err(_) => Ok(None),
    }
}

impl<G: Gate, R: Wait + Threads + Drop> Hand<G, R> {
    /// Hands a part over.
    pub(crate) fn give(&mut self, part: Part) {
        if self.owes {
            let _late = self.answers.recv(&self.rt);
        }
        self.owes = self.parts.send(&self.rt, part).is_ok();
    }

    /// The answer to the part that was handed over; `None` where none was, or where it isn't on these filters and
    /// scripts.
    pub(crate) fn answer(
        &mut self,
        jobs: &[Job],
        watch: &Watch,
    ) -> Option<Result<Vec<Verdict>, NoMemory>>
        ensures { IfSome result (λ r. IfOk r (λ v. v.items ≡ map (verdict_of watch.now) jobs.now)) }
    {
        if !self.owes {
            return None;
        }
        self.owes = false;
        match self.answers.recv(&self.rt) {
            Ok(Ok(judged)) => verdicts_of(judged, jobs, watch),
            Ok(Err(e)) => Some(Err(e)),
            Err(_) => None,
        }
    }
}

// The verdicts, where they are on these filters and scripts.
fn verdicts_of(
    judged: Judged,
    jobs: &[Job],
    watch: &Watch,
) -> Option<Result<Vec<Verdict>, NoMemory>>
    ensures { IfSome result (λ r. IfOk r (λ v. v.items ≡ map (verdict_of watch.now) jobs.now)) }
{
    let Judged {
        filters,
        watch: with,
        verdicts,
    } = judged;
    if filters.are(jobs) && are_same_scripts(with.scripts(), watch.scripts()) {
        Some(Ok(verdicts))
    } else {
        None
    }
}
