//! A thread that judges parts of batches.
ghost use Rattle.std.specs.Prelude.{◌≡◌, map, IfOk};
ghost use Rattle.std.specs.Arc.{arc_value};
ghost use Rattle.cf_match.specs.{verdict_of};

use crate::gate::Gate;
use crate::packed::Packed;
use cf_bytes::NoMemory;
use cf_match::{Job, Verdict};
use cf_scan::Watch;
use cf_tasks::Task;
use crossbeam_channel::{Receiver, Sender};
use std::alloc::Global;
use std::sync::{Arc, Wait};

/// A part of a batch, in memory of its own.
#[derive(Drop)]
pub struct Part {
    /// Its number, from 1.
    number: u32,
    /// The filters.
    filters: Packed,
    /// The scripts with which they are matched.
    watch: Arc<Watch, Global>,
}

/// Filters, the scripts with which they were matched, and the verdicts.
#[derive(Drop)]
pub struct Judged {
    pub(crate) filters: Packed,
    pub(crate) watch: Arc<Watch, Global>,
    pub(crate) verdicts: Vec<Verdict>,
    pub(crate) ghost right: { verdicts.items ≡ map (verdict_of (arc_value watch)) filters },
}

impl Part {
    /// A part of these filters.
    pub(crate) fn new(
        alloc: Global,
        number: u32,
        jobs: &[Job],
        watch: &Arc<Watch, Global>,
    ) -> Result<Part, NoMemory>
        ensures { IfOk result
            (λ p. (p.number ≡ number) × (p.filters ≡ jobs.now) × (arc_value p.watch ≡ arc_value watch.now)) }
    {
        let filters = Packed::of(alloc, jobs)?;
        let watch = Arc::try_clone(watch)?;
        Ok(Part {
            number,
            filters,
            watch,
        })
    }
}

// The verdicts on a part.
fn judge(alloc: Global, part: Part) -> Result<Judged, NoMemory>
    ensures { IfOk result (λ j. (j.filters ≡ part.filters) × (j.watch ≡ part.watch)) }
{
    let Part { filters, watch, .. } = part;
    let verdicts = filters.judged(alloc, &watch)?;
    Ok(Judged {
        filters,
        watch,
        verdicts,
    })
}

/// The task of a thread: to judge each part that comes, until none can come.
#[derive(Drop)]
pub struct Worker<G, R> {
    pub(crate) rt: R,
    pub(crate) gate: Arc<G, Global>,
    pub(crate) alloc: Global,
    pub(crate) parts: Receiver<Part, Global>,
    pub(crate) answers: Sender<Result<Judged, NoMemory>, Global>,
}

impl<G: Gate, R: Wait + Drop> Task for Worker<G, R> {
    type Out = ();

    ghost gives = { λ w o. Unit {0} };

    fn run(self) {
        let Worker {
            rt,
            gate,
            alloc,
            parts,
            answers,
        } = self;
        for _ in rt.forever() {
            let Ok(part) = parts.recv(&rt) else {
                return;
            };
            gate.enter(part.number);
            if answers.send(&rt, judge(alloc, part)).is_err() {
                return;
            }
        }
    }
}
