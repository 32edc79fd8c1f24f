//! The matcher of several threads.
ghost use Rattle.std.specs.Prelude.{◌≡◌, ◌<◌, ◌≤◌, ◌-◌, map, IfOk, IfSome};
ghost use Rattle.std.specs.Arc.{arc_value};
ghost use Rattle.cf_tasks.specs.{ArePut};
ghost use Rattle.cf_match.specs.{verdict_of};
ghost use Rattle.cf_parallel.specs.Parts.{part_of, in_parts, joined};
ghost use Rattle.cf_parallel.specs.Sharing.{HasStarted};

use crate::gate::{Gate, Open};
use crate::hand::{Hand, start};
use crate::parts::place;
use crate::same::are_same_scripts;
use crate::worker::Part;
use cf_bytes::NoMemory;
use cf_match::{Job, Matcher, Plain, Verdict};
use cf_scan::Watch;
use cf_tasks::Spawner;
use std::alloc::Global;
use std::marker::Model;
use std::sync::{Arc, Wait};
use std::thread::Threads;

/// A matcher that cuts each batch in so many parts, at most 64. The caller's thread judges the first, while threads
/// that were started with the matcher judge the others; those for which there is none it judges afterwards. Contracts
/// see the number of parts and that of its threads, which end with it.
#[derive(Drop)]
pub struct Parallel<G: Gate, R: Wait + Threads + Drop> {
    alloc: Global,
    gate: Arc<G, Global>,
    hands: Vec<Hand<G, R>>,
    workers: usize,
    watch: Option<Arc<Watch, Global>>,
    plain: Plain,
}

impl<G: Gate, R: Wait + Threads + Drop> Model for Parallel<G, R> {
    ghost use Rattle.std.specs.Prelude.{◌<◌, ◌≤◌, vec_len};
    ghost use Rattle.cf_parallel.specs.Sharing.{Sharing};

    ghost Value = { Sharing };

    ghost view = { λ p. record { parts = p.workers; threads = vec_len p.hands } };

    ghost invariant = { λ p. (0 < p.workers) × (p.workers ≤ 64) × (vec_len p.hands < p.workers) };
}

impl<R: Wait + Threads + Copy + Drop + Send + 'static> Parallel<Open, R> {
    /// A matcher over so many threads, the caller's among them: for each other one a task is put to the spawner. There
    /// are fewer only where its count of refusals rose.
    pub fn new<K: Spawner>(
        rt: R,
        alloc: Global,
        spawner: &mut K,
        workers: u32,
    ) -> Result<Parallel<Open, R>, NoMemory>
        requires some { 1 ≤ workers }
        requires most { workers ≤ 64 }
        ensures parts { IfOk result (λ p. p.parts ≡ workers) }
        ensures threads { IfOk result (λ p. HasStarted p (K.refusals spawner.old) (K.refusals spawner.new)) }
        ensures put { IfOk result (λ p. ArePut K.moves (p.parts - 1) spawner.old spawner.new) }
    {
        Parallel::with_gate(rt, alloc, spawner, workers, Open)
    }
}

impl<G: Gate + Send + Sync + 'static, R: Wait + Threads + Copy + Drop + Send + 'static> Parallel<
    G,
    R,
> {
    /// The same, with a gate that is told of each part as the work on it begins.
    pub fn with_gate<K: Spawner>(
        rt: R,
        alloc: Global,
        spawner: &mut K,
        workers: u32,
        gate: G,
    ) -> Result<Parallel<G, R>, NoMemory>
        requires some { 1 ≤ workers }
        requires most { workers ≤ 64 }
        ensures parts { IfOk result (λ p. p.parts ≡ workers) }
        ensures threads { IfOk result (λ p. HasStarted p (K.refusals spawner.old) (K.refusals spawner.new)) }
        ensures put { IfOk result (λ p. ArePut K.moves (p.parts - 1) spawner.old spawner.new) }
    {
        let workers = workers as usize;
        let gate = Arc::new(alloc, gate)?;
        let mut hands = Vec::with_capacity(alloc, workers - 1)?;
        for _ in 1..workers {
            if let Some(hand) = start(rt, alloc, spawner, &gate)? {
                hands.push_reserved(hand);
            }
        }
        Ok(Parallel {
            alloc,
            gate,
            hands,
            workers,
            watch: None,
            plain: Plain::new(alloc),
        })
    }
}

// The scripts in memory of their own.
fn copied(alloc: Global, watch: &Watch) -> Option<Arc<Watch, Global>>
    ensures { IfSome result (λ w. arc_value w ≡ watch.now) }
{
    let watch = Watch::new(alloc, watch.scripts()).ok()?;
    Arc::new(alloc, watch).ok()
}

impl<G: Gate, R: Wait + Threads + Drop> Parallel<G, R> {
    // The scripts for the threads: those of the batch before, where they are the same.
    fn shared(&mut self, watch: &Watch) -> Option<Arc<Watch, Global>>
        ensures same { self.new ≡ self.old }
        ensures scripts { IfSome result (λ w. arc_value w ≡ watch.now) }
    {
        if let Some(last) = &self.watch {
            if are_same_scripts(last.scripts(), watch.scripts()) {
                return Arc::try_clone(last).ok();
            }
        }
        let fresh = copied(self.alloc, watch)?;
        self.watch = Arc::try_clone(&fresh).ok();
        Some(fresh)
    }

    // Hands each part but the first over, where it isn't empty, and where there is a thread for it and memory.
    fn hand_over(&mut self, jobs: &[Job], watch: &Watch)
        ensures { self.new ≡ self.old }
    {
        let Some(watch) = self.shared(watch) else {
            return;
        };
        for h in 0..self.hands.len() {
            let from = place(jobs.len(), self.workers, h + 1);
            let to = place(jobs.len(), self.workers, h + 2);
            if from < to {
                if let Ok(part) = Part::new(self.alloc, h as u32 + 2, &jobs[from..to], &watch) {
                    self.hands[h].give(part);
                }
            }
        }
    }

    // The answer of the thread of a part; `None` where none is to come.
    fn answer(
        &mut self,
        part: &[Job],
        watch: &Watch,
        k: usize,
    ) -> Option<Result<Vec<Verdict>, NoMemory>>
        ensures same { self.new ≡ self.old }
        ensures verdicts { IfSome result (λ r. IfOk r (λ v. v.items ≡ map (verdict_of watch.now) part.now)) }
    {
        let hand = self.hands.get_mut(k.checked_sub(1)?)?;
        hand.answer(part, watch)
    }

    // The verdicts on a part: those that come of its thread, or this thread's.
    fn collect(&mut self, jobs: &[Job], watch: &Watch, k: usize) -> Result<Vec<Verdict>, NoMemory>
        requires { k < self.old.parts }
        ensures same { self.new ≡ self.old }
        ensures verdicts { IfOk result (λ v. v.items ≡ map (verdict_of watch.now) (part_of self.old.parts jobs.now k)) }
    {
        let from = place(jobs.len(), self.workers, k);
        let to = place(jobs.len(), self.workers, k + 1);
        let part = &jobs[from..to];
        if let Some(answer) = self.answer(part, watch, k) {
            return answer;
        }
        if part.is_empty() {
            return Ok(Vec::new(self.alloc));
        }
        self.gate.enter(k as u32 + 1);
        self.plain.run(part, watch)
    }

    /// The verdicts on each part of a batch, in order: the parts are as many as there are workers, and their lengths
    /// differ by at most one.
    pub fn judge_in_parts(
        &mut self,
        jobs: &[Job],
        watch: &Watch,
    ) -> Result<Vec<Vec<Verdict>>, NoMemory>
        ensures same { self.new ≡ self.old }
        ensures parts { IfOk result (λ parts. map (λ v. v.items) parts.items
            ≡ map (map (verdict_of watch.now)) (in_parts self.old.parts jobs.now)) }
    {
        let mut parts = Vec::with_capacity(self.alloc, self.workers)?;
        self.hand_over(jobs, watch);
        for k in 0..self.workers {
            parts.push(self.collect(jobs, watch, k)?)?;
        }
        Ok(parts)
    }
}

// Lists, one after another.
fn put_together(
    alloc: Global,
    parts: &[Vec<Verdict>],
    count: usize,
) -> Result<Vec<Verdict>, NoMemory>
    ensures { IfOk result (λ v. v.items ≡ joined (map (λ part. part.items) parts.now)) }
{
    let mut all = Vec::with_capacity(alloc, count)?;
    for part in parts {
        all.extend_from_slice(part.as_slice())?;
    }
    Ok(all)
}

impl<G: Gate, R: Wait + Threads + Drop> Matcher for Parallel<G, R> {
    ghost judges = { λ before _ _ _ after. after ≡ before };

    fn run(&mut self, jobs: &[Job], watch: &Watch) -> Result<Vec<Verdict>, NoMemory> {
        let parts = self.judge_in_parts(jobs, watch)?;
        put_together(self.alloc, parts.as_slice(), jobs.len())
    }
}
