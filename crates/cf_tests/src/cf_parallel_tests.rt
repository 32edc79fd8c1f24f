//! Batches that several threads judge in parts.
ghost use Rattle.std.specs.Prelude.{◌≤◌};

use cf_block::Script;
use cf_bytes::{Hash32, Listed};
use cf_match::{Job, Matcher};
use cf_parallel::{Gate, Parallel};
use cf_rows::{Host, Limited};
use cf_scan::Watch;
use cf_tasks::{Choice, InThreads, Spawner};
use std::alloc::Global;
use std::sync::Arc;
use std::sync::atomic::{AtomicBool, Ordering};
use std::test::*;
use std::thread::yield_now;

// The turns for which part 1 is held.
const MOST_TURNS: u32 = 100_000_000;

// Holds part 1 until part 2 has entered, or the turns have run out, and keeps whether it has.
#[derive(Drop)]
struct Holds {
    entered: Arc<AtomicBool, Global>,
    met: Arc<AtomicBool, Global>,
}

impl Holds {
    fn has_entered(&self) -> bool {
        for _ in 0..MOST_TURNS {
            if self.entered.load(Ordering::SeqCst) {
                return true;
            }
            yield_now();
        }
        false
    }
}

impl Gate for Holds {
    fn enter(&self, part: u32) {
        if part == 2 {
            self.entered.store(true, Ordering::SeqCst);
        }
        if part == 1 && self.has_entered() {
            self.met.store(true, Ordering::SeqCst);
        }
    }
}

// A batch of one filter that is the code of nothing, and one that is no code.
fn batch(alloc: Global) -> Result<Vec<Job>, Fail> {
    let mut jobs = Vec::new(alloc);
    for text in ["00", "01000001"] {
        jobs.push(Job {
            block: Hash32([7; 32]),
            filter: Listed::from_vec(hex::decode(alloc, text).ok().ok_or("no bytes")?),
        })?;
    }
    Ok(jobs)
}

fn watched(alloc: Global) -> Result<Watch, Fail> {
    let script = Script::from_vec(Vec::from_slice(alloc, &[0x51])?);
    Ok(Watch::new(alloc, &[script]).ok().ok_or("no watch")?)
}

// The verdicts on the batch, and on one of no filters.
fn text_of<M: Matcher>(alloc: Global, matcher: &mut M) -> Result<String, Fail> {
    let watch = watched(alloc)?;
    let jobs = batch(alloc)?;
    let mut text = String::new(alloc);
    for verdict in &matcher.run(&jobs, &watch).ok().ok_or("no memory")? {
        text.push_str(&format!(in alloc; "{verdict:?} ")?)?;
    }
    let none = matcher.run(&[], &watch).ok().ok_or("no memory")?;
    text.push_str(&format!(in alloc; "{}", none.len())?)?;
    Ok(text)
}

// The verdicts of a matcher over so many threads.
fn judged<R: Host, K: Spawner>(
    rt: R,
    alloc: Global,
    spawner: &mut K,
    workers: u32,
) -> Result<String, Fail>
    requires some { 1 ≤ workers }
    requires most { workers ≤ 64 }
{
    let mut matcher = Parallel::new(rt, alloc, spawner, workers)
        .ok()
        .ok_or("no memory")?;
    text_of(alloc, &mut matcher)
}

#[test]
fn verdicts_do_not_depend_on_the_workers(rt: HostRuntime) -> Result<(), Fail> {
    let mut spawner = InThreads::new(rt);
    for workers in [1, 2, 64] {
        let text = judged(rt, rt.alloc(), &mut spawner, workers)?;
        assert_eq!(rt; text.as_str(), "Miss Hit 0");
    }
    Ok(())
}

#[test]
fn parts_without_a_thread_are_judged(rt: HostRuntime) -> Result<(), Fail> {
    let mut spawner = Limited::new(rt, Choice::InThread, 0);
    let text = judged(rt, rt.alloc(), &mut spawner, 2)?;
    assert_eq!(rt; text.as_str(), "Miss Hit 0");
    Ok(())
}

#[test]
fn parts_are_judged_at_once(rt: HostRuntime) -> Result<(), Fail> {
    let alloc = rt.alloc();
    let met = Arc::new(alloc, AtomicBool::new(false))?;
    let gate = Holds {
        entered: Arc::new(alloc, AtomicBool::new(false))?,
        met: Arc::try_clone(&met)?,
    };
    let mut spawner = InThreads::new(rt);
    let mut matcher = Parallel::with_gate(rt, alloc, &mut spawner, 2, gate)
        .ok()
        .ok_or("no memory")?;
    assert_eq!(rt; text_of(alloc, &mut matcher)?.as_str(), "Miss Hit 0");
    assert!(rt; met.load(Ordering::SeqCst));
    Ok(())
}
