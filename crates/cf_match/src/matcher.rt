//! Matchers: they give verdicts on filters.
ghost use Rattle.std.specs.Prelude.{◌≡◌, ℕ, List, Result, Vec, length, map, IfOk};
ghost use Rattle.std.specs.Global.{Global};
ghost use Rattle.cf_bytes.specs.declared.memory.NoMemory.{NoMemory};
ghost use Rattle.cf_match.specs.declared.job.Job.{Job};
ghost use Rattle.cf_match.specs.declared.job.Verdict.{Verdict};
ghost use Rattle.cf_match.specs.Verdicts.{verdict_of};

use crate::job::{Job, Verdict};
use cf_bytes::NoMemory;
use cf_filter::matches;
use cf_scan::Watch;
use std::alloc::Global;

/// Matches filters with the watched scripts.
pub trait Matcher {
    /// What one call of `run` answers, of filters and watched scripts, and what it leaves, where more of
    /// that is known than the other clauses say.
    ghost judges: { Self → List Job → List (List ℕ) → Result (Vec Verdict Global) NoMemory → Self → Type 0 };

    /// The verdict on each filter, in the order of the filters: `Miss` exactly where it is a Golomb code that has no
    /// watched script's value under its block's key, else `Hit`.
    fn run(&mut self, jobs: &[Job], watch: &Watch) -> Result<Vec<Verdict>, NoMemory>
        ensures verdicts { IfOk result (λ verdicts. verdicts.items ≡ map (verdict_of watch.now) jobs.now) }
        ensures exact { judges self.old jobs.now watch.now result self.new };
}

/// A matcher that takes one filter after the other.
#[derive(Drop)]
pub struct Plain {
    alloc: Global,
}

// The verdict on one filter. The scratch is as long as the list of scripts; what it holds afterwards isn't said.
fn judge(job: &Job, watch: &Watch, scratch: &mut [u64]) -> Verdict
    requires { length scratch.old ≡ length watch.now }
    ensures verdict { result ≡ verdict_of watch.now job.now }
    ensures same { length scratch.new ≡ length scratch.old }
{
    match matches(&job.block, job.filter.as_slice(), watch.scripts(), scratch) {
        Ok(false) => Verdict::Miss,
        Ok(true) => Verdict::Hit,
        Err(_) => Verdict::Hit,
    }
}

impl Plain {
    /// A matcher. It takes no memory until it runs.
    pub fn new(alloc: Global) -> Plain {
        Plain { alloc }
    }
}

impl Matcher for Plain {
    ghost judges = { λ before _ _ _ after. after ≡ before };

    fn run(&mut self, jobs: &[Job], watch: &Watch) -> Result<Vec<Verdict>, NoMemory> {
        let mut scratch = vec![in self.alloc; 0u64; watch.scripts().len()]?;
        let mut verdicts = Vec::with_capacity(self.alloc, jobs.len())?;
        for job in jobs {
            verdicts.push(judge(job, watch, &mut scratch))?;
        }
        Ok(verdicts)
    }
}
