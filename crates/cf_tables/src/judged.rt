//! The verdicts on the filters that came.
#![tactic(auto, unfolding(crate::specs::Judged::verdicts_in))]

ghost use Rattle.std.specs.Prelude.{◌≡◌, ℕ, List, map, None, IfOk, OnOk, OnErr};
ghost use Rattle.cf_match.specs.{AreSameVerdicts, verdict_of, with_verdicts};
ghost use Rattle.cf_tables.specs.Held.{CountsVerdicts};
ghost use Rattle.cf_tables.specs.Judged.{AreKeptInPart, MoreVerdicts, verdicts_in, put_one, with_one};

use cf_bytes::{Hash32, NoMemory};
use cf_filter::filter_hash;
use cf_match::{Job, Verdict};
use std::alloc::Global;
use std::collections::BTreeMap;

/// Whose verdict it is.
#[derive(Clone, Copy, Debug, PartialEq, Eq, PartialOrd, Ord)]
pub struct Judging {
    /// The block's hash.
    pub block: Hash32,
    /// The filter's hash.
    pub filter: Hash32,
}

/// Verdicts by the hashes of the block and of the filter. None changes.
#[derive(Drop)]
pub struct Judged {
    map: BTreeMap<Judging, Verdict>,
}

impl Judged {
    /// No verdict; it takes no memory.
    pub fn new(alloc: Global) -> Judged
        ensures { (block filter : List ℕ) → verdicts_in result block filter ≡ None }
    {
        Judged {
            map: BTreeMap::new(alloc),
        }
    }

    /// The verdict on a filter.
    pub fn get(&self, block: &Hash32, filter: &Hash32) -> Option<Verdict>
        ensures { result ≡ verdicts_in self.now block.now.0 filter.now.0 }
    {
        self.map
            .get(&Judging {
                block: *block,
                filter: *filter,
            })
            .copied()
    }

    /// On how many filters a verdict is kept. It takes no memory.
    pub fn len(&self) -> u64
        ensures { CountsVerdicts (verdicts_in self.now) result }
    {
        self.map.len() as u64
    }

    /// Keeps a verdict where none stands. Where no memory is found nothing has changed.
    pub fn put(&mut self, block: &Hash32, filter: &Hash32, verdict: Verdict) -> Result<(), NoMemory>
        ensures ok { OnOk result (AreSameVerdicts (verdicts_in self.new)
            (with_one block.now.0 filter.now.0 verdict (verdicts_in self.old))) }
        ensures err { OnErr result (AreSameVerdicts (verdicts_in self.new) (verdicts_in self.old)) }
    {
        match self.get(block, filter) {
            Some(_) => Ok(()),
            None => {
                self.insert(*block, *filter, verdict)?;
                Ok(())
            }
        }
    }

    /// Keeps the verdicts on filters, each where none stands. Where no memory is found some of them may be kept, and no
    /// others.
    pub fn put_all(&mut self, jobs: &[Job], verdicts: &[Verdict]) -> Result<(), NoMemory>
        ensures ok { OnOk result ((watch : List (List ℕ)) → verdicts.now ≡ map (verdict_of watch) jobs.now
            → AreSameVerdicts (verdicts_in self.new) (with_verdicts watch jobs.now (verdicts_in self.old))) }
        ensures err { OnErr result ((watch : List (List ℕ)) → verdicts.now ≡ map (verdict_of watch) jobs.now
            → AreKeptInPart watch jobs.now (verdicts_in self.old) (verdicts_in self.new)) }
        ensures more { MoreVerdicts (verdicts_in self.old) (verdicts_in self.new) }
    {
        for (i, job) in jobs.iter().enumerate() {
            if i >= verdicts.len() {
                return Ok(());
            }
            self.put(&job.block, &filter_hash(job.filter.as_slice()), verdicts[i])?;
        }
        Ok(())
    }

    // Keeps a verdict, in the place of one that stands.
    fn insert(&mut self, block: Hash32, filter: Hash32, verdict: Verdict) -> Result<(), NoMemory>
        ensures ok { OnOk result
            (AreSameVerdicts (verdicts_in self.new) (put_one block.0 filter.0 verdict (verdicts_in self.old))) }
        ensures err { OnErr result (AreSameVerdicts (verdicts_in self.new) (verdicts_in self.old)) }
    {
        self.map.insert(Judging { block, filter }, verdict)?;
        Ok(())
    }
}
