//! `cf_bench FILE COUNT [WORKERS]`: builds the basic filters of the chain in a block file, matches COUNT scripts that
//! nothing pays against each of them, and prints how many match. With WORKERS a matcher of so many threads does it, or
//! the plain one at 0, and two lines more tell the milliseconds that matching took, and making the index: the filters,
//! their headers and the heights of the blocks' hashes. `cf_bench FILE filters` builds the filters alone, and prints
//! how many there are and the milliseconds that it took. It is there to be measured (see `bench/`), and is no part of
//! the program.
#![tactic(auto)]

use cf_block::Script;
use cf_bytes::{Files, Hash32, Listed, NoMemory, StdFiles};
use cf_filter::matches;
use cf_index::{CheckedChain, Index, read_chain};
use cf_match::{Job, Matcher, Plain, Verdict};
use cf_parallel::Parallel;
use cf_scan::Watch;
use cf_tasks::InThreads;
use cf_walk::MOST_BLOCKS;
use std::alloc::Global;
use std::env;
use std::process::ExitCode;
use std::rt::Clock;
use std::sync::Wait;
use std::thread::Threads;
use std::time::Instant;

// So many scripts of 25 bytes, of which the first eight are their number.
fn scripts_of(alloc: Global, count: u64) -> Result<Vec<Script>, NoMemory> {
    let mut scripts = Vec::new(alloc);
    for i in 0..count {
        let mut bytes = Vec::from_slice(alloc, i.to_le_bytes().as_slice())?;
        bytes.extend_from_slice(&[0x51; 17])?;
        scripts.push(Script::from_vec(bytes))?;
    }
    Ok(scripts)
}

// Whether the filter of the block with this hash matches one of the scripts.
fn is_match(
    alloc: Global,
    block: &Hash32,
    filter: &[u8],
    scripts: &[Script],
) -> Result<bool, NoMemory> {
    let mut scratch = vec![in alloc; 0u64; scripts.len()]?;
    Ok(matches(block, filter, scripts, &mut scratch) == Ok(true))
}

// How many of the filters match, from genesis's to the tip's.
fn count_matches(alloc: Global, index: &Index, scripts: &[Script]) -> Result<u64, NoMemory> {
    let mut hits = 0u64;
    for height in 0..=index.tip() {
        let (Some(block), Some(filter)) = (index.hash(height), index.filter(height)) else {
            continue;
        };
        if is_match(alloc, &block, filter, scripts)? {
            hits = hits.saturating_add(1);
        }
    }
    Ok(hits)
}

// All filters as one batch.
fn jobs_of(alloc: Global, index: &Index) -> Result<Vec<Job>, NoMemory> {
    let mut jobs = Vec::new(alloc);
    for height in 0..=index.tip() {
        if let (Some(block), Some(filter)) = (index.hash(height), index.filter(height)) {
            let filter = Listed::from_vec(Vec::from_slice(alloc, filter)?);
            jobs.push(Job { block, filter })?;
        }
    }
    Ok(jobs)
}

// How many of the filters match, by a matcher.
fn count_hits<M: Matcher>(matcher: &mut M, jobs: &[Job], watch: &Watch) -> Option<u64> {
    let verdicts = matcher.run(jobs, watch).ok()?;
    Some(verdicts.iter().filter(|v| **v == Verdict::Hit).count() as u64)
}

// The same by as many threads, or by the plain matcher.
fn count_by<R: Wait + Threads + Copy + Drop + Send + 'static>(
    rt: R,
    alloc: Global,
    workers: u32,
    jobs: &[Job],
    watch: &Watch,
) -> Option<u64> {
    if workers == 0 || workers > 64 {
        return count_hits(&mut Plain::new(alloc), jobs, watch);
    }
    let mut spawner = InThreads::new(rt);
    let mut matcher = Parallel::new(rt, alloc, &mut spawner, workers).ok()?;
    count_hits(&mut matcher, jobs, watch)
}

// The chain in a file, whose bytes are let go then.
fn load(rt: &HostRuntime, name: &str) -> Option<CheckedChain> {
    let alloc = rt.alloc();
    let bytes = StdFiles::new(rt).read(alloc, name, MOST_BLOCKS).ok()?;
    read_chain(alloc, &bytes).ok()
}

// What is done with a chain: its filters are built, or its index is made and so many scripts are matched, by as many
// workers.
#[derive(Clone, Copy)]
enum Work {
    Build,
    Match { count: u64, workers: Option<u32> },
}

// What is asked for.
#[derive(Drop)]
struct Asked {
    name: String,
    work: Work,
}

// The words behind the program's name.
fn words_of(rt: &HostRuntime) -> Option<Asked> {
    let mut words = env::args(rt).ok()?;
    let _program = words.next()?;
    let name = words.next()?;
    let what = words.next()?;
    if what.as_str() == "filters" {
        return Some(Asked {
            name,
            work: Work::Build,
        });
    }
    let count = what.parse::<u64>().ok()?;
    let workers = match words.next() {
        Some(word) => Some(word.parse::<u32>().ok()?),
        None => None,
    };
    Some(Asked {
        name,
        work: Work::Match { count, workers },
    })
}

// The milliseconds since a moment.
fn millis<R: Clock>(rt: &R, from: Instant) -> Option<u64> {
    let passed = from.elapsed(rt).ok()?;
    u64::try_from(passed.as_millis()).ok()
}

// The number of filters that match, of all filters.
fn told(alloc: Global, index: &Index, count: u64) -> Option<String> {
    let scripts = scripts_of(alloc, count).ok()?;
    let hits = count_matches(alloc, index, &scripts).ok()?;
    format!(in alloc; "{hits} of {}", u64::from(index.tip()) + 1).ok()
}

// The same by a matcher, and the milliseconds that it took.
fn told_by<R: Wait + Threads + Clock + Copy + Drop + Send + 'static>(
    rt: R,
    alloc: Global,
    index: &Index,
    count: u64,
    workers: u32,
) -> Option<String> {
    let scripts = scripts_of(alloc, count).ok()?;
    let watch = Watch::new(alloc, &scripts).ok()?;
    let jobs = jobs_of(alloc, index).ok()?;
    let start = Instant::now(&rt).ok()?;
    let hits = count_by(rt, alloc, workers, &jobs, &watch)?;
    let matched = millis(&rt, start)?;
    format!(in alloc; "{hits} of {}\n{matched}", u64::from(index.tip()) + 1).ok()
}

// How many filters a chain's blocks have above genesis, and the milliseconds that building them took.
fn build_alone<R: Threads + Sync + Clock>(
    rt: &R,
    alloc: Global,
    chain: &CheckedChain,
) -> Option<String> {
    let start = Instant::now(rt).ok()?;
    let filters = chain.basic_filters(rt, alloc).ok()?;
    let built = millis(rt, start)?;
    format!(in alloc; "{}\n{built}", filters.len()).ok()
}

// How many filters match, and with workers the milliseconds of matching and of making the index.
fn match_all<R: Wait + Threads + Sync + Clock + Copy + Drop + Send + 'static>(
    rt: R,
    alloc: Global,
    chain: CheckedChain,
    count: u64,
    workers: Option<u32>,
) -> Option<String> {
    let start = Instant::now(&rt).ok()?;
    let index = Index::of(&rt, alloc, chain).ok()?;
    let built = millis(&rt, start)?;
    match workers {
        None => told(alloc, &index, count),
        Some(workers) => {
            let text = told_by(rt, alloc, &index, count, workers)?;
            format!(in alloc; "{text}\n{built}").ok()
        }
    }
}

// What is printed.
fn measured<R: Wait + Threads + Sync + Clock + Copy + Drop + Send + 'static>(
    rt: R,
    alloc: Global,
    chain: CheckedChain,
    work: Work,
) -> Option<String> {
    match work {
        Work::Build => build_alone(&rt, alloc, &chain),
        Work::Match { count, workers } => match_all(rt, alloc, chain, count, workers),
    }
}

fn main(rt: HostRuntime) -> ExitCode {
    let Some(asked) = words_of(&rt) else {
        return ExitCode::from(2);
    };
    let Some(chain) = load(&rt, &asked.name) else {
        return ExitCode::from(1);
    };
    let Some(text) = measured(rt, rt.alloc(), chain, asked.work) else {
        return ExitCode::from(1);
    };
    match println!(&rt; "{text}") {
        Ok(()) => ExitCode::SUCCESS,
        Err(_) => ExitCode::from(1),
    }
}
