//! Verdicts on filters.
use crate::fields::{bytes_in, hash_in};
use crate::filters::scripts_in;
use cf_bytes::Listed;
use cf_match::{Job, Matcher, Plain};
use cf_scan::Watch;
use std::alloc::Global;

// A filter that came for a block: the block's hash, `:`, the filter.
fn job_in(alloc: Global, text: &str) -> Option<Job> {
    let (block, filter) = text.split_once(':')?;
    let block = hash_in(alloc, block)?;
    let filter = Listed::from_vec(bytes_in(alloc, filter)?);
    Some(Job { block, filter })
}

// The verdicts of a matcher.
fn judged<M: Matcher>(
    alloc: Global,
    matcher: &mut M,
    jobs: &[Job],
    watch: &Watch,
) -> Option<String> {
    let verdicts = matcher.run(jobs, watch).ok()?;
    format!(in alloc; "{verdicts:?}").ok()
}

// Filters that came, parted by spaces. `none` is none.
fn jobs_in(alloc: Global, fields: &str) -> Option<Vec<Job>> {
    let mut jobs = Vec::new(alloc);
    if fields == "none" {
        return Some(jobs);
    }
    for text in fields.split(' ') {
        let job = job_in(alloc, text)?;
        jobs.push(job).ok()?;
    }
    Some(jobs)
}

// The scripts of a field, which are watched.
fn watch_in(alloc: Global, field: &str) -> Option<Watch> {
    let scripts = scripts_in(alloc, field)?;
    Watch::new(alloc, &scripts).ok()
}

/// The verdicts on filters for blocks, where these scripts are watched.
pub(crate) fn answer(alloc: Global, row: &str) -> Option<String> {
    let (scripts, filters) = row.split_once(' ')?;
    let jobs = jobs_in(alloc, filters)?;
    let watch = watch_in(alloc, scripts)?;
    judged(alloc, &mut Plain::new(alloc), &jobs, &watch)
}
