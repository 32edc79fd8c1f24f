//! Filters in memory of their own, without an allocation for each.
ghost use Rattle.std.specs.Prelude.{◌≡◌, true, map, length, IfOk};
ghost use Rattle.cf_match.specs.{verdict_of};
ghost use Rattle.cf_parallel.specs.Packing.{first_of, rest_of, unpacked};

use cf_bytes::{Hash32, NoMemory};
use cf_filter::matches;
use cf_match::{Job, Verdict};
use cf_scan::Watch;
use std::alloc::Global;
use std::marker::Model;

/// The block of a filter, and how many bytes the filter has.
#[derive(Drop)]
pub struct Head {
    block: Hash32,
    size: usize,
}

/// Filters whose bytes stand one after another. Contracts see the list of the filters.
#[derive(Drop)]
pub struct Packed {
    heads: Vec<Head>,
    bytes: Vec<u8>,
}

impl Model for Packed {
    ghost use Rattle.std.specs.Prelude.{List};
    ghost use Rattle.cf_match.specs.declared.job.Job.{Job};
    ghost use Rattle.cf_parallel.specs.Packing.{unpacked};

    ghost Value = { List Job };

    ghost view = { λ p. unpacked p.heads.items p.bytes.items };
}

impl Packed {
    /// Copies of these filters.
    pub(crate) fn of(alloc: Global, jobs: &[Job]) -> Result<Packed, NoMemory>
        ensures { IfOk result (λ p. p ≡ jobs.now) }
    {
        let (heads, bytes) = taken_apart(alloc, jobs)?;
        Ok(Packed { heads, bytes })
    }

    /// Whether they are these filters.
    pub(crate) fn are(&self, jobs: &[Job]) -> bool
        ensures { result ≡ true → self.now ≡ jobs.now }
    {
        are_these(self.heads.as_slice(), self.bytes.as_slice(), jobs)
    }

    /// The verdict on each.
    pub(crate) fn judged(&self, alloc: Global, watch: &Watch) -> Result<Vec<Verdict>, NoMemory>
        ensures { IfOk result (λ v. v.items ≡ map (verdict_of watch.now) self.now) }
    {
        verdicts_on(alloc, self.heads.as_slice(), self.bytes.as_slice(), watch)
    }
}

// The heads of filters, and all their bytes.
fn taken_apart(alloc: Global, jobs: &[Job]) -> Result<(Vec<Head>, Vec<u8>), NoMemory>
    ensures { IfOk result (λ r. unpacked r.0.items r.1.items ≡ jobs.now) }
{
    let mut heads = Vec::with_capacity(alloc, jobs.len())?;
    let mut bytes = Vec::new(alloc);
    for job in jobs {
        let filter = job.filter.as_slice();
        heads.push(Head {
            block: job.block,
            size: filter.len(),
        })?;
        bytes.extend_from_slice(filter)?;
    }
    Ok((heads, bytes))
}

// The first bytes, as many as a filter has, or all where there are fewer; and what is left.
fn cut(bytes: &[u8], size: usize) -> (&[u8], &[u8])
    ensures { (result.0.now ≡ first_of size bytes.now) × (result.1.now ≡ rest_of size bytes.now) }
{
    bytes.split_at(size.min(bytes.len()))
}

// Whether a head and these bytes are this filter.
fn is_this(head: &Head, filter: &[u8], job: &Job) -> bool
    ensures { result ≡ true → record { block = head.now.block; filter = filter.now } ≡ job.now }
{
    head.block == job.block && filter == job.filter.as_slice()
}

// Whether they are these filters.
fn are_these(heads: &[Head], bytes: &[u8], jobs: &[Job]) -> bool
    ensures { result ≡ true → unpacked heads.now bytes.now ≡ jobs.now }
{
    if heads.len() != jobs.len() {
        return false;
    }
    let mut left = bytes;
    for i in 0..jobs.len() {
        let (filter, rest) = cut(left, heads[i].size);
        if !is_this(&heads[i], filter, &jobs[i]) {
            return false;
        }
        left = rest;
    }
    true
}

// The verdict on one filter. The scratch is as long as the list of scripts; what it holds afterwards isn't said.
fn judge(block: &Hash32, filter: &[u8], watch: &Watch, scratch: &mut [u64]) -> Verdict
    requires { length scratch.old ≡ length watch.now }
    ensures verdict { result ≡ verdict_of watch.now (record { block = block.now; filter = filter.now }) }
    ensures same { length scratch.new ≡ length scratch.old }
{
    match matches(block, filter, watch.scripts(), scratch) {
        Ok(false) => Verdict::Miss,
        Ok(true) => Verdict::Hit,
        Err(_) => Verdict::Hit,
    }
}

// The verdict on each filter.
fn verdicts_on(
    alloc: Global,
    heads: &[Head],
    bytes: &[u8],
    watch: &Watch,
) -> Result<Vec<Verdict>, NoMemory>
    ensures { IfOk result (λ v. v.items ≡ map (verdict_of watch.now) (unpacked heads.now bytes.now)) }
{
    let mut scratch = vec![in alloc; 0u64; watch.scripts().len()]?;
    let mut verdicts = Vec::with_capacity(alloc, heads.len())?;
    let mut left = bytes;
    for head in heads {
        let (filter, rest) = cut(left, head.size);
        verdicts.push(judge(&head.block, filter, watch, &mut scratch))?;
        left = rest;
    }
    Ok(verdicts)
}
