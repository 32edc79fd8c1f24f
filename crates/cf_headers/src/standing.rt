//! Headers whose nodes stand already, as where several peers send the same ones. A guide is the place of a way that
//! goes through such nodes. It's a guess: whoever takes a name from that way compares what the name's node has.
ghost use Rattle.std.specs.Prelude.{◌≡◌, ◌⊎◌, ◌↔◌, ◌-◌, ◌<◌, ◌≤◌, ℕ, true, length, IfOk, vec_len};
ghost use Rattle.slab.specs.Slab.{get};
ghost use Rattle.cf_headers.specs.Nodes.{StandsAt, StandTo, IsGuide};
ghost use Rattle.cf_headers.specs.Entries.{IsChecked};

use crate::check::{Hashing, check_all};
use crate::entry::{Checked, HashedHeader};
use crate::past::Past;
use crate::pool::Pool;
use crate::ways::{Way, names_above};
use cf_block::Header;
use cf_bytes::{Hash32, NoMemory};
use std::alloc::Global;

// Whether the node of the name at a place has the header at that place.
fn stands(pool: &Pool, names: &[u32], headers: &[Header], i: usize) -> bool
    requires names { i < length names.now }
    requires headers { i < length headers.now }
    ensures { result ≡ true ↔ StandsAt (get pool.now.nodes) names.now headers.now i }
{
    pool.entry_of(names[i], &headers[i]).is_some()
}

// How many of the headers these names' nodes have in a row. Those before place `from` aren't looked at.
fn count_standing(pool: &Pool, names: &[u32], headers: &[Header], from: usize) -> usize
    ensures last { from < result → StandsAt (get pool.now.nodes) names.now headers.now (result - 1) }
    ensures most { (many : ℕ) → StandTo (get pool.now.nodes) names.now headers.now many
        → many ≤ from ⊎ many ≤ result }
{
    let most = names.len().min(headers.len());
    for i in from..most {
        if !stands(pool, names, headers, i) {
            return i;
        }
    }
    most
}

/// The place of a way on which more of these headers stand in a row than on others, the first at height k + 1. Each way
/// is looked at only from where the ones before it end, so hardly any header is compared twice.
pub(crate) fn guide_for(pool: &Pool, ways: &[Way], k: usize, headers: &[Header]) -> usize
    ensures { (reach : ℕ) × IsGuide (get pool.now.nodes) ways.now k headers.now result reach }
{
    let mut guide = 0;
    let mut most = 0;
    for q in 0..ways.len() {
        let count = count_standing(pool, names_above(ways, q, k), headers, most);
        if count > most {
            guide = q;
            most = count;
        }
    }
    guide
}

/// So many names: those above height k on the guide's way, and zeros after them.
pub(crate) fn guesses(
    alloc: Global,
    ways: &[Way],
    guide: usize,
    k: usize,
    many: usize,
) -> Result<Vec<u32>, NoMemory>
    ensures { IfOk result (λ v. vec_len v ≡ many) }
{
    let known = names_above(ways, guide, k);
    let count = known.len().min(many);
    let mut names = vec![in alloc; 0u32; many]?;
    names[..count].copy_from_slice(&known[..count]);
    Ok(names)
}

// The names of nodes that may have the headers of a list.
#[derive(Clone, Copy)]
struct Standing<'a> {
    pool: &'a Pool,
    names: &'a [u32],
}

impl Hashing for Standing<'_> {
    fn entry(&self, i: usize, header: &Header) -> HashedHeader {
        if i < self.names.len() {
            if let Some(entry) = self.pool.entry_of(self.names[i], header) {
                return entry;
            }
        }
        HashedHeader::new(header)
    }
}

/// Judges headers, each on the one before it, and the first on one with this hash, where these times count for it.
/// Nodes of these names may have them: where one does, its header is compared and not hashed.
pub(crate) fn check_standing(
    alloc: Global,
    pool: &Pool,
    names: &[u32],
    parent_hash: &Hash32,
    past: Past,
    headers: &[Header],
) -> Result<Checked, NoMemory>
    ensures { IfOk result (λ c. IsChecked parent_hash.now.0 past headers.now c) }
{
    check_all(alloc, &Standing { pool, names }, parent_hash, past, headers)
}
