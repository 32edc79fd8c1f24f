//! Whether a set has one of some values.
ghost use Rattle.std.specs.Prelude.{◌≡◌, ◌*◌, ◌≤◌};
ghost use Rattle.cf_golomb.specs.Code.{values_at, body_at, set_at};
ghost use Rattle.cf_golomb.specs.Answers.{Gives};
ghost use Rattle.cf_golomb.specs.Meets.{IsAscending, hits, skip_below as skipped, first_is, answer_by, seen_by};

use crate::fault::SetFault;
use crate::reading::{finish, head, value};
use crate::source::BitSource;
use crate::word_reader::WordReader;

// The queries from the first one on that isn't below v.
fn skip_below<'a>(queries: &'a [u64], v: u64) -> &'a [u64]
    ensures { result.now ≡ skipped v queries.now }
{
    let mut rest = queries;
    while let [first, others @ ..] = rest {
        if *first >= v {
            return rest;
        }
        rest = others;
    }
    rest
}

fn begins_with(queries: &[u64], v: u64) -> bool
    ensures { result ≡ first_is v queries.now }
{
    match queries {
        [] => false,
        [first, ..] => *first == v,
    }
}

// Reads n values, and answers whether one is among the queries.
fn any_value<B: BitSource>(source: &mut B, n: u64, queries: &[u64]) -> Result<bool, SetFault>
    requires few { n ≤ 33554432 }
    requires sorted { IsAscending 0 queries.now }
    ensures { Gives (seen_by (hits queries.now) (values_at (n * 784931) n 0 (B.bits source.old)))
        result (B.bits source.new) }
{
    let limit = n * 784_931;
    let mut rest = queries;
    let mut hit = false;
    let mut before = 0;
    for _i in 0..n {
        let v = match value(source, limit, before) {
            Ok(v) => v,
            Err(e) => return Err(e),
        };
        rest = skip_below(rest, v);
        hit |= begins_with(rest, v);
        before = v;
    }
    Ok(hit)
}

// The same of n values which are all.
fn any_of_body<B: BitSource>(source: &mut B, n: u64, queries: &[u64]) -> Result<bool, SetFault>
    requires few { n ≤ 33554432 }
    requires sorted { IsAscending 0 queries.now }
    ensures { result ≡ answer_by (hits queries.now) (body_at n (B.bits source.old)) }
{
    let hit = match any_value(source, n, queries) {
        Ok(hit) => hit,
        Err(e) => return Err(e),
    };
    match finish(source) {
        Ok(()) => Ok(hit),
        Err(e) => Err(e),
    }
}

/// Whether one of the values of a set is among the queries, which are sorted; equal ones may stand
/// side by side. All of the set is read, and its faults are those of `decode`. It takes no memory.
pub fn meets(bytes: &[u8], queries: &[u64]) -> Result<bool, SetFault>
    requires { IsAscending 0 queries.now }
    ensures { result ≡ answer_by (hits queries.now) (set_at bytes.now) }
{
    match head(bytes) {
        Ok((n, rest)) => any_of_body(&mut WordReader::new(rest), n, queries),
        Err(e) => Err(e),
    }
}
