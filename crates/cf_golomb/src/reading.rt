//! Reading values from bits.
ghost use Rattle.std.specs.Prelude.{◌≡◌, ◌++◌, ◌<◌, ◌≤◌, ◌^◌, ◌*◌, MatchOption, MatchResult, IfOk, Some, None, Ok, Err};
ghost use Rattle.cf_golomb.specs.Code.{value_at, values_at, end_at, head_at, body_at, set_at, spelling, HasSpelling};
ghost use Rattle.cf_bytes.specs.{compact, compact_at};
ghost use Rattle.cf_golomb.specs.Meets.{count_of};
ghost use Rattle.cf_golomb.specs.Answers.{unary_from, Gives, GivesBy, GivesAll, Ends};

use crate::fault::SetFault;
use crate::source::BitSource;
use crate::word_reader::WordReader;
use cf_bytes::{Cut, CutFault, Refused};
use std::alloc::Global;

// Ones at the front, counted up to 2 ^ 27.
fn unary<B: BitSource>(source: &mut B) -> Option<u64>
    ensures exact { MatchOption result (unary_from 0 (B.bits source.old) ≡ None)
        (λ q. unary_from 0 (B.bits source.old) ≡ Some (q, B.bits source.new)) }
    ensures small { MatchOption result (Unit {0}) (λ q. q ≤ 134217728) }
{
    let mut q = 0u64;
    while let Some(one) = source.bit() {
        if !one {
            return Some(q);
        }
        q = (q + 1).min(134_217_728);
    }
    None
}

// The next value, below the limit.
pub(crate) fn value<B: BitSource>(source: &mut B, limit: u64, before: u64) -> Result<u64, SetFault>
    requires limit { limit ≤ 2 ^ 45 }
    requires before { before ≤ 2 ^ 45 }
    ensures exact { Gives (value_at limit before (B.bits source.old)) result (B.bits source.new) }
    ensures small { MatchResult result (λ v. v < limit) (λ _. Unit {0}) }
{
    let Some(q) = unary(source) else {
        return Err(SetFault::Ends)
    };
    let Some(low) = source.number(19) else {
        return Err(SetFault::Ends)
    };
    let v = before + q * 524_288 + low;
    if v >= limit {
        Err(SetFault::Over)
    } else {
        Ok(v)
    }
}

// n values.
fn values<B: BitSource>(
    alloc: Global,
    source: &mut B,
    n: u64,
) -> Result<Vec<u64>, Refused<SetFault>>
    requires { n ≤ 33554432 }
    ensures { GivesBy (λ v. v.items) (values_at (n * 784931) n 0 (B.bits source.old)) result (B.bits source.new) }
{
    let limit = n * 784_931;
    let mut out = Vec::new(alloc);
    let mut before = 0;
    for _i in 0..n {
        let v = match value(source, limit, before) {
            Ok(v) => v,
            Err(e) => return Err(Refused::No(e)),
        };
        out.push(v)?;
        before = v;
    }
    Ok(out)
}

// Zeros to the end of the byte, and nothing after it.
pub(crate) fn finish<B: BitSource>(source: &mut B) -> Result<(), SetFault>
    ensures { Ends (end_at (B.bits source.old)) result }
{
    let loose = source.loose();
    match source.number(loose) {
        None => Ok(()),
        Some(pad) => {
            if pad != 0 {
                return Err(SetFault::Padding);
            }
            match source.bit() {
                None => Ok(()),
                Some(_) => Err(SetFault::Excess),
            }
        }
    }
}

// n values, which are all.
fn body<B: BitSource>(alloc: Global, source: &mut B, n: u64) -> Result<Vec<u64>, Refused<SetFault>>
    requires { n ≤ 33554432 }
    ensures { GivesAll (λ v. v.items) (body_at n (B.bits source.old)) result }
{
    let out = match values(alloc, source, n) {
        Ok(out) => out,
        Err(e) => return Err(e),
    };
    match finish(source) {
        Ok(()) => Ok(out),
        Err(e) => Err(Refused::No(e)),
    }
}

// The number of values, and the bytes of their codes.
#[tactic(auto, unfolding(crate::specs::Code::head_at))]
pub(crate) fn head<'a>(bytes: &'a [u8]) -> Result<(u64, &'a [u8]), SetFault>
    ensures exact { MatchResult result (λ x. head_at bytes.now ≡ Ok (x.0, x.1.now)) (λ e. head_at bytes.now ≡ Err e) }
    ensures few { IfOk result (λ x. x.0 ≤ 33554432) }
    ensures found { IfOk result (λ x. bytes.now ≡ compact x.0 ++ x.1.now) }
{
    let mut cut = Cut::new(bytes);
    let n = match cut.compact() {
        Ok(n) => n,
        Err(fault) => return Err(SetFault::Cut(fault)),
    };
    let rest = cut.rest();
    if (rest.len() as u64) * 2 < n * 5 {
        return Err(SetFault::Ends);
    }
    Ok((n, rest))
}

/// How many values a set has, by the number at its front.
pub fn count(bytes: &[u8]) -> Result<u64, CutFault>
    ensures { result ≡ count_of (compact_at bytes.now) }
{
    Cut::new(bytes).compact()
}

/// The values of a set, sorted, or the first fault.
///
/// # Errors
///
/// In the order of reading: the fault of the number of values; `Ends` where 20 bits for each value
/// aren't there; for each value `Ends` where its code isn't whole and `Over` where it is too large;
/// `Padding` and then `Excess` after the last.
pub fn decode(alloc: Global, bytes: &[u8]) -> Result<Vec<u64>, Refused<SetFault>>
    ensures exact { GivesAll (λ v. v.items) (set_at bytes.now) result }
    ensures found { IfOk result (λ v. HasSpelling v.items × (bytes.now ≡ spelling v.items)) }
{
    match head(bytes) {
        Ok((n, rest)) => body(alloc, &mut WordReader::new(rest), n),
        Err(e) => Err(Refused::No(e)),
    }
}
