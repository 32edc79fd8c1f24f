//! Bits in groups of another size.
ghost use Rattle.std.specs.Prelude.{◌≡◌, ◌++◌, ◌<◌, ◌≤◌, ◌^◌, ◌+◌, ◌-◌, ◌*◌, ◌/◌, ◌⊎◌, MatchBool, IfOk};
ghost use Rattle.cf_bytes.specs.{bits_of};
ghost use Rattle.cf_address.specs.Bits.{all_bits, AreBelow, AreFivesOf};
ghost use Rattle.cf_address.specs.Steps.{GivesBytes};

use crate::fault::AddressFault;
use cf_bytes::{NoMemory, Refused};
use std::alloc::Global;

// Whole numbers, and n bits more in a word.
#[derive(Drop)]
struct Regrouped {
    whole: Vec<u8>,
    word: u32,
    n: u32,
}

#[derive(Clone, Copy)]
struct Left {
    word: u32,
    n: u32,
}

// The bits of numbers of `from` bits, in numbers of `to` bits.
fn regroup(alloc: Global, numbers: &[u8], from: u32, to: u32) -> Result<Regrouped, NoMemory>
    requires from { from ≤ 8 }
    requires some { 0 < to }
    requires to { to ≤ 8 }
    requires small { AreBelow (2 ^ from) numbers.now }
    ensures bits { IfOk result (λ r. all_bits from numbers.now ≡ all_bits to r.whole.items ++ bits_of r.n r.word) }
    ensures few { IfOk result (λ r. r.n < to) }
    ensures word { IfOk result (λ r. r.word < 2 ^ r.n) }
    ensures whole { IfOk result (λ r. AreBelow (2 ^ to) r.whole.items) }
{
    let mut whole = Vec::new(alloc);
    let mut left = Left { word: 0, n: 0 };
    for number in numbers {
        let word = joined(left.word, left.n, u32::from(*number), from);
        left = flush(&mut whole, word, left.n + from, to)?;
    }
    Ok(Regrouped {
        whole,
        word: left.word,
        n: left.n,
    })
}

// The bits of a word, and then those of a number.
fn joined(word: u32, n: u32, number: u32, k: u32) -> u32
    requires few { n < 8 }
    requires word { word < 2 ^ n }
    requires some { k ≤ 8 }
    requires number { number < 2 ^ k }
    ensures bits { bits_of (n + k) result ≡ bits_of n word ++ bits_of k number }
    ensures fits { result < 2 ^ (n + k) }
{
    // Contracts alone look at `n`.
    word * (1 << k) + number
}

// Takes whole numbers from the front of a word, and answers what is left.
fn flush(out: &mut Vec<u8>, word: u32, n: u32, to: u32) -> Result<Left, NoMemory>
    requires fits { n ≤ 16 }
    requires word { word < 2 ^ n }
    requires some { 0 < to }
    requires to { to ≤ 8 }
    ensures bits { IfOk result
        (λ l. all_bits to out.old.items ++ bits_of n word ≡ all_bits to out.new.items ++ bits_of l.n l.word) }
    ensures few { IfOk result (λ l. l.n < to) }
    ensures left { IfOk result (λ l. l.word < 2 ^ l.n) }
    ensures whole { IfOk result (λ _. AreBelow (2 ^ to) out.old.items → AreBelow (2 ^ to) out.new.items) }
{
    let mut word = word;
    let mut n = n;
    while n >= to {
        n -= to;
        out.push(upper(word, n, to))?;
        word %= 1 << n;
    }
    Ok(Left { word, n })
}

// The bits of a word above the lower n.
fn upper(word: u32, n: u32, k: u32) -> u8
    requires few { n ≤ 16 }
    requires k { k ≤ 8 }
    requires word { word < 2 ^ (n + k) }
    ensures value { result ≡ word / 2 ^ n }
    ensures small { result < 2 ^ k }
{
    // Contracts alone look at `k`.
    (word >> n) as u8
}

// The bits of a word, filled up to five.
fn filled_up(word: u32, n: u32) -> u8
    requires few { n < 5 }
    requires word { word < 2 ^ n }
    ensures value { result ≡ word * 2 ^ (5 - n) }
    ensures small { result < 32 }
{
    (word * (1 << (5 - n))) as u8
}

// The bits of bytes in fives, the last one filled up with zeros.
pub(crate) fn fives_of(alloc: Global, bytes: &[u8]) -> Result<Vec<u8>, NoMemory>
    ensures { IfOk result (λ v. AreFivesOf bytes.now v.items) }
{
    let Regrouped { whole, word, n } = regroup(alloc, bytes, 8, 5)?;
    let mut fives = whole;
    if n > 0 {
        fives.push(filled_up(word, n))?;
    }
    Ok(fives)
}

// The bytes whose bits in fives these are: `Padding` where what is left over is more than four bits, or
// isn't zero.
pub(crate) fn bytes_of(alloc: Global, fives: &[u8]) -> Result<Vec<u8>, Refused<AddressFault>>
    requires { AreBelow 32 fives.now }
    ensures { GivesBytes fives.now result }
{
    let Regrouped { whole, word, n } = regroup(alloc, fives, 5, 8)?;
    if !is_padding(word, n) {
        return Err(Refused::No(AddressFault::Padding));
    }
    Ok(whole)
}

// Whether n bits are left over as they may be: at most four, which are zeros.
fn is_padding(word: u32, n: u32) -> bool
    ensures { MatchBool result ((n ≤ 4) × (word ≡ 0)) ((4 < n) ⊎ (0 < word)) }
{
    n <= 4 && word == 0
}
