//! Writing values as bits.
ghost use Rattle.std.specs.Prelude.{◌≡◌, ◌++◌, ◌+◌, ◌-◌, ◌*◌, ◌%◌, ◌≤◌, ◌<◌, ◌^◌, [], OnOk, IfOk, length};
ghost use Rattle.cf_bytes.specs.{bits_of};
ghost use Rattle.cf_golomb.specs.Bits.{unpack, pack};
ghost use Rattle.cf_golomb.specs.Code.{code, codes, spelling, IsSet, HasSpelling};

use crate::word_reader::cut_word;
use cf_bytes::{NoMemory, put_compact};
use std::alloc::Global;
use std::marker::Model;

/// Whole bytes, and fewer than eight bits more.
#[derive(Drop)]
struct Writer {
    out: Vec<u8>,
    word: u64,
    n: u32,
}

impl Model for Writer {
    ghost use Rattle.std.specs.Prelude.{List, Bool, ◌++◌, ◌<◌, ◌^◌};
    ghost use Rattle.cf_bytes.specs.{bits_of};
    ghost use Rattle.cf_golomb.specs.Bits.{unpack};

    ghost Value = { List Bool };

    ghost view = { λ s. unpack s.out.items ++ bits_of s.n s.word };

    ghost invariant = { λ s. (s.n < 8) × (s.word < 2 ^ s.n) };
}

impl Writer {
    #[tactic(auto, unfolding(cf_bytes::specs::Bits::bits_of, crate::specs::Bits::unpack))]
    fn new(alloc: Global) -> Writer
        ensures { result ≡ [] }
    {
        Writer {
            out: Vec::new(alloc),
            word: 0,
            n: 0,
        }
    }

    fn put(&mut self, value: u64, k: u32) -> Result<(), NoMemory>
        requires some { k ≤ 32 }
        requires value { value < 2 ^ k }
        ensures { OnOk result (self.new ≡ self.old ++ bits_of k value) }
    {
        let word = joined(self.word, self.n, value, k);
        let n = self.n + k;
        self.word = flush(&mut self.out, word, n)?;
        self.n = n % 8;
        Ok(())
    }

    // The bytes, the last one filled up with zeros.
    fn finish(self) -> Result<Vec<u8>, NoMemory>
        ensures { IfOk result (λ b. b.items ≡ pack self) }
    {
        let Writer { out, word, n } = self;
        filled_up(out, word, n)
    }
}

fn filled_up(out: Vec<u8>, word: u64, n: u32) -> Result<Vec<u8>, NoMemory>
    requires few { n < 8 }
    requires word { word < 2 ^ n }
    ensures { IfOk result (λ b. b.items ≡ pack (unpack out.items ++ bits_of n word)) }
{
    let mut out = out;
    if n == 0 {
        return Ok(out);
    }
    out.push(padded(word, n))?;
    Ok(out)
}

fn padded(word: u64, n: u32) -> u8
    requires some { 0 < n }
    requires few { n < 8 }
    requires word { word < 2 ^ n }
    ensures { result ≡ word * 2 ^ (8 - n) }
{
    (word * (1 << (8 - n))) as u8
}

// The bits of a word, and then those of another.
fn joined(word: u64, n: u32, value: u64, k: u32) -> u64
    requires few { n < 8 }
    requires word { word < 2 ^ n }
    requires some { k ≤ 32 }
    requires value { value < 2 ^ k }
    ensures bits { bits_of (n + k) result ≡ bits_of n word ++ bits_of k value }
    ensures fits { result < 2 ^ (n + k) }
{
    // Contracts alone look at `n`.
    word * (1 << k) + value
}

// Takes whole bytes from the front of a word, and answers what is left.
fn flush(out: &mut Vec<u8>, word: u64, n: u32) -> Result<u64, NoMemory>
    requires fits { n ≤ 40 }
    requires word { word < 2 ^ n }
    ensures bits { IfOk result
        (λ w. unpack out.old.items ++ bits_of n word ≡ unpack out.new.items ++ bits_of (n % 8) w) }
    ensures small { IfOk result (λ w. w < 2 ^ (n % 8)) }
{
    let mut word = word;
    let mut n = n;
    while n >= 8 {
        let parts = cut_word(word, n, 8);
        out.push(parts.high as u8)?;
        word = parts.low;
        n -= 8;
    }
    Ok(word)
}

fn put_code(writer: &mut Writer, d: u64) -> Result<(), NoMemory>
    ensures { OnOk result (writer.new ≡ writer.old ++ code d) }
{
    for _i in 0..(d / 524_288) {
        writer.put(1, 1)?;
    }
    writer.put(0, 1)?;
    writer.put(d % 524_288, 19)?;
    Ok(())
}

fn put_codes(writer: &mut Writer, values: &[u64], limit: u64) -> Result<(), NoMemory>
    requires { IsSet 0 limit values.now }
    ensures { OnOk result (writer.new ≡ writer.old ++ codes 0 values.now) }
{
    // Contracts alone look at `limit`.
    let mut before = 0;
    for v in values {
        put_code(writer, *v - before)?;
        before = *v;
    }
    Ok(())
}

/// The code of a sorted list of at most 33,554,432 values, each below their number times 784,931: the
/// number as CompactSize; for each value its difference d to the one before, `d >> 19` ones, a zero and
/// the low 19 bits of d, the most significant first; zeros up to a whole byte.
#[tactic(auto, unfolding(crate::specs::Code::spelling))]
pub fn encode(alloc: Global, values: &[u64]) -> Result<Vec<u8>, NoMemory>
    requires { HasSpelling values.now }
    ensures { IfOk result (λ b. b.items ≡ spelling values.now) }
{
    let mut writer = Writer::new(alloc);
    put_codes(&mut writer, values, values.len() as u64 * 784_931)?;
    let body = writer.finish()?;
    let mut out = Vec::new(alloc);
    put_compact(&mut out, values.len() as u64)?;
    out.extend_from_slice(&body)?;
    Ok(out)
}
