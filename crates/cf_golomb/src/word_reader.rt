//! Bits from a word that is filled by bytes.
ghost use Rattle.std.specs.Prelude.{◌≡◌, ◌+◌, ◌*◌, ◌<◌, ◌≤◌, ◌^◌, ◌-◌, ◌++◌, ◌∷◌, [], MatchOption, Some, None, length};
ghost use Rattle.cf_bytes.specs.{bits_of};
ghost use Rattle.cf_golomb.specs.Bits.{unpack, number_at};

use crate::source::BitSource;
use std::marker::Model;

/// n bits in a word, and bytes that follow.
#[derive(Drop)]
pub(crate) struct WordReader<'a> {
    rest: &'a [u8],
    word: u64,
    n: u32,
}

impl<'a> Model for WordReader<'a> {
    ghost use Rattle.std.specs.Prelude.{List, Bool, ◌++◌, ◌≤◌, ◌<◌, ◌^◌};
    ghost use Rattle.cf_bytes.specs.{bits_of};
    ghost use Rattle.cf_golomb.specs.Bits.{unpack};

    ghost Value = { List Bool };

    ghost view = { λ s. bits_of s.n s.word ++ unpack s.rest.now };

    ghost invariant = { λ s. (s.n ≤ 40) × (s.word < 2 ^ s.n) };
}

impl<'a> WordReader<'a> {
    #[tactic(auto, unfolding(cf_bytes::specs::Bits::bits_of))]
    pub(crate) fn new(bytes: &'a [u8]) -> WordReader<'a>
        ensures { result ≡ unpack bytes.now }
    {
        WordReader {
            rest: bytes,
            word: 0,
            n: 0,
        }
    }
}

impl BitSource for WordReader<'_> {
    ghost bits = { λ s. s };

    fn bit(&mut self) -> Option<bool> {
        let filled = fill(self.rest, self.word, self.n, 1);
        self.rest = filled.rest;
        self.word = filled.word;
        self.n = filled.n;
        if filled.n == 0 {
            return None;
        }
        let cut = cut_word(filled.word, filled.n, 1);
        self.word = cut.low;
        self.n = filled.n - 1;
        Some(cut.high == 1)
    }

    fn loose(&self) -> u32 {
        self.n % 8
    }

    fn number(&mut self, k: u32) -> Option<u64> {
        let filled = fill(self.rest, self.word, self.n, k);
        self.rest = filled.rest;
        self.word = filled.word;
        self.n = filled.n;
        if filled.n < k {
            return None;
        }
        let cut = cut_word(filled.word, filled.n, k);
        self.word = cut.low;
        self.n = filled.n - k;
        Some(cut.high)
    }
}

#[derive(Clone, Copy)]
pub(crate) struct Parts {
    pub(crate) high: u64,
    pub(crate) low: u64,
}

// The upper k of n bits, and the lower ones.
pub(crate) fn cut_word(word: u64, n: u32, k: u32) -> Parts
    requires fits { n ≤ 40 }
    requires word { word < 2 ^ n }
    requires within { k ≤ n }
    ensures bits { bits_of n word ≡ bits_of k result.high ++ bits_of (n - k) result.low }
    ensures high { result.high < 2 ^ k }
    ensures low { result.low < 2 ^ (n - k) }
{
    let left = n - k;
    let high = word >> left;
    let low = word % (1 << left);
    Parts { high, low }
}

#[derive(Clone, Copy)]
struct Filled<'a> {
    rest: &'a [u8],
    word: u64,
    n: u32,
}

// Takes bytes into the word until it has so many bits.
fn fill<'a>(rest: &'a [u8], word: u64, n: u32, need: u32) -> Filled<'a>
    requires fits { n ≤ 40 }
    requires word { word < 2 ^ n }
    requires need { need ≤ 32 }
    ensures bits { bits_of n word ++ unpack rest.now ≡ bits_of result.n result.word ++ unpack result.rest.now }
    ensures fits { result.n ≤ 40 }
    ensures word { result.word < 2 ^ result.n }
    ensures full { 0 < length result.rest.now → need ≤ result.n }
{
    let mut rest = rest;
    let mut word = word;
    let mut n = n;
    while n < need {
        match rest.split_first() {
            None => break,
            Some((b, more)) => {
                word = push_byte(word, n, *b);
                n += 8;
                rest = more;
            }
        }
    }
    Filled { rest, word, n }
}

fn push_byte(word: u64, n: u32, b: u8) -> u64
    requires fits { n ≤ 56 }
    requires word { word < 2 ^ n }
    ensures bits { bits_of (n + 8) result ≡ bits_of n word ++ bits_of 8 b }
    ensures fits { result < 2 ^ (n + 8) }
{
    // Contracts alone look at `n`.
    word * 256 + u64::from(b)
}
