//! Files that are read line by line.
ghost use Rattle.std.specs.Prelude.{◌≡◌, ◌==◌, ◌<◌, length, IfOk, option_map, position};
ghost use Rattle.std.specs.List.{before_first, after_first};
ghost use Rattle.cf_input.specs.Lines.{bytes_of_hex};

use cf_bytes::NoMemory;
use hex::FromHexError;
use std::alloc::Global;

// The place of the first of these bytes.
fn place_of(bytes: &[u8], at: u8) -> Option<usize>
    ensures place { result ≡ position (λ b. b == at) bytes.now }
{
    bytes.iter().position(|b| *b == at)
}

/// What stands before the first of these bytes, and what stands after it.
#[tactic(auto, using(std::proofs::lemmas::List::take_rest, std::proofs::lemmas::Grind::common_steps))]
pub fn cut_at(bytes: &[u8], at: u8) -> (&[u8], &[u8])
    ensures front { result.0.now ≡ before_first (λ b. b == at) bytes.now }
    ensures rest { result.1.now ≡ after_first (λ b. b == at) bytes.now }
    ensures shorter { 0 < length bytes.now → length result.1.now < length bytes.now }
{
    match place_of(bytes, at) {
        Some(i) => (&bytes[..i], &bytes[i + 1..]),
        None => (bytes, &bytes[bytes.len()..]),
    }
}

/// The bytes that a text spells in hexadecimal, or `None` where it isn't pairs of digits.
pub fn read_hex(alloc: Global, text: &[u8]) -> Result<Option<Vec<u8>>, NoMemory>
    ensures { IfOk result (λ found. option_map (λ v. v.items) found ≡ bytes_of_hex text.now) }
{
    match hex::decode(alloc, text) {
        Ok(bytes) => Ok(Some(bytes)),
        Err(FromHexError::OutOfMemory) => Err(NoMemory),
        Err(_) => Ok(None),
    }
}
