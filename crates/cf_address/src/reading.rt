//! Reading addresses.
ghost use Rattle.std.specs.Prelude.{◌≡◌, ◌==◌, [], IsTrue, MatchOption, Some, None};
ghost use Rattle.std.specs.List.{list_all, list_any};
ghost use Rattle.std.specs.Char.{is_ascii_graphic, is_ascii_lowercase, is_ascii_uppercase};
ghost use Rattle.cf_address.specs.Bits.{AreBelow};
ghost use Rattle.cf_address.specs.Address.{is_prefix as may_begin};
ghost use Rattle.cf_address.specs.Faults.{text_fault as fault_of, data_after as letters_after, is_mixed as has_both, Reads};
ghost use Rattle.cf_address.specs.Steps.{GivesValues, GivesProgram};

use crate::alphabet::value_of;
use crate::checksum::{checksum, constant};
use crate::fault::AddressFault;
use crate::fives::bytes_of;
use crate::witness::Program;
use cf_bytes::Refused;
use std::alloc::Global;

/// Whether addresses of a network may begin with this text: 1 to 10 lower-case letters of ASCII.
pub fn is_prefix(text: &str) -> bool
    ensures { result ≡ may_begin text.now }
{
    let bytes = text.as_bytes();
    !bytes.is_empty() && bytes.len() <= 10 && is_small(bytes)
}

fn is_small(text: &[u8]) -> bool
    ensures { result ≡ list_all is_ascii_lowercase text.now }
{
    text.iter().all(|b| b.is_ascii_lowercase())
}

/// The program that a text is an address of, on the network whose addresses begin with this prefix
/// (`is_prefix`).
///
/// # Errors
///
/// Where it is no address: the first of the faults that holds, in the order of `AddressFault`.
pub fn read(alloc: Global, prefix: &str, text: &str) -> Result<Program, Refused<AddressFault>>
    requires { IsTrue (may_begin prefix.now) }
    ensures { Reads prefix.now text.now result }
{
    let text = text.as_bytes();
    if let Some(fault) = text_fault(text) {
        return Err(Refused::No(fault));
    }
    let lower = text.to_ascii_lowercase(alloc)?;
    let Some(letters) = data_after(prefix.as_bytes(), &lower) else {
        return Err(Refused::No(AddressFault::Prefix))
    };
    let values = match values_of(alloc, letters) {
        Ok(values) => values,
        Err(e) => return Err(e),
    };
    program_of(alloc, prefix.as_bytes(), &values)
}

// What is wrong with a text, whatever it says.
fn text_fault(text: &[u8]) -> Option<AddressFault>
    ensures { result ≡ fault_of text.now }
{
    if text.len() > 90 {
        return Some(AddressFault::Long);
    }
    if !is_graphic(text) {
        return Some(AddressFault::Byte);
    }
    if is_mixed(text) {
        return Some(AddressFault::Mixed);
    }
    None
}

// Whether there are letters of both cases.
fn is_mixed(text: &[u8]) -> bool
    ensures { result ≡ has_both text.now }
{
    has_small(text) && has_capital(text)
}

fn has_small(text: &[u8]) -> bool
    ensures { result ≡ list_any is_ascii_lowercase text.now }
{
    text.iter().any(|b| b.is_ascii_lowercase())
}

fn has_capital(text: &[u8]) -> bool
    ensures { result ≡ list_any is_ascii_uppercase text.now }
{
    text.iter().any(|b| b.is_ascii_uppercase())
}

// Whether each byte may stand in an address.
fn is_graphic(text: &[u8]) -> bool
    ensures { result ≡ list_all is_ascii_graphic text.now }
{
    text.iter().all(|b| b.is_ascii_graphic())
}

// What stands after the prefix and the last `1`, where the prefix alone stands before it.
fn data_after<'a>(prefix: &[u8], text: &'a [u8]) -> Option<&'a [u8]>
    ensures { MatchOption result (letters_after prefix.now text.now ≡ None)
        (λ d. letters_after prefix.now text.now ≡ Some d.now) }
{
    let mut rest = text;
    for p in prefix {
        match rest {
            [] => return None,
            [c, more @ ..] => {
                if *c != *p {
                    return None;
                }
                rest = more;
            }
        }
    }
    after_one(rest)
}

// What stands after a `1` that is the first byte and the last of its kind.
fn after_one<'a>(text: &'a [u8]) -> Option<&'a [u8]>
    ensures { MatchOption result (letters_after [] text.now ≡ None) (λ d. letters_after [] text.now ≡ Some d.now) }
{
    match text {
        [] => None,
        [c, rest @ ..] => {
            if *c == b'1' && !has_one(rest) {
                Some(rest)
            } else {
                None
            }
        }
    }
}

fn has_one(text: &[u8]) -> bool
    ensures { result ≡ list_any (λ b. b == 49) text.now }
{
    text.iter().any(|b| *b == b'1')
}

// The values of letters, or `Digit`.
fn values_of(alloc: Global, letters: &[u8]) -> Result<Vec<u8>, Refused<AddressFault>>
    ensures { GivesValues letters.now result }
{
    let mut values = Vec::new(alloc);
    for letter in letters {
        let Some(value) = value_of(*letter) else {
            return Err(Refused::No(AddressFault::Digit))
        };
        values.push(value)?;
    }
    Ok(values)
}

// The program of the values after a prefix.
fn program_of(alloc: Global, prefix: &[u8], values: &[u8]) -> Result<Program, Refused<AddressFault>>
    requires { AreBelow 32 values.now }
    ensures { GivesProgram prefix.now values.now result }
{
    if values.len() < 7 || values[0] > 16 {
        return Err(Refused::No(AddressFault::Version));
    }
    let version = values[0];
    if checksum(prefix, values) != constant(version) {
        return Err(Refused::No(AddressFault::Checksum));
    }
    let bytes = match bytes_of(alloc, &values[1..values.len() - 6]) {
        Ok(bytes) => bytes,
        Err(e) => return Err(e),
    };
    match Program::new(version, bytes) {
        Some(program) => Ok(program),
        None => Err(Refused::No(AddressFault::Length)),
    }
}
