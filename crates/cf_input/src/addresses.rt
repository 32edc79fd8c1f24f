//! Addresses of regtest, and scripts in hexadecimal.
ghost use Rattle.std.specs.Prelude.{◌≡◌, take, true, false};
ghost use Rattle.cf_input.specs.Addresses.{is_address_text as is_to_be_address, script_at, fault_of_bytes as bytes_fault, GivesForm};
ghost use Rattle.cf_input.specs.Lines.{GivesRead};

use crate::lines::read_hex;
use cf_address::{AddressFault, program, read, script, write};
use cf_bytes::{NoMemory, Refused};
use std::alloc::Global;
use thiserror::Error;

/// Why a text is neither an address of regtest nor the script of one in hexadecimal.
#[derive(Clone, Copy, Debug, PartialEq, Eq, Error)]
pub enum AddressCause {
    /// It begins as an address, and is none.
    #[error("{0}")]
    Address(AddressFault),
    /// It begins otherwise, and isn't hexadecimal.
    #[error("it is neither an address of regtest nor a script in hexadecimal")]
    NotHex,
    /// It is a script in hexadecimal, which has no address.
    #[error("the script has no address: it is that of no witness program")]
    NoProgram,
}

// What the addresses of regtest begin with.
const REGTEST: &str = "bcrt";

// The first five bytes of a text, or all where it has fewer.
fn front_of(text: &[u8]) -> &[u8]
    ensures { result.now ≡ take 5 text.now }
{
    if text.len() < 5 { text } else { &text[..5] }
}

/// Whether a text is to be an address: it begins with `bcrt1` or `BCRT1`.
pub(crate) fn is_address_text(text: &[u8]) -> bool
    ensures { result ≡ is_to_be_address text.now }
{
    let front = front_of(text);
    front == b"bcrt1".as_slice() || front == b"BCRT1".as_slice()
}

/// The script of an address of regtest, or the first fault in it.
pub(crate) fn read_address(alloc: Global, text: &str) -> Result<Vec<u8>, Refused<AddressFault>>
    ensures { GivesRead (λ v. v.items) (script_at text.now) result }
{
    match read(alloc, REGTEST, text) {
        Ok(program) => match script(alloc, &program) {
            Ok(bytes) => Ok(bytes),
            Err(NoMemory) => Err(Refused::NoMemory),
        },
        Err(e) => Err(e),
    }
}

/// The same for bytes, which may be no text.
pub(crate) fn read_address_bytes(
    alloc: Global,
    line: &[u8],
) -> Result<Vec<u8>, Refused<AddressFault>>
    ensures { GivesRead (λ v. v.items) (script_at line.now) result }
{
    match str::from_utf8(line) {
        Ok(text) => read_address(alloc, text),
        Err(_) => Err(Refused::No(fault_of_bytes(line.len()))),
    }
}

// The fault of bytes that are no text: there are too many, or one can't stand in an address.
fn fault_of_bytes(count: usize) -> AddressFault
    ensures { result ≡ bytes_fault count }
{
    if count > 90 {
        AddressFault::Long
    } else {
        AddressFault::Byte
    }
}

// The script of an address, in hexadecimal.
fn script_text(alloc: Global, text: &str) -> Result<String, Refused<AddressCause>>
    requires { is_to_be_address text.now ≡ true }
    ensures { GivesForm text.now result }
{
    match read_address(alloc, text) {
        Ok(bytes) => Ok(hex::encode(alloc, &bytes)?),
        Err(Refused::No(fault)) => Err(Refused::No(AddressCause::Address(fault))),
        Err(Refused::NoMemory) => Err(Refused::NoMemory),
    }
}

// The address of a script in hexadecimal.
fn address_text(alloc: Global, text: &str) -> Result<String, Refused<AddressCause>>
    requires { is_to_be_address text.now ≡ false }
    ensures { GivesForm text.now result }
{
    let Some(bytes) = read_hex(alloc, text.as_bytes())? else {
        return Err(Refused::No(AddressCause::NotHex));
    };
    match program(alloc, &bytes)? {
        Some(program) => Ok(write(alloc, REGTEST, &program)?),
        None => Err(Refused::No(AddressCause::NoProgram)),
    }
}

/// The script of an address of regtest, in hexadecimal; or the address of a script in hexadecimal. A text that begins
/// with `bcrt1` or `BCRT1` is to be an address.
///
/// # Errors
///
/// `Address` with the first fault of such a text; of another one `NotHex`, or else `NoProgram`.
pub fn other_form(alloc: Global, text: &str) -> Result<String, Refused<AddressCause>>
    ensures { GivesForm text.now result }
{
    if is_address_text(text.as_bytes()) {
        script_text(alloc, text)
    } else {
        address_text(alloc, text)
    }
}
