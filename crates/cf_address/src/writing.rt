//! Writing addresses.
ghost use Rattle.std.specs.Prelude.{◌≡◌, ◌≤◌, ◌<◌, ◌^◌, ◌∷◌, ◌++◌, [], length, map, fold, bit_xor, replicate, IsTrue, IfOk, OnOk, string_bytes};
ghost use Rattle.std.specs.Str.{str_to_ascii_lowercase};
ghost use Rattle.cf_address.specs.Bits.{AreBelow};
ghost use Rattle.cf_address.specs.Alphabet.{letter_of};
ghost use Rattle.cf_address.specs.Checksum.{remainder_from, bech32_checksum, checksum_for};
ghost use Rattle.cf_address.specs.Witness.{IsProgram};
ghost use Rattle.cf_address.specs.Address.{is_prefix, AreValuesOf, IsAddressOf};
ghost use Rattle.cf_address.specs.Steps.{number_of};

use crate::alphabet::letter;
use crate::checksum::{checksum, constant, remainder};
use crate::fives::fives_of;
use crate::witness::Program;
use cf_bytes::NoMemory;
use std::alloc::Global;

/// The address of a program, in lower case, on the network whose addresses begin with this prefix
/// (`is_prefix`).
pub fn write(alloc: Global, prefix: &str, program: &Program) -> Result<String, NoMemory>
    requires { IsTrue (is_prefix prefix.now) }
    ensures address { IfOk result (λ text. IsAddressOf prefix.now program.now (string_bytes text)) }
    ensures lower { IfOk result (λ text. str_to_ascii_lowercase (string_bytes text) ≡ string_bytes text) }
{
    let values = values_of(alloc, prefix.as_bytes(), program)?;
    let mut text = String::from_str(alloc, prefix)?;
    text.push('1')?;
    put_letters(&mut text, &values)?;
    Ok(text)
}

fn put_letters(text: &mut String, values: &[u8]) -> Result<(), NoMemory>
    requires { AreBelow 32 values.now }
    ensures { OnOk result (string_bytes text.new ≡ string_bytes text.old ++ map letter_of values.now) }
{
    for value in values {
        put_letter(text, *value)?;
    }
    Ok(())
}

fn put_letter(text: &mut String, value: u8) -> Result<(), NoMemory>
    requires { value < 32 }
    ensures { OnOk result (string_bytes text.new ≡ string_bytes text.old ++ letter_of value ∷ []) }
{
    text.push(char::from(letter(value)))?;
    Ok(())
}

// The values of an address after its prefix.
fn values_of(alloc: Global, prefix: &[u8], program: &Program) -> Result<Vec<u8>, NoMemory>
    ensures values { IfOk result (λ v. AreValuesOf prefix.now program.now v.items) }
    ensures valid { IfOk result (λ _. IsProgram program.now) }
{
    let mut values = Vec::new(alloc);
    values.push(program.version())?;
    let fives = fives_of(alloc, program.as_slice())?;
    values.extend_from_slice(&fives)?;
    let now = remainder(checksum(prefix, &values), &[0; 6]);
    values.extend_from_slice(&six_values(now ^ constant(program.version())))?;
    Ok(values)
}

// The values of five bits that a number of thirty has.
fn six_values(number: u32) -> [u8; 6]
    requires { number < 2 ^ 30 }
    ensures same { number_of result ≡ number }
    ensures small { AreBelow 32 result }
    ensures six { length result ≡ 6 }
{
    [
        (number >> 25) as u8,
        (number >> 20 & 31) as u8,
        (number >> 15 & 31) as u8,
        (number >> 10 & 31) as u8,
        (number >> 5 & 31) as u8,
        (number & 31) as u8,
    ]
}
