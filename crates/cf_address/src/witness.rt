//! Witness programs.
ghost use Rattle.std.specs.Prelude.{◌≡◌, ◌≤◌, ◌<◌, MatchOption, false, length};
ghost use Rattle.cf_address.specs.Witness.{WitnessProgram, IsProgram, is_length as may_have};

use std::marker::Model;

/// A witness program: a version from 0 to 16, and 2 to 40 bytes, of which version 0 has only 20 or 32.
#[derive(Drop, Debug)]
pub struct Program {
    version: u8,
    bytes: Vec<u8>,
}

impl Model for Program {
    ghost use Rattle.cf_address.specs.Witness.{WitnessProgram, IsProgram};

    ghost Value = { WitnessProgram };

    ghost view = { λ p. record { version = p.version; bytes = p.bytes.items } };

    ghost invariant = { λ p. IsProgram (record { version = p.version; bytes = p.bytes.items }) };
}

impl Program {
    // The program of a version and bytes, where they make one.
    pub(crate) fn new(version: u8, bytes: Vec<u8>) -> Option<Program>
        requires { version ≤ 16 }
        ensures value { MatchOption result (Unit {0}) (λ p. p ≡ record { version = version; bytes = bytes.items }) }
        ensures valid { MatchOption result (Unit {0}) IsProgram }
        ensures sized { MatchOption result (may_have version (length bytes.items) ≡ false) (λ p. Unit {0}) }
    {
        if is_length(version, bytes.len()) {
            Some(Program { version, bytes })
        } else {
            None
        }
    }

    /// The version.
    pub fn version(&self) -> u8
        ensures { result ≡ self.now.version }
    {
        self.version
    }

    /// The bytes.
    pub fn as_slice(&self) -> &[u8]
        ensures value { result.now ≡ self.now.bytes }
        ensures valid { IsProgram self.now }
    {
        self.bytes.as_slice()
    }
}

// Whether a program of this version may have so many bytes.
fn is_length(version: u8, n: usize) -> bool
    ensures { result ≡ may_have version n }
{
    if version == 0 {
        n == 20 || n == 32
    } else {
        2 <= n && n <= 40
    }
}
