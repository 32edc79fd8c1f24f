//! Scripts of witness programs.
ghost use Rattle.std.specs.Prelude.{◌≡◌, ◌≤◌, ℕ, IfOk, MatchOption};
ghost use Rattle.cf_address.specs.Witness.{WitnessProgram, IsProgram, script_of, opcode_of};

use crate::witness::Program;
use cf_bytes::NoMemory;
use std::alloc::Global;

/// The script that a program is: 00 for version 0 and 0x50 more than the version for the others, the
/// number of its bytes, and these.
pub fn script(alloc: Global, program: &Program) -> Result<Vec<u8>, NoMemory>
    ensures { IfOk result (λ s. s.items ≡ script_of program.now) }
{
    let bytes = program.as_slice();
    let mut out = Vec::new(alloc);
    out.push(opcode(program.version()))?;
    out.push(bytes.len() as u8)?;
    out.extend_from_slice(bytes)?;
    Ok(out)
}

/// The program whose script this is, or `None` exactly where there is none.
pub fn program(alloc: Global, script: &[u8]) -> Result<Option<Program>, NoMemory>
    ensures { IfOk result (λ o. MatchOption o ((p : WitnessProgram) → IsProgram p → script.now ≡ script_of p → ⊥)
        (λ p. IsProgram p × (script.now ≡ script_of p))) }
{
    let [first, length, bytes @ ..] = script else {
        return Ok(None)
    };
    let Some(version) = version_of(*first) else {
        return Ok(None)
    };
    if usize::from(*length) != bytes.len() {
        return Ok(None);
    }
    let bytes = Vec::from_slice(alloc, bytes)?;
    Ok(Program::new(version, bytes))
}

// The opcode that pushes a version.
fn opcode(version: u8) -> u8
    requires { version ≤ 16 }
    ensures { result ≡ opcode_of version }
{
    if version == 0 { 0 } else { 0x50 + version }
}

// The version that an opcode pushes.
fn version_of(first: u8) -> Option<u8>
    ensures { MatchOption result ((v : ℕ) → v ≤ 16 → first ≡ opcode_of v → ⊥) (λ v. (v ≤ 16) × (first ≡ opcode_of v)) }
{
    match first {
        0 => Some(0),
        0x51..=0x60 => Some(first - 0x50),
        _ => None,
    }
}
