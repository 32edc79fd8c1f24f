//! How a text is written, and the lines of which texts are made.
ghost use Rattle.std.specs.Prelude.{◌≡◌, false, IfOk, string_bytes};
ghost use Rattle.cf_answers.specs.Statuses.{has_run};
ghost use Rattle.cf_answers.specs.Writing.{CountsOut, IsOfText, IsWritten, named_line};
ghost use Rattle.cf_bytes.specs.{shown};

use crate::status::Status;
use cf_bytes::{Hash32, NoMemory, Sink, put_all, show};
use std::alloc::Global;

/// A line of a name and a value: the name, a space, the value, and LF.
pub fn line_of(alloc: Global, name: &str, value: &str) -> Result<String, NoMemory>
    ensures { IfOk result (λ text. string_bytes text ≡ named_line name.now value.now) }
{
    Ok(format!(in alloc; "{name} {value}\n")?)
}

/// A line of a name and a hash, as people read it: the name, a space, 64 lower-case hexadecimal digits, and LF.
pub fn hash_line(alloc: Global, name: &str, hash: &Hash32) -> Result<String, NoMemory>
    ensures { IfOk result (λ text. string_bytes text ≡ named_line name.now (shown hash.now.0)) }
{
    let value = show(alloc, hash)?;
    line_of(alloc, name, value.as_str())
}

/// Writes a whole text.
///
/// The answer is `Done` once all of it was written, and `OutFault` where the sink fails: a beginning of it was written
/// then, or nothing.
pub fn write<O: Sink>(text: &[u8], out: &mut O) -> Status
    ensures written { IsWritten result (O.written out.old) (O.written out.new) text.now }
    ensures unwritten { has_run result ≡ false → O.written out.new ≡ O.written out.old }
    ensures counts { CountsOut result (O.faults out.old) (O.faults out.new) }
    ensures ends { IsOfText result }
{
    match put_all(out, text) {
        Ok(()) => Status::Done,
        Err(_) => Status::OutFault,
    }
}
