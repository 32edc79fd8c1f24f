//! Addresses and scripts, told for one another.
ghost use Rattle.std.specs.Prelude.{◌≡◌, ◌++◌, ◌∷◌, [], IfOk, false, string_bytes};
ghost use Rattle.cf_answers.specs.{has_run, CountsOut};
ghost use Rattle.cf_offline.specs.Reading.{IsAddressed};
ghost use Rattle.cf_loading.specs.{IsJudged, no_file};

use cf_answers::{Status, write};
use cf_bytes::{NoMemory, Refused, Sink};
use cf_input::other_form;
use std::alloc::Global;

// A line of this text.
fn line_of(alloc: Global, text: &str) -> Result<String, NoMemory>
    ensures { IfOk result (λ line. string_bytes line ≡ text.now ++ 10 ∷ []) }
{
    Ok(format!(in alloc; "{text}\n")?)
}

/// Writes the script of an address of regtest, in hexadecimal; or the address of a script in hexadecimal.
///
/// The answer is `Done` where the whole line was written, and `NotAddress` with the cause where the text is neither;
/// `OutFault` comes where the sink fails.
pub fn address<O: Sink>(alloc: Global, text: &str, out: &mut O) -> Status
    ensures judged { IsJudged no_file result }
    ensures addressed { IsAddressed result text.now (O.written out.old) (O.written out.new) }
    ensures unwritten { has_run result ≡ false → O.written out.new ≡ O.written out.old }
    ensures counts { CountsOut result (O.faults out.old) (O.faults out.new) }
{
    let form = match other_form(alloc, text) {
        Ok(form) => form,
        Err(Refused::No(cause)) => return Status::NotAddress { cause },
        Err(Refused::NoMemory) => return Status::NoMemory,
    };
    match line_of(alloc, form.as_str()) {
        Ok(line) => write(line.as_bytes(), out),
        Err(NoMemory) => Status::NoMemory,
    }
}
