//! The record of a run: what passed its wires, as a session file.
ghost use Rattle.std.specs.Prelude.{◌≡◌, ◌≤◌, [], is_some, IsSome, false, true};
ghost use Rattle.cf_bytes.specs.{IsAtMostWritten};
ghost use Rattle.cf_wires.specs.{Tells};
ghost use Rattle.cf_cli_client.specs.Recording.{IsRecording, BlamesFiles};

use cf_bytes::{Failed, FileFail, Files, Refused};
use cf_input::Word;
use cf_wires::Wires;
use std::alloc::Global;

/// Makes new wires keep their log, where a file is named for it; else they go on as they did.
pub(crate) fn keep_where<W: Wires>(wires: &mut W, log_file: &Option<Word>)
    requires fresh { Tells [] (W.told wires.old) }
    ensures fresh { Tells [] (W.told wires.new) }
    ensures finished { (W.told wires.new).finished ≡ (W.told wires.old).finished }
    ensures keeps { is_some log_file.now ≡ true → W.keeps wires.new ≡ true }
    ensures unkept { is_some log_file.now ≡ false → W.keeps wires.new ≡ W.keeps wires.old }
    ensures told { is_some log_file.now ≡ true → IsSome (W.told wires.new).log }
    ensures later { W.faults wires.old ≤ W.faults wires.new }
    ensures same { W.script wires.new ≡ W.script wires.old }
{
    if log_file.is_some() {
        wires.keep_log();
    }
}

/// Writes the session lines of the log that is kept, where a file is named for them. Where that fails, or no memory is
/// found, no file has changed.
pub(crate) fn write_record<F: Files, W: Wires>(
    alloc: Global,
    files: &mut F,
    wires: &W,
    log_file: &Option<Word>,
) -> Result<(), Refused<Failed>>
    requires keeps { is_some log_file.now ≡ true → W.keeps wires.now ≡ true }
    requires told { is_some log_file.now ≡ true → IsSome (W.told wires.now).log }
    ensures files { IsRecording result log_file.now (W.told wires.now).log (F.files files.old) (F.files files.new) }
    ensures count { BlamesFiles result (F.faults files.old) (F.faults files.new) }
    ensures written { IsAtMostWritten F.writes log_file.now files.old files.new }
{
    let Some(name) = log_file else {
        return Ok(());
    };
    let Ok(text) = wires.session() else {
        return Err(Refused::NoMemory);
    };
    match files.write(alloc, name.as_str(), text.as_bytes()) {
        Ok(()) => Ok(()),
        Err(FileFail::NoMemory) => Err(Refused::NoMemory),
        Err(_) => Err(Refused::No(Failed)),
    }
}
