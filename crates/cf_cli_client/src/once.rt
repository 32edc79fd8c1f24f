//! A run of the client over any wires that ends once nothing is open, and what is written of it.
ghost use Rattle.std.specs.Prelude.{◌≡◌, ◌≤◌, length, is_some, IsSome, true, false};
ghost use Rattle.cf_run.specs.{names_in, AreNewWires};
ghost use Rattle.cf_answers.specs.{has_run, was_unbegun, CountsOut};
ghost use Rattle.cf_run_text.specs.{run_text};
ghost use Rattle.cf_cli_client.specs.Ends.{AreEndsAfter};
ghost use Rattle.cf_cli_client.specs.Leaving.{LeavesFiles, RunsOnce, RunsWires};
ghost use Rattle.cf_cli_client.specs.Telling.{IsTold};

use crate::recording::{keep_where, write_record};
use crate::telling::{ends_of, say};
use cf_answers::Status;
use cf_bytes::{Files, Refused, Sink};
use cf_headers::Tree;
use cf_input::Word;
use cf_match::Matcher;
use cf_place::PeerEnd;
use cf_run::{Outcome, sync_traced};
use cf_run_text::text_of;
use cf_scan::Watch;
use cf_wires::Wires;
use std::alloc::Global;

// Tells of a run: how each peer stands, then its record, where a file is named for it, and then its text.
#[tactic(auto, using(crate::proofs::Asking::unwritten))]
fn tell<F: Files, W: Wires, O: Sink>(
    alloc: Global,
    files: &mut F,
    wires: &W,
    log_file: &Option<Word>,
    outcome: Outcome,
    trace: bool,
    out: &mut O,
    ends: &mut Vec<PeerEnd>,
) -> Status
    requires keeps { is_some log_file.now ≡ true → W.keeps wires.now ≡ true }
    requires told { is_some log_file.now ≡ true → IsSome (W.told wires.now).log }
    ensures told { IsTold result (is_some log_file.now) outcome.end outcome.ends.items
        (run_text trace outcome.trace.items outcome.end outcome.history outcome.height outcome.tip)
        (O.written out.old) (O.written out.new) ends.old.items ends.new.items }
    ensures files { LeavesFiles F.files F.faults F.writes log_file.now (W.told wires.now).log result
        files.old files.new }
    ensures counts { CountsOut result (O.faults out.old) (O.faults out.new) }
{
    let Ok(stands) = ends_of(alloc, &outcome) else {
        return Status::NoMemory;
    };
    *ends = stands;
    let Ok(text) = text_of(alloc, &outcome, trace) else {
        return Status::NoMemory;
    };
    match write_record(alloc, files, wires, log_file) {
        Ok(()) => say(outcome.end, outcome.ends, &text, out),
        Err(Refused::NoMemory) => Status::NoMemory,
        Err(Refused::No(_)) => Status::FileFault,
    }
}

/// Follows the chains that the peers of these names show, and writes the trace where it is asked for, and the history
/// of the watched scripts and the tip once nothing is open. The wires are new, and not finished. Where a file is named
/// for the log, its session lines are written to it before any text. How each peer stands at the end of the run is put
/// into `ends`, in the order of their numbers.
#[tactic(auto, using(crate::proofs::Asking::unwritten))]
pub fn run_once<F: Files, W: Wires, M: Matcher + Drop, O: Sink>(
    alloc: Global,
    files: &mut F,
    wires: &mut W,
    log_file: &Option<Word>,
    names: &[String],
    watch: Watch,
    matcher: M,
    moment: i64,
    nonce: u64,
    turns: u32,
    trace: bool,
    out: &mut O,
    ends: &mut Vec<PeerEnd>,
) -> Status
    requires wires { AreNewWires (W.told wires.old) }
    requires few { length names.now ≤ 8 }
    ensures ran { RunsOnce result turns (is_some log_file.now) trace watch (names_in names.now)
        (O.written out.old) (O.written out.new) (W.told wires.old) (W.told wires.new) }
    ensures wires { RunsWires W.told W.keeps W.faults (record { moment = moment; number = nonce })
        (names_in names.now) (is_some log_file.now) result wires.old wires.new }
    ensures same { W.script wires.new ≡ W.script wires.old }
    ensures files { LeavesFiles F.files F.faults F.writes log_file.now (W.told wires.new).log result
        files.old files.new }
    ensures counts { CountsOut result (O.faults out.old) (O.faults out.new) }
    ensures unwritten { has_run result ≡ false → O.written out.new ≡ O.written out.old }
    ensures begun { was_unbegun result (is_some log_file.now) ≡ false }
    ensures ends { AreEndsAfter result (is_some log_file.now) (length (names_in names.now)) (W.told wires.new)
        ends.old.items ends.new.items }
{
    let Ok(store) = Tree::new(alloc) else {
        return Status::NoMemory;
    };
    keep_where(wires, log_file);
    match sync_traced(
        alloc, wires, names, watch, store, matcher, moment, nonce, turns, trace,
    ) {
        Ok(outcome) => tell(alloc, files, wires, log_file, outcome, trace, out, ends),
        Err(_) => Status::NoMemory,
    }
}
