//! A run of the client that follows over any wires, and what is written of it.
ghost use Rattle.std.specs.Prelude.{◌≡◌, ◌≤◌, ℕ, Bool, length, IfOk, None, is_some, IsSome, true, false};
ghost use Rattle.cf_run.specs.{names_in, AreNewWires, LeavesWires};
ghost use Rattle.cf_answers.specs.{has_run, was_refused, was_unbegun, CountsOut};
ghost use Rattle.cf_cli_client.specs.Ends.{AreEndsAfter, AreEndsOver};
ghost use Rattle.cf_cli_client.specs.Following.{with_trace};
ghost use Rattle.cf_cli_client.specs.Leaving.{CountsOn, LeavesFiles, RunsOn, RunsOnTape, RunsWires};
ghost use Rattle.cf_cli_client.specs.Telling.{IsAnswered, IsTold};
ghost use Rattle.cf_cli_client.specs.Theorem.{IsOfRun};

use crate::recording::{keep_where, write_record};
use crate::telling::{ends_of, say, status_of};
use cf_answers::Status;
use cf_bytes::{Files, NoMemory, Refused, Sink};
use cf_headers::{HeaderStore, Tree};
use cf_input::Word;
use cf_match::Matcher;
use cf_place::PeerEnd;
use cf_run::{KeptTexts, Live, Outcome, TextFail, follow_traced};
use cf_run_text::put_trace;
use cf_scan::Watch;
use cf_wires::Wires;
use std::alloc::Global;

// Follows the peers of these names over new wires, and puts the text of each moment at rest to `out` at once.
fn follow_live<W: Wires, H: HeaderStore + Drop, M: Matcher + Drop, O: Sink>(
    alloc: Global,
    wires: &mut W,
    names: &[String],
    watch: Watch,
    store: H,
    matcher: M,
    moment: i64,
    nonce: u64,
    turns: u32,
    out: &mut O,
    ends: &mut Vec<PeerEnd>,
) -> Status
    requires wires { AreNewWires (W.told wires.old) }
    requires few { length names.now ≤ 8 }
    requires empty { (q : ℕ) → H.chain store q ≡ None }
    ensures ran { (recorded : Bool) → RunsOn result turns recorded watch (names_in names.now) (O.written out.old)
        (O.written out.new) (O.faults out.old) (O.faults out.new) (W.told wires.old) (W.told wires.new) }
    ensures wires { LeavesWires W.told W.faults W.script W.keeps (record { moment = moment; number = nonce })
        (names_in names.now) turns wires.old wires.new }
    ensures counts { CountsOut result (O.faults out.old) (O.faults out.new) }
    ensures unrefused { was_refused result ≡ false }
    ensures ends { AreEndsOver result false (length (names_in names.now)) (W.told wires.new)
        ends.old.items ends.new.items }
{
    let mut texts = Live::new(out);
    match follow_traced(
        alloc, wires, names, watch, store, matcher, moment, nonce, turns, false, &mut texts,
    ) {
        Ok(outcome) => {
            let Ok(stands) = ends_of(alloc, &outcome) else {
                return Status::NoMemory;
            };
            *ends = stands;
            status_of(outcome.end, outcome.ends)
        }
        Err(TextFail::Failed) => Status::OutFault,
        Err(TextFail::NoMemory) => Status::NoMemory,
    }
}

// Writes the record of a run that was answered so, where a file is named for it, unless memory was wanting, and answers
// for both.
#[tactic(auto, using(crate::proofs::Asking::unwritten))]
fn record_run<F: Files, W: Wires>(
    alloc: Global,
    files: &mut F,
    wires: &W,
    log_file: &Option<Word>,
    status: Status,
) -> Status
    requires keeps { is_some log_file.now ≡ true → W.keeps wires.now ≡ true }
    requires told { is_some log_file.now ≡ true → IsSome (W.told wires.now).log }
    requires answers { IsOfRun status }
    requires unrefused { was_refused status ≡ false }
    ensures answered { IsAnswered result (is_some log_file.now) status }
    ensures files { LeavesFiles F.files F.faults F.writes log_file.now (W.told wires.now).log result
        files.old files.new }
{
    if let Status::NoMemory = status {
        return Status::NoMemory;
    }
    match write_record(alloc, files, wires, log_file) {
        Ok(()) => status,
        Err(Refused::NoMemory) => Status::NoMemory,
        Err(Refused::No(_)) => Status::FileFault,
    }
}

/// Follows the chains that the peers of these names show as they grow, and puts the history of the watched scripts and
/// the tip at each moment at rest, unless they are those that were put last. The wires are new, and not finished. Where
/// a file is named for the log, its session lines are written to it at the end, also where a text could not be put. How
/// each peer stands once the run is over is put into `ends`, in the order of their numbers.
#[tactic(auto, using(crate::proofs::Asking::unwritten))]
pub fn follow_and_record<F: Files, W: Wires, M: Matcher + Drop, O: Sink>(
    alloc: Global,
    files: &mut F,
    wires: &mut W,
    log_file: &Option<Word>,
    names: &[String],
    watch: Watch,
    matcher: M,
    moment: i64,
    nonce: u64,
    turns: u32,
    out: &mut O,
    ends: &mut Vec<PeerEnd>,
) -> Status
    requires wires { AreNewWires (W.told wires.old) }
    requires few { length names.now ≤ 8 }
    ensures ran { RunsOn result turns (is_some log_file.now) watch (names_in names.now) (O.written out.old)
        (O.written out.new) (O.faults out.old) (O.faults out.new) (W.told wires.old) (W.told wires.new) }
    ensures wires { RunsWires W.told W.keeps W.faults (record { moment = moment; number = nonce })
        (names_in names.now) (is_some log_file.now) result wires.old wires.new }
    ensures files { LeavesFiles F.files F.faults F.writes log_file.now (W.told wires.new).log result
        files.old files.new }
    ensures counts { CountsOn (is_some log_file.now) result (O.faults out.old) (O.faults out.new) }
    ensures begun { was_unbegun result (is_some log_file.now) ≡ false }
    ensures ends { AreEndsOver result (is_some log_file.now) (length (names_in names.now)) (W.told wires.new)
        ends.old.items ends.new.items }
{
    let Ok(store) = Tree::new(alloc) else {
        return Status::NoMemory;
    };
    keep_where(wires, log_file);
    let status = follow_live(
        alloc, wires, names, watch, store, matcher, moment, nonce, turns, out, ends,
    );
    record_run(alloc, files, wires, log_file, status)
}

// These bytes, behind the trace where it is asked for.
fn behind_trace(
    alloc: Global,
    trace: bool,
    outcome: &Outcome,
    bytes: &[u8],
) -> Result<Vec<u8>, NoMemory>
    ensures { IfOk result (λ text. text.items ≡ with_trace trace outcome.now.trace.items bytes.now) }
{
    let mut text = Vec::new(alloc);
    if trace {
        put_trace(alloc, &outcome.trace, &mut text)?;
    }
    text.extend_from_slice(bytes)?;
    Ok(text)
}

// Tells of a run over a tape: how each peer stands, and then its texts, behind the trace where it is asked for.
fn tell_texts<O: Sink>(
    alloc: Global,
    outcome: Outcome,
    trace: bool,
    texts: &[u8],
    out: &mut O,
    ends: &mut Vec<PeerEnd>,
) -> Status
    ensures told { IsTold result false outcome.end outcome.ends.items
        (with_trace trace outcome.trace.items texts.now)
        (O.written out.old) (O.written out.new) ends.old.items ends.new.items }
    ensures counts { CountsOut result (O.faults out.old) (O.faults out.new) }
{
    let Ok(stands) = ends_of(alloc, &outcome) else {
        return Status::NoMemory;
    };
    *ends = stands;
    let Ok(text) = behind_trace(alloc, trace, &outcome, texts) else {
        return Status::NoMemory;
    };
    say(outcome.end, outcome.ends, &text, out)
}

/// The same over wires that are a tape: the trace is written where it is asked for, and then the texts of all moments
/// at rest, once the run is over.
pub fn follow_on_tape<W: Wires, M: Matcher + Drop, O: Sink>(
    alloc: Global,
    wires: &mut W,
    names: &[String],
    watch: Watch,
    matcher: M,
    moment: i64,
    nonce: u64,
    turns: u32,
    trace: bool,
    out: &mut O,
    ends: &mut Vec<PeerEnd>,
) -> Status
    requires wires { AreNewWires (W.told wires.old) }
    requires few { length names.now ≤ 8 }
    ensures ran { RunsOnTape result turns trace watch (names_in names.now) (O.written out.old) (O.written out.new)
        (W.told wires.old) (W.told wires.new) }
    ensures wires { RunsWires W.told W.keeps W.faults (record { moment = moment; number = nonce })
        (names_in names.now) false result wires.old wires.new }
    ensures same { W.script wires.new ≡ W.script wires.old }
    ensures counts { CountsOut result (O.faults out.old) (O.faults out.new) }
    ensures unwritten { has_run result ≡ false → O.written out.new ≡ O.written out.old }
    ensures unrefused { was_refused result ≡ false }
    ensures ends { AreEndsAfter result false (length (names_in names.now)) (W.told wires.new)
        ends.old.items ends.new.items }
{
    let Ok(store) = Tree::new(alloc) else {
        return Status::NoMemory;
    };
    let mut texts = KeptTexts::new(alloc);
    match follow_traced(
        alloc, wires, names, watch, store, matcher, moment, nonce, turns, trace, &mut texts,
    ) {
        Ok(outcome) => tell_texts(alloc, outcome, trace, texts.bytes(), out, ends),
        Err(_) => Status::NoMemory,
    }
}
