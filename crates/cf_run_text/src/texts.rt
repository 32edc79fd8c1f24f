//! What the program writes of a run.
ghost use Rattle.std.specs.Prelude.{◌≡◌, ◌≤◌, ◌++◌, length, IfOk, OnOk};
ghost use Rattle.cf_run_text.specs.Texts.{cause_name as cause_of, command_name as command_of, trace_line, trace_text, end_text, run_text};

use cf_bytes::{Hash32, NoMemory};
use cf_peer::Cause;
use cf_run::{End, Outcome, TraceLine};
use cf_scan::History;
use std::alloc::Global;

// The name of a cause.
fn cause_name(cause: Cause) -> &'static [u8]
    ensures { result.now ≡ cause_of cause }
{
    match cause {
        Cause::BadFrame => b"BadFrame",
        Cause::Malformed => b"Malformed",
        Cause::NoFilters => b"NoFilters",
        Cause::Unlinked => b"Unlinked",
        Cause::InvalidHeader => b"InvalidHeader",
        Cause::TooHigh => b"TooHigh",
        Cause::WrongCount => b"WrongCount",
        Cause::WrongPrevious => b"WrongPrevious",
        Cause::OtherFilter => b"OtherFilter",
        Cause::BadBlock => b"BadBlock",
        Cause::SendFailed => b"SendFailed",
        Cause::Overdue => b"Overdue",
        Cause::Omits => b"Omits",
    }
}

// How many bytes of a command stand before its NULs.
fn command_len(command: &[u8]) -> usize
    ensures bound { result ≤ length command.now }
    ensures value { result ≡ length (command_of command.now) }
{
    command.iter().take_while(|b| **b != 0).count()
}

// A command without the NULs behind it.
fn command_name(command: &[u8; 12]) -> &[u8]
    ensures { result.now ≡ command_of command.now }
{
    &command[..command_len(command)]
}

// Writes a line of the trace at the end of a text.
fn put_line(alloc: Global, line: &TraceLine, out: &mut Vec<u8>) -> Result<(), NoMemory>
    ensures { OnOk result (out.new.items ≡ out.old.items ++ trace_line line.now) }
{
    match line {
        TraceLine::Sent(p, command) => {
            let number = format!(in alloc; "{}", p.0)?;
            out.extend_from_slice(b"> ")?;
            out.extend_from_slice(number.as_bytes())?;
            out.extend_from_slice(b" ")?;
            out.extend_from_slice(command_name(command))?;
        }
        TraceLine::Closed(p, cause) => {
            let number = format!(in alloc; "{}", p.0)?;
            out.extend_from_slice(b"x ")?;
            out.extend_from_slice(number.as_bytes())?;
            out.extend_from_slice(b" ")?;
            out.extend_from_slice(cause_name(*cause))?;
        }
    }
    out.push(b'\n')?;
    Ok(())
}

/// Writes the lines of a trace at the end of a text.
pub fn put_trace(alloc: Global, lines: &[TraceLine], out: &mut Vec<u8>) -> Result<(), NoMemory>
    ensures { OnOk result (out.new.items ≡ out.old.items ++ trace_text lines.now) }
{
    for line in lines {
        put_line(alloc, line, out)?;
    }
    Ok(())
}

// Writes the history and the tip of a run that is synced at the end of a text.
fn put_end(
    alloc: Global,
    end: End,
    history: &History,
    height: u32,
    tip: &Hash32,
    out: &mut Vec<u8>,
) -> Result<(), NoMemory>
    ensures { OnOk result (out.new.items ≡ out.old.items ++ end_text end history.now height tip.now) }
{
    match end {
        End::Synced => {
            let text = history.text(alloc, height, tip)?;
            out.extend_from_slice(text.as_bytes())?;
            Ok(())
        }
        End::NoPeers | End::Tired | End::Ended => Ok(()),
    }
}

/// The text of a run: its trace where it is asked for, and then, where it is synced, the history and the tip.
pub fn text_of(alloc: Global, outcome: &Outcome, trace: bool) -> Result<Vec<u8>, NoMemory>
    ensures { IfOk result (λ text. text.items ≡ run_text trace outcome.now.trace.items outcome.now.end
        outcome.now.history outcome.now.height outcome.now.tip) }
{
    let mut text = Vec::new(alloc);
    if trace {
        put_trace(alloc, &outcome.trace, &mut text)?;
    }
    put_end(
        alloc,
        outcome.end,
        &outcome.history,
        outcome.height,
        &outcome.tip,
        &mut text,
    )?;
    Ok(text)
}
