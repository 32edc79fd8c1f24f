//! Counts of what a run has done.
ghost use Rattle.std.specs.Prelude.{◌≡◌, ◌==◌, length, IfOk};
ghost use Rattle.std.specs.List.{count_by};
ghost use Rattle.cf_demo.specs.Demo.{is_fetch_line as is_fetch_at, is_close_line as is_close_at};

use cf_bytes::{Hash32, NoMemory};
use cf_run::TraceLine;
use cf_scan::History;
use std::alloc::Global;

/// The command of the message that asks for blocks (Bitcoin developer reference, "GetData").
const GETDATA: [u8; 12] = *b"getdata\0\0\0\0\0";

// Whether a line tells of a message that asks for a block.
fn is_fetch_line(line: &TraceLine) -> bool
    ensures { result ≡ is_fetch_at line.now }
{
    match line {
        TraceLine::Sent(_, command) => *command == GETDATA,
        TraceLine::Closed(..) => false,
    }
}

// Whether a line tells of a peer that was closed.
fn is_close_line(line: &TraceLine) -> bool
    ensures { result ≡ is_close_at line.now }
{
    matches!(line, TraceLine::Closed(..))
}

/// How many lines tell of a message that asks for a block.
pub(crate) fn count_fetches(lines: &[TraceLine]) -> usize
    ensures { result ≡ count_by is_fetch_at lines.now }
{
    lines.iter().filter(|line| is_fetch_line(line)).count()
}

/// How many lines tell of a peer that was closed.
pub(crate) fn count_closes(lines: &[TraceLine]) -> usize
    ensures { result ≡ count_by is_close_at lines.now }
{
    lines.iter().filter(|line| is_close_line(line)).count()
}

// How many lines a text has, each of which is ended by LF.
fn count_lines(text: &[u8]) -> usize
    ensures { result ≡ count_by (λ b. b == 10) text.now }
{
    text.iter().filter(|b| **b == b'\n').count()
}

/// How many entries a history has: a line of its text for each, before the one of the tip.
pub(crate) fn count_entries(alloc: Global, history: &History) -> Result<usize, NoMemory>
    ensures { IfOk result (λ count. count ≡ length history.now) }
{
    let text = history.text(alloc, 0, &Hash32([0; 32]))?;
    Ok(count_lines(text.as_bytes()) - 1)
}
