//! Which file of a command could not be read or written, and why.
use crate::failure::{Asked, Failure};
use crate::seen::network_of;
use crate::shown_files::Seen;
use cf_answers::{FileCause, Status, Which};
use cf_input::{Command, read_words};
use cf_tell::Teller;
use cf_walk::RecordCause;
use std::io;

// The files that a command reads, in the order in which it reads them.
fn files_read(command: &Command) -> (Option<&str>, Option<&str>) {
    match command {
        Command::Replay { watch, session, .. } => (Some(watch.as_str()), Some(session.as_str())),
        Command::Sync { watch, .. } | Command::Follow { watch, .. } => {
            (Some(watch.as_str()), None)
        }
        Command::Scan { file, watch } => (Some(watch.as_str()), Some(file.as_str())),
        Command::Filter { file, .. } | Command::Prove { file, .. } => (Some(file.as_str()), None),
        Command::Check { file, blocks, .. } => {
            (
                Some(file.as_str()),
                blocks.as_ref().map(|blocks| blocks.as_str()),
            )
        }
        Command::Serve { file, .. } => (Some(file.as_str()), None),
        Command::Address { .. } | Command::Make { .. } | Command::Demo { .. } => (None, None),
    }
}

// The file that a command writes.
fn file_written(command: &Command) -> Option<&str> {
    match command {
        Command::Sync {
            record: Some(file),
            ..
        }
        | Command::Follow {
            record: Some(file),
            ..
        }
        | Command::Make { file, .. } => Some(file.as_str()),
        _ => None,
    }
}

// Tells which file of a command could not be read or written, and why.
fn tell_file(
    teller: &Teller,
    command: &Command,
    status: &Status,
    failure: &Option<Failure>,
) -> io::Result<()> {
    let Some(Failure { asked, reason }) = failure else {
        return eprintln!(teller; "cf: {status}");
    };
    let (first, second) = files_read(command);
    match (asked, first, second, file_written(command)) {
        (Asked::First, Some(name), ..) | (Asked::Second, _, Some(name), _) => eprintln!(teller;
            "cf: {name} could not be read: {reason}"
        ),
        (Asked::Written, _, _, Some(name)) => eprintln!(teller;
            "cf: {name} could not be written: {reason}"
        ),
        _ => eprintln!(teller; "cf: {status}: {reason}"),
    }
}

/// Tells which file could not be read or written, and why.
pub(crate) fn tell_unread(
    teller: &Teller,
    words: &[String],
    status: &Status,
    failure: &Option<Failure>,
) -> io::Result<()> {
    match read_words(teller.runtime().alloc(), words) {
        Ok(command) => tell_file(teller, &command, status, failure),
        Err(_) => eprintln!(teller; "cf: {status}"),
    }
}

// The watch file that a command names, and its file of blocks.
fn watch_and_blocks(command: &Command) -> (Option<&str>, Option<&str>) {
    match command {
        Command::Replay { watch, .. }
        | Command::Sync { watch, .. }
        | Command::Follow { watch, .. } => (Some(watch.as_str()), None),
        Command::Scan { file, watch } => (Some(watch.as_str()), Some(file.as_str())),
        Command::Filter { file, .. } | Command::Prove { file, .. } | Command::Serve { file, .. } =>
            { (None, Some(file.as_str())) }
        _ => (None, None),
    }
}

// Tells what the line of the watch file is that was refused, where it has a mark of that.
fn tell_line(teller: &Teller, name: Option<&str>, place: u32, seen: &Seen) -> io::Result<()> {
    match (name, seen.line) {
        (Some(name), Some((line, kind))) if line == place => eprintln!(teller;
            "cf: {name}, line {place}: {kind}"
        ),
        _ => Ok(()),
    }
}

// Tells what a file of blocks is that begins with these bytes, and not with regtest's.
fn tell_front(teller: &Teller, name: Option<&str>, seen: &Seen) -> io::Result<()> {
    let (Some(name), Some(front)) = (name, seen.front) else {
        return Ok(());
    };
    match network_of(front) {
        Some(network) => eprintln!(teller; "cf: {name} begins as a file of blocks of {network}"),
        None => eprintln!(teller;
            "cf: {name} is no file of blocks, or mixed with a key, as nodes do without -blocksxor=0"
        ),
    }
}

/// Tells what a user can do about a file that was refused at this place for this cause, where that was seen at a glance
/// of it.
pub(crate) fn tell_file_hint(
    teller: &Teller,
    words: &[String],
    which: Which,
    place: u32,
    cause: &FileCause,
    seen: &Seen,
) -> io::Result<()> {
    let Ok(command) = read_words(teller.runtime().alloc(), words) else {
        return Ok(());
    };
    let (watch, blocks) = watch_and_blocks(&command);
    match (which, cause) {
        (Which::Watch, _) => tell_line(teller, watch, place, seen),
        (Which::Blocks, FileCause::Blocks(RecordCause::Magic)) if place == 1 => {
            tell_front(teller, blocks, seen)
        }
        _ => Ok(()),
    }
}
