//! What went wrong, told on standard error.
use crate::failure::Failure;
use crate::reasons::{tell_file_hint, tell_unread};
use crate::shown_files::Seen;
use cf_answers::Status;
use cf_input::mistake_text;
use cf_tell::Teller;
use std::io;

// Tells what is wrong with the words.
fn tell_mistake(teller: &Teller, words: &[String], status: &Status) -> io::Result<()> {
    match mistake_text(teller.runtime().alloc(), words) {
        Ok(text) => eprint!(teller; "{text}"),
        Err(_) => eprintln!(teller; "cf: {status}"),
    }
}

// The command's name among the words.
fn name_of(words: &[String]) -> &str {
    match words.get(1) {
        Some(word) => word.as_str(),
        None => "",
    }
}

// What a user of this command can do about the end of its run.
fn hint(status: &Status, name: &str) -> &'static str {
    match status {
        Status::Tired if name == "sync" || name == "follow" => "; --turns N sets that number",
        Status::Ended if name == "replay" => "; the session is at its end",
        _ => "",
    }
}

// Tells that the text could not be written, and why.
fn tell_out(teller: &Teller, status: &Status, failure: &Option<Failure>) -> io::Result<()> {
    match failure {
        Some(failure) => eprintln!(teller; "cf: {status}: {}", failure.reason),
        None => eprintln!(teller; "cf: {status}"),
    }
}

/// Tells on standard error what went wrong, if anything has. The first word is the program's name; there is none where
/// the words can't be read. `failure` is the last call over a file that failed, or over the output where the text could
/// not be written.
pub fn tell(
    teller: &Teller,
    words: &[String],
    status: &Status,
    failure: &Option<Failure>,
) -> io::Result<()> {
    match status {
        Status::Done => Ok(()),
        Status::Usage if !words.is_empty() => tell_mistake(teller, words, status),
        Status::FileFault => tell_unread(teller, words, status, failure),
        Status::OutFault => tell_out(teller, status, failure),
        // What is told of the peers says it.
        Status::NoPeers { .. } => Ok(()),
        _ => eprintln!(teller; "cf: {status}{}", hint(status, name_of(words))),
    }
}

/// Tells what a user can do about a file that was refused, where that was seen at a glance of it.
pub fn tell_hint(
    teller: &Teller,
    words: &[String],
    status: &Status,
    seen: &Seen,
) -> io::Result<()> {
    match status {
        Status::BadFile {
            which,
            place,
            cause,
        } => tell_file_hint(teller, words, *which, *place, cause, seen),
        _ => Ok(()),
    }
}
