//! What a user gives: words, watch files and sessions.
use crate::fields::{file_in, put_digits, put_word, texts_in};
use cf_answers::own_text;
use cf_bytes::{Refused, show};
use cf_input::{
    Command, PeerNames, Session, Word, mistake_text, read_session, read_watch, read_words,
};
use cf_scan::Watch;
use std::alloc::Global;

// Puts the names of peers behind a text, each after a space.
fn put_names(peers: &PeerNames, out: &mut String) -> Option<()> {
    for name in peers.as_slice() {
        put_word(name.as_str(), out)?;
    }
    Some(())
}

// A command over peers: its name, its numbers, the file of its record where there is one, the watch file and the peers.
fn over_peers(
    alloc: Global,
    name: &str,
    turns: u32,
    workers: u32,
    record: &Option<Word>,
    watch: &Word,
    peers: &PeerNames,
) -> Option<String> {
    let mut text = format!(in alloc; "{name} {turns} {workers}").ok()?;
    if let Some(file) = record {
        put_word("record", &mut text)?;
        put_word(file.as_str(), &mut text)?;
    }
    put_word(watch.as_str(), &mut text)?;
    put_names(peers, &mut text)?;
    Some(text)
}

// The command `check`: its name, the file of the proof, the file of blocks where there is one, and whether witnesses may
// stand in the proof's transaction.
fn check(alloc: Global, witness: bool, file: &Word, blocks: &Option<Word>) -> Option<String> {
    let mut text = format!(in alloc; "check {}", file.as_str()).ok()?;
    if let Some(blocks) = blocks {
        put_word(blocks.as_str(), &mut text)?;
    }
    if witness {
        put_word("witness", &mut text)?;
    }
    Some(text)
}

// A command and its parts.
fn told(alloc: Global, command: &Command) -> Option<String> {
    match command {
        Command::Replay {
            follow,
            trace,
            watch,
            session,
        } => {
            format!(in alloc;
                "replay {follow} {trace} {} {}",
                watch.as_str(),
                session.as_str()
            )
            .ok()
        }
        Command::Sync {
            turns,
            workers,
            record,
            watch,
            peers,
        } => over_peers(alloc, "sync", *turns, *workers, record, watch, peers),
        Command::Follow {
            turns,
            workers,
            record,
            watch,
            peers,
        } => over_peers(alloc, "follow", *turns, *workers, record, watch, peers),
        Command::Scan { file, watch } => {
            format!(in alloc; "scan {} {}", file.as_str(), watch.as_str()).ok()
        }
        Command::Filter { file, height } => {
            format!(in alloc; "filter {} {height}", file.as_str()).ok()
        }
        Command::Address { text } => format!(in alloc; "address {}", text.as_str()).ok(),
        Command::Prove { file, txid } => {
            format!(in alloc; "prove {} {}", file.as_str(), show(alloc, txid).ok()?).ok()
        }
        Command::Check {
            witness,
            file,
            blocks,
        } => check(alloc, *witness, file, blocks),
        Command::Serve {
            grow,
            connections,
            at_once,
            budget,
            file,
            address,
        } => {
            format!(in alloc;
                "serve {grow:?} {connections} {at_once} {budget} {} {}",
                file.as_str(),
                address.as_str()
            )
            .ok()
        }
        Command::Make {
            witness,
            seed,
            blocks,
            file,
        } => { format!(in alloc; "make {witness} {seed} {blocks} {}", file.as_str()).ok() }
        Command::Demo { seed, blocks } => format!(in alloc; "demo {seed} {blocks}").ok(),
    }
}

/// The text that the program has of itself for the words of a row. They are parted by `|`.
pub(crate) fn text(alloc: Global, row: &str) -> Option<String> {
    let words = texts_in(alloc, row, '|')?;
    match own_text(&words) {
        Some(own) => String::from_str(alloc, own).ok(),
        None => String::from_str(alloc, "none\n").ok(),
    }
}

/// What the words of a row ask for. They are parted by `|`.
pub(crate) fn words(alloc: Global, row: &str) -> Option<String> {
    let words = texts_in(alloc, row, '|')?;
    match read_words(alloc, &words) {
        Ok(command) => told(alloc, &command),
        Err(Refused::No(fault)) => format!(in alloc; "No({fault:?})").ok(),
        Err(Refused::NoMemory) => None,
    }
}

/// What is wrong with the words of a row, in words for the user.
pub(crate) fn mistake(alloc: Global, row: &str) -> Option<String> {
    mistake_text(alloc, &texts_in(alloc, row, '|')?).ok()
}

// The scripts, in hexadecimal.
fn scripts_of(alloc: Global, watch: &Watch) -> Option<String> {
    let mut text = String::from_str(alloc, "scripts").ok()?;
    for script in watch.scripts() {
        put_digits(alloc, script.as_slice(), &mut text)?;
    }
    Some(text)
}

/// The scripts of a watch file, or its first fault.
pub(crate) fn watch(alloc: Global, row: &str) -> Option<String> {
    match read_watch(alloc, file_in(alloc, row)?.as_bytes()) {
        Ok(watch) => scripts_of(alloc, &watch),
        Err(fault) => format!(in alloc; "{fault:?}").ok(),
    }
}

fn lines_of(alloc: Global, session: &Session) -> Option<String> {
    let (names, dials, deliveries) = (&session.names, &session.dials, &session.deliveries);
    format!(in alloc; "{names:?} {dials:?} {deliveries:?}").ok()
}

/// The dials and the deliveries of a session, or its first fault.
pub(crate) fn session(alloc: Global, row: &str) -> Option<String> {
    let text = file_in(alloc, row)?;
    if text.len() > 1_000_000 {
        return None;
    }
    match read_session(alloc, text.as_bytes()) {
        Ok(session) => lines_of(alloc, &session),
        Err(fault) => format!(in alloc; "{fault:?}").ok(),
    }
}
