//! What the process is given.
ghost use Rattle.std.specs.Prelude.{◌≡◌};

use cf_answers::Status;
use cf_bytes::{NoMemory, Refused};
use cf_input::{Command, read_words};
use std::alloc::Global;
use std::random::RandomSource;
use std::time::{SystemTime, UNIX_EPOCH};
use std::{env, io};

fn unreadable(e: &io::Error) -> Status {
    match e.kind() {
        io::ErrorKind::OutOfMemory => Status::NoMemory,
        _ => Status::Usage,
    }
}

/// The words of the call, the first of which is the program's name. A word that isn't UTF-8 is none that the program
/// knows.
pub fn words_of(rt: &HostRuntime) -> Result<Vec<String>, Status> {
    let mut words = Vec::new(rt.alloc());
    for word in env::args(rt).map_err(|e| unreadable(&e))? {
        words.push(word).map_err(|_| Status::NoMemory)?;
    }
    Ok(words)
}

/// What the words ask of the network, and of the files.
#[derive(Drop)]
pub struct Dials {
    /// The peers that `sync` or `follow` names, in order; none for another command, and where the words ask for nothing.
    pub names: Vec<String>,
    /// Whether it is `follow`.
    pub stays: bool,
    /// Whether the first file that is read whole is a watch file.
    pub watches: bool,
}

// Nothing is asked of the network.
fn no_dials(alloc: Global, watches: bool) -> Dials {
    Dials {
        names: Vec::new(alloc),
        stays: false,
        watches,
    }
}

// Copies of these names, in order.
fn copies_of(alloc: Global, names: &[String]) -> Result<Vec<String>, NoMemory> {
    let mut copies = Vec::with_capacity(alloc, names.len())?;
    for name in names {
        copies.push(String::from_str(alloc, name.as_str())?)?;
    }
    Ok(copies)
}

// What a command asks of the network.
fn dials_of(alloc: Global, command: &Command) -> Result<Dials, NoMemory> {
    match command {
        Command::Sync { peers, .. } => Ok(Dials {
            names: copies_of(alloc, peers.as_slice())?,
            stays: false,
            watches: true,
        }),
        Command::Follow { peers, .. } => Ok(Dials {
            names: copies_of(alloc, peers.as_slice())?,
            stays: true,
            watches: true,
        }),
        Command::Replay { .. } | Command::Scan { .. } => Ok(no_dials(alloc, true)),
        _ => Ok(no_dials(alloc, false)),
    }
}

/// What the words ask of the network.
///
/// # Errors
///
/// Where no memory is found to read them.
pub fn read_dials(alloc: Global, words: &[String]) -> Result<Dials, NoMemory> {
    match read_words(alloc, words) {
        Ok(command) => dials_of(alloc, &command),
        Err(Refused::NoMemory) => Err(NoMemory),
        Err(Refused::No(_)) => Ok(no_dials(alloc, false)),
    }
}

/// The time in seconds since 1970, or 0 where the clock can't be read.
pub fn moment(rt: &HostRuntime) -> i64 {
    let Ok(now) = SystemTime::now(rt) else {
        return 0;
    };
    match now.duration_since(UNIX_EPOCH) {
        Ok(passed) => i64::try_from(passed.as_secs()).unwrap_or(0),
        Err(_) => 0,
    }
}

/// A random number of the system, or 0 where it gives none.
pub fn nonce(rt: &HostRuntime) -> u64 {
    let mut bytes = [0u8; 8];
    match rt.fill_bytes(&mut bytes) {
        Ok(()) => u64::from_le_bytes(bytes),
        Err(_) => 0,
    }
}
