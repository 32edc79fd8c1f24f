//! `follow --redial`: the words of a call without that option, and those of the run that comes next.

use cf_bytes::{Fault, NoMemory, Refused};
use cf_input::{Command, number_within, read_words};
use std::alloc::Global;
use thiserror::Error;

/// At most this many seconds are waited before all peers are dialled again.
pub const MOST_REDIAL: u32 = 3_600;

/// What is wrong with `--redial`.
#[derive(Clone, Copy, Debug, PartialEq, Eq, Error)]
pub enum RedialFault {
    /// No number stands behind it, or one that is out of its range.
    #[error("SECONDS of --redial is a number from 1 to 3600")]
    Seconds,
    /// It stands there twice.
    #[error("--redial stands there twice")]
    Twice,
    /// A record is asked for, which is one of one run.
    #[error("--redial doesn't go with --record")]
    Record,
}

impl Fault for RedialFault {}

/// How a `follow` goes on that has no peer left.
#[derive(Clone, Copy)]
pub struct Redial {
    /// So many seconds are waited before all peers are dialled again, from 1 to 3,600.
    pub seconds: u32,
    /// At most this many deliveries are taken in all runs.
    pub turns: u32,
}

/// What a call asks for.
#[derive(Drop)]
pub struct Call {
    /// Its words without `--redial SECONDS`. The first is the program's name.
    pub words: Vec<String>,
    /// How it goes on where no peer is left; `None` where it ends then.
    pub redial: Option<Redial>,
}

// What a word says of an option that takes a number.
enum Said<'a> {
    // The number is the next word.
    Next,
    // The number stands behind `=`.
    Here(&'a str),
    // It is another word.
    Other,
}

// What a word says of the option of this name.
fn read_option<'a>(word: &'a str, name: &str) -> Said<'a> {
    match word.strip_prefix(name) {
        Some("") => Said::Next,
        Some(rest) => match rest.strip_prefix('=') {
            Some(number) => Said::Here(number),
            None => Said::Other,
        },
        None => Said::Other,
    }
}

// The words of a call, without an option that takes a number.
#[derive(Drop)]
struct Parted<'a> {
    kept: Vec<&'a str>,
    // What stands for its number, each time that it is given.
    numbers: Vec<&'a str>,
    // The next word is its number.
    waits: bool,
    // No option stands behind `--`.
    over: bool,
}

impl<'a> Parted<'a> {
    // Takes one word more.
    fn take(&mut self, word: &'a str, name: &str) -> Result<(), NoMemory> {
        if self.waits {
            self.waits = false;
            self.numbers.push(word)?;
            return Ok(());
        }
        if self.over {
            self.kept.push(word)?;
            return Ok(());
        }
        match read_option(word, name) {
            Said::Next => self.waits = true,
            Said::Here(number) => self.numbers.push(number)?,
            Said::Other => {
                self.over = word == "--";
                self.kept.push(word)?;
            }
        }
        Ok(())
    }
}

// These words without the option of this name.
fn without<'a>(alloc: Global, words: &'a [String], name: &str) -> Result<Parted<'a>, NoMemory> {
    let mut parted = Parted {
        kept: Vec::new(alloc),
        numbers: Vec::new(alloc),
        waits: false,
        over: false,
    };
    for word in words {
        parted.take(word.as_str(), name)?;
    }
    Ok(parted)
}

// Copies of these texts.
fn copies(alloc: Global, texts: &[&str]) -> Result<Vec<String>, NoMemory> {
    let mut all = Vec::new(alloc);
    for text in texts {
        all.push(String::from_str(alloc, text)?)?;
    }
    Ok(all)
}

// The seconds that are asked for, where they are.
fn seconds_of(parted: &Parted) -> Result<Option<u32>, RedialFault> {
    let mut numbers = parted.numbers.iter();
    let first = numbers.next();
    if numbers.next().is_some() {
        return Err(RedialFault::Twice);
    }
    match first {
        Some(number) if !parted.waits => match number_within(number.as_bytes(), MOST_REDIAL) {
            Some(seconds) => Ok(Some(seconds)),
            None => Err(RedialFault::Seconds),
        },
        None if !parted.waits => Ok(None),
        _ => Err(RedialFault::Seconds),
    }
}

// How a command goes on that is to wait so many seconds.
fn redial_by(command: &Command, seconds: u32) -> Result<Option<Redial>, RedialFault> {
    let Command::Follow { turns, record, .. } = command else {
        return Ok(None);
    };
    if record.is_some() {
        return Err(RedialFault::Record);
    }
    Ok(Some(Redial {
        seconds,
        turns: *turns,
    }))
}

// How a call with these words goes on, which is to wait so many seconds. Words that ask for nothing are told of by
// whoever runs them.
fn redial_of(
    alloc: Global,
    words: &[String],
    seconds: u32,
) -> Result<Option<Redial>, Refused<RedialFault>> {
    match read_words(alloc, words) {
        Ok(command) => redial_by(&command, seconds).map_err(Refused::No),
        Err(Refused::NoMemory) => Err(Refused::NoMemory),
        Err(Refused::No(_)) => Ok(None),
    }
}

/// Whether these are words of `follow`.
pub fn is_follow(words: &[String]) -> bool {
    match words.get(1) {
        Some(word) => word.as_str() == "follow",
        None => false,
    }
}

/// What a call of `follow` with these words asks for.
///
/// # Errors
///
/// What is wrong with `--redial`, or that no memory is found.
pub fn read_call(alloc: Global, words: &[String]) -> Result<Call, Refused<RedialFault>> {
    let parted = without(alloc, words, "--redial")?;
    let seconds = seconds_of(&parted).map_err(Refused::No)?;
    let words = copies(alloc, &parted.kept)?;
    let redial = match seconds {
        Some(seconds) => redial_of(alloc, &words, seconds)?,
        None => None,
    };
    Ok(Call { words, redial })
}

/// The words of a `follow` that takes so many deliveries, and does else what these words ask of it.
///
/// # Errors
///
/// Where no memory is found.
pub fn with_turns(alloc: Global, words: &[String], turns: u32) -> Result<Vec<String>, NoMemory> {
    let parted = without(alloc, words, "--turns")?;
    let number = format!(in alloc; "--turns={turns}")?;
    let mut all = Vec::new(alloc);
    for (place, word) in parted.kept.iter().enumerate() {
        if place == 2 {
            all.push(String::from_str(alloc, number.as_str())?)?;
        }
        all.push(String::from_str(alloc, word)?)?;
    }
    Ok(all)
}
