//! The file of the scripts that are watched.
ghost use Rattle.cf_input.specs.Lines.{GivesRead, GivesAfter};
ghost use Rattle.cf_input.specs.WatchFile.{script_in_line, script_after, watch_of};

use crate::addresses::{is_address_text, read_address_bytes};
use crate::lines::{cut_at, read_hex};
use cf_address::AddressFault;
use cf_block::Script;
use cf_bytes::{NoMemory, Refused};
use cf_scan::{Watch, WatchKind};
use std::alloc::Global;
use thiserror::Error;

/// Why a line isn't a script that can be watched.
#[derive(Clone, Copy, Debug, PartialEq, Eq, Error)]
pub enum WatchCause {
    /// It begins as an address of regtest, and is none.
    #[error("{0}")]
    Address(AddressFault),
    /// It has an odd number of digits, or another character.
    #[error("the line is neither an address of regtest nor hexadecimal")]
    NotHex,
    #[error("{0}")]
    Script(WatchKind),
}

/// The first line that is refused, counted from 1.
#[derive(Clone, Copy, Debug, PartialEq, Eq, Error)]
#[error("line {place}: {cause}")]
pub struct WatchFileFault {
    pub cause: WatchCause,
    pub place: u32,
}

// The script that a line names.
fn read_script(alloc: Global, line: &[u8]) -> Result<Vec<u8>, Refused<WatchCause>>
    ensures { GivesRead (λ v. v.items) (script_in_line line.now) result }
{
    if is_address_text(line) {
        return match read_address_bytes(alloc, line) {
            Ok(bytes) => Ok(bytes),
            Err(Refused::No(fault)) => Err(Refused::No(WatchCause::Address(fault))),
            Err(Refused::NoMemory) => Err(Refused::NoMemory),
        };
    }
    match read_hex(alloc, line) {
        Ok(Some(bytes)) => Ok(bytes),
        Ok(None) => Err(Refused::No(WatchCause::NotHex)),
        Err(NoMemory) => Err(Refused::NoMemory),
    }
}

// Watches the script of one line more.
fn add_line(alloc: Global, watch: &mut Watch, line: &[u8]) -> Result<(), Refused<WatchFileFault>>
    ensures { GivesAfter (script_after watch.old line.now) result watch.new }
{
    let place = watch.len() as u32 + 1;
    let bytes = match read_script(alloc, line) {
        Ok(bytes) => bytes,
        Err(Refused::No(cause)) => return Err(Refused::No(WatchFileFault { cause, place })),
        Err(Refused::NoMemory) => return Err(Refused::NoMemory),
    };
    match watch.add(alloc, Script::from_vec(bytes)) {
        Ok(()) => Ok(()),
        Err(Refused::No(kind)) => {
            let cause = WatchCause::Script(kind);
            Err(Refused::No(WatchFileFault { cause, place }))
        }
        Err(Refused::NoMemory) => Err(Refused::NoMemory),
    }
}

/// The scripts of a file, one on each line, in hexadecimal of either case or by an address of regtest, or the first
/// line that is refused. Lines end with LF, which the last may lack. A line is judged whole before the next.
pub fn read_watch(alloc: Global, bytes: &[u8]) -> Result<Watch, Refused<WatchFileFault>>
    ensures { GivesRead (λ w. w) (watch_of bytes.now) result }
{
    let mut watch = Watch::empty(alloc);
    let mut rest = bytes;
    while !rest.is_empty() {
        let (line, after) = cut_at(rest, b'\n');
        add_line(alloc, &mut watch, line)?;
        rest = after;
    }
    Ok(watch)
}
