//! The process's own files and writers behind the traits. They tell no bytes.
ghost use Rattle.std.specs.Prelude.{◌≡◌, ◌≤◌, ◌<◌, ◌↔◌, length, None, IfOk, IsSome, OnErr};
ghost use Rattle.cf_bytes.specs.Files.{Counts};
ghost use Rattle.cf_bytes.specs.Outside.{HasRisen};

use crate::files::{FileFail, Files};
use crate::outside::{Failed, Sink};
use crate::whole::{Unwritten, write_whole};
use std::alloc::{AllocError, AllocFailed, Global};
use std::fs::OpenFile;
use std::io::{Read, Write};
use std::rt::Files as HostFiles;
use std::{fs, io};

/// The files of the system that the process runs on. A name is a path. A regular file, or one that isn't there, is
/// written whole or not at all; what is no regular file, as a pipe, a device or a symbolic link, is written in place.
#[derive(Drop)]
pub struct StdFiles<R: HostFiles> {
    rt: R,
    // The file that was opened last.
    opened: Option<R::File>,
    faults: u64,
    reason: Option<io::Error>,
    ghost told: { IsSome reason ↔ (0 < faults) },
}

impl<R: HostFiles> StdFiles<R> {
    /// The files that this handle reaches; no call has failed yet.
    pub fn new(rt: R) -> StdFiles<R>
        ensures { result.faults ≡ 0 }
    {
        StdFiles {
            rt,
            opened: None,
            faults: 0,
            reason: None,
        }
    }

    /// Why the last of the calls that failed did, as the system says it; `None` exactly where none has
    /// failed.
    pub fn reason(&self) -> Option<io::Error>
        ensures { IsSome result ↔ (0 < self.now.faults) }
    {
        self.reason
    }

    // Counts a call that failed, and keeps its reason.
    fn failed(&mut self, reason: io::Error) -> FileFail
        ensures answer { result ≡ FileFail.Failed }
        ensures count { HasRisen self.old.faults self.new.faults }
        ensures stays { self.new.opened ≡ self.old.opened }
    {
        self.faults = self.faults.saturating_add(1);
        self.reason = Some(reason);
        FileFail::Failed
    }

    // Shuts the file that was opened last, and opens this one. After an error none is open.
    fn open_new(&mut self, name: &str, most: usize) -> Result<(), FileFail>
        ensures shut { OnErr result (self.new.opened ≡ None) }
        ensures count { Counts result self.old.faults self.new.faults }
    {
        self.opened = None;
        let (file, size) = match open_file(&self.rt, name) {
            Ok(x) => x,
            Err(reason) => return Err(self.failed(reason)),
        };
        if size > most as u64 {
            return Err(FileFail::TooBig);
        }
        self.opened = Some(file);
        Ok(())
    }
}

// Why a file was not read.
enum Unread {
    // The system did not read it.
    Failed(io::Error),
    TooBig,
    NoMemory,
}

impl From<io::Error> for Unread {
    fn from(reason: io::Error) -> Unread {
        Unread::Failed(reason)
    }
}

impl From<AllocError> for Unread {
    fn from(_e: AllocError) -> Unread {
        Unread::NoMemory
    }
}

impl<T: Drop> From<AllocFailed<T>> for Unread {
    fn from(_e: AllocFailed<T>) -> Unread {
        Unread::NoMemory
    }
}

// How many bytes the system says that a file has, or 0 where it says nothing. A file may have more or
// fewer: the number is a hint for the room to take.
fn told_size<F: OpenFile>(file: &F) -> usize {
    match file.metadata() {
        Ok(data) => usize::try_from(data.len()).unwrap_or(usize::MAX),
        Err(_) => 0,
    }
}

// Reads a file up to one byte past the most that it may have.
fn read_file<R: HostFiles>(
    rt: &R,
    alloc: Global,
    name: &str,
    most: usize,
) -> Result<Vec<u8>, Unread>
    ensures { IfOk result (λ v. length v.items ≤ most) }
{
    let mut file = fs::open(rt, name)?;
    let mut bytes = Vec::with_capacity(alloc, told_size(&file).min(most))?;
    let mut buffer = [0u8; 65_536];
    while bytes.len() <= most {
        let room = (most - bytes.len()).saturating_add(1).min(buffer.len());
        let n = file.read(&mut buffer[..room])?;
        if n == 0 {
            return Ok(bytes);
        }
        bytes.extend_from_slice(&buffer[..n])?;
    }
    Err(Unread::TooBig)
}

// A file, and how many bytes the system says that it has.
fn open_file<R: HostFiles>(rt: &R, name: &str) -> Result<(R::File, u64), io::Error> {
    let file = fs::open(rt, name)?;
    let size = file.metadata()?.len();
    Ok((file, size))
}

impl<R: HostFiles> Files for StdFiles<R> {
    ghost files = { λ _. None };

    ghost opened = { λ _. None };

    ghost faults = { λ f. f.faults };

    ghost reads = { λ _ _ _ _ _. Unit {0} };

    ghost opens = { λ _ _ _ _ _. Unit {0} };

    ghost parts = { λ _ _ _ _. Unit {0} };

    ghost writes = { λ _ _ _ _ _. Unit {0} };

    fn open(&mut self, name: &str, most: usize) -> Result<(), FileFail> {
        self.open_new(name, most)
    }

    // Gives nothing where no file was opened. The bytes go by a buffer, since a reader of the system may leave anything
    // behind those that it gives.
    fn part(&mut self, into: &mut [u8]) -> Result<usize, Failed> {
        let mut buffer = [0u8; 65_536];
        let most = into.len().min(buffer.len());
        let Some(file) = &mut self.opened else {
            return Ok(0);
        };
        match file.read(&mut buffer[..most]) {
            Ok(n) => {
                into[..n].copy_from_slice(&buffer[..n]);
                Ok(n)
            }
            Err(reason) => {
                self.faults = self.faults.saturating_add(1);
                self.reason = Some(reason);
                Err(Failed)
            }
        }
    }

    fn read(&mut self, alloc: Global, name: &str, most: usize) -> Result<Vec<u8>, FileFail> {
        match read_file(&self.rt, alloc, name, most) {
            Ok(bytes) => Ok(bytes),
            Err(Unread::Failed(reason)) => Err(self.failed(reason)),
            Err(Unread::TooBig) => Err(FileFail::TooBig),
            Err(Unread::NoMemory) => Err(FileFail::NoMemory),
        }
    }

    fn write(&mut self, alloc: Global, name: &str, bytes: &[u8]) -> Result<(), FileFail> {
        match write_whole(&self.rt, alloc, name, bytes) {
            Ok(()) => Ok(()),
            Err(Unwritten::Failed(reason)) => Err(self.failed(reason)),
            Err(Unwritten::NoMemory) => Err(FileFail::NoMemory),
        }
    }
}

/// A writer of the standard library as a sink, as standard output by `io::writer(&rt)`. A writer
/// that takes no byte of some has failed.
#[derive(Drop)]
pub struct WriterSink<W> {
    writer: W,
    faults: u64,
}

impl<W: Write> WriterSink<W> {
    /// The sink of this writer; no write has failed yet.
    pub fn new(writer: W) -> WriterSink<W>
        ensures { result.faults ≡ 0 }
    {
        WriterSink { writer, faults: 0 }
    }
}

impl<W: Write> Sink for WriterSink<W> {
    ghost written = { λ _. None };

    ghost faults = { λ s. s.faults };

    ghost writes = { λ _ _ _ _. Unit {0} };

    fn write(&mut self, from: &[u8]) -> Result<usize, Failed> {
        match self.writer.write(from) {
            Ok(n) if n > 0 || from.is_empty() => Ok(n),
            _ => {
                self.faults = self.faults.saturating_add(1);
                Err(Failed)
            }
        }
    }
}
