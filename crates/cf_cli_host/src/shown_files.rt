//! The files of a call, of which is told on a terminal how far they were read, and what is seen at a glance of them.
ghost use Rattle.std.specs.Prelude.{◌≡◌, None};

use crate::failure::{Asked, Failure};
use crate::seen::{LineKind, doubtful_line, marked_line};
use cf_bytes::{Failed, FileFail, Files, StdFiles};
use cf_tell::Teller;
use std::alloc::Global;
use std::fs;
use std::io::{self, IsTerminal};
use std::time::{Clock, Duration};

// A million bytes.
const MEGABYTE: u64 = 1_000_000;

// How long is waited between two lines.
fn second() -> Duration {
    Duration::from_secs(1)
}

// How far a file was read that is read by parts.
#[derive(Clone, Copy)]
struct Reading {
    size: u64,
    read: u64,
    // When it was told last, or when the file was opened.
    last: Duration,
    // Whether a line stands there that isn't ended.
    is_told: bool,
}

/// What was seen at a glance of the files.
#[derive(Clone, Copy)]
pub struct Seen {
    /// The first line of the watch file that has a mark of something that can't be watched, and what it is.
    pub line: Option<(u32, LineKind)>,
    /// The first bytes of the file of blocks, where there are so many.
    pub front: Option<[u8; 4]>,
}

/// The files of the system. Where standard error is a terminal it tells at most once a second how far a file that is
/// read by parts was read, in one line that is overwritten, and taken away at the end. Of the watch file it tells once
/// that a script can hardly be one.
#[derive(Drop)]
pub struct ShownFiles {
    files: StdFiles<HostRuntime>,
    teller: &'static Teller,
    on_terminal: bool,
    // The next file that is read whole is the watch file.
    watches: bool,
    reading: Option<Reading>,
    seen: Seen,
    // Whether a file was asked for before the one that is read now.
    later: bool,
    // What is asked for now, or was by the last call that failed.
    asked: Option<Asked>,
    failed: Option<Asked>,
}

impl ShownFiles {
    /// The files, of which no call has failed yet. With `watches` the first that is read whole is a watch file.
    pub fn new(teller: &'static Teller, watches: bool) -> ShownFiles
        ensures { result.files.faults ≡ 0 }
    {
        let rt = teller.runtime();
        ShownFiles {
            files: StdFiles::new(rt),
            teller,
            on_terminal: rt.stderr().is_terminal(),
            watches,
            reading: None,
            seen: Seen {
                line: None,
                front: None,
            },
            later: false,
            asked: None,
            failed: None,
        }
    }

    /// The last of the calls that failed.
    pub fn failure(&self) -> Option<Failure> {
        let (Some(asked), Some(reason)) = (self.failed, self.files.reason()) else {
            return None;
        };
        Some(Failure { asked, reason })
    }

    // A file is asked for that is read.
    fn ask(&mut self)
        ensures same { self.new.files ≡ self.old.files }
    {
        self.asked = Some(if self.later {
            Asked::Second
        } else {
            Asked::First
        });
        self.later = true;
    }

    // The call that was made has failed.
    fn fail(&mut self)
        ensures same { self.new.files ≡ self.old.files }
    {
        self.failed = self.asked;
    }

    /// What was seen of the files.
    pub fn seen(&self) -> Seen {
        self.seen
    }

    // The time, where the clock can be read.
    fn now(&self) -> Duration {
        match self.teller.monotonic() {
            Ok(now) => now,
            Err(_) => Duration::ZERO,
        }
    }

    // The file was opened that is read by parts from now on.
    fn begin(&mut self, name: &str)
        ensures same { self.new.files ≡ self.old.files }
    {
        self.end();
        if !self.on_terminal {
            return;
        }
        let size = match fs::metadata(&self.teller.runtime(), name) {
            Ok(data) => data.len(),
            Err(_) => 0,
        };
        self.reading = Some(Reading {
            size,
            read: 0,
            last: self.now(),
            is_told: false,
        });
    }

    // Tells how far it has come.
    fn tell(&self, reading: &Reading) -> io::Result<()> {
        let (read, size) = (reading.read, reading.size);
        match read.saturating_mul(100).checked_div(size) {
            Some(percent) => eprint!(self.teller;
                "\rcf: {} of {} MB, {} %",
                read / MEGABYTE,
                size / MEGABYTE,
                percent.min(100)
            ),
            None => eprint!(self.teller; "\rcf: {} MB", read / MEGABYTE),
        }
    }

    // So many bytes more were read.
    fn note(&mut self, n: usize)
        ensures same { self.new.files ≡ self.old.files }
    {
        let Some(mut reading) = self.reading else {
            return;
        };
        reading.read = reading.read.saturating_add(n as u64);
        let now = self.now();
        if now.saturating_sub(reading.last) >= second() {
            reading.last = now;
            reading.is_told = true;
            let _told = self.tell(&reading);
        }
        self.reading = Some(reading);
    }

    /// Nothing more of the file that was opened last is told: the line that stands there is taken away.
    pub fn end(&mut self)
        ensures same { self.new.files ≡ self.old.files }
    {
        if let Some(Reading { is_told: true, .. }) = self.reading {
            let _told = eprint!(self.teller; "\r{:40}\r", "");
        }
        self.reading = None;
    }

    // Looks at how the file of blocks begins.
    fn look(&mut self, bytes: &[u8])
        ensures same { self.new.files ≡ self.old.files }
    {
        if let ([a, b, c, d, ..], None) = (bytes, self.seen.front) {
            self.seen.front = Some([*a, *b, *c, *d]);
        }
    }

    // Looks at the watch file, and tells of the first script in it that can hardly be one.
    fn look_at_watch(&mut self, name: &str, bytes: &[u8])
        ensures same { self.new.files ≡ self.old.files }
    {
        self.watches = false;
        self.seen.line = marked_line(bytes);
        if let Some((place, count, doubt)) = doubtful_line(bytes) {
            let _told = eprintln!(self.teller;
                "cf: {name}, line {place}: these {count} bytes are watched as a script, and look like {doubt}"
            );
        }
    }
}

impl Files for ShownFiles {
    ghost files = { λ _. None };

    ghost opened = { λ _. None };

    ghost faults = { λ f. f.files.faults };

    ghost reads = { λ _ _ _ _ _. Unit {0} };

    ghost opens = { λ _ _ _ _ _. Unit {0} };

    ghost parts = { λ _ _ _ _. Unit {0} };

    ghost writes = { λ _ _ _ _ _. Unit {0} };

    fn open(&mut self, name: &str, most: usize) -> Result<(), FileFail> {
        self.ask();
        let answer = self.files.open(name, most);
        match answer {
            Ok(()) => self.begin(name),
            Err(_) => self.fail(),
        }
        answer
    }

    fn part(&mut self, into: &mut [u8]) -> Result<usize, Failed> {
        let answer = self.files.part(into);
        match answer {
            Ok(0) => self.end(),
            Err(_) => {
                self.end();
                self.fail();
            }
            Ok(n) => {
                self.look(&into[..n]);
                self.note(n);
            }
        }
        answer
    }

    fn read(&mut self, alloc: Global, name: &str, most: usize) -> Result<Vec<u8>, FileFail> {
        self.ask();
        let answer = self.files.read(alloc, name, most);
        match &answer {
            Ok(bytes) if self.watches => self.look_at_watch(name, bytes.as_slice()),
            Ok(_) => {}
            Err(_) => self.fail(),
        }
        answer
    }

    fn write(&mut self, alloc: Global, name: &str, bytes: &[u8]) -> Result<(), FileFail> {
        self.asked = Some(Asked::Written);
        let answer = self.files.write(alloc, name, bytes);
        if answer.is_err() {
            self.fail();
        }
        answer
    }
}
