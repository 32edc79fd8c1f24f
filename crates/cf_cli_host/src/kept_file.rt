//! The file of blocks of `serve --keep`, which grows with its chain.
ghost use Rattle.std.specs.Prelude.{None};

use crate::cut_off::whole_end;
use cf_answers::Status;
use cf_bytes::{Failed, Refused};
use cf_grow::Keeper;
use cf_input::{Command, Growth, read_words};
use cf_tell::Teller;
use cf_walk::MOST_BLOCKS;
use std::alloc::Global;
use std::fs::{File, OpenOptions, TryLockError};
use std::io::{self, ErrorKind, Seek, SeekFrom, Write};

// A file that this process alone keeps blocks in.
#[derive(Drop)]
struct Place {
    name: String,
    file: File,
    // Where its last whole record ends.
    end: u64,
    // Whether bytes may stand behind that.
    is_torn: bool,
}

impl Place {
    // Whether a record of so many bytes has its place at the end.
    fn look(&self, count: u64) -> io::Result<()> {
        if self.file.metadata()?.len() != self.end {
            return Err(refusal("its length has changed since it was read"));
        }
        if self.end.saturating_add(count) > MOST_BLOCKS as u64 {
            return Err(refusal("it would have more bytes than a start reads"));
        }
        Ok(())
    }

    // Cuts off what stands behind the last whole record.
    fn cut(&mut self) -> io::Result<()> {
        self.file.set_len(self.end)?;
        self.file.sync_all()?;
        self.is_torn = false;
        Ok(())
    }

    // Writes a record behind the last one, and waits until it stays.
    fn append(&mut self, record: &[u8]) -> io::Result<()> {
        self.file.seek(SeekFrom::Start(self.end))?;
        self.file.write_all(record)?;
        self.file.sync_all()
    }

    // The same where it has its place, once what a failed call has left is cut off.
    fn put(&mut self, record: &[u8]) -> io::Result<()> {
        let count = record.len() as u64;
        if self.is_torn {
            self.cut()?;
        }
        self.look(count)?;
        self.is_torn = true;
        self.append(record)?;
        self.is_torn = false;
        self.end = self.end.saturating_add(count);
        Ok(())
    }

    // Cuts off what a failed call has left. Where that fails too, the next one tries it again.
    fn cut_back(&mut self) {
        if self.is_torn {
            let _cut = self.cut();
        }
    }

    // Takes so many bytes away from the end.
    fn take_back(&mut self, count: u64) {
        self.end = self.end.saturating_sub(count);
        self.is_torn = true;
        self.cut_back();
    }
}

/// The file of blocks of `serve --keep`: the record of each block that joins is put behind those that stand there. For
/// other words there is none, and nothing is kept. Where a record can't be kept, it is told why.
#[derive(Drop)]
pub struct KeptFile {
    teller: &'static Teller,
    place: Option<Place>,
}

// What isn't done, and why.
fn refusal(reason: &'static str) -> io::Error {
    io::Error::new(ErrorKind::InvalidInput, reason)
}

// Opens a file in which another process keeps no blocks.
fn open(rt: &HostRuntime, name: &str) -> io::Result<File> {
    let file = OpenOptions::new().read(true).write(true).open(rt, name)?;
    if !file.metadata()?.is_file() {
        return Err(refusal("it is no regular file"));
    }
    match file.try_lock() {
        Ok(()) => Ok(file),
        Err(TryLockError::WouldBlock) => Err(refusal("another process keeps blocks in it")),
        Err(TryLockError::Error(reason)) => Err(reason),
    }
}

// Opens the file, and cuts off a record at its end that isn't whole.
fn place_of(teller: &Teller, name: &str) -> io::Result<Place> {
    let rt = teller.runtime();
    let alloc = rt.alloc();
    let mut file = open(&rt, name)?;
    let size = file.metadata()?.len();
    let end = whole_end(alloc, &mut file, size)?;
    let mut place = Place {
        name: String::from_str(alloc, name)?,
        file,
        end,
        is_torn: false,
    };
    if end < size {
        place.cut()?;
        let count = size.saturating_sub(end);
        let _told = eprintln!(teller;
            "cf: {name}: its last record was cut off, and its {count} bytes are removed"
        );
    }
    Ok(place)
}

impl KeptFile {
    /// The file for the words of a call. A record that was cut off at its end is told of and removed.
    ///
    /// # Errors
    ///
    /// `FileFault` where the file can't be read and written, which is told then; and `NoMemory`.
    pub fn ready(teller: &'static Teller, words: &[String]) -> Result<KeptFile, Status> {
        match read_words(teller.runtime().alloc(), words) {
            Ok(command) => KeptFile::ready_for(teller, &command),
            Err(Refused::No(_)) => Ok(KeptFile {
                teller,
                place: None,
            }),
            Err(Refused::NoMemory) => Err(Status::NoMemory),
        }
    }

    // The same for a command.
    fn ready_for(teller: &'static Teller, command: &Command) -> Result<KeptFile, Status> {
        let Command::Serve {
            grow: Some(Growth { keep: true, .. }),
            file,
            ..
        } = command
        else {
            return Ok(KeptFile {
                teller,
                place: None,
            });
        };
        match place_of(teller, file.as_str()) {
            Ok(place) => Ok(KeptFile {
                teller,
                place: Some(place),
            }),
            Err(reason) => {
                let _told = eprintln!(teller;
                    "cf: {} could not be written: {reason}",
                    file.as_str()
                );
                Err(Status::FileFault)
            }
        }
    }
}

impl Keeper for KeptFile {
    ghost kept = { λ _. None };

    fn keep(&mut self, record: &[u8]) -> Result<(), Failed> {
        let Some(place) = &mut self.place else {
            return Err(Failed);
        };
        match place.put(record) {
            Ok(()) => Ok(()),
            Err(reason) => {
                let _told = eprintln!(self.teller;
                    "cf: a block could not be kept in {}: {reason}",
                    place.name
                );
                place.cut_back();
                Err(Failed)
            }
        }
    }

    fn take_back(&mut self, count: usize) {
        if let Some(place) = &mut self.place {
            place.take_back(count as u64);
        }
    }
}
