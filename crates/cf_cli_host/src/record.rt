//! The file of a record, which is looked at before a run is made.
use cf_answers::Status;
use cf_input::{Command, read_words};
use cf_tell::Teller;
use std::fs::{self, File, OpenOptions};
use std::io::{self, ErrorKind};

// The watch file and the file of the record, where a record is asked for.
fn record_of(command: &Command) -> Option<(&str, &str)> {
    match command {
        Command::Sync {
            record: Some(file),
            watch,
            ..
        }
        | Command::Follow {
            record: Some(file),
            watch,
            ..
        } => Some((watch.as_str(), file.as_str())),
        _ => None,
    }
}

// Whether both names are of one file.
fn are_one(rt: &HostRuntime, one: &str, other: &str) -> bool {
    match (fs::canonicalize(rt, one), fs::canonicalize(rt, other)) {
        (Ok(one), Ok(other)) => one == other,
        _ => one == other,
    }
}

// Makes a file beside, as the record will be, and removes it.
fn try_beside(teller: &Teller, name: &str) -> io::Result<()> {
    let rt = teller.runtime();
    let Ok(beside) = format!(in rt.alloc(); "{name}.new0") else {
        return Ok(());
    };
    match File::create_new(&rt, beside.as_str()) {
        Ok(file) => {
            drop(file);
            fs::remove_file(&rt, beside.as_str())
        }
        Err(reason) if reason.kind() == ErrorKind::AlreadyExists => Ok(()),
        Err(reason) => Err(reason),
    }
}

// Whether a file of this name can be written whole. What is no regular file is left alone.
fn try_place(teller: &Teller, name: &str) -> io::Result<()> {
    let rt = teller.runtime();
    match fs::symlink_metadata(&rt, name) {
        Ok(data) if data.is_file() => {
            OpenOptions::new().write(true).open(&rt, name)?;
            try_beside(teller, name)
        }
        Ok(_) => Ok(()),
        Err(reason) if reason.kind() == ErrorKind::NotFound => try_beside(teller, name),
        Err(reason) => Err(reason),
    }
}

/// Looks whether the record that the words ask for can be written, before anybody is dialled, and tells why not.
///
/// # Errors
///
/// `Usage` where it would take the place of the watch file, and `FileFault` where the system doesn't let it be written.
pub fn try_record(teller: &Teller, words: &[String]) -> Result<(), Status> {
    let rt = teller.runtime();
    let Ok(command) = read_words(rt.alloc(), words) else {
        return Ok(());
    };
    let Some((watch, file)) = record_of(&command) else {
        return Ok(());
    };
    if are_one(&rt, watch, file) {
        let _told = eprintln!(teller; "error: FILE of --record is the watch file");
        return Err(Status::Usage);
    }
    match try_place(teller, file) {
        Ok(()) => Ok(()),
        Err(reason) => {
            let _told = eprintln!(teller; "cf: {file} could not be written: {reason}");
            Err(Status::FileFault)
        }
    }
}
