//! A file of the system, written whole or not at all.
use std::alloc::{AllocError, AllocFailed, Global};
use std::fs::{File, OpenFile, OpenOptions, Permissions};
use std::io::{ErrorKind, Write};
use std::rt::Files as HostFiles;
use std::{fs, io};

// How many names are tried for the file beside.
const MOST_BESIDE: u32 = 100;

/// Why a file was not written.
pub(crate) enum Unwritten {
    /// The system did not write it.
    Failed(io::Error),
    NoMemory,
}

impl From<io::Error> for Unwritten {
    fn from(reason: io::Error) -> Unwritten {
        Unwritten::Failed(reason)
    }
}

impl From<AllocError> for Unwritten {
    fn from(_e: AllocError) -> Unwritten {
        Unwritten::NoMemory
    }
}

impl<T: Drop> From<AllocFailed<T>> for Unwritten {
    fn from(_e: AllocFailed<T>) -> Unwritten {
        Unwritten::NoMemory
    }
}

/// Writes the bytes to a file beside, synced, which then takes the name. Where that fails the file beside is removed,
/// and what stood under the name stands there still. The new file has the permissions of the old one, which must be
/// one that may be written. What is no regular file, as a pipe, a device or a symbolic link, is written in place.
pub(crate) fn write_whole<R: HostFiles>(
    rt: &R,
    alloc: Global,
    name: &str,
    bytes: &[u8],
) -> Result<(), Unwritten> {
    match fs::symlink_metadata(rt, name) {
        Ok(data) if data.is_file() => {
            OpenOptions::new().write(true).open(rt, name)?;
            replace(rt, alloc, name, Some(data.permissions()), bytes)
        }
        Ok(_) => {
            fs::write(rt, name, bytes)?;
            Ok(())
        }
        Err(reason) if reason.kind() == ErrorKind::NotFound => {
            replace(rt, alloc, name, None, bytes)
        }
        Err(reason) => Err(Unwritten::Failed(reason)),
    }
}

// Writes the file beside, and gives it the name.
fn replace<R: HostFiles>(
    rt: &R,
    alloc: Global,
    name: &str,
    permissions: Option<Permissions>,
    bytes: &[u8],
) -> Result<(), Unwritten> {
    let (file, beside) = create_beside(rt, alloc, name)?;
    let moved = match fill(file, permissions, bytes) {
        Ok(()) => fs::rename(rt, beside.as_str(), name),
        Err(reason) => Err(reason),
    };
    match moved {
        Ok(()) => Ok(()),
        Err(reason) => {
            drop(fs::remove_file(rt, beside.as_str()));
            Err(Unwritten::Failed(reason))
        }
    }
}

// A new file beside that of this name, and its own name: the first that no file has.
fn create_beside<R: HostFiles>(
    rt: &R,
    alloc: Global,
    name: &str,
) -> Result<(R::File, String), Unwritten> {
    for n in 0..MOST_BESIDE {
        let beside = beside_of(alloc, name, n)?;
        match File::create_new(rt, beside.as_str()) {
            Ok(file) => return Ok((file, beside)),
            Err(reason) if reason.kind() == ErrorKind::AlreadyExists => {}
            Err(reason) => return Err(Unwritten::Failed(reason)),
        }
    }
    Err(Unwritten::Failed(ErrorKind::AlreadyExists.into()))
}

// The name with an ending that tells what it is, and a number.
fn beside_of(alloc: Global, name: &str, n: u32) -> Result<String, Unwritten> {
    Ok(format!(in alloc; "{name}.new{n}")?)
}

// Writes all the bytes to a new file, and shuts it once they are synced.
fn fill<F: Write + OpenFile + Drop>(
    mut file: F,
    permissions: Option<Permissions>,
    bytes: &[u8],
) -> io::Result<()> {
    if let Some(permissions) = permissions {
        file.set_permissions(permissions)?;
    }
    file.write_all(bytes)?;
    file.sync_all()
}
