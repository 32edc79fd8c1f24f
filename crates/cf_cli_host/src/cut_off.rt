//! Where the last whole record of a file of blocks ends.
use cf_block::check_commitment;
use cf_bytes::{MAGIC, NoMemory, Refused};
use cf_walk::{block_of, is_end};
use std::alloc::Global;
use std::fs::File;
use std::io::{self, ErrorKind, Read, Seek, SeekFrom};

// The most bytes of a block in a record.
const MOST_TEXT: u64 = 4_000_000;

// A record that ends in so many zeros may have been cut off before them: a lock time has one less.
const ZEROS: usize = 5;

// The last record that is as long as it says, by where it begins and ends. Both are 0 where there is none.
#[derive(Clone, Copy)]
struct Last {
    start: u64,
    end: u64,
}

// Fills a slice with the bytes from a place on.
fn read_at(file: &mut File, at: u64, into: &mut [u8]) -> io::Result<()> {
    file.seek(SeekFrom::Start(at))?;
    file.read_exact(into)
}

// How many bytes of a block follow the first eight of a record, where these are such.
fn text_length(head: &[u8; 8]) -> Option<u64> {
    let [a, b, c, d, e, f, g, h] = *head;
    let length = u64::from(u32::from_le_bytes([e, f, g, h]));
    if [a, b, c, d] == MAGIC && (1..=MOST_TEXT).contains(&length) {
        Some(length)
    } else {
        None
    }
}

// The same of the record that begins at a place.
fn length_at(file: &mut File, at: u64, size: u64) -> io::Result<Option<u64>> {
    if size.saturating_sub(at) < 8 {
        return Ok(None);
    }
    let mut head = [0u8; 8];
    read_at(file, at, &mut head)?;
    Ok(text_length(&head))
}

fn last_whole(file: &mut File, size: u64) -> io::Result<Last> {
    let mut last = Last { start: 0, end: 0 };
    // A record has nine bytes at least.
    for _ in 0..=size / 9 {
        let Some(length) = length_at(file, last.end, size)? else {
            return Ok(last);
        };
        let end = last.end.saturating_add(8).saturating_add(length);
        if end > size {
            return Ok(last);
        }
        last = Last {
            start: last.end,
            end,
        };
    }
    Ok(last)
}

// Whether zeros alone stand from a place on.
fn ends_in_zeros(file: &mut File, at: u64, size: u64) -> io::Result<bool> {
    file.seek(SeekFrom::Start(at))?;
    let mut buffer = [0u8; 65_536];
    for _ in 0..=size {
        let n = file.read(&mut buffer)?;
        if n == 0 {
            return Ok(true);
        }
        if !is_end(&buffer[..n]) {
            return Ok(false);
        }
    }
    Ok(false)
}

// Whether what stands behind the last record is the beginning of one more, with zeros behind it or nothing.
fn is_cut_off(file: &mut File, at: u64, size: u64) -> io::Result<bool> {
    let mut head = [0u8; 8];
    let count = size.saturating_sub(at).min(8) as usize;
    read_at(file, at, &mut head[..count])?;
    if text_length(&head).is_some() {
        return Ok(true);
    }
    let same = head.iter().zip(&MAGIC).take_while(|(a, b)| a == b).count();
    ends_in_zeros(file, at.saturating_add(same as u64), size)
}

// Whether these bytes store a block whose header stands for its transactions.
fn is_whole(alloc: Global, text: &[u8]) -> Result<bool, NoMemory> {
    let block = match block_of(alloc, text) {
        Ok(block) => block,
        Err(Refused::No(_)) => return Ok(false),
        Err(Refused::NoMemory) => return Err(NoMemory),
    };
    match check_commitment(alloc, &block) {
        Ok(()) => Ok(true),
        Err(Refused::No(_)) => Ok(false),
        Err(Refused::NoMemory) => Err(NoMemory),
    }
}

// Whether a record has no block, or one whose header stands for other transactions, and ends in zeros.
fn is_broken(alloc: Global, file: &mut File, last: Last) -> io::Result<bool> {
    let size = last
        .end
        .saturating_sub(last.start)
        .saturating_sub(8)
        .min(MOST_TEXT) as usize;
    let mut text = Vec::new(alloc);
    text.resize(size, 0u8)?;
    read_at(file, last.start.saturating_add(8), &mut text)?;
    if !is_end(&text[size.saturating_sub(ZEROS)..]) {
        return Ok(false);
    }
    match is_whole(alloc, &text) {
        Ok(whole) => Ok(!whole),
        Err(NoMemory) => Err(io::Error::from(ErrorKind::OutOfMemory)),
    }
}

/// Where the last whole record of a file of blocks of this size ends, where what stands behind it is no more than a
/// record that was cut off, with zeros behind it or nothing; else its size.
///
/// # Errors
///
/// Where the system doesn't read the file.
pub(crate) fn whole_end(alloc: Global, file: &mut File, size: u64) -> io::Result<u64> {
    let last = last_whole(file, size)?;
    if last.end < size && !is_cut_off(file, last.end, size)? {
        return Ok(size);
    }
    if last.end > last.start && is_broken(alloc, file, last)? {
        return Ok(last.start);
    }
    Ok(last.end)
}
