//! Streams of frames.
ghost use Rattle.cf_frame.specs.{IsFrame};

use crate::fields::{bytes_in, digits_of};
use cf_frame::{Frame, Framer, encode};
use std::alloc::Global;

// The most frames of a stream.
const MOST: usize = 100;

// A line of a frame: its command, its payload, and its spelling.
fn line_of(alloc: Global, frame: &Frame) -> Option<String>
    requires { IsFrame frame.now }
{
    let command = str::from_utf8(&frame.command).ok()?.trim_end_matches('\0');
    let payload = digits_of(alloc, frame.payload.as_slice())?;
    let spelled = encode(alloc, &frame.command, frame.payload.as_slice()).ok()?;
    let digits = hex::encode(alloc, &spelled).ok()?;
    format!(in alloc; "{command} {payload} {digits}").ok()
}

// Puts a line below the others.
fn put_line(line: &str, out: &mut String) -> Option<()> {
    if !out.is_empty() {
        out.push('\n').ok()?;
    }
    out.push_str(line).ok()
}

// The frames that a framer has now, and then `waits` or the fault.
fn put_frames(alloc: Global, framer: &mut Framer, out: &mut String) -> Option<()> {
    for _frame in 0..MOST {
        match framer.next() {
            Ok(Some(frame)) => put_line(&line_of(alloc, &frame)?, out)?,
            Ok(None) => return put_line("waits", out),
            Err(fault) => return put_line(&format!(in alloc; "{fault:?}").ok()?, out),
        }
    }
    None
}

// Puts the frames of these pieces, as they come.
fn put_pieces(alloc: Global, framer: &mut Framer, pieces: &str, out: &mut String) -> Option<()> {
    for piece in pieces.split(' ') {
        framer.feed(&bytes_in(alloc, piece)?).ok()?;
        put_frames(alloc, framer, out)?;
    }
    Some(())
}

/// The frames of a row's pieces, as they come.
pub(crate) fn answer(alloc: Global, row: &str) -> Option<String> {
    let mut out = String::new(alloc);
    put_pieces(alloc, &mut Framer::new(alloc), row, &mut out)?;
    Some(out)
}

// Puts a word behind the others.
fn put_next(word: &str, out: &mut String) -> Option<()> {
    if !out.is_empty() {
        out.push(' ').ok()?;
    }
    out.push_str(word).ok()
}

// One call of `fill`: how many bytes it takes, which is put behind the others.
fn fill_once(alloc: Global, framer: &mut Framer, piece: &[u8], out: &mut String) -> Option<usize> {
    let taken = framer.fill(piece).ok()?;
    put_next(&format!(in alloc; "{taken}").ok()?, out)?;
    Some(taken)
}

// Where a whole frame waits: how many bytes are taken of these, and then the frame is let go.
fn let_go(alloc: Global, framer: &mut Framer, bytes: &[u8], out: &mut String) -> Option<()> {
    if !matches!(framer.next_lent(), Ok(Some(_))) {
        return Some(());
    }
    fill_once(alloc, framer, bytes, out)?;
    if let Ok(Some(_)) = framer.next_lent() {
        framer.done();
    }
    Some(())
}

// What waits at the end: no whole frame, or what is at fault.
fn put_end(alloc: Global, framer: &Framer, out: &mut String) -> Option<()> {
    match framer.next_lent() {
        Ok(_) => put_next("waits", out),
        Err(fault) => put_next(&format!(in alloc; "{fault:?}").ok()?, out),
    }
}

// Puts how many of these bytes a framer takes in each call of `fill`, and what waits at the end.
fn put_fills(
    alloc: Global,
    framer: &mut Framer,
    bytes: &[u8],
    most: usize,
    out: &mut String,
) -> Option<()> {
    let mut rest = bytes;
    for _call in 0..bytes.len() {
        let piece = rest.get(..most).unwrap_or(rest);
        let taken = fill_once(alloc, framer, piece, out)?;
        let_go(alloc, framer, bytes, out)?;
        rest = rest.get(taken..)?;
        if taken == 0 || rest.is_empty() {
            break;
        }
    }
    put_end(alloc, framer, out)
}

/// How many of a row's bytes a framer takes in each call of `fill`.
pub(crate) fn filled(alloc: Global, row: &str) -> Option<String> {
    let (most, digits) = row.split_once(' ')?;
    let most: usize = most.parse().ok()?;
    let bytes = bytes_in(alloc, digits)?;
    let mut out = String::new(alloc);
    put_fills(alloc, &mut Framer::new(alloc), &bytes, most, &mut out)?;
    Some(out)
}
