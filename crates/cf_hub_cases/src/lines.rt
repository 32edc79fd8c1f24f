//! What the lines of a session tell.
use crate::outside::digits_in;
use std::alloc::Global;

// Puts the pieces of a peer behind a text, and this mark behind each; the text `gone` stands for its end.
fn put_pieces(alloc: Global, p: u32, lines: &str, mark: &str, out: &mut String) -> Option<()> {
    let got = format!(in alloc; "got {p} ").ok()?;
    let gone = format!(in alloc; "gone {p}").ok()?;
    for line in lines.lines() {
        if let Some(digits) = line.strip_prefix(got.as_str()) {
            out.push_str(digits).ok()?;
            out.push_str(mark).ok()?;
        }
        if line == gone.as_str() {
            out.push_str("gone").ok()?;
        }
    }
    Some(())
}

// Puts what came of each of so many peers behind a text, with this mark behind each piece.
fn put_marked(alloc: Global, dials: u32, lines: &str, mark: &str, out: &mut String) -> Option<()> {
    for place in 0..dials {
        let p = place.saturating_add(1);
        out.push_str(format!(in alloc; " {p}:").ok()?.as_str())
            .ok()?;
        put_pieces(alloc, p, lines, mark, out)?;
    }
    Some(())
}

/// Puts the pieces of each of so many peers behind a text.
pub(crate) fn put_peers(alloc: Global, dials: u32, lines: &str, out: &mut String) -> Option<()> {
    put_marked(alloc, dials, lines, ".", out)
}

/// Puts the bytes of each of so many peers behind a text.
pub(crate) fn put_bytes(alloc: Global, dials: u32, lines: &str, out: &mut String) -> Option<()> {
    put_marked(alloc, dials, lines, "", out)
}

// The digits that came of a peer, in one.
fn joined(alloc: Global, p: u32, lines: &str) -> Option<String> {
    let got = format!(in alloc; "got {p} ").ok()?;
    let mut all = String::new(alloc);
    for line in lines.lines() {
        if let Some(digits) = line.strip_prefix(got.as_str()) {
            all.push_str(digits).ok()?;
        }
    }
    Some(all)
}

// Whether what came of a peer is the first of what its dial line tells.
fn is_first(alloc: Global, p: u32, dial: &str, lines: &str) -> Option<bool> {
    let all = joined(alloc, p, lines)?;
    match digits_in(dial) {
        Some(digits) => Some(digits.starts_with(all.as_str())),
        None => Some(all.as_str().is_empty()),
    }
}

// How many lines tell of bytes.
fn pieces_in(lines: &str) -> u32 {
    let mut count = 0u32;
    for line in lines.lines() {
        if line.starts_with("got ") {
            count = count.saturating_add(1);
        }
    }
    count
}

/// Puts behind a text of each peer whether its pieces are the first of what its name tells, and how many pieces came.
pub(crate) fn put_firsts(alloc: Global, dials: &str, lines: &str, out: &mut String) -> Option<()> {
    let mut p = 0u32;
    for dial in dials.lines() {
        p = p.saturating_add(1);
        let word = if is_first(alloc, p, dial, lines)? {
            " first"
        } else {
            " other"
        };
        out.push_str(word).ok()?;
    }
    out.push_str(format!(in alloc; " {}", pieces_in(lines)).ok()?.as_str())
        .ok()
}

/// Whether there are ticks, and they are 1, 2 and so on.
pub(crate) fn are_in_order(alloc: Global, lines: &str) -> Option<bool> {
    let mut count = 0u32;
    for line in lines.lines() {
        if let Some(seconds) = line.strip_prefix("tick ") {
            count = count.saturating_add(1);
            if seconds != format!(in alloc; "{count}").ok()?.as_str() {
                return Some(false);
            }
        }
    }
    Some(count > 0)
}

/// The lines but for the ticks, parted by semicolons.
pub(crate) fn without_ticks(alloc: Global, lines: &str) -> Option<String> {
    let mut text = String::new(alloc);
    for line in lines.lines() {
        if !line.starts_with("tick ") {
            text.push_str(line).ok()?;
            text.push(';').ok()?;
        }
    }
    Some(text)
}
