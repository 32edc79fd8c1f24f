//! Calls of the program that serve connections in memory.
ghost use Rattle.std.specs.Prelude.{◌≡◌, All, Some, [], IfSome, false};

use crate::conversations::{MOMENT, NONCE, conn_in};
use crate::fields::{bytes_in, digits_of, numbers_in, texts_in};
use cf_bytes::{Files, MapFiles, show};
use cf_conn::{MemoryConn, MemoryEnd};
use cf_link::ListLink;
use cf_rows::{Host, Limited, answered, no_link};
use cf_tasks::Choice;
use cf_wires::MemoryWires;
use std::alloc::Global;
use std::thread::Threads;

/// Does with each task what a field tells.
pub(crate) fn spawner_in<R: Threads + Copy + Drop>(rt: R, field: &str) -> Option<Limited<R>> {
    match field {
        "threads" => Some(Limited::new(rt, Choice::InThread, u32::MAX)),
        "place" => Some(Limited::new(rt, Choice::InPlace, u32::MAX)),
        "refused" => Some(Limited::new(rt, Choice::Refuse, 0)),
        _ => None,
    }
}

// The connections of a field, each of which has room for so many bytes.
fn conns_in(alloc: Global, field: &str) -> Option<Vec<MemoryConn>>
    ensures { IfSome result (λ v. All (λ c. (c.source.ended ≡ false) × (c.source.plan.faults ≡ 0)
        × (c.sink.plan.faults ≡ 0) × (c.sink.bytes ≡ [])) v.items) }
{
    let mut conns = Vec::new(alloc);
    for asked in field.split(' ') {
        let conn = conn_in(alloc, asked, 4096, 10_000)?;
        conns.reserve(1).ok()?;
        conns.push_reserved(conn);
    }
    Some(conns)
}

// How the call ended, how each connection ended, and what was written to it, a line each.
fn shown(alloc: Global, ended: &str, given: &[(MemoryEnd, u8)]) -> Option<String> {
    let mut text = String::from_str(alloc, ended.trim_end()).ok()?;
    for (end, how) in given {
        let digits = digits_of(alloc, end.written())?;
        let line = format!(in alloc; "\n{how} {digits}").ok()?;
        text.push_str(line.as_str()).ok()?;
    }
    Some(text)
}

// The answer to these words over a link. The wires dial nobody.
fn told<R: Host>(
    rt: R,
    alloc: Global,
    words: &[String],
    files: &mut MapFiles,
    link: &mut ListLink<MemoryConn>,
    spawner: &mut Limited<R>,
) -> Option<String> {
    let mut wires = MemoryWires::new(alloc).ok()?;
    answered(
        rt,
        alloc,
        words,
        (MOMENT, NONCE),
        0,
        files,
        &mut wires,
        link,
        spawner,
    )
}

// A link to the connections of a row, some of whose calls fail.
fn link_in(alloc: Global, failing: &str, asked: &str) -> Option<ListLink<MemoryConn>> {
    let mut link = ListLink::new(alloc, conns_in(alloc, asked)?).ok()?;
    link.failing(&numbers_in(alloc, failing)?).ok()?;
    Some(link)
}

// Puts the file `f` of a row. These calls of the files fail.
fn put_file(alloc: Global, blocks: &str, failing: &str, files: &mut MapFiles) -> Option<()> {
    files.write(alloc, "f", &bytes_in(alloc, blocks)?).ok()?;
    files.failing(&numbers_in(alloc, failing)?).ok()
}

// The answer to these words over the file of a row.
fn told_of<R: Host>(
    rt: R,
    alloc: Global,
    words: &[String],
    blocks: &str,
    failing: &str,
    link: &mut ListLink<MemoryConn>,
    spawner: &mut Limited<R>,
) -> Option<String> {
    let mut files = MapFiles::new(alloc);
    put_file(alloc, blocks, failing, &mut files)?;
    told(rt, alloc, words, &mut files, link, spawner)
}

// The answer to a call over a link, where a field tells what is done with tasks.
fn answered_by<R: Host>(
    rt: R,
    alloc: Global,
    way: &str,
    words: &str,
    blocks: &str,
    failing: &str,
    link: &mut ListLink<MemoryConn>,
) -> Option<String> {
    let mut spawner = spawner_in(rt, way)?;
    let words = texts_in(alloc, words, ' ')?;
    told_of(rt, alloc, &words, blocks, failing, link, &mut spawner)
}

// The call of a row's fields: what is done with tasks, which calls of the link and behind a `/` of the files fail, the
// words, the block file, and what the peers send.
fn called<R: Host>(
    rt: R,
    alloc: Global,
    limits: &str,
    words: &str,
    blocks: &str,
    asked: &str,
) -> Option<String> {
    let (way, failing) = limits.split_once(' ')?;
    let (failing, unread) = failing.split_once('/').unwrap_or((failing, "-"));
    let mut link = link_in(alloc, failing, asked)?;
    let text = answered_by(rt, alloc, way, words, blocks, unread, &mut link)?;
    shown(alloc, text.as_str(), link.given())
}

/// The height and the hash that a call announces before it finds that nobody connects.
pub(crate) fn announced<R: Host>(rt: R, alloc: Global, row: &str) -> Option<String> {
    let (words, blocks) = row.split_once('|')?;
    let mut link = no_link(alloc)?;
    answered_by(rt, alloc, "place", words, blocks, "-", &mut link)?;
    match link.announced() {
        Some((height, tip)) => format!(in alloc; "{height} {}", show(alloc, &tip).ok()?).ok(),
        None => String::from_str(alloc, "none").ok(),
    }
}

/// How the call of a row ends, and how each of its connections did.
pub(crate) fn answer<R: Host>(rt: R, alloc: Global, row: &str) -> Option<String> {
    let (limits, rest) = row.split_once('|')?;
    let (words, rest) = rest.split_once('|')?;
    let (blocks, asked) = rest.split_once('|')?;
    called(rt, alloc, limits, words, blocks, asked)
}
