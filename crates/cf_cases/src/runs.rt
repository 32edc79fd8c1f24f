//! Whole calls of the program in memory.
ghost use Rattle.std.specs.Prelude.{◌≡◌, [], IfSome, false};
ghost use Rattle.cf_wires.specs.{log_of, finished_of};

use crate::chains::chain_in;
use crate::fields::{bytes_in, file_in, numbers_in, texts_in};
use crate::servings::spawner_in;
use cf_bytes::{FileFail, Files, MapFiles};
use cf_input::read_session;
use cf_make::records;
use cf_rows::{Host, Limited, answered, no_link};
use cf_wires::MemoryWires;
use std::alloc::Global;

// So many of the first bytes of a made chain's records.
fn front_of(alloc: Global, chain: &str, count: &str) -> Option<Vec<u8>> {
    let count = count.parse().ok()?;
    let mut bytes = records(alloc, &chain_in(alloc, chain)?).ok()?;
    bytes.truncate(count);
    Some(bytes)
}

// The bytes of a file of blocks: in hexadecimal, or `CHAIN<COUNT` for so many of the first bytes of a made chain's
// records.
fn blocks_in(alloc: Global, field: &str) -> Option<Vec<u8>> {
    match field.split_once('<') {
        Some((chain, count)) => front_of(alloc, chain, count),
        None => bytes_in(alloc, field),
    }
}

// Puts the files of a row: `w`, `s` and `f`.
fn put_files(
    alloc: Global,
    files: &mut MapFiles,
    watch: &str,
    session: &str,
    blocks: &str,
) -> Option<()> {
    let watch = file_in(alloc, watch)?;
    files.write(alloc, "w", watch.as_bytes()).ok()?;
    files.write(alloc, "s", session.as_bytes()).ok()?;
    let blocks = blocks_in(alloc, blocks)?;
    files.write(alloc, "f", &blocks).ok()
}

// The files of a row.
fn files_of(alloc: Global, watch: &str, session: &str, blocks: &str) -> Option<MapFiles> {
    let mut files = MapFiles::new(alloc);
    put_files(alloc, &mut files, watch, session, blocks)?;
    Some(files)
}

// Wires that give what a good session says, and else dial no one. These calls of theirs fail.
pub(crate) fn wires_of(alloc: Global, session: &str, failing: &str) -> Option<MemoryWires>
    ensures { IfSome result (λ w. (log_of w ≡ []) × (finished_of w ≡ false)) }
{
    let mut wires = MemoryWires::new(alloc).ok()?;
    if session.len() < 1_000_000 {
        if let Ok(session) = read_session(alloc, session.as_bytes()) {
            wires.load(session.dials, session.deliveries);
        }
    }
    wires.failing(&numbers_in(alloc, failing)?).ok()?;
    Some(wires)
}

// Puts what stands under the name `r` behind a text, if anything does.
fn put_record(alloc: Global, files: &mut MapFiles, out: &mut String) -> Option<()> {
    match files.read(alloc, "r", 1_000_000) {
        Ok(bytes) => out.push_str(str::from_utf8(&bytes).ok()?).ok(),
        Err(FileFail::Failed) => Some(()),
        Err(_) => None,
    }
}

// Puts what stands under the name `b` behind a text in hexadecimal, if anything does.
fn put_blocks(alloc: Global, files: &mut MapFiles, out: &mut String) -> Option<()> {
    match files.read(alloc, "b", 1_000_000) {
        Ok(bytes) => out.push_str(&hex::encode(alloc, &bytes).ok()?).ok(),
        Err(FileFail::Failed) => Some(()),
        Err(_) => None,
    }
}

// Puts what a call has written to files behind a text.
fn put_written(alloc: Global, files: &mut MapFiles, out: &mut String) -> Option<()> {
    put_record(alloc, files, out)?;
    put_blocks(alloc, files, out)
}

// The answer to these words, over these wires, by this spawner, into a sink with so much room.
fn told<R: Host>(
    rt: R,
    alloc: Global,
    words: &[String],
    files: &mut MapFiles,
    wires: &mut MemoryWires,
    spawner: &mut Limited<R>,
    room: usize,
) -> Option<String>
    requires { (log_of wires.old ≡ []) × (finished_of wires.old ≡ false) }
{
    let mut link = no_link(alloc)?;
    answered(
        rt,
        alloc,
        words,
        (0, 0),
        room,
        files,
        wires,
        &mut link,
        spawner,
    )
}

// That answer, and what is written to files.
fn finished<R: Host>(
    rt: R,
    alloc: Global,
    words: &[String],
    files: &mut MapFiles,
    wires: &mut MemoryWires,
    spawner: &mut Limited<R>,
    room: usize,
) -> Option<String>
    requires { (log_of wires.old ≡ []) × (finished_of wires.old ≡ false) }
{
    let mut text = told(rt, alloc, words, files, wires, spawner, room)?;
    put_written(alloc, files, &mut text)?;
    Some(text)
}

// The same over the wires of a session, of which these calls fail, and with what is done with tasks.
fn finished_over<R: Host>(
    rt: R,
    alloc: Global,
    words: &[String],
    files: &mut MapFiles,
    session: &str,
    failing: &str,
    way: &str,
    room: usize,
) -> Option<String> {
    let mut spawner = spawner_in(rt, way)?;
    let mut wires = wires_of(alloc, session, failing)?;
    finished(rt, alloc, words, files, &mut wires, &mut spawner, room)
}

// The answer over the wires of a session, where the first field tells the room, the calls of the wires that fail, and
// each behind a `/` those of the files and what is done with tasks.
fn answered_over<R: Host>(
    rt: R,
    alloc: Global,
    limits: &str,
    words: &[String],
    files: &mut MapFiles,
    session: &str,
) -> Option<String> {
    let (room, failing) = limits.split_once(' ')?;
    let (failing, rest) = failing.split_once('/').unwrap_or((failing, "-"));
    let (unread, way) = rest.split_once('/').unwrap_or((rest, "threads"));
    let room = room.parse().ok()?;
    files.failing(&numbers_in(alloc, unread)?).ok()?;
    finished_over(rt, alloc, words, files, session, failing, way, room)
}

// The call of a row's fields: the room, the calls of the wires that fail, the words, and the files.
fn called<R: Host>(
    rt: R,
    alloc: Global,
    limits: &str,
    words: &str,
    watch: &str,
    session: &str,
    blocks: &str,
) -> Option<String> {
    let words = texts_in(alloc, words, ' ')?;
    let session = file_in(alloc, session)?;
    let mut files = files_of(alloc, watch, &session, blocks)?;
    answered_over(rt, alloc, limits, &words, &mut files, &session)
}

/// How `replay` of a session ends, and what it writes, with the watch file of a field.
pub(crate) fn replayed<R: Host>(
    rt: R,
    alloc: Global,
    watch: &str,
    session: &str,
) -> Option<String> {
    let words = texts_in(alloc, "cf replay w s", ' ')?;
    let mut files = files_of(alloc, watch, session, "-")?;
    finished_over(rt, alloc, &words, &mut files, "", "-", "threads", 5000)
}

/// How the call of a row ends, and what it writes.
pub(crate) fn answer<R: Host>(rt: R, alloc: Global, row: &str) -> Option<String> {
    let (limits, rest) = row.split_once('|')?;
    let (words, rest) = rest.split_once('|')?;
    let (watch, rest) = rest.split_once('|')?;
    let (session, blocks) = rest.split_once('|')?;
    called(rt, alloc, limits, words, watch, session, blocks)
}
