//! Whole calls of the program over hubs whose outside is in memory.
ghost use Rattle.std.specs.Prelude.{◌≡◌, IfSome, [], false};
ghost use Rattle.cf_wires.specs.{Tells};

use crate::held::{Held, Numbers};
use crate::outside::Counts;
use crate::row::{watch_in, words_in};
use cf_bytes::MapFiles;
use cf_conn::MemoryConn;
use cf_link::ListLink;
use cf_rows::{Host, answered, no_link};
use cf_tasks::InThreads;
use cf_wires::Wires;
use std::alloc::Global;

// A hub that has dialled nobody, as the numbers of a row tell it.
fn wires_in<R: Host>(rt: HostRuntime, handle: R, numbers: &str) -> Option<Held<R>>
    ensures told { IfSome result (λ n. Tells [] n.told) }
    ensures finished { IfSome result (λ n. n.told.finished ≡ false) }
{
    let (threads, rest) = numbers.split_once(' ')?;
    let (starts, wanted) = rest.split_once(' ')?;
    let numbers = Numbers::read(threads, starts, wanted)?;
    let counts = Counts::new(rt.alloc())?;
    Held::new(rt, handle, &counts, numbers)
}

// The answer to these words over these wires, and what was written.
fn finished<R: Host, W: Wires + Drop>(
    rt: R,
    alloc: Global,
    words: &[String],
    files: &mut MapFiles,
    mut wires: W,
    link: &mut ListLink<MemoryConn>,
) -> Option<String>
    requires new { Tells [] (W.told wires) }
    requires running { (W.told wires).finished ≡ false }
{
    answered(
        rt,
        alloc,
        words,
        (0, 0),
        1000,
        files,
        &mut wires,
        link,
        &mut InThreads::new(rt),
    )
}

// The answer to the words of a call over a new hub, and what was written.
fn called<R: Host>(
    rt: HostRuntime,
    handle: R,
    numbers: &str,
    files: &mut MapFiles,
    call: &str,
) -> Option<String> {
    let alloc = rt.alloc();
    let words = words_in(alloc, call)?;
    let mut link = no_link(alloc)?;
    let wires = wires_in(rt, handle, numbers)?;
    finished(handle, alloc, &words, files, wires, &mut link)
}

// The answers to two calls over the same files, and whether they are the same.
fn twice<R: Host>(
    rt: HostRuntime,
    handle: R,
    numbers: &str,
    files: &mut MapFiles,
    first: &str,
    second: &str,
) -> Option<String> {
    let first = called(rt, handle, numbers, files, first)?;
    let second = called(rt, handle, numbers, files, second)?;
    let word = if first.as_str() == second.as_str() {
        "same"
    } else {
        "other"
    };
    format!(in rt.alloc(); "{first}{second}{word}").ok()
}

/// How the call of a row ends, and what it writes; and so of a second one, over what the first has left of files.
pub(crate) fn answer<R: Host>(rt: HostRuntime, handle: R, row: &str) -> Option<String> {
    let (numbers, rest) = row.split_once('|')?;
    let (watch, calls) = rest.split_once('|')?;
    let mut files = watch_in(rt.alloc(), watch)?;
    match calls.split_once('|') {
        Some((first, second)) => twice(rt, handle, numbers, &mut files, first, second),
        None => called(rt, handle, numbers, &mut files, calls),
    }
}
