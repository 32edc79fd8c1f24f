//! A chain that the program serves over TCP, and follows, in one process.
use crate::doors::{Count, count, same};
use crate::following::follow;
use crate::port::listening;
use crate::serving::serve;
use cf_rows::Host;
use std::thread;

// Whether the call that serves has ended with `Done`, and has written nothing.
fn is_done(told: &Option<String>) -> bool {
    match told {
        Some(text) => text.as_str() == "0 Done\n",
        None => false,
    }
}

// What the calls that follow come to, once somebody listens at a port that is told.
fn followed<R: Host>(
    rt: HostRuntime,
    handle: R,
    words: &str,
    watch: &str,
    port: &Count,
) -> Option<String> {
    let number = listening(&rt, port)?;
    follow(rt, handle, words, watch, number)
}

// That text, and behind it whether the call that serves has ended well.
fn with_word(mut text: String, told: &Option<String>) -> Option<String> {
    text.push_str(if is_done(told) { "served" } else { "unserved" })
        .ok()?;
    Some(text)
}

// What the calls that follow come to, and whether the one that serves ends with `Done` and writes nothing.
fn both<R: Host>(
    rt: HostRuntime,
    handle: R,
    serving: String,
    blocks: String,
    words: &str,
    watch: &str,
) -> Option<String> {
    let port = count(rt.alloc())?;
    let theirs = same(&port)?;
    let server = thread::spawn(&handle, move || serve(rt, handle, serving, blocks, theirs)).ok()?;
    match followed(rt, handle, words, watch, &port) {
        Some(text) => with_word(text, &server.join(&handle)),
        None => None,
    }
}

/// What the calls of a row come to: each that follows, and whether the one that serves ends with `Done`.
pub(crate) fn answer<R: Host>(rt: HostRuntime, handle: R, row: &str) -> Option<String> {
    let (serving, rest) = row.split_once('|')?;
    let (words, rest) = rest.split_once('|')?;
    let (watch, blocks) = rest.split_once('|')?;
    let serving = String::from_str(rt.alloc(), serving).ok()?;
    let blocks = String::from_str(rt.alloc(), blocks).ok()?;
    both(rt, handle, serving, blocks, words, watch)
}
