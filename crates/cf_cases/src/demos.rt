//! Demos over played peers, and the session of one.
use crate::runs::replayed;
use cf_cli::{demo_text, session};
use cf_played::Played;
use cf_rows::Host;
use cf_tasks::InThreads;
use std::alloc::Global;
use std::thread::Threads;

// The text of a demo over new peers.
fn told<R: Host>(rt: R, alloc: Global, workers: u32, seed: u32, blocks: u32) -> Option<String> {
    if workers == 0 || workers > 64 || blocks == 0 || blocks > 1000 {
        return None;
    }
    let mut played = Played::new(alloc).ok()?;
    let mut spawner = InThreads::new(rt);
    demo_text(rt, alloc, seed, blocks, workers, &mut spawner, &mut played).ok()
}

// The texts of two demos, each over new peers.
fn twice<R: Host>(rt: R, alloc: Global, workers: u32, seed: u32, blocks: u32) -> Option<String> {
    let first = told(rt, alloc, workers, seed, blocks)?;
    let second = told(rt, alloc, workers, seed, blocks)?;
    format!(in alloc; "{first}{second}").ok()
}

/// The text of the demo of a row, and again over new peers.
pub(crate) fn demo<R: Host>(rt: R, alloc: Global, row: &str) -> Option<String> {
    let (workers, rest) = row.split_once(' ')?;
    let (seed, blocks) = rest.split_once(' ')?;
    let workers: u32 = workers.parse().ok()?;
    let seed: u32 = seed.parse().ok()?;
    let blocks: u32 = blocks.parse().ok()?;
    twice(rt, alloc, workers, seed, blocks)
}

// The session of one honest peer.
fn session_of(rt: &(impl Threads + Sync), alloc: Global, seed: u32, blocks: u32) -> Option<String> {
    if blocks > 1000 {
        return None;
    }
    let mut played = Played::new(alloc).ok()?;
    session(rt, alloc, seed, blocks, &mut played).ok()
}

/// What `replay` makes of the session of a row, with the row's watch file.
pub(crate) fn recorded<R: Host>(rt: R, alloc: Global, row: &str) -> Option<String> {
    let (seed, rest) = row.split_once(' ')?;
    let (blocks, watch) = rest.split_once(' ')?;
    let seed: u32 = seed.parse().ok()?;
    let blocks: u32 = blocks.parse().ok()?;
    let text = session_of(&rt, alloc, seed, blocks)?;
    replayed(rt, alloc, watch, text.as_str())
}
