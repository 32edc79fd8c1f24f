//! The queue between the threads of a hub, in one thread.
use cf_tasks::{Queue, Sender};
use std::alloc::Global;
use std::sync::Wait;

// Sends the numbers from 0 on, so many. How many were taken.
fn sent<R: Wait>(rt: &R, sender: &mut Sender<u32>, count: u32) -> u32 {
    let mut taken = 0u32;
    for number in 0..count {
        if sender.send(rt, number).is_ok() {
            taken = taken.saturating_add(1);
        }
    }
    taken
}

// Puts the next entries behind a text, so many.
fn put_next<R: Wait>(
    rt: &R,
    alloc: Global,
    queue: &mut Queue<u32>,
    count: u32,
    out: &mut String,
) -> Option<()> {
    for _ in 0..count {
        let entry = queue.next(rt);
        let word = format!(in alloc; " {}:{}", entry.from, entry.kind).ok()?;
        out.push_str(word.as_str()).ok()?;
    }
    Some(())
}

// What two senders put into a queue of 64 places, so many each, comes out of it.
fn passed<R: Wait>(rt: &R, alloc: Global, count: u32, out: &mut String) -> Option<Sender<u32>> {
    let mut queue = Queue::new(alloc, 64).ok()?;
    let mut first = queue.sender().ok()?;
    let mut second = queue.sender().ok()?;
    let all = sent(rt, &mut first, count).saturating_add(sent(rt, &mut second, count));
    put_next(rt, alloc, &mut queue, all, out)?;
    Some(second)
}

/// What comes out of a queue of 64 places into which two senders put so many entries each, at most 32; and whether one
/// is taken once its receiver is gone.
pub(crate) fn answer<R: Wait>(rt: &R, alloc: Global, row: &str) -> Option<String> {
    let count: u32 = row.parse().ok()?;
    if count > 32 {
        return None;
    }
    let mut out = String::new(alloc);
    let mut sender = passed(rt, alloc, count, &mut out)?;
    let word = if sender.send(rt, 0).is_ok() {
        " taken"
    } else {
        " closed"
    };
    out.push_str(word).ok()?;
    Some(out)
}
