//! Courses of calls over a hub whose outside is in memory.
ghost use Rattle.std.specs.Prelude.{◌≡◌, [], false};
ghost use Rattle.cf_wires.specs.{Tells};

use crate::course::{Course, Until};
use crate::doors::{is_none, stands_at};
use crate::guide::Joins;
use crate::held::{Held, Numbers};
use crate::lines::without_ticks;
use crate::outside::Counts;
use crate::replays::replayed;
use cf_bytes::PeerNo;
use cf_rows::Host;
use cf_wires::Wires;
use std::alloc::Global;

// Puts one of two words behind a text.
fn put_word(is_so: bool, word: &str, other: &str, out: &mut String) -> Option<()> {
    out.push(' ').ok()?;
    out.push_str(if is_so { word } else { other }).ok()
}

// The peer of a number.
fn peer_in(text: &str) -> Option<PeerNo> {
    Some(PeerNo(text.parse().ok()?))
}

// Sends the bytes of a step.
fn send<W: Wires + Joins + Drop>(
    alloc: Global,
    course: &mut Course<W>,
    step: &str,
    out: &mut String,
) -> Option<()> {
    let (number, digits) = step.split_once(':')?;
    let p = peer_in(number)?;
    let bytes = hex::decode(alloc, digits).ok()?;
    put_word(course.send(p, &bytes)?, "sent", "unsent", out)
}

// Makes a session again, from its lines.
fn replay(alloc: Global, session: &str, out: &mut String) -> Option<()> {
    let again = replayed(alloc, session)?;
    put_word(again.as_str() == session, "replayed", "other", out)
}

// Puts the lines of a session behind a text.
fn put_session(alloc: Global, session: &str, out: &mut String) -> Option<()> {
    out.push(' ').ok()?;
    out.push_str(without_ticks(alloc, session)?.as_str()).ok()
}

// A step that only looks.
fn look<W: Wires + Joins + Drop>(
    alloc: Global,
    course: &Course<W>,
    step: &str,
    out: &mut String,
) -> Option<()> {
    match step {
        "pieces" => course.put_peers(out),
        "bytes" => course.put_bytes(out),
        "firsts" => course.put_firsts(out),
        "ticks" => put_word(course.has_ticks()?, "ticks", "noticks", out),
        "recorded" => put_word(course.is_recorded()?, "recorded", "other", out),
        "joined" => put_word(course.is_joined(), "joined", "unjoined", out),
        "session" => put_session(alloc, course.session()?.as_str(), out),
        "replay" => replay(alloc, course.session()?.as_str(), out),
        _ => None,
    }
}

// How far a step takes deliveries.
fn until_in(verb: &str, rest: &str) -> Option<Until> {
    match verb {
        "take" => Some(Until::Others(rest.parse().ok()?)),
        "until" => Some(Until::Bytes(rest.parse().ok()?)),
        _ => None,
    }
}

// A step with something behind a colon.
fn act<W: Wires + Joins + Drop>(
    rt: &HostRuntime,
    course: &mut Course<W>,
    counts: &Counts,
    verb: &str,
    rest: &str,
    out: &mut String,
) -> Option<()> {
    match verb {
        "dial" => put_word(course.dial(rest)?, "dialled", "failed", out),
        "send" => send(rt.alloc(), course, rest, out),
        "close" => course.close(peer_in(rest)?),
        "full" => {
            let wanted: u32 = rest.parse().ok()?;
            put_word(stands_at(rt, &counts.reads, wanted), "full", "other", out)
        }
        _ => put_word(course.take(until_in(verb, rest)?)?, "taken", "few", out),
    }
}

// A step.
fn step<W: Wires + Joins + Drop>(
    rt: &HostRuntime,
    course: &mut Course<W>,
    counts: &Counts,
    step: &str,
    out: &mut String,
) -> Option<()> {
    if let Some((verb, rest)) = step.split_once(':') {
        return act(rt, course, counts, verb, rest, out);
    }
    match step {
        "tick" => put_word(course.take(Until::Tick)?, "tick", "notick", out),
        "all" => put_word(course.take(Until::End)?, "ended", "more", out),
        "prompt" => put_word(is_none(&counts.vain), "prompt", "late", out),
        "finish" => course.finish(),
        _ => look(rt.alloc(), course, step, out),
    }
}

// What steps come to in a course.
fn told<W: Wires + Joins + Drop>(
    rt: &HostRuntime,
    course: &mut Course<W>,
    counts: &Counts,
    steps: &str,
) -> Option<String> {
    let mut out = String::new(rt.alloc());
    for one in steps.split(' ') {
        step(rt, course, counts, one, &mut out)?;
    }
    Some(out)
}

// What steps come to over these wires.
fn played<W: Wires + Joins + Drop>(
    rt: &HostRuntime,
    wires: W,
    counts: &Counts,
    steps: &str,
) -> Option<String>
    requires new { Tells [] (W.told wires) }
    requires running { (W.told wires).finished ≡ false }
{
    let mut course = Course::new(rt.alloc(), wires);
    told(rt, &mut course, counts, steps)
}

// What the steps of a row come to over a hub.
fn over_hub<R: Host>(rt: HostRuntime, handle: R, numbers: Numbers, steps: &str) -> Option<String> {
    let counts = Counts::new(rt.alloc())?;
    let hub = Held::new(rt, handle, &counts, numbers)?;
    played(&rt, hub, &counts, steps)
}

/// What the steps of a row come to.
pub(crate) fn answer<R: Host>(rt: HostRuntime, handle: R, row: &str) -> Option<String> {
    let (threads, rest) = row.split_once(' ')?;
    let (starts, rest) = rest.split_once(' ')?;
    let (wanted, steps) = rest.split_once(' ')?;
    over_hub(rt, handle, Numbers::read(threads, starts, wanted)?, steps)
}
