//! Peers in memory: a peer is told as `honest=CHAIN`, `silent=CHAIN` or `omits:HEX:HEX=CHAIN`, with the scripts that
//! its filters leave out.
ghost use Rattle.std.specs.Prelude.{◌≡◌, ◌<◌, [], length};
ghost use Rattle.cf_played.specs.{log_of, peers_of};

use crate::chains::chain_in;
use crate::fields::{bytes_in, put_digits, put_word};
use cf_block::Script;
use cf_bytes::{Listed, PeerNo};
use cf_played::{Manner, Played};
use cf_wires::{Delivery, Wires};
use std::alloc::Global;
use std::thread::Threads;

// The scripts of a field, parted by colons.
fn scripts_in(alloc: Global, text: &str) -> Option<Listed<Script>> {
    let mut scripts = Listed::new(alloc);
    for digits in text.split(':') {
        scripts
            .push(Script::from_vec(bytes_in(alloc, digits)?))
            .ok()?;
    }
    Some(scripts)
}

fn kind_in(alloc: Global, text: &str) -> Option<Manner> {
    match text {
        "honest" => Some(Manner::Honest),
        "silent" => Some(Manner::Silent),
        other => Some(Manner::Omits(scripts_in(alloc, other.strip_prefix("omits:")?)?)),
    }
}

// Adds the peer that a text tells, unless there are eight.
fn add_peer(
    rt: &(impl Threads + Sync),
    alloc: Global,
    played: &mut Played,
    text: &str,
) -> Option<()>
    requires { log_of played.old ≡ [] }
    ensures { log_of played.new ≡ [] }
{
    let (kind, chain) = text.split_once('=')?;
    if played.len() >= 8 {
        return None;
    }
    let chain = chain_in(alloc, chain)?;
    let kind = kind_in(alloc, kind)?;
    played.add(rt, &chain, kind).ok()
}

// Adds the two peers of a field, and dials the first.
fn add_both(
    rt: &(impl Threads + Sync),
    alloc: Global,
    played: &mut Played,
    text: &str,
) -> Option<()>
    requires { log_of played.old ≡ [] }
{
    let (first, second) = text.split_once(',')?;
    add_peer(rt, alloc, played, first)?;
    add_peer(rt, alloc, played, second)?;
    played.dial("any name").ok()?;
    Some(())
}

fn put_delivery(alloc: Global, d: &Delivery, out: &mut String) -> Option<()> {
    match d {
        Delivery::Got(p, piece) => {
            put_word(&format!(in alloc; "{}", p.0).ok()?, out)?;
            put_digits(alloc, piece.as_slice(), out)
        }
        Delivery::Tick(seconds) => put_word(&format!(in alloc; "tick {seconds}").ok()?, out),
        Delivery::Gone(_) | Delivery::Ended => None,
    }
}

// A step of a row: `P:HEX` sends bytes to a peer, and `.` takes a delivery.
fn put_step(alloc: Global, played: &mut Played, step: &str, out: &mut String) -> Option<()> {
    if step == "." {
        return put_delivery(alloc, &played.next().ok()?, out);
    }
    let (number, digits) = step.split_once(':')?;
    let bytes = bytes_in(alloc, digits)?;
    played.send(PeerNo(number.parse().ok()?), &bytes).ok()
}

// The deliveries that these steps take.
fn told(alloc: Global, played: &mut Played, steps: &str) -> Option<String> {
    let mut out = String::new(alloc);
    for step in steps.split(' ') {
        put_step(alloc, played, step, &mut out)?;
    }
    Some(out)
}

/// The deliveries that the steps of a row take.
pub(crate) fn answer(rt: &(impl Threads + Sync), alloc: Global, row: &str) -> Option<String> {
    let (peers, steps) = row.split_once(' ')?;
    let mut played = Played::new(alloc).ok()?;
    add_both(rt, alloc, &mut played, peers)?;
    told(alloc, &mut played, steps)
}
