//! A peer that is heard over a hub whose outside tells all that it gives. What comes of it is proved to be what it
//! gave.
ghost use Rattle.std.specs.Prelude.{◌≡◌, ℕ, ◌++◌, ◌∷◌, ◌||◌, List, [], true, false, IfSome, Some, map};
ghost use Rattle.cf_hub.specs.{told_of, begun, pulse_in, piece_in, is_gone_of, tick_in};
ghost use Rattle.cf_hub_cases.specs.declared.telling.ToldPulse.{ToldPulse};
ghost use Rattle.cf_hub_cases.specs.declared.telling.ToldSource.{ToldSource};
ghost use Rattle.cf_hub_cases.specs.Stays.{OnlyHears, OnlySends};
ghost use Rattle.cf_hub_cases.specs.Telling.{up_to, Coming, HasText, Keeps};
ghost use Rattle.cf_tasks.specs.{IsStart};
ghost use Rattle.cf_wires.specs.{Tells};

use crate::doors::{amount, is_none};
use crate::telling::{ToldCounts, ToldDialer, ToldPeer, ToldPulse};
use cf_bytes::PeerNo;
use cf_hub::Hub;
use cf_rows::Host;
use cf_tasks::InThreads;
use cf_wires::{Delivery, Wires};
use std::alloc::Global;
use std::fmt::Write;
use std::marker::Model;
use std::sync::Wait;
use std::thread::Threads;

// The most deliveries that are taken.
const MOST: u32 = 100_000;

type ToldHub<R> = Hub<ToldDialer, ToldPulse<R>, R>;

/// What came of the first peer, whether it has gone, and the seconds that came.
#[derive(Drop)]
pub(crate) struct Came {
    bytes: Vec<u8>,
    gone: bool,
    ticks: Vec<u32>,
}

impl Model for Came {
    ghost use Rattle.cf_hub_cases.specs.Telling.{Coming};

    ghost Value = { Coming };

    ghost view = { λ c. record { bytes = c.bytes.items; gone = c.gone; ticks = c.ticks.items } };
}

// Nothing came.
fn nothing(alloc: Global) -> Came
    ensures { result ≡ record { bytes = []; gone = false; ticks = [] } }
{
    Came {
        bytes: Vec::new(alloc),
        gone: false,
        ticks: Vec::new(alloc),
    }
}

// Puts a delivery with what came. `None` for want of memory.
#[tactic(auto, using(std::proofs::lemmas::Grind::common_steps))]
fn put(came: &mut Came, delivery: &Delivery) -> Option<()>
    ensures bytes { IfSome result (λ _. came.new.bytes ≡ came.old.bytes ++ piece_in 1 delivery.now) }
    ensures gone { IfSome result (λ _. came.new.gone ≡ (came.old.gone || is_gone_of 1 delivery.now)) }
    ensures ticks { IfSome result (λ _. came.new.ticks ≡ came.old.ticks ++ tick_in delivery.now) }
{
    match delivery {
        Delivery::Got(p, piece) => {
            if p.0 == 1 {
                came.bytes.extend_from_slice(piece.as_slice()).ok()?;
            }
        }
        Delivery::Gone(p) => {
            came.gone = came.gone || p.0 == 1;
        }
        Delivery::Tick(seconds) => {
            came.ticks.push(*seconds).ok()?;
        }
        Delivery::Ended => {}
    }
    Some(())
}

// Takes a delivery. Whether more may come; `None` for want of memory.
fn take_one<R: Wait + Threads + Copy + Drop>(hub: &mut ToldHub<R>, came: &mut Came) -> Option<bool>
    requires { Keeps (told_of hub.old.book) came.old }
    ensures keeps { IfSome result (λ _. Keeps (told_of hub.new.book) came.new) }
    ensures stays { IfSome result (λ _. OnlyHears hub.old hub.new) }
{
    let Ok(delivery) = hub.next() else {
        return None;
    };
    put(came, &delivery)?;
    Some(!matches!(delivery, Delivery::Gone(_) | Delivery::Ended))
}

// Takes deliveries until so many seconds have come, or a peer has gone. `None` for want of memory.
fn take_until<R: Wait + Threads + Copy + Drop>(
    hub: &mut ToldHub<R>,
    came: &mut Came,
    ticks: usize,
) -> Option<()>
    requires { Keeps (told_of hub.old.book) came.old }
    ensures keeps { IfSome result (λ _. Keeps (told_of hub.new.book) came.new) }
    ensures stays { IfSome result (λ _. OnlyHears hub.old hub.new) }
{
    for _ in 0..MOST {
        if came.ticks.len() >= ticks || !take_one(hub, came)? {
            return Some(());
        }
    }
    Some(())
}

// Dials the first peer. The log is kept from then on.
fn begin<R: Wait + Threads + Copy + Drop>(hub: &mut ToldHub<R>, name: &str) -> Option<()>
    requires new { Tells [] (told_of hub.old.book) }
    requires idle { hub.old.reading.items ≡ [] }
    ensures keeps { IfSome result
        (λ _. Keeps (told_of hub.new.book) (record { bytes = []; gone = false; ticks = [] })) }
    ensures finished { IfSome result (λ _. (told_of hub.new.book).finished ≡ (told_of hub.old.book).finished) }
    ensures reads { IfSome result (λ _. (s : ToldSource) × (map begun hub.new.reading.items ≡ (1, s) ∷ [])
        × (s.conn.source.rest ≡ hub.old.dialer.peer.bytes.items)) }
    ensures beats { (p : ToldPulse R) → pulse_in (λ c. c.pulse) hub.old.clock ≡ Some p
        → IfSome result (λ _. pulse_in (λ t. t.pulse) hub.new.ticking ≡ Some p) }
    ensures text { IfSome result (λ _. HasText hub.new.writers.items []) }
{
    hub.keep_log();
    match hub.dial(name) {
        Ok(_) => Some(()),
        Err(_) => None,
    }
}

// Sends the first peer these bytes. `None` where that fails.
fn say<R: Wait + Threads + Copy + Drop>(hub: &mut ToldHub<R>, bytes: &[u8]) -> Option<()>
    requires { HasText hub.old.writers.items [] }
    ensures keeps { (c : Coming) → Keeps (told_of hub.old.book) c
        → IfSome result (λ _. Keeps (told_of hub.new.book) c) }
    ensures stays { IfSome result (λ _. OnlySends hub.old hub.new) }
    ensures text { IfSome result (λ _. HasText hub.new.writers.items bytes.now) }
{
    match hub.send(PeerNo(1), bytes) {
        Ok(()) => Some(()),
        Err(_) => None,
    }
}

// Finishes a hub, and looks at what was joined: what came is the first of what the source held, all of it where the
// peer has gone, and the first of what the pulse told. What was written to the peer stays.
fn end<R: Wait + Threads + Copy + Drop>(hub: &mut ToldHub<R>, came: &Came)
    requires running { (told_of hub.old.book).finished ≡ false }
    requires keeps { Keeps (told_of hub.old.book) came.now }
    ensures first { (s : ToldSource) → map begun hub.old.reading.items ≡ (1, s) ∷ []
        → IsStart came.now.bytes s.conn.source.rest }
    ensures whole { (s : ToldSource) → map begun hub.old.reading.items ≡ (1, s) ∷ [] → came.now.gone ≡ true
        → came.now.bytes ≡ s.conn.source.rest }
    ensures ticks { (p : ToldPulse R) → pulse_in (λ t. t.pulse) hub.old.ticking ≡ Some p → p.given ≡ 0
        → (n : ℕ) × IsStart came.now.ticks (up_to n) }
    ensures text { (bytes : List ℕ) → HasText hub.old.writers.items bytes → HasText hub.new.writers.items bytes }
{
    hub.finish();
    hub.account();
}

// Hears the first peer to its end: so many seconds, then it is sent these bytes, and then what it gives. `None` where
// it doesn't answer, and for want of memory.
fn hear<R: Wait + Threads + Copy + Drop>(
    hub: &mut ToldHub<R>,
    came: &mut Came,
    ticks: usize,
    said: &[u8],
) -> Option<()>
    requires new { Tells [] (told_of hub.old.book) }
    requires running { (told_of hub.old.book).finished ≡ false }
    requires idle { hub.old.reading.items ≡ [] }
    requires nothing { came.old ≡ record { bytes = []; gone = false; ticks = [] } }
    ensures first { IfSome result (λ _. IsStart came.new.bytes hub.old.dialer.peer.bytes.items) }
    ensures whole { IfSome result (λ _. came.new.gone ≡ true → came.new.bytes ≡ hub.old.dialer.peer.bytes.items) }
    ensures ticks { (p : ToldPulse R) → pulse_in (λ c. c.pulse) hub.old.clock ≡ Some p → p.given ≡ 0
        → IfSome result (λ _. (n : ℕ) × IsStart came.new.ticks (up_to n)) }
    ensures said { IfSome result (λ _. HasText hub.new.writers.items said.now) }
{
    begin(hub, "peer")?;
    take_until(hub, came, ticks)?;
    say(hub, said)?;
    take_until(hub, came, usize::MAX)?;
    end(hub, came);
    Some(())
}

/// What comes over a hub of one peer, to which these bytes are sent once so many seconds have come. It is the first of
/// the peer's bytes, and all of them where it has gone; the seconds are 1, 2 and so on. `None` where no thread starts,
/// and for want of memory.
pub(crate) fn heard<R: Wait + Threads + Copy + Drop + Send + 'static>(
    rt: HostRuntime,
    handle: R,
    dialer: ToldDialer,
    ticks: usize,
    said: &[u8],
) -> Option<Came>
    ensures first { IfSome result (λ c. IsStart c.bytes dialer.peer.bytes.items) }
    ensures whole { IfSome result (λ c. c.gone ≡ true → c.bytes ≡ dialer.peer.bytes.items) }
    ensures ticks { IfSome result (λ c. (n : ℕ) × IsStart c.ticks (up_to n)) }
{
    let alloc = rt.alloc();
    let mut spawner = InThreads::new(handle);
    let mut came = nothing(alloc);
    let pulse = ToldPulse::new(rt, handle);
    let Ok(mut hub) = Hub::started(handle, alloc, dialer, pulse, &mut spawner, 1) else {
        return None;
    };
    hear(&mut hub, &mut came, ticks, said)?;
    Some(came)
}

// Puts the first so many seconds that came behind a text.
fn put_ticks(came: &Came, most: usize, out: &mut String) -> Option<()> {
    for second in came.ticks.iter().take(most) {
        write!(out, "{second} ").ok()?;
    }
    Some(())
}

// The bytes that came, whether their peer has gone, and how much was written to it.
fn put_peer(alloc: Global, came: &Came, counts: &ToldCounts, out: &mut String) -> Option<()> {
    let digits = hex::encode(alloc, &came.bytes).ok()?;
    let word = if came.gone { "gone" } else { "here" };
    let prompt = if is_none(&counts.vain) {
        "prompt"
    } else {
        "late"
    };
    let written = amount(&counts.written);
    write!(out, "{digits} {word} {written} {prompt}").ok()
}

// What a row tells of its peer.
fn peer_in(alloc: Global, most: &str, digits: &str, wanted: usize) -> Option<ToldPeer> {
    let most: usize = most.parse().ok()?;
    if most == 0 {
        return None;
    }
    Some(ToldPeer {
        bytes: hex::decode(alloc, digits).ok()?,
        most,
        wanted: u32::try_from(wanted).ok()?,
    })
}

// What came, of a peer and of so many seconds.
fn text_of(alloc: Global, came: &Came, ticks: usize, counts: &ToldCounts) -> Option<String> {
    let mut out = String::new(alloc);
    put_ticks(came, ticks, &mut out)?;
    put_peer(alloc, came, counts, &mut out)?;
    Some(out)
}

/// What comes over a hub of the peer of a row: the first so many seconds, its bytes, whether it has gone, and how much
/// was written to it.
pub(crate) fn answer<R: Host>(rt: HostRuntime, handle: R, row: &str) -> Option<String> {
    let alloc = rt.alloc();
    let (most, rest) = row.split_once(' ')?;
    let (ticks, rest) = rest.split_once(' ')?;
    let (said, digits) = rest.split_once(' ')?;
    let ticks: usize = ticks.parse().ok()?;
    let said = hex::decode(alloc, said).ok()?;
    let counts = ToldCounts::new(alloc)?;
    let peer = peer_in(alloc, most, digits, said.len())?;
    let dialer = ToldDialer::new(rt, peer, counts.again()?);
    let came = heard(rt, handle, dialer, ticks, &said)?;
    text_of(alloc, &came, ticks, &counts)
}
