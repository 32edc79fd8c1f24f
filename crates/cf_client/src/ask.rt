//! Whom the client asks, and whom it closes for its silence.
ghost use Rattle.std.specs.Prelude.{◌≡◌, ◌≢◌, ℕ, ◌<◌, ◌≤◌, ◌∷◌, [], OnOk, IfOk, IsSome, true, false, length};
ghost use Rattle.cf_headers.specs.{own_of};
ghost use Rattle.cf_wires.specs.Log.{Log};
ghost use Rattle.cf_wires.specs.declared.event.Event.TheVariants.{Took};
ghost use Rattle.cf_wires.specs.declared.event.Delivery.TheVariants.{Tick};
ghost use Rattle.cf_match.specs.{AreSameVerdicts};
ghost use Rattle.cf_tracker.specs.{chains_of, seen_of, verdicts_of};
ghost use Rattle.cf_peer.specs.{Part, Passed, with_item, asked_for_claims, asked_for_filters};
ghost use Rattle.cf_dispute.specs.{Table};
ghost use Rattle.cf_dispute.specs.Claims.{Tables};
ghost use Rattle.cf_msg.specs.declared.msg.Msg.TheVariants.{GetCfheaders, GetCfilters};
ghost use Rattle.cf_place.specs.declared.place.Loss.{Loss};
ghost use Rattle.cf_place.specs.declared.place.Place.TheVariants.{Lost};
ghost use Rattle.cf_place.specs.{Fits, PlacesStand, AreCalm, is_calm, is_idle, is_wanting, is_settled, is_here, place_at, IsQuestion, IsFetch};
ghost use Rattle.cf_client.specs.Settled.{AreRight, AreSettled, IsRightAt, IsAskedThrough};
ghost use Rattle.cf_client.specs.Order.{AddsPings, AddsQuestions, ClosesOne, ClosesLate};
ghost use Rattle.cf_client.specs.Steps.{desk, IsInOrder, Same, Ticked, Moves, Asks, HasPingedOut, IsPinged, IsSent, IsSentFor, IsSentAsWished};
ghost use Rattle.cf_peer.specs.declared.mode.Mode.TheVariants.{Following};

use cf_bytes::{Hash32, NoMemory, PeerNo};
use cf_headers::HeaderStore;
use cf_msg::{Entries, Hashes, Inventory, Msg};
use cf_peer::{Act, Cause, Mode, Range};
use cf_place::{Loss, Place};
use cf_seek::{Span, Trial, Wish};
use cf_tracker::Tracker;
use std::alloc::Global;

// Adds to the age of what is open to the peer at a place.
#[tactic(auto, using(crate::proofs::Losing::lost_passed))]
fn pass_at(place: &mut Place, seconds: u32)
    requires { is_calm place.old ≡ true }
    ensures fits { (part : Part) → Fits place.old part → Fits place.new (with_item (Passed seconds) part) }
    ensures here { is_here place.new ≡ is_here place.old }
    ensures lost { (loss : Loss) → place.new ≡ Lost loss → place.old ≡ Lost loss }
    ensures right { (table : Table) → IsRightAt place.old table → IsRightAt place.new table }
{
    if let Place::Here(peer) = place {
        peer.pass(seconds);
    }
}

/// Adds to the age of each open request.
pub(crate) fn pass_all(places: &mut [Place], seconds: u32)
    requires { AreCalm places.old }
    ensures stand { (log : Log) → PlacesStand places.old log → PlacesStand places.new (Took (Tick seconds) ∷ log) }
    ensures here { (p : ℕ) → is_here (place_at places.new p) ≡ is_here (place_at places.old p) }
    ensures right { (tables : Tables) → AreRight places.old tables → AreRight places.new tables }
{
    for place in places.iter_mut() {
        pass_at(place, seconds);
    }
}

// Closes the peer at this place if its request is 60 seconds old.
fn close_if_late<H: HeaderStore>(
    tracker: &mut Tracker<H>,
    places: &mut [Place],
    acts: &mut Vec<Act>,
    i: usize,
) -> Result<(), NoMemory>
    requires here { i < length places.old }
    requires order { IsInOrder (desk tracker.old places.old acts.old.items) }
    ensures moves { (mode : Mode) → OnOk result
        (Moves mode Same (desk tracker.old places.old acts.old.items) (desk tracker.new places.new acts.new.items)) }
    ensures done { OnOk result (is_calm (place_at places.new i) ≡ true) }
    ensures others { OnOk result ((p : ℕ) → p ≢ i → place_at places.new p ≡ place_at places.old p) }
    ensures verdicts { OnOk result (AreSameVerdicts (verdicts_of tracker.new) (verdicts_of tracker.old)) }
    ensures closes { OnOk result (ClosesOne i acts.old.items acts.new.items) }
{
    if places[i].is_late() {
        let p = PeerNo(i as u32);
        acts.push(Act::Close(p, Cause::Overdue))?;
        tracker.forget(p);
        places[i] = Place::Lost(Loss::Closed(Cause::Overdue));
        return Ok(());
    }
    Ok(())
}

/// Closes each peer whose request is 60 seconds old, the lowest number first.
pub(crate) fn close_late<H: HeaderStore>(
    tracker: &mut Tracker<H>,
    places: &mut [Place],
    acts: &mut Vec<Act>,
) -> Result<(), NoMemory>
    requires { IsInOrder (desk tracker.old places.old acts.old.items) }
    ensures moves { (mode : Mode) → OnOk result
        (Moves mode Same (desk tracker.old places.old acts.old.items) (desk tracker.new places.new acts.new.items)) }
    ensures calm { OnOk result (AreCalm places.new) }
    ensures verdicts { OnOk result (AreSameVerdicts (verdicts_of tracker.new) (verdicts_of tracker.old)) }
    ensures closes { OnOk result (ClosesLate acts.old.items acts.new.items) }
{
    for i in 0..places.len() {
        close_if_late(tracker, places, acts, i)?;
    }
    Ok(())
}

// Sends the peer at this place a ping, where it is connected and nothing is open to it.
fn ping_if_idle(places: &mut [Place], acts: &mut Vec<Act>, i: usize) -> Result<(), NoMemory>
    requires here { i < length places.old }
    requires few { length places.old ≤ 9 }
    ensures { OnOk result (IsPinged i places.old places.new acts.old.items acts.new.items) }
{
    if let Place::Here(peer) = &mut places[i]
        && peer.is_idle()
        && let Some(number) = peer.ask_ping()
    {
        acts.push(Act::Send(PeerNo(i as u32), Msg::Ping(number)))?;
    }
    Ok(())
}

/// Sends a ping to each connected peer to which nothing is open, the lowest number first: after a tick, in a client
/// that follows.
pub(crate) fn ping_all<H: HeaderStore>(
    tracker: &Tracker<H>,
    places: &mut [Place],
    acts: &mut Vec<Act>,
) -> Result<(), NoMemory>
    requires { IsInOrder (desk tracker.now places.old acts.old.items) }
    ensures moves { OnOk result (Moves Following Ticked (desk tracker.now places.old acts.old.items)
        (desk tracker.now places.new acts.new.items)) }
    ensures pinged { OnOk result ((p : ℕ) → is_idle (place_at places.new p) ≡ true
        → HasPingedOut (place_at places.new p)) }
    ensures same { OnOk result ((p : ℕ) → is_idle (place_at places.new p) ≡ true
        → place_at places.new p ≡ place_at places.old p) }
    ensures pings { OnOk result (AddsPings acts.old.items acts.new.items) }
{
    // Contracts alone look at `tracker`.
    for i in 0..places.len() {
        ping_if_idle(places, acts, i)?;
    }
    Ok(())
}

// The question for headers above a tracked peer's chain.
#[tactic(auto, unfolding(cf_msg::specs::Message::payload_of, cf_headers::specs::Chain::no_hash))]
fn question<H: HeaderStore>(tracker: &Tracker<H>, p: PeerNo) -> Result<Msg, NoMemory>
    requires { IsSome (chains_of tracker.now p.0) }
    ensures { IfOk result (IsQuestion (own_of (chains_of tracker.now) p)) }
{
    // The chain is within the height limit, so that its locator is short enough.
    let _height = tracker.height(p);
    let locator = tracker.locator(p)?;
    Ok(Msg::GetHeaders {
        version: 70016,
        locator: Hashes::from_vec(locator),
        stop: Hash32([0; 32]),
    })
}

// The question for one block.
#[tactic(auto, unfolding(cf_msg::specs::Message::payload_of))]
fn fetch(alloc: Global, hash: Hash32) -> Result<Msg, NoMemory>
    ensures { IfOk result (IsFetch hash) }
{
    let mut entries = Entries::new(alloc);
    entries.push(Inventory { kind: 2, hash })?;
    Ok(Msg::GetData(entries))
}

// Asks the peer at this place for headers.
fn ask_for_headers<H: HeaderStore>(
    tracker: &Tracker<H>,
    places: &mut [Place],
    acts: &mut Vec<Act>,
    i: usize,
) -> Result<(), NoMemory>
    requires here { i < length places.old }
    requires idle { is_idle (place_at places.old i) ≡ true }
    requires order { IsInOrder (desk tracker.now places.old acts.old.items) }
    ensures asks { (mode : Mode) → is_wanting mode (place_at places.old i) ≡ true → OnOk result (Asks mode i
        (desk tracker.now places.old acts.old.items) (desk tracker.now places.new acts.new.items)) }
    ensures busy { OnOk result (is_idle (place_at places.new i) ≡ false) }
{
    let p = PeerNo(i as u32);
    acts.push(Act::Send(p, question(tracker, p)?))?;
    if let Place::Here(peer) = &mut places[i] {
        peer.ask_headers();
    }
    Ok(())
}

// Asks the peer at this place, to which nothing is open, for what it claims of the filters of these blocks.
fn ask_for_claims(
    places: &mut [Place],
    acts: &mut Vec<Act>,
    i: usize,
    span: Span,
) -> Result<(), NoMemory>
    requires here { i < length places.old }
    requires few { length places.old ≤ 9 }
    requires idle { is_idle (place_at places.old i) ≡ true }
    ensures { OnOk result (IsSent i (GetCfheaders 0 span.start span.stop)
        (asked_for_claims (record { stop = span.stop; parent = span.parent; blocks = span.blocks.items }))
        places.old places.new acts.old.items acts.new.items) }
{
    let question = Msg::GetCfheaders {
        filter: 0,
        start: span.start,
        stop: span.stop,
    };
    acts.push(Act::Send(PeerNo(i as u32), question))?;
    if let Place::Here(peer) = &mut places[i] {
        peer.ask_claims(Range {
            stop: span.stop,
            parent: span.parent,
            blocks: Hashes::from_vec(span.blocks),
        });
    }
    Ok(())
}

// Asks the peer at this place, to which nothing is open, for the filters of these blocks.
fn ask_for_filters(
    alloc: Global,
    places: &mut [Place],
    acts: &mut Vec<Act>,
    i: usize,
    span: Span,
) -> Result<(), NoMemory>
    requires here { i < length places.old }
    requires few { length places.old ≤ 9 }
    requires idle { is_idle (place_at places.old i) ≡ true }
    ensures { OnOk result (IsSent i (GetCfilters 0 span.start span.stop)
        (asked_for_filters span.blocks.items) places.old places.new acts.old.items acts.new.items) }
{
    let question = Msg::GetCfilters {
        filter: 0,
        start: span.start,
        stop: span.stop,
    };
    acts.push(Act::Send(PeerNo(i as u32), question))?;
    if let Place::Here(peer) = &mut places[i] {
        peer.ask_filters(alloc, Hashes::from_vec(span.blocks));
    }
    Ok(())
}

// Asks the peer at this place, to which nothing is open, for the filter of one block, so that it is tested.
fn ask_for_test(
    alloc: Global,
    places: &mut [Place],
    acts: &mut Vec<Act>,
    i: usize,
    trial: Trial,
) -> Result<(), NoMemory>
    requires here { i < length places.old }
    requires few { length places.old ≤ 9 }
    requires idle { is_idle (place_at places.old i) ≡ true }
    ensures { OnOk result (IsSent i (GetCfilters 0 trial.height trial.block) (asked_for_filters (trial.block ∷ []))
        places.old places.new acts.old.items acts.new.items) }
{
    let mut blocks = Hashes::new(alloc);
    blocks.push(trial.block)?;
    let question = Msg::GetCfilters {
        filter: 0,
        start: trial.height,
        stop: trial.block,
    };
    acts.push(Act::Send(PeerNo(i as u32), question))?;
    if let Place::Here(peer) = &mut places[i] {
        peer.ask_filters(alloc, blocks);
    }
    Ok(())
}

// Asks the peer at this place, to which nothing is open, for the block with this hash.
fn ask_for_block(
    alloc: Global,
    places: &mut [Place],
    acts: &mut Vec<Act>,
    i: usize,
    hash: Hash32,
) -> Result<(), NoMemory>
    requires here { i < length places.old }
    requires few { length places.old ≤ 9 }
    requires idle { is_idle (place_at places.old i) ≡ true }
    ensures { OnOk result (IsSentFor i hash places.old places.new acts.old.items acts.new.items) }
{
    acts.push(Act::Send(PeerNo(i as u32), fetch(alloc, hash)?))?;
    if let Place::Here(peer) = &mut places[i] {
        peer.ask_block(&hash);
    }
    Ok(())
}

// Asks the peer at this place, to which nothing is open, for what the tracker wishes of it.
fn ask_as_wished(
    alloc: Global,
    places: &mut [Place],
    acts: &mut Vec<Act>,
    i: usize,
    wish: Wish,
) -> Result<(), NoMemory>
    requires here { i < length places.old }
    requires few { length places.old ≤ 9 }
    requires idle { is_idle (place_at places.old i) ≡ true }
    ensures { OnOk result (IsSentAsWished i wish places.old places.new acts.old.items acts.new.items) }
{
    match wish {
        Wish::Nothing => Ok(()),
        Wish::Claims(span) => {
            ask_for_claims(places, acts, i, span)?;
            Ok(())
        }
        Wish::Filters(span) => {
            ask_for_filters(alloc, places, acts, i, span)?;
            Ok(())
        }
        Wish::Block(hash) => {
            ask_for_block(alloc, places, acts, i, hash)?;
            Ok(())
        }
        Wish::Test(trial) => {
            ask_for_test(alloc, places, acts, i, trial)?;
            Ok(())
        }
    }
}

// Asks the peer at this place, to which nothing is open and which was heard out, about the blocks that it shares with
// the best chain: for the claims that it hasn't made; else for filters that aren't judged yet and are open to nobody;
// else for a block that is open to nobody; or else for a filter that is to be tested.
fn ask_about_blocks<H: HeaderStore>(
    alloc: Global,
    tracker: &mut Tracker<H>,
    places: &mut [Place],
    acts: &mut Vec<Act>,
    i: usize,
) -> Result<(), NoMemory>
    requires here { i < length places.old }
    requires idle { is_idle (place_at places.old i) ≡ true }
    requires order { IsInOrder (desk tracker.old places.old acts.old.items) }
    ensures asks { (mode : Mode) → is_settled mode (place_at places.old i) ≡ true → OnOk result (Asks mode i
        (desk tracker.old places.old acts.old.items) (desk tracker.new places.new acts.new.items)) }
    ensures through { OnOk result (IsAskedThrough (place_at places.new i) (seen_of tracker.new) i) }
{
    let p = PeerNo(i as u32);
    let Some(best) = tracker.best() else {
        return Ok(());
    };
    let wish = tracker.next(p, best)?;
    ask_as_wished(alloc, places, acts, i, wish)?;
    Ok(())
}

// Asks the peer at this place if a client of this mode is to ask it: for headers while it has more to tell, and then
// about the blocks of its chain.
fn ask_if_wanted<H: HeaderStore>(
    alloc: Global,
    mode: Mode,
    tracker: &mut Tracker<H>,
    places: &mut [Place],
    acts: &mut Vec<Act>,
    i: usize,
) -> Result<(), NoMemory>
    requires here { i < length places.old }
    requires calm { AreCalm places.old }
    requires order { IsInOrder (desk tracker.old places.old acts.old.items) }
    ensures asks { OnOk result
        (Asks mode i (desk tracker.old places.old acts.old.items) (desk tracker.new places.new acts.new.items)) }
    ensures through { OnOk result (IsAskedThrough (place_at places.new i) (seen_of tracker.new) i) }
{
    if places[i].wants_headers(mode) {
        ask_for_headers(tracker, places, acts, i)?;
        return Ok(());
    }
    if places[i].is_idle() {
        ask_about_blocks(alloc, tracker, places, acts, i)?;
        return Ok(());
    }
    Ok(())
}

/// Asks each peer that is to be asked, the lowest number first, and writes what is settled of the best chain.
pub(crate) fn ask_all<H: HeaderStore>(
    alloc: Global,
    mode: Mode,
    tracker: &mut Tracker<H>,
    places: &mut [Place],
    acts: &mut Vec<Act>,
) -> Result<(), NoMemory>
    requires calm { AreCalm places.old }
    requires order { IsInOrder (desk tracker.old places.old acts.old.items) }
    ensures moves { OnOk result
        (Moves mode Same (desk tracker.old places.old acts.old.items) (desk tracker.new places.new acts.new.items)) }
    ensures settled { OnOk result (AreSettled mode places.new (seen_of tracker.new)) }
    ensures verdicts { OnOk result (AreSameVerdicts (verdicts_of tracker.new) (verdicts_of tracker.old)) }
    ensures busy { OnOk result ((p : ℕ) → is_idle (place_at places.new p) ≡ true
        → place_at places.new p ≡ place_at places.old p) }
    ensures asked { OnOk result (AddsQuestions places.old acts.old.items acts.new.items) }
{
    for i in 0..places.len() {
        ask_if_wanted(alloc, mode, tracker, places, acts, i)?;
    }
    tracker.write_up()?;
    Ok(())
}
