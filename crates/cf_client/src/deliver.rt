//! What a delivery does.
ghost use Rattle.std.specs.Prelude.{◌≡◌, ◌<◌, ◌≤◌, [], ◌∷◌, OnOk, length};
ghost use Rattle.cf_wires.specs.Log.{Log};
ghost use Rattle.cf_peer.specs.declared.act.Act.TheVariants.{Close};
ghost use Rattle.cf_peer.specs.declared.peer.Cause.TheVariants.{SendFailed};
ghost use Rattle.cf_wires.specs.declared.event.Delivery.TheVariants.{Got, Gone};
ghost use Rattle.cf_wires.specs.declared.event.Event.TheVariants.{Took};
ghost use Rattle.cf_match.specs.{AreSameVerdicts};
ghost use Rattle.cf_tracker.specs.{verdicts_of, watch_of};
ghost use Rattle.cf_hear.specs.{AreJudgedBy, judging_of};
ghost use Rattle.cf_place.specs.{AreCalm};
ghost use Rattle.cf_client.specs.Order.{ArePrepared, AreTold};
ghost use Rattle.cf_client.specs.Steps.{desk, HasLeft, HasPinged, Stands, IsInOrder, Same, Taking, CutOff, Moves};

use crate::ask::{close_late, pass_all, ping_all};
use crate::blame::close_claimants;
use cf_bytes::{NoMemory, PeerNo};
use cf_headers::HeaderStore;
use cf_hear::{HearStop, hear_piece};
use cf_match::Matcher;
use cf_peer::{Act, Cause, Mode};
use cf_place::{Loss, Place};
use cf_tracker::Tracker;
use cf_wires::Delivery;
use std::alloc::Global;

// Takes a piece of a peer's bytes. One of a peer that isn't connected has no effect. Where it exposes a filter, who
// claims it is closed.
fn hear_from<H: HeaderStore, M: Matcher>(
    alloc: Global,
    tracker: &mut Tracker<H>,
    matcher: &mut M,
    places: &mut [Place],
    acts: &mut Vec<Act>,
    p: PeerNo,
    piece: &[u8],
) -> Result<(), NoMemory>
    requires none { acts.old.items ≡ [] }
    requires order { IsInOrder (desk tracker.old places.old acts.old.items) }
    ensures moves { (mode : Mode) → OnOk result (Moves mode (Taking (Got p piece.now))
        (desk tracker.old places.old acts.old.items) (desk tracker.new places.new acts.new.items)) }
    ensures judged { OnOk result (AreJudgedBy M.judges (watch_of tracker.old)
        (judging_of tracker.old matcher.old) (judging_of tracker.new matcher.new)) }
    ensures told { OnOk result ((mode : Mode) (log : Log) → Stands mode (desk tracker.old places.old acts.old.items) log
        → AreTold acts.new.items) }
{
    let i = p.0 as usize;
    if i >= places.len() {
        return Ok(());
    }
    match &mut places[i] {
        Place::Lost(_) => Ok(()),
        Place::Here(peer) => match hear_piece(alloc, tracker, matcher, peer, p, piece, acts)? {
            None => Ok(()),
            Some(HearStop::Fault(cause)) => {
                acts.push(Act::Close(p, cause))?;
                tracker.forget(p);
                places[i] = Place::Lost(Loss::Closed(cause));
                Ok(())
            }
            Some(HearStop::Exposed(exposure)) => {
                close_claimants(tracker, places, acts, &exposure)?;
                Ok(())
            }
        },
    }
}

// A peer has gone.
fn lose<H: HeaderStore>(tracker: &mut Tracker<H>, places: &mut [Place], p: PeerNo)
    requires { IsInOrder (desk tracker.old places.old []) }
    ensures moves { (mode : Mode)
        → Moves mode (Taking (Gone p)) (desk tracker.old places.old []) (desk tracker.new places.new []) }
    ensures verdicts { AreSameVerdicts (verdicts_of tracker.new) (verdicts_of tracker.old) }
{
    let i = p.0 as usize;
    if i < places.len() && places[i].is_here() {
        tracker.forget(p);
        places[i] = Place::Lost(Loss::Gone);
    }
}

/// Closes the peer to which a send has failed. A number that isn't in use has no effect.
pub(crate) fn cut_off<H: HeaderStore>(
    tracker: &mut Tracker<H>,
    places: &mut [Place],
    acts: &mut Vec<Act>,
    p: PeerNo,
) -> Result<(), NoMemory>
    requires none { acts.old.items ≡ [] }
    requires order { IsInOrder (desk tracker.old places.old acts.old.items) }
    ensures moves { (mode : Mode) → OnOk result (Moves mode (CutOff p places.old)
        (desk tracker.old places.old acts.old.items) (desk tracker.new places.new acts.new.items)) }
    ensures unused { OnOk result (length places.old ≤ p.0 → (mode : Mode) → Moves mode Same
        (desk tracker.old places.old acts.old.items) (desk tracker.new places.new acts.new.items)) }
    ensures first { OnOk result (p.0 < length places.old → acts.new.items ≡ Close p SendFailed ∷ []) }
    ensures verdicts { AreSameVerdicts (verdicts_of tracker.new) (verdicts_of tracker.old) }
    ensures told { OnOk result (AreTold acts.new.items) }
{
    let i = p.0 as usize;
    if i >= places.len() {
        return Ok(());
    }
    acts.push(Act::Close(p, Cause::SendFailed))?;
    tracker.forget(p);
    places[i] = Place::Lost(Loss::Closed(Cause::SendFailed));
    Ok(())
}

/// Takes a delivery. With a tick a client that follows sends a ping to each peer to which nothing is open.
pub(crate) fn deliver<H: HeaderStore, M: Matcher>(
    alloc: Global,
    mode: Mode,
    tracker: &mut Tracker<H>,
    matcher: &mut M,
    places: &mut [Place],
    acts: &mut Vec<Act>,
    d: &Delivery,
) -> Result<(), NoMemory>
    requires calm { AreCalm places.old }
    requires none { acts.old.items ≡ [] }
    requires order { IsInOrder (desk tracker.old places.old acts.old.items) }
    ensures moves { OnOk result (Moves mode (Taking d.now) (desk tracker.old places.old acts.old.items)
        (desk tracker.new places.new acts.new.items)) }
    ensures judged { OnOk result (AreJudgedBy M.judges (watch_of tracker.old)
        (judging_of tracker.old matcher.old) (judging_of tracker.new matcher.new)) }
    ensures told { OnOk result ((log : Log) → Stands mode (desk tracker.old places.old acts.old.items) log
        → ArePrepared acts.new.items) }
    ensures pinged { OnOk result (HasPinged mode d.now places.new) }
    ensures left { OnOk result ((log : Log) → Stands mode (desk tracker.old places.old acts.old.items) log
        → HasLeft mode d.now places.new (Took d.now ∷ log)) }
{
    match d {
        Delivery::Got(p, piece) => {
            hear_from(alloc, tracker, matcher, places, acts, *p, piece.as_slice())?;
            Ok(())
        }
        Delivery::Gone(p) => {
            lose(tracker, places, *p);
            Ok(())
        }
        Delivery::Tick(seconds) => {
            pass_all(places, *seconds);
            close_late(tracker, places, acts)?;
            match mode {
                Mode::Once => Ok(()),
                Mode::Following => {
                    ping_all(tracker, places, acts)?;
                    Ok(())
                }
            }
        }
        Delivery::Ended => Ok(()),
    }
}
