//! Whom the client closes for what a filter omits.
ghost use Rattle.std.specs.Prelude.{◌≡◌, ◌<◌, ◌≤◌, OnOk, length};
ghost use Rattle.cf_match.specs.{AreSameVerdicts};
ghost use Rattle.cf_tracker.specs.{verdicts_of};
ghost use Rattle.cf_client.specs.Shutting.{Shuts, ShutsOne};
ghost use Rattle.cf_client.specs.Steps.{desk};

use cf_bytes::{NoMemory, PeerNo};
use cf_headers::HeaderStore;
use cf_peer::{Act, Cause};
use cf_place::{Loss, Place};
use cf_seek::Exposure;
use cf_tracker::Tracker;

// Closes the peer at this place, if it is connected and claims the filter that was exposed.
fn close_if_claimed<H: HeaderStore>(
    tracker: &mut Tracker<H>,
    places: &mut [Place],
    acts: &mut Vec<Act>,
    i: usize,
    exposure: &Exposure,
) -> Result<(), NoMemory>
    requires here { i < length places.old }
    requires few { length places.old ≤ 9 }
    ensures shuts { OnOk result (ShutsOne i exposure.now.block.0 exposure.now.filter.0
        (desk tracker.old places.old acts.old.items) (desk tracker.new places.new acts.new.items)) }
    ensures verdicts { OnOk result (AreSameVerdicts (verdicts_of tracker.new) (verdicts_of tracker.old)) }
{
    if !places[i].is_here() {
        return Ok(());
    }
    let p = PeerNo(i as u32);
    if !tracker.is_claimed(p, exposure) {
        return Ok(());
    }
    acts.push(Act::Close(p, Cause::Omits))?;
    tracker.forget(p);
    places[i] = Place::Lost(Loss::Closed(Cause::Omits));
    Ok(())
}

/// Closes each connected peer that claims the filter that was exposed, the lowest number first.
pub(crate) fn close_claimants<H: HeaderStore>(
    tracker: &mut Tracker<H>,
    places: &mut [Place],
    acts: &mut Vec<Act>,
    exposure: &Exposure,
) -> Result<(), NoMemory>
    requires { length places.old ≤ 9 }
    ensures shuts { OnOk result (Shuts exposure.now.block.0 exposure.now.filter.0
        (desk tracker.old places.old acts.old.items) (desk tracker.new places.new acts.new.items)) }
    ensures verdicts { OnOk result (AreSameVerdicts (verdicts_of tracker.new) (verdicts_of tracker.old)) }
{
    for i in 0..places.len() {
        close_if_claimed(tracker, places, acts, i, exposure)?;
    }
    Ok(())
}
