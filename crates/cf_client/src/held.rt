//! How much a client keeps.
ghost use Rattle.std.specs.Prelude.{◌≡◌, ◌≤◌, length};
ghost use Rattle.std.specs.List.{sum_by};
ghost use Rattle.cf_block.specs.{capped};
ghost use Rattle.cf_wires.specs.Log.{Log};
ghost use Rattle.cf_tracker.specs.{seen_of};
ghost use Rattle.cf_hear.specs.Tracks.{Tracks};
ghost use Rattle.cf_place.specs.{PlacesStand};
ghost use Rattle.cf_client.specs.Holding.{Counts, HoldsNoMore, came_at, waiting_at, most_at};

use cf_headers::HeaderStore;
use cf_place::Place;
use cf_tracker::Tracker;

/// How much a client keeps.
#[derive(Clone, Copy, Debug, PartialEq, Eq)]
pub struct Held {
    /// Headers above genesis, as its store counts them.
    pub headers: u64,
    /// Different claims of a block's filter.
    pub claims: u64,
    /// Filters that have come of requests that are open.
    pub filters: u64,
    /// Filters on which a verdict is kept.
    pub verdicts: u64,
    /// Blocks of which an extract is kept.
    pub extracts: u64,
    /// Blocks of which the items of the outputs are kept.
    pub outputs: u64,
    /// Bytes that wait of the connected peer of which the most wait, since they are no whole frame yet.
    pub bytes: u64,
}

// How many filters have come of what is open to the peer at a place.
fn filters_at(place: &Place) -> u64
    ensures { result ≡ came_at place.now }
{
    match place {
        Place::Here(peer) => peer.filters_held() as u64,
        Place::Lost(_) => 0,
    }
}

// How many have come of what is open to the peers at all places; a number of more than 64 bits is told as the greatest.
fn filters_at_all(places: &[Place]) -> u64
    ensures { result ≡ capped (sum_by came_at places.now) }
{
    let mut total: u64 = 0;
    for place in places {
        total = total.saturating_add(filters_at(place));
    }
    total
}

// How many bytes wait of the peer at a place.
fn bytes_at(place: &Place) -> u64
    ensures { result ≡ waiting_at place.now }
{
    match place {
        Place::Here(peer) => peer.bytes_held() as u64,
        Place::Lost(_) => 0,
    }
}

// How many wait at the place at which the most wait.
#[tactic(auto, using(crate::proofs::Waiting::most_more))]
fn most_bytes(places: &[Place]) -> u64
    ensures { result ≡ most_at places.now (length places.now) }
{
    let mut most: u64 = 0;
    for place in places {
        most = most.max(bytes_at(place));
    }
    most
}

/// How much is kept by a tracker and at the places of peers. It takes no memory.
pub(crate) fn held_of<H: HeaderStore>(tracker: &Tracker<H>, places: &[Place]) -> Held
    requires { length places.now ≤ 9 }
    ensures counted { Counts (seen_of tracker.now) result }
    ensures few { (log : Log) → PlacesStand places.now log → Tracks (seen_of tracker.now) log
        → HoldsNoMore H.counts result log }
{
    Held {
        headers: tracker.headers_held(),
        claims: tracker.claims_held(),
        filters: filters_at_all(places),
        verdicts: tracker.verdicts_held(),
        extracts: tracker.extracts_held(),
        outputs: tracker.outputs_held(),
        bytes: most_bytes(places),
    }
}
