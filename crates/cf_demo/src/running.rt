//! A run of the client over peers in memory.
ghost use Rattle.std.specs.Prelude.{◌≡◌, ◌≤◌, ◌<◌, ℕ, suc, None, Some, true, false, [], map, length, slice_get, IfOk, OnOk};
ghost use Rattle.cf_run.specs.{names_in, IsOfGreeting, EndsWithin, IsOutcome};
ghost use Rattle.cf_demo.specs.Playing.{Accounts};
ghost use Rattle.cf_headers.specs.{NoHashClash};
ghost use Rattle.cf_wires.specs.{tally_of};
ghost use Rattle.cf_played.specs.declared.kind.Way.TheVariants.{Honest};
ghost use Rattle.cf_played.specs.{Peer, still, log_of, finished_of, keeps_of, peers_of};
ghost use Rattle.cf_sync.specs.{once, IsHonest, IsHashed, SyncTheorem};

use cf_bytes::NoMemory;
use cf_headers::HeaderStore;
use cf_match::Matcher;
use cf_played::Played;
use cf_run::{Outcome, sync_over};
use cf_scan::Watch;
use std::alloc::Global;

/// Follows the chains that new peers in memory show, as `sync_over` does. Each honest one of them that was dialled is
/// an honest peer of the log, where no two of the strings that were hashed have one hash. The peers stay those that
/// were added, whatever is answered, and each accounts for what it was told and answered.
pub fn sync_played<H: HeaderStore + Drop, M: Matcher + Drop>(
    alloc: Global,
    played: &mut Played,
    names: &[String],
    watch: Watch,
    store: H,
    matcher: M,
    moment: i64,
    nonce: u64,
    turns: u32,
) -> Result<Outcome, NoMemory>
    requires new { log_of played.old ≡ [] }
    requires open { finished_of played.old ≡ false }
    requires few { length names.now ≤ 8 }
    requires empty { (q : ℕ) → H.chain store q ≡ None }
    ensures outcome { IfOk result
        (λ o. IsOutcome H.counts (once watch) true (names_in names.now) o (log_of played.new)) }
    ensures versions { IsOfGreeting (record { moment = moment; number = nonce }) (log_of played.new) }
    ensures theorem { IfOk result (λ o. SyncTheorem watch o.height o.tip o.history (log_of played.new)) }
    ensures honest { OnOk result ((i : ℕ) (peer : Peer)
        → slice_get (peers_of played.old) i ≡ Some peer → peer.way ≡ Honest → i < length names.now
        → NoHashClash (IsHashed (log_of played.new) peer.blocks) → IsHonest (log_of played.new) (suc i) peer.blocks) }
    ensures accounts { Accounts (log_of played.new) (peers_of played.old) }
    ensures peers { map still (peers_of played.new) ≡ map still (peers_of played.old) }
    ensures within { IfOk result (λ o. EndsWithin o.end (length names.now) turns (tally_of (log_of played.new))) }
    ensures most { (tally_of (log_of played.new)).taken ≤ turns }
    ensures finished { finished_of played.new ≡ true }
    ensures keeps { keeps_of played.new ≡ keeps_of played.old }
{
    // The peers' chains are good.
    played.same_peers();
    let outcome = sync_over(
        alloc, played, names, watch, store, matcher, moment, nonce, turns,
    );
    // What was delivered and what waits is what each peer answers, and the peers are those that were there before.
    played.accounts();
    played.same_peers();
    outcome
}
