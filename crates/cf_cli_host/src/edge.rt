//! What a call of the program goes over, made at once.
ghost use Rattle.std.specs.Prelude.{◌≡◌, length, IfOk, [], false};
ghost use Rattle.cf_network.specs.{HasThreads};
ghost use Rattle.cf_played.specs.{log_of as played_log, peers_of, keeps_of as has_kept, finished_of as has_finished};
ghost use Rattle.cf_wires.specs.{Tells, log_of, script_of, failing_of, keeps_of, finished_of};

use cf_bytes::NoMemory;
use cf_network::Network;
use cf_played::Played;
use cf_tasks::Spawner;
use cf_tell::Teller;
use cf_wires::MemoryWires;
use std::sync::Wait;
use std::thread::Threads;

/// What a call of the program may go over: peers over TCP, which `sync` dials; wires in memory, which a replay loads
/// with its session; and peers in memory, which a demonstration makes.
#[derive(Drop)]
pub struct Edge<R: Wait + Threads + Copy + Drop> {
    pub network: Network<R>,
    pub tape: MemoryWires,
    pub played: Played,
}

impl<R: Wait + Threads + Copy + Drop + Send + 'static> Edge<R> {
    /// All of it new. For each of the peers with these names a thread waits, and one for the ticker, or the spawner's
    /// count of refusals rose; where there are none no thread is started. They are called at once.
    pub fn new<K: Spawner>(
        teller: &'static Teller,
        handle: R,
        spawn: &mut K,
        names: &[String],
    ) -> Result<Edge<R>, NoMemory>
        ensures told { IfOk result (λ e. Tells [] e.network.told) }
        ensures finished { IfOk result (λ e. e.network.told.finished ≡ false) }
        ensures keeps { IfOk result (λ e. e.network.keeps ≡ false) }
        ensures threads { IfOk result
            (λ e. HasThreads (length names.now) e.network (K.refusals spawn.old) (K.refusals spawn.new)) }
        ensures tape_script { IfOk result (λ e. script_of e.tape ≡ record { dials = []; deliveries = [] }) }
        ensures tape_log { IfOk result (λ e. log_of e.tape ≡ []) }
        ensures tape_failing { IfOk result (λ e. failing_of e.tape ≡ []) }
        ensures tape_keeps { IfOk result (λ e. keeps_of e.tape ≡ false) }
        ensures tape_finished { IfOk result (λ e. finished_of e.tape ≡ false) }
        ensures played { IfOk result (λ e. played_log e.played ≡ []) }
        ensures played_peers { IfOk result (λ e. peers_of e.played ≡ []) }
        ensures played_keeps { IfOk result (λ e. has_kept e.played ≡ false) }
        ensures played_finished { IfOk result (λ e. has_finished e.played ≡ false) }
    {
        let alloc = teller.runtime().alloc();
        let tape = MemoryWires::new(alloc)?;
        let played = Played::new(alloc)?;
        Ok(Edge {
            network: Network::new(teller, handle, spawn, names)?,
            tape,
            played,
        })
    }
}
