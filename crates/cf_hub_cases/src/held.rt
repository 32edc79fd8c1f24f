//! The hub of a row, as wires of which contracts see what they tell, and not how they are made.
ghost use Rattle.std.specs.Prelude.{◌≡◌, None, IfOk, IfSome, [], false};
ghost use Rattle.cf_hub.specs.{told_of, keeps_of};
ghost use Rattle.cf_wires.specs.{Tells};

use crate::doors::{Count, SHUT, add, same};
use crate::guide::Joins;
use crate::outside::{Counts, PlannedDialer, PlannedPulse, dialer_of, pulse_of};
use cf_bytes::{NoMemory, PeerNo};
use cf_hub::Hub;
use cf_rows::Limited;
use cf_tasks::Choice;
use cf_wires::{Delivery, WireFail, Wires};
use std::marker::Model;
use std::sync::Wait;
use std::thread::Threads;

/// A hub whose outside is in memory. Its finish opens the gate.
#[derive(Drop)]
pub(crate) struct Held<R: Wait + Threads + Copy + Drop> {
    hub: Hub<PlannedDialer, PlannedPulse, R>,
    gate: Count,
}

impl<R: Wait + Threads + Copy + Drop> Model for Held<R> {
    ghost use Rattle.std.specs.Prelude.{◌+◌};
    ghost use Rattle.cf_hub.specs.{told_of, keeps_of, faults_in};
    ghost use Rattle.cf_hub_cases.specs.Standing.{Standing};

    ghost Value = { Standing };

    ghost view = { λ n. record {
      told = told_of n.hub.book;
      faults = n.hub.dialer.faults + (n.hub.missed + faults_in (λ w. w.faults) n.hub.writers.items);
      keeps = keeps_of n.hub.book;
    } };
}

/// What a row says of its hub: how many threads it has for readers, how many of its threads start, and for how many at
/// the gate its pulse waits.
#[derive(Clone, Copy)]
pub(crate) struct Numbers {
    threads: usize,
    starts: u32,
    wanted: u32,
}

impl Numbers {
    /// The numbers of three fields.
    pub(crate) fn read(threads: &str, starts: &str, wanted: &str) -> Option<Numbers> {
        Some(Numbers {
            threads: threads.parse().ok()?,
            starts: starts.parse().ok()?,
            wanted: wanted.parse().ok()?,
        })
    }
}

// A hub that has dialled nobody.
fn hub_of<R: Wait + Threads + Copy + Drop + Send + 'static>(
    rt: HostRuntime,
    handle: R,
    counts: &Counts,
    numbers: Numbers,
) -> Option<Hub<PlannedDialer, PlannedPulse, R>>
    ensures told { IfSome result (λ h. Tells [] (told_of h.book)) }
    ensures finished { IfSome result (λ h. (told_of h.book).finished ≡ false) }
{
    let alloc = rt.alloc();
    let dialer = dialer_of(rt, alloc, counts)?;
    let pulse = pulse_of(rt, counts, numbers.wanted)?;
    let mut spawner = Limited::new(handle, Choice::InThread, numbers.starts);
    Hub::started(handle, alloc, dialer, pulse, &mut spawner, numbers.threads).ok()
}

impl<R: Wait + Threads + Copy + Drop + Send + 'static> Held<R> {
    /// A hub that has dialled nobody.
    pub(crate) fn new(
        rt: HostRuntime,
        handle: R,
        counts: &Counts,
        numbers: Numbers,
    ) -> Option<Held<R>>
        ensures told { IfSome result (λ n. Tells [] n.told) }
        ensures finished { IfSome result (λ n. n.told.finished ≡ false) }
    {
        let gate = same(&counts.gate)?;
        let hub = hub_of(rt, handle, counts, numbers)?;
        Some(Held { hub, gate })
    }
}

impl<R: Wait + Threads + Copy + Drop> Joins for Held<R> {
    fn is_joined(&self) -> bool {
        self.hub.is_joined()
    }

    fn next_finished(&mut self) -> Option<Delivery> {
        self.hub.next().ok()
    }
}

impl<R: Wait + Threads + Copy + Drop> Wires for Held<R> {
    ghost told = { λ n. n.told };

    ghost faults = { λ n. n.faults };

    ghost script = { λ _. None };

    ghost keeps = { λ n. n.keeps };

    fn keep_log(&mut self) {
        self.hub.keep_log();
    }

    fn dial(&mut self, name: &str) -> Result<PeerNo, WireFail> {
        self.hub.dial(name)
    }

    fn send(&mut self, p: PeerNo, bytes: &[u8]) -> Result<(), WireFail> {
        self.hub.send(p, bytes)
    }

    fn close(&mut self, p: PeerNo) {
        self.hub.close(p);
    }

    fn next(&mut self) -> Result<Delivery, NoMemory> {
        self.hub.next()
    }

    fn finish(&mut self) {
        add(&self.gate, SHUT);
        self.hub.finish();
    }

    fn session(&self) -> Result<String, NoMemory> {
        self.hub.session()
    }
}
