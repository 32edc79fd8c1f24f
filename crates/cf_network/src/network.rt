//! Wires that tell the user what passes them.
ghost use Rattle.std.specs.Prelude.{◌≡◌, ◌⊎◌, length, min, IfOk, None, [], false};
ghost use Rattle.cf_bytes.specs.{HasRisen};
ghost use Rattle.cf_hub.specs.{told_of, keeps_of};
ghost use Rattle.cf_network.specs.Standing.{HasThreads};
ghost use Rattle.cf_wires.specs.{Tells};

use crate::calls::{Calls, calls_of};
use crate::outside::SystemDialer;
use crate::passed::{Asked, FilterSpan, Passed, Progress, Stand};
use crate::pulse::{Asker, Bell, Naps};
use cf_bytes::{NoMemory, PeerNo};
use cf_hub::Hub;
use cf_tasks::{Spawner, Workers};
use cf_tell::Teller;
use cf_wires::{Delivery, WireFail, Wires};
use std::alloc::Global;
use std::io::{self, IsTerminal};
use std::marker::Model;
use std::sync::{Arc, Wait};
use std::thread::Threads;
use std::time::Clock;

/// Peers of which each has a reader in a thread of its own, and a ticker, as wires. It tells on standard error what
/// passes: each dial that failed, and why; where that is a terminal, at most once a second how far it has come, if that
/// has changed; where it is asked to, at once each peer that comes, goes or is closed, and how many are left; and by
/// `tell_stand` how a peer stands. Contracts see what the wires tell and how many threads wait, and not how they are
/// made.
#[derive(Drop)]
pub struct Network<R: Wait + Threads + Copy + Drop> {
    teller: &'static Teller,
    // The handle by which calls are waited for.
    handle: R,
    calls: Calls,
    hub: Hub<SystemDialer, Naps<R>, R>,
    // Whether standard error is one.
    on_terminal: bool,
    // Whether it is told at once how a peer comes to stand.
    at_once: bool,
    // What asks the pulse for seconds, and ends it.
    asker: Asker,
    passed: Passed,
}

impl<R: Wait + Threads + Copy + Drop> Model for Network<R> {
    ghost use Rattle.std.specs.Prelude.{◌+◌};
    ghost use Rattle.cf_hub.specs.{told_of, keeps_of, faults_in};
    ghost use Rattle.cf_network.specs.Standing.{Standing};

    ghost Value = { Standing };

    ghost view = { λ n. record {
      told = told_of n.hub.book;
      faults = n.hub.dialer.tcp.faults + (n.hub.missed + faults_in (λ w. w.faults) n.hub.writers.items);
      keeps = keeps_of n.hub.book;
      readers = n.hub.readers.count;
      tickers = n.hub.tickers.count;
    } };
}

// A hub that has dialled nobody, with threads for so many peers and, where there are any, for its ticker.
fn hub_of<R: Wait + Threads + Copy + Drop + Send + 'static, K: Spawner>(
    rt: &HostRuntime,
    dialer: SystemDialer,
    handle: R,
    pulse: Naps<R>,
    spawner: &mut K,
    peers: usize,
) -> Result<Hub<SystemDialer, Naps<R>, R>, NoMemory>
    ensures told { IfOk result (λ h. Tells [] (told_of h.book)) }
    ensures finished { IfOk result (λ h. (told_of h.book).finished ≡ false) }
    ensures keeps { IfOk result (λ h. keeps_of h.book ≡ false) }
    ensures threads { IfOk result (λ h. ((h.readers.count ≡ peers) × (h.tickers.count ≡ min 1 peers))
        ⊎ HasRisen (K.refusals spawner.old) (K.refusals spawner.new)) }
{
    let alloc = rt.alloc();
    if peers > 0 {
        return Hub::started(handle, alloc, dialer, pulse, spawner, peers);
    }
    let readers = Workers::new(handle, alloc, spawner, 0)?;
    let tickers = Workers::new(handle, alloc, spawner, 0)?;
    Hub::new(handle, alloc, dialer, readers, tickers, pulse)
}

impl<R: Wait + Threads + Copy + Drop + Send + 'static> Network<R> {
    /// Peers with these names, of whom none was dialled. For each of them a thread waits, and one for the ticker, or the
    /// spawner's count of refusals rose; where there are none no thread is started. Each name is called at once, in a
    /// thread of its own where there is one, and is dialled by taking what that comes to.
    pub fn new<K: Spawner>(
        teller: &'static Teller,
        handle: R,
        spawner: &mut K,
        names: &[String],
    ) -> Result<Network<R>, NoMemory>
        ensures told { IfOk result (λ n. Tells [] n.told) }
        ensures finished { IfOk result (λ n. n.told.finished ≡ false) }
        ensures keeps { IfOk result (λ n. n.keeps ≡ false) }
        ensures threads { IfOk result
            (λ n. HasThreads (length names.now) n (K.refusals spawner.old) (K.refusals spawner.new)) }
    {
        let rt = teller.runtime();
        let bell = Arc::new(rt.alloc(), Bell::new())?;
        let pulse = Naps::new(rt, handle, Arc::try_clone(&bell)?);
        let theirs = Arc::try_clone(&bell)?;
        let calls = calls_of(&rt, spawner, names)?;
        let dialer = SystemDialer::new(rt, theirs)?;
        Ok(Network {
            teller,
            handle,
            calls,
            hub: hub_of(&rt, dialer, handle, pulse, spawner, names.len())?,
            on_terminal: rt.stderr().is_terminal(),
            at_once: false,
            asker: Asker::new(bell),
            passed: Passed::new(),
        })
    }
}

impl<R: Wait + Threads + Copy + Drop> Network<R> {
    // Tells of a dial that failed. `known` is how many reasons were known before.
    fn tell_failed(&self, name: &str, known: usize) -> io::Result<()> {
        match self.hub.dialer().failed().get(known) {
            Some(failed) => eprintln!(self.teller; "cf: {failed}"),
            None => eprintln!(self.teller; "cf: {name}: it could not be dialled"),
        }
    }

    // Tells how far it has come.
    fn tell_progress(&self, progress: Progress) -> io::Result<()> {
        eprintln!(self.teller;
            "cf: peers connected: {}; headers: {}; filters: {}; blocks: {}",
            progress.connected, progress.headers, progress.filters, progress.blocks
        )
    }

    // Tells how far it has come, where that is to be told.
    fn tell_news(&mut self)
        ensures same { self.new ≡ self.old }
    {
        if !self.on_terminal {
            return;
        }
        if let Some(progress) = self.passed.news(self.teller.monotonic().ok()) {
            let _told = self.tell_progress(progress);
        }
    }

    // Tells how a peer has come to stand, and how many are connected, where that is told at once and was not told yet.
    fn tell_change(&mut self, p: PeerNo)
        ensures same { self.new ≡ self.old }
    {
        if self.at_once && !self.is_told(p) {
            let _told = self.tell_so(p);
            self.passed.note_told(p);
        }
    }

    // Tells how a peer stands, and how many are connected.
    fn tell_so(&self, p: PeerNo) -> io::Result<()> {
        match self.passed.stand(p) {
            Some(Stand::Connected) => eprintln!(self.teller; "cf: peer {}: connected", p.0),
            Some(stand) => eprintln!(self.teller;
                "cf: peer {}: {stand}; peers left: {}",
                p.0,
                self.passed.connected()
            ),
            None => Ok(()),
        }
    }

    // Tells of a peer that has gone, unless it was closed, which was told then.
    fn tell_gone(&mut self, delivery: &Delivery)
        ensures same { self.new ≡ self.old }
    {
        if let Delivery::Gone(p) = delivery {
            if !self.is_closed(*p) {
                self.tell_change(*p);
            }
        }
    }

    /// From now on each peer that comes, goes or is closed is told of at once, with how many are left.
    pub fn tell_at_once(&mut self)
        ensures same { self.new ≡ self.old }
    {
        self.at_once = true;
    }

    /// What a peer was asked for that was closed since it was late with that.
    pub fn waited_for(&self, p: PeerNo) -> Option<Asked> {
        self.passed.waited_for(p)
    }

    /// The filters that were asked for last of the peer whose bytes made that a peer was closed: where it is closed for
    /// what a filter omits, that is the filter of one block. `None` where that peer was asked for something else since.
    pub fn closed_at(&self, p: PeerNo) -> Option<FilterSpan> {
        self.passed.closed_at(p)
    }

    /// Whether a peer was closed.
    pub fn is_closed(&self, p: PeerNo) -> bool {
        matches!(
            self.passed.stand(p),
            Some(Stand::SendFailed | Stand::Overdue(_) | Stand::Closed(_))
        )
    }

    /// Whether it was told at once that a peer is lost, with all that is known of why.
    pub fn is_told(&self, p: PeerNo) -> bool {
        self.passed.is_told(p)
    }

    /// Tells how a peer stands, if it was dialled, and that it is lost was not told at once.
    pub fn tell_stand(&self, p: PeerNo) -> io::Result<()> {
        if self.is_told(p) {
            return Ok(());
        }
        match self.passed.stand(p) {
            Some(stand) => eprintln!(self.teller; "cf: peer {}: {stand}", p.0),
            None => Ok(()),
        }
    }
}

impl<R: Wait + Threads + Copy + Drop> Wires for Network<R> {
    ghost told = { λ n. n.told };

    ghost faults = { λ n. n.faults };

    ghost script = { λ _. None };

    ghost keeps = { λ n. n.keeps };

    fn keep_log(&mut self) {
        self.hub.keep_log();
    }

    fn dial(&mut self, name: &str) -> Result<PeerNo, WireFail> {
        if let Some(opened) = self.calls.answer(&self.handle, name) {
            self.hub.dialer().hand(opened);
        }
        let known = self.hub.dialer().failed().len();
        let answer = self.hub.dial(name);
        match answer {
            Ok(p) => {
                self.passed.note_stand(p, Stand::Connected);
                self.tell_change(p);
            }
            Err(WireFail::Failed) => {
                self.passed.note_not_dialled();
                let _told = self.tell_failed(name, known);
            }
            Err(WireFail::NoMemory) => {}
        }
        answer
    }

    fn send(&mut self, p: PeerNo, bytes: &[u8]) -> Result<(), WireFail> {
        self.passed.note_sent(p, bytes);
        let answer = self.hub.send(p, bytes);
        if matches!(answer, Err(WireFail::Failed)) {
            self.passed.note_stand(p, Stand::SendFailed);
        }
        answer
    }

    fn close(&mut self, p: PeerNo) {
        self.passed.note_closed(p);
        self.hub.close(p);
        self.tell_change(p);
    }

    fn next(&mut self) -> Result<Delivery, NoMemory> {
        self.asker.ask();
        let answer = self.hub.next();
        if let Ok(delivery) = &answer {
            self.asker.note(delivery);
            self.passed.note(delivery);
            self.tell_gone(delivery);
            self.tell_news();
        }
        answer
    }

    fn finish(&mut self) {
        self.asker.end();
        self.hub.finish();
    }

    fn session(&self) -> Result<String, NoMemory> {
        self.hub.session()
    }
}
