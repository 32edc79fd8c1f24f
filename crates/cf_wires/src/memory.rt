//! Wires in memory: how each dial goes, the deliveries, a list of the calls that fail, and a log that is always told.
ghost use Rattle.std.specs.Prelude.{◌≡◌, ◌≤◌, ◌<◌, ◌+◌, ℕ, Some, reverse, length, [], ◌∷◌, ◌++◌, OnOk, OnErr, IfOk, IsErrOf, true, false, not, take, vec_len, vec_capacity};
ghost use Rattle.std.specs.List.{list_all, count_by};
ghost use Rattle.cf_bytes.specs.{HasRisen};
ghost use Rattle.cf_wires.specs.Log.{tally_of, tell, deliveries, dials as dials_of, is_real};
ghost use Rattle.cf_wires.specs.Dials.{WentAsMade, answered_at, calls_in, is_to_fail, fails_after, answers_after, goes_as_made};

use crate::event::{Delivery, Dial, Event, Name, Piece};
use crate::session::{put_deliveries, put_dials};
use crate::wires::{WireFail, Wires};
use cf_bytes::{NoMemory, PLACES, PeerNo};
use std::alloc::Global;

/// What wires in memory are made to give.
#[derive(Drop, Debug)]
pub enum Scripted {
    /// The next dial is answered.
    Dial(Name),
    /// The next dial fails.
    NoDial(Name),
    /// A delivery.
    Deliver(Delivery),
}

/// Wires that give what they were made to give, in order, and keep a log. A dial past the last one that was added
/// fails.
#[derive(Drop)]
pub struct MemoryWires {
    alloc: Global,
    dial_script: Vec<Dial>,
    script: Vec<Delivery>,
    // How many deliveries were given.
    at: usize,
    failing: Vec<u64>,
    // How many dials and sends there were.
    calls: u64,
    faults: u64,
    dials: u32,
    // Which peers were closed, by their numbers.
    closed: [bool; PLACES],
    log: Vec<Event>,
    // Whether the log is to be kept.
    keeps: bool,
    // Whether they are finished.
    finished: bool,
    ghost dials_are: { (tally_of (reverse log.items)).dials ≡ dials },
    ghost closed_are: { (tally_of (reverse log.items)).closed ≡ closed },
    ghost played: { deliveries (reverse log.items) ≡ take at script.items },
    ghost real: { list_all is_real script.items ≡ true },
    ghost within: { at ≤ vec_len script },
    ghost spent: { 0 < (tally_of (reverse log.items)).ended → at ≡ vec_len script },
    ghost room: { vec_len log + count_by not closed ≤ vec_capacity log },
    ghost went: { failing.items ≡ [] → WentAsMade dial_script.items (dials_of (reverse log.items)) },
    ghost many: { length (dials_of (reverse log.items)) ≡ dials },
    ghost counted: { calls_in (reverse log.items) ≡ calls },
    ghost few: { calls ≤ vec_len log },
    ghost made: { goes_as_made
        (record { script = record { dials = dial_script.items; deliveries = script.items }; failing = failing.items })
        (reverse log.items) ≡ true },
}

impl MemoryWires {
    ghost use Rattle.cf_wires.specs.Memory.{script_of, log_of, failing_of, calls_of, faults_of, keeps_of, finished_of, may_be_added, with_scripted, with_dial};

    /// Wires that were made to give nothing: each dial fails.
    pub fn new(alloc: Global) -> Result<MemoryWires, NoMemory>
        ensures log { IfOk result (λ w. log_of w ≡ []) }
        ensures script { IfOk result (λ w. script_of w ≡ record { dials = []; deliveries = [] }) }
        ensures failing { IfOk result (λ w. failing_of w ≡ []) }
        ensures calls { IfOk result (λ w. calls_of w ≡ 0) }
        ensures faults { IfOk result (λ w. faults_of w ≡ 0) }
        ensures keeps { IfOk result (λ w. keeps_of w ≡ false) }
        ensures finished { IfOk result (λ w. finished_of w ≡ false) }
    {
        Ok(MemoryWires {
            alloc,
            dial_script: Vec::new(alloc),
            script: Vec::new(alloc),
            at: 0,
            failing: Vec::new(alloc),
            calls: 0,
            faults: 0,
            dials: 0,
            closed: [false; PLACES],
            log: Vec::with_capacity(alloc, PLACES)?,
            keeps: false,
            finished: false,
        })
    }

    /// Adds what is to be given next: a dial's fate, or a delivery other than the end. All is added before the first
    /// dial.
    pub fn add(&mut self, e: Scripted) -> Result<(), NoMemory>
        requires new { log_of self.old ≡ [] }
        requires real { may_be_added e ≡ true }
        ensures script { OnOk result (script_of self.new ≡ with_scripted (script_of self.old) e) }
        ensures log { log_of self.new ≡ log_of self.old }
        ensures failing { failing_of self.new ≡ failing_of self.old }
        ensures calls { calls_of self.new ≡ calls_of self.old }
        ensures faults { faults_of self.new ≡ faults_of self.old }
        ensures keeps { keeps_of self.new ≡ keeps_of self.old }
        ensures finished { finished_of self.new ≡ finished_of self.old }
        ensures err { OnErr result (script_of self.new ≡ script_of self.old) }
    {
        match e {
            Scripted::Dial(name) => self.add_dial(name, true),
            Scripted::NoDial(name) => self.add_dial(name, false),
            Scripted::Deliver(d) => {
                self.script.push(d)?;
                Ok(())
            }
        }
    }

    /// Takes a whole script in place of what was added: how the dials go, in order, and the deliveries, none of them
    /// the end. It takes no memory.
    pub fn load(&mut self, dials: Vec<Dial>, deliveries: Vec<Delivery>)
        requires new { log_of self.old ≡ [] }
        requires real { list_all is_real deliveries.items ≡ true }
        ensures script { script_of self.new ≡ record { dials = dials.items; deliveries = deliveries.items } }
        ensures log { log_of self.new ≡ log_of self.old }
        ensures failing { failing_of self.new ≡ failing_of self.old }
        ensures calls { calls_of self.new ≡ calls_of self.old }
        ensures faults { faults_of self.new ≡ faults_of self.old }
        ensures keeps { keeps_of self.new ≡ keeps_of self.old }
        ensures finished { finished_of self.new ≡ finished_of self.old }
    {
        self.dial_script = dials;
        self.script = deliveries;
        self.at = 0;
    }

    // Adds a dial's fate.
    fn add_dial(&mut self, name: Name, answered: bool) -> Result<(), NoMemory>
        requires { log_of self.old ≡ [] }
        ensures script { OnOk result
            (script_of self.new ≡ with_dial (script_of self.old) (record { name = name; answered = answered })) }
        ensures log { log_of self.new ≡ log_of self.old }
        ensures failing { failing_of self.new ≡ failing_of self.old }
        ensures calls { calls_of self.new ≡ calls_of self.old }
        ensures faults { faults_of self.new ≡ faults_of self.old }
        ensures keeps { keeps_of self.new ≡ keeps_of self.old }
        ensures finished { finished_of self.new ≡ finished_of self.old }
        ensures err { OnErr result (script_of self.new ≡ script_of self.old) }
    {
        self.dial_script.push(Dial { name, answered })?;
        Ok(())
    }

    /// These calls of `dial` and `send` are to fail, counted from 1 over both. It is told before the first dial.
    pub fn failing(&mut self, calls: &[u64]) -> Result<(), NoMemory>
        requires { log_of self.old ≡ [] }
        ensures ok { OnOk result (failing_of self.new ≡ calls.now) }
        ensures script { script_of self.new ≡ script_of self.old }
        ensures log { log_of self.new ≡ log_of self.old }
        ensures calls { calls_of self.new ≡ calls_of self.old }
        ensures faults { faults_of self.new ≡ faults_of self.old }
        ensures keeps { keeps_of self.new ≡ keeps_of self.old }
        ensures finished { finished_of self.new ≡ finished_of self.old }
        ensures err { OnErr result (failing_of self.new ≡ failing_of self.old) }
    {
        self.failing = Vec::from_slice(self.alloc, calls)?;
        Ok(())
    }

    // Whether the script has the next dial answered.
    fn is_answered(&self) -> bool
        ensures { result ≡ answered_at self.now.dial_script.items self.now.dials }
    {
        match self.dial_script.get(self.dials as usize) {
            Some(dial) => dial.answered,
            None => false,
        }
    }

    // Whether the next dial or send is one of those that are to fail.
    fn fails(&self) -> bool
        ensures { result ≡ is_to_fail self.now.failing.items (calls_in (reverse self.now.log.items) + 1) }
    {
        let number = self.calls + 1;
        self.failing.contains(&number)
    }
}

impl Wires for MemoryWires {
    ghost use Rattle.cf_wires.specs.declared.event.Event.TheVariants.{Dialled, NotDialled, Sent, SendFailed};
    ghost use Rattle.cf_wires.specs.Wires.{HasCause};
    ghost use Rattle.cf_wires.specs.Memory.{log_of, made_of, told_of};

    ghost told = { λ w. record {
      log = Some (reverse w.log.items);
      tally = tally_of (reverse w.log.items);
      finished = w.finished;
    } };

    ghost faults = { λ w. w.faults };

    ghost script = { λ w. Some (record {
      script = record { dials = w.dial_script.items; deliveries = w.script.items };
      failing = w.failing.items;
    }) };

    ghost keeps = { λ w. w.keeps };

    fn keep_log(&mut self) {
        self.keeps = true;
    }

    /// Fails where the call is to fail, and where the script has no answer for it or is used up.
    fn dial(&mut self, name: &str) -> Result<PeerNo, WireFail>
        requires { (told_of self.old).tally.dials < 8 }
        ensures dialled { IfOk result (λ p. (p.0 ≡ (told_of self.old).tally.dials + 1)
            × (told_of self.new ≡ tell (Dialled p name.now) (told_of self.old))) }
        ensures not_dialled { IsErrOf result WireFail.Failed → told_of self.new
            ≡ tell (NotDialled (record { 0 = (told_of self.old).tally.dials + 1 }) name.now) (told_of self.old) }
        ensures no_memory { IsErrOf result WireFail.NoMemory → told_of self.new ≡ told_of self.old }
        ensures cause { HasCause self.old.faults self.new.faults result }
        ensures keeps { self.new.keeps ≡ self.old.keeps }
        ensures same { Some (made_of self.new) ≡ Some (made_of self.old) }
        ensures answered { OnOk result (answers_after (made_of self.old) (log_of self.old) ≡ true) }
        ensures unanswered { IsErrOf result WireFail.Failed
            → answers_after (made_of self.old) (log_of self.old) ≡ false }
    {
        let name = Name::from_text(self.alloc, name)?;
        self.log.reserve(10)?;
        let p = PeerNo(self.dials + 1);
        if self.fails() || !self.is_answered() {
            self.log.push(Event::NotDialled(p, name)).unwrap();
            self.calls += 1;
            self.dials += 1;
            self.faults = self.faults.saturating_add(1);
            return Err(WireFail::Failed);
        }
        self.log.push(Event::Dialled(p, name)).unwrap();
        self.calls += 1;
        self.dials += 1;
        Ok(p)
    }

    /// Fails where the call is to fail.
    fn send(&mut self, p: PeerNo, bytes: &[u8]) -> Result<(), WireFail>
        ensures sent { OnOk result (told_of self.new ≡ tell (Sent p bytes.now) (told_of self.old)) }
        ensures not_sent { IsErrOf result WireFail.Failed → told_of self.new ≡ tell (SendFailed p) (told_of self.old) }
        ensures no_memory { IsErrOf result WireFail.NoMemory → told_of self.new ≡ told_of self.old }
        ensures cause { HasCause self.old.faults self.new.faults result }
        ensures keeps { self.new.keeps ≡ self.old.keeps }
        ensures same { Some (made_of self.new) ≡ Some (made_of self.old) }
        ensures went { OnOk result (fails_after (made_of self.old) (log_of self.old) ≡ false) }
        ensures failed { IsErrOf result WireFail.Failed → fails_after (made_of self.old) (log_of self.old) ≡ true }
    {
        let piece = Piece::from_slice(self.alloc, bytes)?;
        self.log.reserve(10)?;
        if self.fails() {
            self.log.push(Event::SendFailed(p)).unwrap();
            self.calls += 1;
            self.faults = self.faults.saturating_add(1);
            return Err(WireFail::Failed);
        }
        self.log.push(Event::Sent(p, piece)).unwrap();
        self.calls += 1;
        Ok(())
    }

    fn close(&mut self, p: PeerNo) {
        self.log.push(Event::Closed(p)).unwrap();
        self.closed[p.0 as usize] = true;
    }

    fn next(&mut self) -> Result<Delivery, NoMemory> {
        self.log.reserve(10)?;
        if self.at >= self.script.len() {
            self.log.push(Event::Took(Delivery::Ended)).unwrap();
            return Ok(Delivery::Ended);
        }
        let next = &self.script[self.at];
        let d = next.copy(self.alloc)?;
        let kept = next.copy(self.alloc)?;
        self.log.push(Event::Took(kept)).unwrap();
        self.at += 1;
        Ok(d)
    }

    fn finish(&mut self) {
        self.finished = true;
    }

    fn session(&self) -> Result<String, NoMemory> {
        let mut text = String::new(self.alloc);
        if self.keeps {
            put_dials(&self.log, &mut text)?;
            put_deliveries(self.alloc, &self.log, &mut text)?;
        }
        Ok(text)
    }
}
