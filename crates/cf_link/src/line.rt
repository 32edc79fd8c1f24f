//! Tasks that were started, in order.
ghost use Rattle.std.specs.Prelude.{◌≡◌, ◌<◌, List, ◌++◌, ◌+◌, [], ◌∷◌, true, false, length, IsNone, OnOk, take, drop};
ghost use Rattle.std.specs.Option.{option_to_list};
ghost use Rattle.std.specs.List.{remove};
ghost use Rattle.cf_link.specs.Lines.{AllRun, Stay};

use crate::flag::Flag;
use cf_bytes::NoMemory;
use cf_tasks::{Running, Spawner, Task};
use std::alloc::Global;
use std::collections::VecDeque;
use std::marker::Model;
use std::snapshot::Snapshot;

/// What came of a task that is over. Contracts see it as the task.
#[derive(Drop)]
pub(crate) struct Ended<J: Task> {
    of: Snapshot<J>,
    out: J::Out,
}

impl<J: Task> Model for Ended<J> {
    ghost Value = { J };

    ghost view = { λ e. e.of.value };

    ghost invariant = { λ e. J.gives e.of.value e.out };
}

impl<J: Task> Ended<J> {
    /// Of this task this came.
    pub(crate) fn new(of: Snapshot<J>, out: J::Out) -> Ended<J>
        requires { J.gives of.value out }
        ensures { result ≡ of.value }
    {
        Ended { of, out }
    }

    /// What came of it.
    pub(crate) fn out(self) -> J::Out
        ensures { J.gives self result }
    {
        let Ended { of: _, out } = self;
        out
    }
}

// The place of a task in the line, and what came of it once it was joined.
#[derive(Drop)]
struct Place<J, R> {
    of: Snapshot<J>,
    out: Option<R>,
}

// A task that runs, with the number of its place, and the flag that it raises as it ends.
#[derive(Drop)]
struct Live<R, F> {
    number: usize,
    running: R,
    flag: F,
}

/// The tasks that were started and not given back, in order. Of those that are over, what came of them is kept, so that
/// the others can be looked at without them.
#[derive(Drop)]
pub(crate) struct Line<J: Task, F: Flag> {
    // The number of the first place.
    first: usize,
    places: VecDeque<Place<J, Ended<J>>>,
    live: Vec<Live<Running<J>, F>>,
}

impl<J: Task, F: Flag> Model for Line<J, F> {
    ghost use Rattle.std.specs.Prelude.{◌≡◌, ◌<◌, ◌+◌, ◌^◌, ◌&&◌, map, nat_lt, vec_len, vec_capacity};
    ghost use Rattle.std.specs.VecDeque.{deque_len, deque_capacity};
    ghost use Rattle.cf_link.specs.Lines as lines;

    ghost Value = { lines.Line J F };

    ghost view = { λ l. record {
      tasks = map (λ p. p.of.value) l.places.items;
      flags = map (λ v. v.flag) l.live.items;
      room = nat_lt (deque_len l.places) (deque_capacity l.places)
          && nat_lt (vec_len l.live) (vec_capacity l.live)
          && nat_lt (l.first + deque_len l.places + 1) (2 ^ 64);
      ready = lines.is_first_there (map (λ p. p.out) l.places.items);
    } };

    ghost invariant = { λ l. (l.first + deque_len l.places < 2 ^ 64)
        × lines.Fits l.first (map (λ p. p.of.value) l.places.items) (map (λ p. p.out) l.places.items) l.live.items };
}

impl<J: Task, F: Flag> Line<J, F> {
    /// No task.
    pub(crate) fn new(alloc: Global) -> Line<J, F>
        ensures tasks { result.tasks ≡ [] }
        ensures flags { result.flags ≡ [] }
    {
        Line {
            first: 0,
            places: VecDeque::new(alloc),
            live: Vec::new(alloc),
        }
    }

    /// Room for one more.
    pub(crate) fn reserve(&mut self) -> Result<(), NoMemory>
        ensures tasks { self.new.tasks ≡ self.old.tasks }
        ensures flags { self.new.flags ≡ self.old.flags }
        ensures ready { self.new.ready ≡ self.old.ready }
        ensures ok { OnOk result (self.new.room ≡ true) }
    {
        if self.first + self.places.len() == usize::MAX {
            return Err(NoMemory);
        }
        self.places.reserve(1)?;
        self.live.reserve(1)?;
        Ok(())
    }

    /// Puts a task that was started at the end.
    pub(crate) fn push(&mut self, of: Snapshot<J>, running: Running<J>, flag: F)
        requires room { self.old.room ≡ true }
        requires same { of.value ≡ running }
        ensures tasks { self.new.tasks ≡ self.old.tasks ++ running ∷ [] }
        ensures flags { self.new.flags ≡ self.old.flags ++ flag ∷ [] }
    {
        let number = self.first + self.places.len();
        self.places.push_back_reserved(Place { of, out: None });
        self.live.push_reserved(Live {
            number,
            running,
            flag,
        });
    }

    /// Puts a task that was run at the end.
    pub(crate) fn push_over(&mut self, of: Snapshot<J>, ended: Ended<J>)
        requires room { self.old.room ≡ true }
        requires same { of.value ≡ ended }
        ensures tasks { self.new.tasks ≡ self.old.tasks ++ ended ∷ [] }
        ensures flags { self.new.flags ≡ self.old.flags }
    {
        self.places.push_back_reserved(Place {
            of,
            out: Some(ended),
        });
    }

    /// Whether none runs.
    pub(crate) fn is_idle(&self) -> bool
        ensures idle { result ≡ true → self.now.flags ≡ [] }
        ensures runs { result ≡ false → 0 < length self.now.flags }
    {
        self.live.is_empty()
    }

    /// Joins one of those that run, and keeps what came of it.
    pub(crate) fn join_at<K: Spawner>(&mut self, spawner: &mut K, i: usize)
        requires { i < length self.old.flags }
        ensures tasks { self.new.tasks ≡ self.old.tasks }
        ensures flags { self.new.flags ≡ remove self.old.flags i }
        ensures room { self.old.room ≡ true → self.new.room ≡ true }
        ensures refusals { K.refusals spawner.new ≡ K.refusals spawner.old }
    {
        let Live {
            number,
            running,
            ..
        } = self.live.remove(i);
        let (of, out) = spawner.join(running);
        self.places[number - self.first].out = Some(Ended::new(of, out));
    }

    // Whether one of those that run is over.
    fn is_over(&self, i: usize) -> bool
        requires { i < length self.now.flags }
        ensures { (front : List F) × (f : F) × (rest : List F) × (self.now.flags ≡ front ++ f ∷ rest)
            × (length front ≡ i) × F.tells f result }
    {
        self.live[i].flag.is_raised()
    }

    /// Joins those that are over, wherever they stand, and keeps what came of them.
    pub(crate) fn sweep<K: Spawner>(&mut self, spawner: &mut K)
        ensures tasks { self.new.tasks ≡ self.old.tasks }
        ensures run { AllRun F.tells self.new.flags }
        ensures stay { Stay F.tells self.old.flags self.new.flags }
        ensures room { self.old.room ≡ true → self.new.room ≡ true }
        ensures refusals { K.refusals spawner.new ≡ K.refusals spawner.old }
    {
        let mut i = 0;
        while i < self.live.len() {
            if self.is_over(i) {
                self.join_at(spawner, i);
            } else {
                i += 1;
            }
        }
    }

    // Whether the first one is over.
    fn is_first_over(&self) -> bool
        ensures { result ≡ self.now.ready }
    {
        match self.places.front() {
            Some(place) => place.out.is_some(),
            None => false,
        }
    }

    /// Takes the first one out, once it is over.
    pub(crate) fn next(&mut self) -> Option<Ended<J>>
        ensures tasks { self.old.tasks ≡ option_to_list result ++ self.new.tasks }
        ensures flags { self.new.flags ≡ self.old.flags }
        ensures ready { IsNone result → self.new.ready ≡ false }
        ensures all { IsNone result → self.new.flags ≡ [] → self.new.tasks ≡ [] }
    {
        if !self.is_first_over() {
            return None;
        }
        let Place { out, .. } = self.places.pop_front()?;
        self.first += 1;
        out
    }
}
