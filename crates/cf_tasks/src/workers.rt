//! Threads that wait for a task each. A task is handed over without starting a thread, which not every function may do.
ghost use Rattle.std.specs.Prelude.{◌≡◌, ◌≤◌, ◌+◌, ◌⊎◌, ℕ, IfOk, IfErr, IfSome, IfNone, OnOk, OnErr};
ghost use Rattle.crossbeam_channel.specs.Claims.{view};
ghost use Rattle.crossbeam_channel.specs.Ends.{sends_on, receives_on};
ghost use Rattle.cf_bytes.specs.{HasRisen};
ghost use Rattle.cf_tasks.specs.Starting.{IsPut, ArePut};
ghost use Rattle.cf_tasks.specs.Queue.{receiver, sender, with_made};
ghost use Rattle.cf_tasks.specs.Handing.{HasWaited};
ghost use Rattle.cf_tasks.specs.Waiting.{HasGiven, HasFailed};

use crate::ends::{Queue, Sender, Taker};
use crate::entry::Item;
use crate::passing::Passing;
use crate::{Running, Spawner, Task, joined};
use std::alloc::{AllocError, Global};
use std::marker::Model;
use std::snapshot::Snapshot;
use std::sync::Wait;
use std::thread::Threads;

/// What came of a task that was handed over.
#[derive(Drop)]
pub struct Answer<J, O> {
    /// The task.
    pub of: Snapshot<J>,
    /// The number under which it came.
    pub from: u8,
    /// What its run gave.
    pub out: O,
}

/// The task of such a thread: to wait for the one that it is given, and to run it.
#[derive(Drop)]
pub struct Waiter<J: Drop, R> {
    rt: R,
    taker: Taker<J>,
    ghost fresh: { view taker.seat ≡ with_made receiver },
}

/// What a waiter has come to; no answer where no task came.
#[derive(Drop)]
pub struct Waited<J: Drop, O> {
    taker: Taker<J>,
    answer: Option<Answer<J, O>>,
}

impl<J: Task, R: Passing + Drop> Task for Waiter<J, R> {
    type Out = Waited<J, J::Out>;

    ghost gives = { λ w o. (receives_on o.taker.front ≡ receives_on w.taker.front)
        × HasWaited J.gives (view w.taker.seat) (view o.taker.seat) o.answer × IfNone o.answer (R.gets_none w.rt) };

    fn run(self) -> Waited<J, J::Out> {
        let Waiter { rt, mut taker } = self;
        match taker.next(&rt) {
            None => Waited {
                taker,
                answer: None,
            },
            Some(Item { from, kind }) => {
                let of = Snapshot::of(&kind);
                let out = kind.run();
                Waited {
                    taker,
                    answer: Some(Answer { of, from, out }),
                }
            }
        }
    }
}

// A thread that waits, and the end by which its task is given to it.
#[derive(Drop)]
struct Ready<J: Task, R: Passing + Drop> {
    giver: Sender<J>,
    running: Running<Waiter<J, R>>,
    ghost ring: { receives_on running.taker.front ≡ sends_on giver.line },
    ghost fresh: { view giver.seat ≡ sender 0 },
    ghost first: { giver.number ≡ 0 },
}

/// A task that was handed over, and runs. Contracts see it as the task.
#[derive(Drop)]
pub struct Busy<J: Task, R: Passing + Drop> {
    giver: Sender<J>,
    running: Running<Waiter<J, R>>,
    of: Snapshot<J>,
}

impl<J: Task, R: Passing + Drop> Model for Busy<J, R> {
    ghost use Rattle.std.specs.Prelude.{◌≡◌};
    ghost use Rattle.crossbeam_channel.specs.Claims.{view as knows};
    ghost use Rattle.crossbeam_channel.specs.Ends.{sends_on, receives_on};
    ghost use Rattle.cf_tasks.specs.Queue.{sender, with_sent, entry};

    ghost Value = { J };

    ghost view = { λ b. b.of.value };

    ghost invariant = { λ b. (receives_on b.running.taker.front ≡ sends_on b.giver.line)
        × (knows b.giver.seat ≡ with_sent (sender 0) (entry 0 b.of.value)) };
}

impl<J: Task, R: Passing + Drop> Busy<J, R> {
    /// Waits for the task's answer. A task that its thread didn't take is run here.
    pub fn wait<T: Threads + Wait>(self, rt: &T) -> J::Out
        ensures { J.gives self result }
    {
        let Busy {
            giver,
            running,
            of: _,
        } = self;
        let (_, waited) = joined(rt, running);
        let Waited { taker, answer } = waited;
        let mut back = taker.back(giver);
        match answer {
            Some(Answer { out, .. }) => out,
            None => {
                let Item { kind, .. } = back.next(rt);
                kind.run()
            }
        }
    }
}

/// Threads of which each waits for one task. Contracts see how many wait, and how often a thread's queue handed its
/// task back.
#[derive(Drop)]
pub struct Workers<J: Task, R: Passing + Drop> {
    rt: R,
    ready: Vec<Ready<J, R>>,
    returned: u64,
}

impl<J: Task, R: Passing + Drop> Model for Workers<J, R> {
    ghost use Rattle.std.specs.Prelude.{vec_len};
    ghost use Rattle.cf_tasks.specs.Waiting.{Waiting};

    ghost Value = { Waiting };

    ghost view = { λ w. record { count = vec_len w.ready; returned = w.returned } };
}

// Starts a thread that waits for a task; `None` where the start is refused.
fn one_more<J: Task + Send + 'static, R: Passing + Drop + Send + 'static, K: Spawner>(
    rt: R,
    alloc: Global,
    spawner: &mut K,
) -> Result<Option<Ready<J, R>>, AllocError>
where
    J::Out: Drop + Send + 'static,
    ensures some { IfOk result (λ o. IfSome o (λ _. K.refusals spawner.new ≡ K.refusals spawner.old)) }
    ensures none { IfOk result (λ o. IfNone o (HasRisen (K.refusals spawner.old) (K.refusals spawner.new))) }
    ensures put { OnOk result (IsPut K.moves spawner.old spawner.new) }
{
    let (taker, giver) = Queue::new(alloc, 1)?.parted();
    match spawner.start(alloc, Waiter { rt, taker }) {
        Ok(running) => Ok(Some(Ready { giver, running })),
        Err(_) => Ok(None),
    }
}

impl<J: Task + Send + 'static, R: Passing + Drop + Copy + Send + 'static> Workers<J, R>
where
    J::Out: Drop + Send + 'static,
{
    /// Starts so many threads: so many tasks are put to the spawner. There are fewer only where its count of refusals
    /// rose.
    pub fn new<K: Spawner>(
        rt: R,
        alloc: Global,
        spawner: &mut K,
        count: usize,
    ) -> Result<Workers<J, R>, AllocError>
        ensures few { IfOk result (λ w. w.count ≤ count) }
        ensures fresh { IfOk result (λ w. w.returned ≡ 0) }
        ensures put { OnOk result (ArePut K.moves count spawner.old spawner.new) }
        ensures cause { IfOk result (λ w. ((w.count ≡ count) × (K.refusals spawner.new ≡ K.refusals spawner.old))
            ⊎ HasRisen (K.refusals spawner.old) (K.refusals spawner.new)) }
    {
        let mut ready = Vec::with_capacity(alloc, count)?;
        for _ in 0..count {
            if let Some(one) = one_more(rt, alloc, spawner)? {
                ready.push_reserved(one);
            }
        }
        Ok(Workers {
            rt,
            ready,
            returned: 0,
        })
    }
}

impl<J: Task, R: Passing + Drop> Workers<J, R> {
    /// Hands a task over to a thread that waits. It comes back where none waits, or where the thread's queue hands it
    /// back, which is counted: the queue's own call, and nothing else.
    pub fn give(&mut self, task: J) -> Result<Busy<J, R>, J>
        ensures ok { IfOk result (λ b. (b ≡ task) × HasGiven self.old self.new) }
        ensures err { IfErr result (λ t. (t ≡ task) × HasFailed self.old self.new) }
        ensures cause { OnErr result ((self.old.count ≡ 0) ⊎ ((rt : R) × R.hands_back rt)) }
    {
        let Some(Ready { mut giver, running }) = self.ready.pop() else {
            return Err(task);
        };
        let of = Snapshot::of(&task);
        match giver.send(&self.rt, task) {
            Ok(()) => Ok(Busy { giver, running, of }),
            Err(task) => {
                self.returned = self.returned.saturating_add(1);
                Err(task)
            }
        }
    }

    /// Ends the threads that still wait, and joins them.
    pub fn close<T: Threads>(&mut self, rt: &T)
        ensures count { self.new.count ≡ 0 }
        ensures returned { self.new.returned ≡ self.old.returned }
    {
        while let Some(Ready { giver, running }) = self.ready.pop() {
            drop(giver);
            let _ended = joined(rt, running);
        }
    }
}
