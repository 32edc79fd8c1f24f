//! Tasks in threads of their own.
ghost use Rattle.std.specs.Prelude.{◌≡◌, ◌≢◌, ◌⊎◌, ℕ, Bool, true, false, IfOk, IfErr, OnOk, OnErr};
ghost use Rattle.cf_bytes.specs.{HasRisen};
ghost use Rattle.cf_tasks.specs.Starting.{IsPut};
ghost use Rattle.cf_tasks.specs.declared.threads.Back.TheVariants.{Done, Unrun};
ghost use Rattle.cf_tasks.specs.declared.threads.Way.TheVariants.{There, Here};
ghost use Rattle.cf_tasks.specs.declared.threads.Choice.{Choice as ChoiceOf};
ghost use Rattle.cf_tasks.specs.declared.threads.Choice.TheVariants.{InThread, Refuse};

use crate::platform::{Flag, Platform};
use crate::task::{Ran, Task, already, run_now};
use std::alloc::Global;
use std::marker::{Model, PhantomData};
use std::snapshot::Snapshot;
use std::sync::atomic::Ordering;
use std::thread::{Promise, PromisedHandle, SpawnError, Threads, spawn_with};

/// What comes back of a thread.
#[derive(Drop)]
pub enum Back<J, O> {
    /// The task's answer.
    Done(O),
    /// The task, which was not run.
    Unrun(J),
}

/// The promise that what comes back is an answer of this task, or the task.
#[derive(Drop)]
pub struct Runs<J>(pub Snapshot<J>);

impl<J: Task> Promise<Back<J, J::Out>> for Runs<J> {
    ghost kept_by = { λ p b. elim b [ Done o ↦ J.gives p.0.value o | Unrun t ↦ t ≡ p.0.value ] };
}

// A task on its way to a thread, and whether it is to come back.
#[derive(Drop)]
struct Job<J, O> {
    task: J,
    unrun: Flag,
    gives: PhantomData<O>,
}

// Runs the task, or gives it back where it is to come back.
fn run_unless<J: Task>(job: Job<J, J::Out>) -> Back<J, J::Out>
    ensures { elim result [ Done o ↦ J.gives job.task o | Unrun t ↦ t ≡ job.task ] }
{
    let Job {
        task,
        unrun,
        gives: _,
    } = job;
    if unrun.load(Ordering::SeqCst) {
        Back::Unrun(task)
    } else {
        Back::Done(task.run())
    }
}

// Where a task that was started runs: in a thread; or here, and it has run.
#[derive(Drop)]
enum Way<J: Task> {
    There(PromisedHandle<Back<J, J::Out>, Runs<J>>),
    Here(Ran<J>),
}

/// A task that runs in a thread, or was run in place: a spawner was told to start it. Contracts see it as the task.
#[derive(Drop)]
pub struct Running<J: Task> {
    way: Way<J>,
    of: Snapshot<J>,
}

impl<J: Task> Model for Running<J> {
    ghost Value = { J };

    ghost view = { λ r. r.of.value };

    ghost invariant = { λ r. elim r.way [ There p ↦ p.promise.0.value ≡ r.of.value | Here h ↦ h ≡ r.of.value ] };
}

fn here<J: Task>(of: Snapshot<J>, ran: Ran<J>) -> Running<J>
    requires { ran ≡ of.value }
    ensures { result ≡ ran }
{
    Running {
        way: Way::Here(ran),
        of,
    }
}

fn there<J: Task>(of: Snapshot<J>, handle: PromisedHandle<Back<J, J::Out>, Runs<J>>) -> Running<J>
    requires { handle.promise.0.value ≡ of.value }
    ensures { result ≡ of.value }
{
    Running {
        way: Way::There(handle),
        of,
    }
}

// Starts the task in a thread, or gives it back: where no thread can be made, what was to run there is called here,
// with the flag set.
fn started<J: Task + Send + 'static, R: Platform>(
    rt: &R,
    unrun: Flag,
    theirs: Flag,
    task: J,
) -> Result<Running<J>, J>
where
    J::Out: Drop + Send + 'static,
    ensures ok { IfOk result (λ h. h ≡ task) }
    ensures err { IfErr result (λ t. t ≡ task) }
    ensures asked { OnOk result ((b : Bool) × R.made rt.now b) }
    ensures cause { OnErr result (R.made rt.now false) }
{
    let of = Snapshot::of(&task);
    let again = Snapshot::of(&task);
    let promise = Runs(Snapshot::of(&task));
    let job = Job {
        task,
        unrun: theirs,
        gives: PhantomData,
    };
    match rt.noted(spawn_with(rt, promise, move || run_unless(job))) {
        Ok(handle) => Ok(there(of, handle)),
        Err(SpawnError { value }) => {
            unrun.store(true, Ordering::SeqCst);
            match value() {
                Back::Unrun(task) => Err(task),
                Back::Done(out) => Ok(here(of, already(again, out))),
            }
        }
    }
}

// Starts the task in a thread, or gives it back where there is no memory or no thread.
fn started_in<J: Task + Send + 'static, R: Platform>(
    rt: &R,
    alloc: Global,
    task: J,
) -> Result<Running<J>, J>
where
    J::Out: Drop + Send + 'static,
    ensures ok { IfOk result (λ h. h ≡ task) }
    ensures err { IfErr result (λ t. t ≡ task) }
    ensures asked { OnOk result ((b : Bool) × R.made rt.now b) }
    ensures cause { OnErr result (R.made rt.now false ⊎ R.found rt.now false) }
{
    let Ok((unrun, theirs)) = rt.flag(alloc) else {
        return Err(task);
    };
    started(rt, unrun, theirs, task)
}

/// Waits for a task's answer, and gives it with what the task was.
pub fn joined<J: Task, R: Threads>(rt: &R, held: Running<J>) -> (Snapshot<J>, J::Out)
    ensures { (result.0.value ≡ held) × J.gives held result.1 }
{
    let Running { way, of } = held;
    (of, waited(rt, way))
}

// Waits for the answer. A task that came back after all is run here.
fn waited<J: Task, R: Threads>(rt: &R, way: Way<J>) -> J::Out
    ensures { J.gives (elim way [ There p ↦ p.promise.0.value | Here h ↦ h ]) result }
{
    match way {
        Way::Here(ran) => ran.out(),
        Way::There(handle) => match handle.join(rt) {
            Back::Done(out) => out,
            Back::Unrun(task) => task.run(),
        },
    }
}

/// What a spawner does with a task that it is to start.
#[derive(Clone, Copy)]
pub enum Choice {
    /// It is to run in a thread of its own.
    InThread,
    /// It is run in place, before the call answers.
    InPlace,
    /// It is given back.
    Refuse,
}

/// What starts tasks, and joins them. An implementation says what is done with the next task, and counts the starts
/// that were refused.
pub trait Spawner: Drop {
    /// The handle by which threads are started.
    type Rt: Platform;

    /// How many starts were refused. The count stands still at the greatest u64.
    ghost refusals: { Self → ℕ };
    /// What is to be done with the next task.
    ghost next: { Self → ChoiceOf };
    /// What a task that is put to it (true), and a failed start that it counts (false), make of it. It is known of
    /// those calls alone.
    ghost moves: { Self → Bool → Self → Type 0 };

    /// The handle.
    fn rt(&self) -> &Self::Rt;

    /// What is to be done with the next task. A refusal is counted.
    fn choose(&mut self) -> Choice
        ensures next { result ≡ next self.old }
        ensures moves { moves self.old true self.new }
        ensures refuse { result ≡ Refuse → HasRisen (refusals self.old) (refusals self.new) }
        ensures other { result ≢ Refuse → refusals self.new ≡ refusals self.old };

    /// Counts a start that failed: the platform told that no thread could be made, or that there was no memory for it.
    fn count(&mut self)
        requires lacks { (rt : Self.Rt) × (Self.Rt.made rt false ⊎ Self.Rt.found rt false) }
        ensures risen { HasRisen (refusals self.old) (refusals self.new) }
        ensures moves { moves self.old false self.new };

    /// Starts a task. It comes back, unrun, only where the count of refusals rose in this call; and that only where the
    /// spawner is to refuse it, or where the platform told that there is no thread for it or no memory. One that is to
    /// run in a thread doesn't run before the platform was asked for a thread.
    final fn start<J: Task + Send + 'static>(
        &mut self,
        alloc: Global,
        task: J,
    ) -> Result<Running<J>, J>
    where
        J::Out: Drop + Send + 'static,
        ensures ok { IfOk result (λ h. h ≡ task) }
        ensures err { IfErr result (λ t. (t ≡ task) × HasRisen (refusals self.old) (refusals self.new)) }
        ensures kept { OnOk result (refusals self.new ≡ refusals self.old) }
        ensures put { IsPut moves self.old self.new }
        ensures asked { OnOk result (next self.old ≡ InThread → (rt : Self.Rt) × (b : Bool) × Self.Rt.made rt b) }
        ensures cause { OnErr result ((next self.old ≡ Refuse)
            ⊎ ((rt : Self.Rt) × (Self.Rt.made rt false ⊎ Self.Rt.found rt false))) }
    {
        match self.choose() {
            Choice::Refuse => Err(task),
            Choice::InPlace => Ok(run_here(task)),
            Choice::InThread => match started_in(self.rt(), alloc, task) {
                Ok(running) => Ok(running),
                Err(task) => {
                    self.count();
                    Err(task)
                }
            },
        }
    }

    /// Waits for a task's answer, and gives it with what the task was.
    final fn join<J: Task>(&mut self, held: Running<J>) -> (Snapshot<J>, J::Out)
        ensures answer { (result.0.value ≡ held) × J.gives held result.1 }
        ensures kept { refusals self.new ≡ refusals self.old }
    {
        joined(self.rt(), held)
    }
}

/// A spawner that runs each task in a thread of its own.
#[derive(Drop)]
pub struct InThreads<R> {
    rt: R,
    refused: u64,
}

impl<R: Platform> InThreads<R> {
    /// A spawner over this handle; it has refused nothing yet.
    pub fn new(rt: R) -> Self
        ensures { result.refused ≡ 0 }
    {
        InThreads { rt, refused: 0 }
    }
}

impl<R: Platform + Drop> Spawner for InThreads<R> {
    type Rt = R;

    ghost refusals = { λ s. s.refused };

    ghost next = { λ _. InThread };

    ghost moves = { λ _ _ _. Unit {0} };

    fn rt(&self) -> &R {
        &self.rt
    }

    fn choose(&mut self) -> Choice {
        Choice::InThread
    }

    fn count(&mut self) {
        self.refused = self.refused.saturating_add(1);
    }
}

// Runs a task in place. Its answer is then joined as any other.
fn run_here<J: Task>(task: J) -> Running<J>
    ensures { result ≡ task }
{
    let of = Snapshot::of(&task);
    here(of, run_now(task))
}
