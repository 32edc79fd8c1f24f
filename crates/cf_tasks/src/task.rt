//! Tasks, and their answers.
ghost use Rattle.std.specs.Prelude.{◌≡◌};

use std::marker::Model;
use std::snapshot::Snapshot;

/// A piece of work that is run once, in whichever thread.
pub trait Task: Drop {
    /// What a run answers.
    type Out: Drop;

    /// Which answers a run of this task may give.
    ghost gives: { Self → Self.Out → Type 0 };

    /// Runs it.
    fn run(self) -> Self::Out
        ensures { gives self result };
}

/// A task that was run, and its answer. Contracts see it as the task.
#[derive(Drop)]
pub struct Ran<J: Task> {
    out: J::Out,
    of: Snapshot<J>,
}

impl<J: Task> Model for Ran<J> {
    ghost Value = { J };

    ghost view = { λ r. r.of.value };

    ghost invariant = { λ r. J.gives r.of.value r.out };
}

impl<J: Task> Ran<J> {
    /// Its answer.
    pub fn out(self) -> J::Out
        ensures { J.gives self result }
    {
        let Ran { out, of: _ } = self;
        out
    }
}

/// Runs a task in place.
pub fn run_now<J: Task>(task: J) -> Ran<J>
    ensures { result ≡ task }
{
    let of = Snapshot::of(&task);
    Ran {
        out: task.run(),
        of,
    }
}

/// A task that was run elsewhere, with its answer.
pub fn already<J: Task>(of: Snapshot<J>, out: J::Out) -> Ran<J>
    requires { J.gives of.value out }
    ensures { result ≡ of.value }
{
    Ran { out, of }
}
