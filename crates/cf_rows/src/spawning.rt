//! What becomes of the tasks of a call.
ghost use Rattle.std.specs.Prelude.{◌≡◌, ◌≢◌, ◌==◌, if◌then◌else◌};
ghost use Rattle.cf_tasks.specs.declared.threads.Choice.TheVariants.{Refuse};

use cf_tasks::{Choice, Spawner};
use std::thread::Threads;

/// Does the same with so many tasks, and refuses the others.
#[derive(Drop)]
pub struct Limited<R> {
    rt: R,
    way: Choice,
    left: u32,
    refused: u64,
}

impl<R: Threads + Drop> Limited<R> {
    /// A spawner that does this with so many.
    pub fn new(rt: R, way: Choice, left: u32) -> Limited<R> {
        Limited {
            rt,
            way,
            left,
            refused: 0,
        }
    }
}

impl<R: Threads + Drop> Spawner for Limited<R> {
    type Rt = R;

    ghost refusals = { λ s. s.refused };

    ghost next = { λ s. if s.left == 0 then Refuse else s.way };

    ghost moves = { λ _ _ _. Unit {0} };

    fn rt(&self) -> &R {
        &self.rt
    }

    fn choose(&mut self) -> Choice {
        if self.left == 0 {
            self.refused = self.refused.saturating_add(1);
            return Choice::Refuse;
        }
        self.left -= 1;
        if let Choice::Refuse = self.way {
            self.refused = self.refused.saturating_add(1);
        }
        self.way
    }

    fn count(&mut self) {
        self.refused = self.refused.saturating_add(1);
    }
}
