//! The times that count for a header.
ghost use Rattle.std.specs.Prelude.{◌≡◌, ◌≤◌, [], length};
ghost use Rattle.cf_headers.specs.Rules.{past_after, median_span};
ghost use Rattle.cf_headers.specs.Chain.{past_of};

use cf_block::genesis_header;
use std::marker::Model;

/// Of how many headers the times count.
pub const SPAN: usize = 11;

/// The times of the last 11 headers of a chain, or of all from genesis on where they are fewer, the newest first: those
/// that count for a header on it. No memory is taken.
#[derive(Drop)]
pub struct Past {
    times: [u32; SPAN],
    count: usize,
}

impl Model for Past {
    ghost use Rattle.std.specs.Prelude.{ℕ, ◌≤◌, List, take};

    ghost Value = { List ℕ };

    ghost view = { λ p. take p.count p.times };

    ghost use Rattle.cf_headers.specs.Rules.{median_span};

    ghost invariant = { λ p. (1 ≤ p.count) × (p.count ≤ median_span) };
}

impl Past {
    /// Genesis's time alone.
    #[tactic(auto, unfolding(crate::specs::Chain::past_of))]
    pub fn of_genesis() -> Past
        ensures { result ≡ past_of [] }
    {
        let mut times = [0; SPAN];
        times[0] = genesis_header().time;
        Past { times, count: 1 }
    }

    /// One header more, with this time.
    #[tactic(auto, using(crate::proofs::Pasts::pushed))]
    pub fn push(&mut self, time: u32)
        ensures { self.new ≡ past_after time self.old }
    {
        self.times.rotate_right(1);
        self.times[0] = time;
        self.count = SPAN.min(self.count + 1);
    }

    /// The times, the newest first.
    pub fn times(&self) -> &[u32]
        ensures value { result.now ≡ self.now }
        ensures some { 1 ≤ length self.now }
        ensures few { length self.now ≤ median_span }
    {
        &self.times[..self.count]
    }
}
