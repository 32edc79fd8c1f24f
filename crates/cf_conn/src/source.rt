//! Where bytes come from, as a trait.
ghost use Rattle.std.specs.Prelude.{◌≡◌, ℕ, ◌≤◌, ◌<◌, ◌||◌, Bool, List, [], Option, length, take, drop, IfOk, IfSome, OnOk, OnErr};
ghost use Rattle.cf_bytes.specs.{HasRisen};
ghost use Rattle.cf_conn.specs.Source.{with_front, is_end};

use cf_bytes::Failed;

/// Where bytes come from.
pub trait Source {
    /// The bytes left, where the source tells them.
    ghost left: { Self → Option (List ℕ) };
    /// Whether a read into some room has answered 0. Every source tells it, and it stays.
    ghost ended: { Self → Bool };
    /// How often it has failed. The count stands still at the greatest u64.
    ghost faults: { Self → ℕ };
    /// What one call of `read` leaves, where more of that is known than the other clauses say.
    ghost reads: { Self → Self → Type 0 } = { λ _ _. Unit {0} };

    /// Reads some of the bytes that are left into the front of `into`, and answers how many: 0, where
    /// there is room, at their end alone.
    fn read(&mut self, into: &mut [u8]) -> Result<usize, Failed>
        ensures some { IfOk result (λ n. n ≤ length into.new) }
        ensures rest { IfOk result (λ n. drop n into.new ≡ drop n into.old) }
        ensures ok { IfOk result (λ n. left self.old ≡ with_front (take n into.new) (left self.new)) }
        ensures end { IfOk result (λ n. 0 < length into.old → n ≡ 0 → IfSome (left self.old) (λ bytes. bytes ≡ [])) }
        ensures ended { ended self.new ≡ (ended self.old || is_end (length into.old) result) }
        ensures err { OnErr result (left self.new ≡ left self.old) }
        ensures kept { OnOk result (faults self.new ≡ faults self.old) }
        ensures cause { OnErr result (HasRisen (faults self.old) (faults self.new)) }
        ensures exact { reads self.old self.new };
}
