//! A source of bits.
ghost use Rattle.std.specs.Prelude.{◌≡◌, ◌∷◌, [], List, Bool, MatchOption, Some, None, ◌≤◌, ◌<◌, ◌^◌, ◌%◌, length};
ghost use Rattle.cf_golomb.specs.Bits.{number_at};

/// Bytes as bits, the most significant first.
pub(crate) trait BitSource {
    /// The bits that are left.
    ghost bits: { Self → List Bool };

    /// The next bit.
    fn bit(&mut self) -> Option<bool>
        ensures { MatchOption result (bits self.old ≡ []) (λ b. bits self.old ≡ b ∷ bits self.new) };

    /// How many bits stand before the end of a byte.
    fn loose(&self) -> u32
        ensures { result ≡ length (bits self.now) % 8 };

    /// The next k bits as a number.
    fn number(&mut self, k: u32) -> Option<u64>
        requires { k ≤ 32 }
        ensures exact { MatchOption result (number_at k (bits self.old) ≡ None)
            (λ v. number_at k (bits self.old) ≡ Some (v, bits self.new)) }
        ensures small { MatchOption result (Unit {0}) (λ v. v < 2 ^ k) };
}
