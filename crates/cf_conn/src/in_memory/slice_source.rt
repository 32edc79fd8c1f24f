//! A source over a slice.
ghost use Rattle.std.specs.Prelude.{◌≡◌, ◌≤◌, ◌<◌, ◌||◌, false, [], length, take, drop, Some, IfOk, OnOk, OnErr};
ghost use Rattle.cf_bytes.specs.{HasRisen};
ghost use Rattle.cf_conn.specs.Source.{with_front, is_end};
ghost use Rattle.cf_conn.specs.SliceSource.{read_answer, after_read};

use super::giving::Giving;
use crate::source::Source;
use cf_bytes::{Failed, NoMemory};
use std::alloc::Global;
use std::marker::Model;

/// Gives the bytes of a slice, with reads that are to fail.
#[derive(Drop)]
pub struct SliceSource<'a> {
    rest: &'a [u8],
    giving: Giving,
}

impl<'a> Model for SliceSource<'a> {
    ghost use Rattle.cf_conn.specs.SliceSource.{Lent, lent_at};

    ghost Value = { Lent };

    ghost view = { λ s. lent_at s.giving s.rest.now };
}

impl<'a> SliceSource<'a> {
    /// One read gives at most `most` bytes.
    pub fn new(alloc: Global, bytes: &'a [u8], most: usize) -> SliceSource<'a>
        requires { 0 < most }
        ensures { result ≡ record {
          rest = bytes.now;
          most = most;
          ended = false;
          plan = record { calls = 0; failing = []; faults = 0 };
        } }
    {
        SliceSource {
            rest: bytes,
            giving: Giving::new(alloc, most),
        }
    }

    /// From now on these reads fail, counted from 1.
    pub fn failing(&mut self, calls: &[u64]) -> Result<(), NoMemory>
        ensures ok { OnOk result (self.new ≡ record self.old { plan = record self.old.plan { failing = calls.now } }) }
        ensures err { OnErr result (self.new ≡ self.old) }
    {
        self.giving.fail_at(calls)
    }
}

impl<'a> Source for SliceSource<'a> {
    ghost left = { λ s. Some s.rest };

    ghost ended = { λ s. s.ended };

    ghost faults = { λ s. s.plan.faults };

    fn read(&mut self, into: &mut [u8]) -> Result<usize, Failed>
        ensures some { IfOk result (λ n. n ≤ length into.new) }
        ensures rest { IfOk result (λ n. drop n into.new ≡ drop n into.old) }
        ensures ok { IfOk result (λ n. Some self.old.rest ≡ with_front (take n into.new) (Some self.new.rest)) }
        ensures end { IfOk result (λ n. 0 < length into.old → n ≡ 0 → self.old.rest ≡ []) }
        ensures ended { self.new.ended ≡ (self.old.ended || is_end (length into.old) result) }
        ensures err { OnErr result (Some self.new.rest ≡ Some self.old.rest) }
        ensures kept { OnOk result (self.new.plan.faults ≡ self.old.plan.faults) }
        ensures cause { OnErr result (HasRisen self.old.plan.faults self.new.plan.faults) }
        ensures answer { result ≡ read_answer self.old (length into.old) }
        ensures after { self.new ≡ after_read self.old (length into.old) }
    {
        let n = self.giving.give(self.rest, into)?;
        self.rest = &self.rest[n..];
        Ok(n)
    }
}
