//! How bytes in memory are given to reads.
ghost use Rattle.std.specs.Prelude.{◌≡◌, ◌<◌, ◌||◌, true, false, [], length, take, drop, IfOk, OnOk, OnErr};
ghost use Rattle.cf_bytes.specs.{after_call};
ghost use Rattle.cf_conn.specs.Source.{is_end};
ghost use Rattle.cf_conn.specs.SliceSource.{lent_at, read_answer};

use cf_bytes::{Failed, NoMemory, Plan};
use std::alloc::Global;
use std::marker::Model;

/// The most bytes that one read gives, whether a read has told their end, and which reads are to fail.
#[derive(Drop)]
pub(super) struct Giving {
    most: usize,
    ended: bool,
    plan: Plan,
}

impl Model for Giving {
    ghost use Rattle.std.specs.Prelude.{◌<◌};
    ghost use Rattle.cf_conn.specs.SliceSource.{Pace};

    ghost Value = { Pace };

    ghost view = { λ g. record { most = g.most; ended = g.ended; plan = g.plan } };

    ghost invariant = { λ g. 0 < g.most };
}

impl Giving {
    pub(super) fn new(alloc: Global, most: usize) -> Giving
        requires { 0 < most }
        ensures { result
            ≡ record { most = most; ended = false; plan = record { calls = 0; failing = []; faults = 0 } } }
    {
        Giving {
            most,
            ended: false,
            plan: Plan::new(alloc),
        }
    }

    /// From now on these reads fail, counted from 1.
    pub(super) fn fail_at(&mut self, calls: &[u64]) -> Result<(), NoMemory>
        ensures ok { OnOk result (self.new ≡ record self.old { plan = record self.old.plan { failing = calls.now } }) }
        ensures err { OnErr result (self.new ≡ self.old) }
    {
        self.plan.set(calls)
    }

    pub(super) fn ended(&self) -> bool
        ensures { result ≡ self.now.ended }
    {
        self.ended
    }

    pub(super) fn faults(&self) -> u64
        ensures { result ≡ self.now.plan.faults }
    {
        self.plan.faults()
    }

    /// Gives the first of these bytes, and answers how many.
    pub(super) fn give(&mut self, bytes: &[u8], into: &mut [u8]) -> Result<usize, Failed>
        ensures answer { result ≡ read_answer (lent_at self.old bytes.now) (length into.old) }
        ensures front { IfOk result (λ n. take n into.new ≡ take n bytes.now) }
        ensures rest { IfOk result (λ n. drop n into.new ≡ drop n into.old) }
        ensures end { IfOk result (λ n. 0 < length into.old → n ≡ 0 → bytes.now ≡ []) }
        ensures after { self.new ≡ record self.old {
          ended = self.old.ended || is_end (length into.old) result;
          plan = after_call self.old.plan true;
        } }
    {
        self.plan.call(true)?;
        let n = bytes.len().min(self.most).min(into.len());
        into[..n].copy_from_slice(&bytes[..n]);
        if n == 0 && !into.is_empty() {
            self.ended = true;
        }
        Ok(n)
    }
}
