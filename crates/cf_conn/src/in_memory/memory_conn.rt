//! A connection in memory, and what stays of it.
ghost use Rattle.std.specs.Prelude.{◌≡◌, ◌≤◌, ◌<◌, ◌||◌, false, [], length, take, drop, Some, IfOk, OnOk, OnErr};
ghost use Rattle.cf_bytes.specs.{HasRisen, with_more, write_answer, after_write};
ghost use Rattle.cf_conn.specs.Source.{with_front, is_end};
ghost use Rattle.cf_conn.specs.SliceSource.{read_answer, after_read};
ghost use Rattle.cf_conn.specs.MemoryConn.{Writes};

use super::giving::Giving;
use crate::duplex::Duplex;
use crate::source::Source;
use cf_bytes::{Failed, NoMemory, Sink, VecSink};
use std::alloc::Global;
use std::marker::Model;

/// Gives bytes that it owns, and keeps what is written in a sink, with calls that are to fail.
#[derive(Drop)]
pub struct MemoryConn {
    bytes: Vec<u8>,
    start: usize,
    giving: Giving,
    sink: VecSink,
}

impl Model for MemoryConn {
    ghost use Rattle.std.specs.Prelude.{◌≤◌, drop, vec_len};
    ghost use Rattle.cf_conn.specs.SliceSource.{lent_at};
    ghost use Rattle.cf_conn.specs.MemoryConn.{BothWays};

    ghost Value = { BothWays };

    ghost view = { λ c. record { source = lent_at c.giving (drop c.start c.bytes.items); sink = c.sink } };

    ghost invariant = { λ c. c.start ≤ vec_len c.bytes };
}

impl MemoryConn {
    /// One read gives at most `most` of the bytes.
    pub fn new(alloc: Global, bytes: Vec<u8>, most: usize, sink: VecSink) -> MemoryConn
        requires { 0 < most }
        ensures source { result.source ≡ record {
          rest = bytes.items;
          most = most;
          ended = false;
          plan = record { calls = 0; failing = []; faults = 0 };
        } }
        ensures sink { result.sink ≡ sink }
    {
        MemoryConn {
            bytes,
            start: 0,
            giving: Giving::new(alloc, most),
            sink,
        }
    }

    /// From now on these reads fail, counted from 1.
    pub fn failing_reads(&mut self, calls: &[u64]) -> Result<(), NoMemory>
        ensures ok { OnOk result (self.new ≡ record self.old {
          source = record self.old.source { plan = record self.old.source.plan { failing = calls.now } };
        }) }
        ensures err { OnErr result (self.new ≡ self.old) }
    {
        self.giving.fail_at(calls)
    }

    /// From now on these writes fail, counted from 1.
    pub fn failing_writes(&mut self, calls: &[u64]) -> Result<(), NoMemory>
        ensures ok { OnOk result (self.new ≡ record self.old {
          sink = record self.old.sink { plan = record self.old.sink.plan { failing = calls.now } };
        }) }
        ensures err { OnErr result (self.new ≡ self.old) }
    {
        self.sink.failing(calls)
    }

    /// What was written.
    pub fn written(&self) -> &[u8]
        ensures { result.now ≡ self.now.sink.bytes }
    {
        self.sink.bytes()
    }
}

impl Source for MemoryConn {
    ghost left = { λ c. Some c.source.rest };

    ghost ended = { λ c. c.source.ended };

    ghost faults = { λ c. c.source.plan.faults };

    #[tactic(auto, using(crate::proofs::Steps::pieces, std::proofs::lemmas::Grind::common_steps))]
    fn read(&mut self, into: &mut [u8]) -> Result<usize, Failed>
        ensures some { IfOk result (λ n. n ≤ length into.new) }
        ensures rest { IfOk result (λ n. drop n into.new ≡ drop n into.old) }
        ensures ok { IfOk result
            (λ n. Some self.old.source.rest ≡ with_front (take n into.new) (Some self.new.source.rest)) }
        ensures end { IfOk result (λ n. 0 < length into.old → n ≡ 0 → self.old.source.rest ≡ []) }
        ensures ended { self.new.source.ended ≡ (self.old.source.ended || is_end (length into.old) result) }
        ensures err { OnErr result (Some self.new.source.rest ≡ Some self.old.source.rest) }
        ensures kept { OnOk result (self.new.source.plan.faults ≡ self.old.source.plan.faults) }
        ensures cause { OnErr result (HasRisen self.old.source.plan.faults self.new.source.plan.faults) }
        ensures answer { result ≡ read_answer self.old.source (length into.old) }
        ensures after { self.new ≡ record self.old { source = after_read self.old.source (length into.old) } }
    {
        let n = self.giving.give(&self.bytes[self.start..], into)?;
        self.start += n;
        Ok(n)
    }
}

impl Sink for MemoryConn {
    ghost written = { λ c. Some c.sink.bytes };

    ghost faults = { λ c. c.sink.plan.faults };

    ghost writes = { Writes };

    fn write(&mut self, from: &[u8]) -> Result<usize, Failed>
        ensures some { IfOk result (λ n. (n ≤ length from.now) × (0 < length from.now → 0 < n)) }
        ensures ok { IfOk result
            (λ n. Some self.new.sink.bytes ≡ with_more (Some self.old.sink.bytes) (take n from.now)) }
        ensures err { OnErr result (Some self.new.sink.bytes ≡ Some self.old.sink.bytes) }
        ensures kept { OnOk result (self.new.sink.plan.faults ≡ self.old.sink.plan.faults) }
        ensures cause { OnErr result (HasRisen self.old.sink.plan.faults self.new.sink.plan.faults) }
        ensures answer { result ≡ write_answer self.old.sink from.now }
        ensures after { self.new ≡ record self.old { sink = after_write self.old.sink from.now } }
    {
        self.sink.write(from)
    }
}

impl Duplex for MemoryConn {
    type End = MemoryEnd;

    ghost tells = { λ end. end };

    fn receive(&mut self, into: &mut [u8]) -> Result<usize, Failed>
        ensures some { IfOk result (λ n. n ≤ length into.new) }
        ensures rest { IfOk result (λ n. drop n into.new ≡ drop n into.old) }
        ensures ok { IfOk result
            (λ n. Some self.old.source.rest ≡ with_front (take n into.new) (Some self.new.source.rest)) }
        ensures end { IfOk result (λ n. 0 < length into.old → n ≡ 0 → self.old.source.rest ≡ []) }
        ensures ended { self.new.source.ended ≡ (self.old.source.ended || is_end (length into.old) result) }
        ensures err { OnErr result (Some self.new.source.rest ≡ Some self.old.source.rest) }
        ensures kept { OnOk result (self.new.source.plan.faults ≡ self.old.source.plan.faults) }
        ensures cause { OnErr result (HasRisen self.old.source.plan.faults self.new.source.plan.faults) }
        ensures answer { result ≡ read_answer self.old.source (length into.old) }
        ensures after { self.new ≡ record self.old { source = after_read self.old.source (length into.old) } }
    {
        self.read(into)
    }

    fn send(&mut self, from: &[u8]) -> Result<usize, Failed>
        ensures some { IfOk result (λ n. (n ≤ length from.now) × (0 < length from.now → 0 < n)) }
        ensures ok { IfOk result
            (λ n. Some self.new.sink.bytes ≡ with_more (Some self.old.sink.bytes) (take n from.now)) }
        ensures err { OnErr result (Some self.new.sink.bytes ≡ Some self.old.sink.bytes) }
        ensures kept { OnOk result (self.new.sink.plan.faults ≡ self.old.sink.plan.faults) }
        ensures cause { OnErr result (HasRisen self.old.sink.plan.faults self.new.sink.plan.faults) }
        ensures answer { result ≡ write_answer self.old.sink from.now }
        ensures after { self.new ≡ record self.old { sink = after_write self.old.sink from.now } }
    {
        self.write(from)
    }

    fn close(self) -> MemoryEnd
        ensures { result ≡ record {
          left = Some self.source.rest;
          written = Some self.sink.bytes;
          ended = self.source.ended;
          read_faults = self.source.plan.faults;
          write_faults = self.sink.plan.faults;
        } }
    {
        MemoryEnd {
            ended: self.giving.ended(),
            read_faults: self.giving.faults(),
            start: self.start,
            bytes: self.bytes,
            sink: self.sink,
        }
    }
}

/// A connection in memory that was closed.
#[derive(Drop)]
pub struct MemoryEnd {
    bytes: Vec<u8>,
    start: usize,
    sink: VecSink,
    ended: bool,
    read_faults: u64,
}

impl Model for MemoryEnd {
    ghost use Rattle.std.specs.Prelude.{◌≤◌, Some, drop, vec_len};
    ghost use Rattle.cf_conn.specs.Told.{ConnTold};

    ghost Value = { ConnTold };

    ghost view = { λ e. record {
      left = Some (drop e.start e.bytes.items);
      written = Some e.sink.bytes;
      ended = e.ended;
      read_faults = e.read_faults;
      write_faults = e.sink.plan.faults;
    } };

    ghost invariant = { λ e. e.start ≤ vec_len e.bytes };
}

impl MemoryEnd {
    /// The bytes that were not read.
    pub fn left(&self) -> &[u8]
        ensures { Some result.now ≡ self.now.left }
    {
        &self.bytes[self.start..]
    }

    /// The bytes that were written.
    pub fn written(&self) -> &[u8]
        ensures { Some result.now ≡ self.now.written }
    {
        self.sink.bytes()
    }

    /// Whether a read had told the end.
    pub fn ended(&self) -> bool
        ensures { result ≡ self.now.ended }
    {
        self.ended
    }

    /// How many reads had failed.
    pub fn read_faults(&self) -> u64
        ensures { result ≡ self.now.read_faults }
    {
        self.read_faults
    }

    /// How many writes had failed.
    pub fn write_faults(&self) -> u64
        ensures { result ≡ self.now.write_faults }
    {
        self.sink.faults()
    }
}
