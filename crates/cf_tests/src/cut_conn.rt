//! A connection in memory whose bytes come in pieces of uneven lengths.
ghost use Rattle.std.specs.Prelude.{◌≡◌, ℕ, ◌≤◌, ◌<◌, ◌||◌, [], length, take, drop, Some, IfOk, OnOk, OnErr};
ghost use Rattle.cf_bytes.specs.{HasRisen, with_more};
ghost use Rattle.cf_conn.specs.{with_front, is_end, Writes};

use cf_bytes::{Failed, Sink};
use cf_conn::{Duplex, MemoryConn, MemoryEnd, Source};
use std::marker::Model;

// The most bytes of one read.
const MOST: usize = 128;

/// Gives at each read at most as many bytes as its lot says, from 1 to 128.
#[derive(Drop)]
pub(crate) struct CutConn {
    conn: MemoryConn,
    lot: u64,
}

impl Model for CutConn {
    ghost use Rattle.cf_conn.specs.{BothWays};

    ghost Value = { BothWays };

    ghost view = { λ c. c.conn };
}

impl CutConn {
    pub(crate) fn new(conn: MemoryConn, lot: u64) -> CutConn
        ensures { result ≡ conn }
    {
        CutConn { conn, lot }
    }

    pub(crate) fn written(&self) -> &[u8]
        ensures { result.now ≡ self.now.sink.bytes }
    {
        self.conn.written()
    }

    // The length of the next piece, by a linear congruential generator.
    fn draw(&mut self) -> usize
        ensures some { (1 ≤ result) × (result ≤ 128) }
        ensures same { self.new ≡ self.old }
    {
        self.lot = self
            .lot
            .wrapping_mul(6_364_136_223_846_793_005)
            .wrapping_add(1_442_695_040_888_963_407);
        (self.lot >> 57) as usize + 1
    }
}

impl Source for CutConn {
    ghost left = { λ c. Some c.source.rest };

    ghost ended = { λ c. c.source.ended };

    ghost faults = { λ c. c.source.plan.faults };

    fn read(&mut self, into: &mut [u8]) -> Result<usize, Failed> {
        self.receive(into)
    }
}

impl Sink for CutConn {
    ghost written = { λ c. Some c.sink.bytes };

    ghost faults = { λ c. c.sink.plan.faults };

    ghost writes = { Writes };

    fn write(&mut self, from: &[u8]) -> Result<usize, Failed> {
        self.send(from)
    }
}

impl Duplex for CutConn {
    type End = MemoryEnd;

    ghost tells = { λ end. end };

    fn receive(&mut self, into: &mut [u8]) -> Result<usize, Failed> {
        let most = self.draw().min(into.len());
        let mut piece = [0u8; MOST];
        let n = self.conn.receive(&mut piece[..most])?;
        into[..n].copy_from_slice(&piece[..n]);
        Ok(n)
    }

    fn send(&mut self, from: &[u8]) -> Result<usize, Failed> {
        self.conn.send(from)
    }

    fn close(self) -> MemoryEnd {
        self.conn.close()
    }
}
