//! What goes through the queue.
use std::marker::Model;

/// The most bytes of one read.
pub const CHUNK: usize = 4096;

/// Some bytes, at most `CHUNK`, in place. Contracts see them as a list.
#[derive(Drop)]
pub struct Chunk {
    buf: [u8; CHUNK],
    count: usize,
}

impl Model for Chunk {
    ghost use Rattle.std.specs.Prelude.{ℕ, List, ◌<◌, ◌≤◌, take};

    ghost Value = { List ℕ };

    ghost view = { λ c. take c.count c.buf };

    ghost invariant = { λ c. (0 < c.count) × (c.count ≤ 4096) };
}

impl Chunk {
    ghost use Rattle.std.specs.Prelude.{◌≡◌, ◌<◌, ◌≤◌, length, take};

    /// The first bytes of a buffer, at least one.
    pub fn new(buf: [u8; CHUNK], count: usize) -> Chunk
        requires some { 0 < count }
        requires within { count ≤ 4096 }
        ensures { result ≡ take count buf }
    {
        Chunk { buf, count }
    }

    /// The bytes.
    pub fn bytes(&self) -> &[u8]
        ensures bytes { result.now ≡ self.now }
        ensures some { 0 < length result.now }
    {
        &self.buf[..self.count]
    }
}

/// Seconds, from 1 to 86,400. Contracts see the number.
#[derive(Drop)]
pub struct Seconds {
    count: u32,
}

impl Model for Seconds {
    ghost use Rattle.std.specs.Prelude.{ℕ, ◌≤◌};

    ghost Value = { ℕ };

    ghost view = { λ s. s.count };

    ghost invariant = { λ s. (1 ≤ s.count) × (s.count ≤ 86400) };
}

impl Seconds {
    ghost use Rattle.std.specs.Prelude.{◌≡◌, ◌≤◌};

    /// So many seconds.
    pub fn new(count: u32) -> Seconds
        requires { (1 ≤ count) × (count ≤ 86400) }
        ensures { result ≡ count }
    {
        Seconds { count }
    }

    /// How many.
    pub fn get(&self) -> u32
        ensures value { result ≡ self.now }
        ensures range { (1 ≤ result) × (result ≤ 86400) }
    {
        self.count
    }
}

/// What an entry of the queue says.
#[derive(Drop)]
pub enum EntryKind {
    /// Bytes that were read.
    Got(Chunk),
    /// Seconds that have passed.
    Tick(Seconds),
    /// Nothing more comes of this sender.
    Last,
}
