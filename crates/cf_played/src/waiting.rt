//! Bytes that wait to be delivered.
ghost use Rattle.std.specs.Prelude.{◌≡◌, ◌++◌, [], OnOk, OnErr, IsTrue, ◌↔◌};
ghost use Rattle.cf_played.specs.Waiting.{front_of, behind_front};

use cf_bytes::NoMemory;
use std::alloc::Global;
use std::marker::Model;

/// The most bytes of one delivery.
const PIECE: usize = 4096;

// Bytes that wait, the next one first. Contracts see their list.
#[derive(Drop)]
pub(crate) struct Waiting {
    bytes: Vec<u8>,
    // The bytes before this place were delivered.
    start: usize,
}

impl Model for Waiting {
    ghost use Rattle.std.specs.Prelude.{ℕ, List, drop, vec_len, ◌≤◌};

    ghost Value = { List ℕ };

    ghost view = { λ w. drop w.start w.bytes.items };

    ghost invariant = { λ w. w.start ≤ vec_len w.bytes };
}

impl Waiting {
    // No bytes; it takes no memory.
    pub(crate) fn new(alloc: Global) -> Waiting
        ensures { result ≡ [] }
    {
        Waiting {
            bytes: Vec::new(alloc),
            start: 0,
        }
    }

    // Puts a text at the end. Bytes that were delivered are let go only once they are at least as many as those that
    // wait.
    pub(crate) fn put(&mut self, text: &[u8]) -> Result<(), NoMemory>
        ensures ok { OnOk result (self.new ≡ self.old ++ text.now) }
        ensures err { OnErr result (self.new ≡ self.old) }
    {
        if self.start >= self.bytes.len() - self.start {
            drop(self.bytes.drain(..self.start));
            self.start = 0;
        }
        self.bytes.extend_from_slice(text)?;
        Ok(())
    }

    // Whether none waits.
    pub(crate) fn is_empty(&self) -> bool
        ensures { IsTrue result ↔ (self.now ≡ []) }
    {
        self.bytes[self.start..].is_empty()
    }

    // The bytes of the next delivery: the first 4,096, or all where there are fewer.
    pub(crate) fn front(&self) -> &[u8]
        ensures { result.now ≡ front_of self.now }
    {
        let rest = &self.bytes[self.start..];
        let n = rest.len().min(PIECE);
        &rest[..n]
    }

    // Those bytes were delivered.
    pub(crate) fn pass(&mut self)
        ensures { self.new ≡ behind_front self.old }
    {
        self.start += (self.bytes.len() - self.start).min(PIECE);
    }
}
