//! Whoever keeps the records of the blocks that join a chain.
ghost use Rattle.std.specs.Prelude.{◌≡◌, ◌∷◌, ◌++◌, [], ℕ, List, Option, None, Some, OnOk, OnErr};
ghost use Rattle.cf_bytes.specs.{with_more};
ghost use Rattle.cf_grow.specs.Keeping.{without_last};

use cf_bytes::Failed;
use std::alloc::Global;
use std::marker::Model;

/// Whoever keeps the record of each block that joins a chain, as a file that grows.
pub trait Keeper {
    /// All the bytes that it has, where they are told.
    ghost kept: { Self → Option (List ℕ) };

    /// Puts a record behind what it has, whole and to stay, or not at all.
    fn keep(&mut self, record: &[u8]) -> Result<(), Failed>
        ensures ok { OnOk result (kept self.new ≡ with_more (kept self.old) record.now) }
        ensures err { OnErr result (kept self.new ≡ kept self.old) };

    /// Takes so many bytes away from the end of what it has.
    fn take_back(&mut self, count: usize)
        ensures { kept self.new ≡ without_last count (kept self.old) };
}

/// Nothing is kept.
#[derive(Clone, Copy, Debug)]
pub struct Unkept;

impl Keeper for Unkept {
    ghost kept = { λ _. None };

    fn keep(&mut self, _record: &[u8]) -> Result<(), Failed> {
        Ok(())
    }

    fn take_back(&mut self, _count: usize) {}
}

/// Records in memory, behind bytes that stood there before, with room for so many more bytes. Contracts see the bytes.
#[derive(Drop)]
pub struct KeptBytes {
    bytes: Vec<u8>,
    room: usize,
}

impl Model for KeptBytes {
    ghost use Rattle.std.specs.Prelude.{List, ℕ};

    ghost Value = { List ℕ };

    ghost view = { λ s. s.bytes.items };
}

impl KeptBytes {
    /// These bytes, and room for so many more.
    pub fn new(bytes: Vec<u8>, room: usize) -> KeptBytes
        ensures { result ≡ bytes.items }
    {
        KeptBytes { bytes, room }
    }

    /// The bytes.
    pub fn as_slice(&self) -> &[u8]
        ensures { result.now ≡ self.now }
    {
        self.bytes.as_slice()
    }
}

impl Keeper for KeptBytes {
    ghost kept = { λ s. Some s };

    fn keep(&mut self, record: &[u8]) -> Result<(), Failed> {
        if record.len() > self.room {
            return Err(Failed);
        }
        match self.bytes.extend_from_slice(record) {
            Ok(()) => {
                self.room -= record.len();
                Ok(())
            }
            Err(_) => Err(Failed),
        }
    }

    fn take_back(&mut self, count: usize) {
        let left = self.bytes.len().saturating_sub(count);
        self.bytes.truncate(left);
        self.room = self.room.saturating_add(count);
    }
}
