//! The history that is written of a chain's blocks.
ghost use Rattle.std.specs.Prelude.{◌≡◌, ◌∷◌, ◌++◌, [], ◌+◌, ℕ, List, length, take, true, false, IfOk, OnOk, OnErr};
ghost use Rattle.cf_scan.specs.{history_of};
ghost use Rattle.cf_tracker.specs.Account.{IsAccountOf, written_in};
ghost use Rattle.cf_tables.specs.{table_in, ExtractTable};
ghost use Rattle.cf_tracker.specs.Written.{IsWrittenHere, placed_written, written_as};
ghost use Rattle.cf_tracker.specs.declared.account.Written.{Written};

use cf_bytes::{Hash32, NoMemory};
use cf_scan::{Book, History};
use cf_tables::Extracts;
use std::alloc::Global;

/// A block that is written: its hash, and whether its extract stands in the history.
#[derive(Clone, Copy, Debug)]
pub struct Written {
    pub hash: Hash32,
    pub has_extract: bool,
}

/// The history of blocks, and which blocks they are, the lowest first. One without an extract stands in it too, and
/// tells nothing.
#[derive(Drop)]
pub(crate) struct Account {
    alloc: Global,
    pub(crate) book: Book,
    pub(crate) written: Vec<Written>,
}

impl Account {
    /// No block; it takes no memory.
    pub(crate) fn new(alloc: Global) -> Account
        ensures written { written_in result ≡ [] }
        ensures book { (table : ExtractTable) → IsAccountOf table result }
    {
        Account {
            alloc,
            book: Book::new(alloc),
            written: Vec::new(alloc),
        }
    }

    /// How many blocks are written.
    pub(crate) fn len(&self) -> usize
        ensures { result ≡ length (written_in self.now) }
    {
        self.written.len()
    }

    /// Whether a block is written at a place, counted from 0, and has its extract exactly where that is there.
    pub(crate) fn is_written(&self, extracts: &Extracts, place: u32, hash: &Hash32) -> bool
        ensures yes { result ≡ true → IsWrittenHere (table_in extracts.now) hash.now.0 (written_in self.now) place }
        ensures no { result ≡ false → IsWrittenHere (table_in extracts.now) hash.now.0 (written_in self.now) place → ⊥ }
    {
        match self.written.get(place as usize) {
            Some(block) => {
                if block.hash != *hash {
                    return false;
                }
                block.has_extract == extracts.has(hash)
            }
            None => false,
        }
    }

    /// Writes the next block, with its extract where that is there. Where no memory is found nothing has changed.
    pub(crate) fn write(
        &mut self,
        extracts: &Extracts,
        height: u32,
        hash: &Hash32,
    ) -> Result<(), NoMemory>
        requires { height ≡ length (written_in self.old) + 1 }
        ensures ok { OnOk result
            (written_in self.new ≡ written_in self.old ++ written_as (table_in extracts.now) hash.now.0 ∷ []) }
        ensures err { OnErr result (written_in self.new ≡ written_in self.old) }
        ensures book { IsAccountOf (table_in extracts.now) self.old → IsAccountOf (table_in extracts.now) self.new }
    {
        let has_extract = extracts.has(hash);
        self.written.push(Written {
            hash: *hash,
            has_extract,
        })?;
        match extracts.tell(self.alloc, &mut self.book, height, hash) {
            Ok(()) => Ok(()),
            Err(NoMemory) => {
                self.written.pop();
                Err(NoMemory)
            }
        }
    }

    /// Takes the newest blocks away, until so many are left. It takes no memory.
    pub(crate) fn pop_to(&mut self, count: usize)
        ensures written { written_in self.new ≡ take count (written_in self.old) }
        ensures book { (table : ExtractTable) → IsAccountOf table self.old → IsAccountOf table self.new }
    {
        for _ in count..self.written.len() {
            self.pop();
        }
    }

    // Takes the newest block away.
    fn pop(&mut self)
        ensures written { (older : List Written) (block : Written) → written_in self.old ≡ older ++ block ∷ []
            → written_in self.new ≡ older }
        ensures book { (table : ExtractTable) → IsAccountOf table self.old → IsAccountOf table self.new }
    {
        match self.written.pop() {
            Some(_) => {
                self.book.pop();
            }
            None => {}
        }
    }

    /// The history of the blocks that are written.
    pub(crate) fn history(&self) -> Result<History, NoMemory>
        ensures { IfOk result (λ h. (table : ExtractTable) → IsAccountOf table self.now
            → h ≡ history_of (placed_written table 1 (written_in self.now))) }
    {
        let history = self.book.history()?;
        Ok(history)
    }
}
