//! Files by their names, as a trait.
ghost use Rattle.std.specs.Prelude.{◌≡◌, ℕ, ◌≤◌, ◌<◌, List, [], Option, Result, Vec, Err, length, take, drop, IfOk, IfSome, OnOk, OnErr};
ghost use Rattle.std.specs.Global.{Global};
ghost use Rattle.cf_bytes.specs.declared.files.FileFail.{FileFail};
ghost use Rattle.cf_bytes.specs.declared.files.FileFail.TheVariants.{NoMemory as OutOfMemory};
ghost use Rattle.cf_bytes.specs.declared.outside.Failed.{Failed as Fault};
ghost use Rattle.cf_bytes.specs.Outside.{HasRisen, with_front};
ghost use Rattle.cf_bytes.specs.Files.{Named, ReadIn, OpenIn, Counts, with_file};

use crate::outside::Failed;
use std::alloc::{AllocError, AllocFailed, Global};
use thiserror::Error;

/// Why a file was not read or written.
#[derive(Clone, Copy, Debug, PartialEq, Eq, Error)]
pub enum FileFail {
    /// There is no such file, or it can't be read or written.
    #[error("the file can't be read or written")]
    Failed,
    /// It has more bytes than the call allows.
    #[error("the file is too big")]
    TooBig,
    /// No memory was found.
    #[error("no memory")]
    NoMemory,
}

impl<T: Drop> From<AllocFailed<T>> for FileFail {
    ghost from_gives = { λ _ e. e ≡ OutOfMemory };

    fn from(_e: AllocFailed<T>) -> FileFail {
        FileFail::NoMemory
    }
}

impl From<AllocError> for FileFail {
    ghost from_gives = { λ _ e. e ≡ OutOfMemory };

    fn from(_e: AllocError) -> FileFail {
        FileFail::NoMemory
    }
}

/// Files by their names.
pub trait Files {
    /// What stands under each name, where it is told.
    ghost files: { Self → Option Named };
    /// The bytes left of the file that was opened last, where they are told.
    ghost opened: { Self → Option (List ℕ) };
    /// How often it has failed. The count stands still at the greatest u64.
    ghost faults: { Self → ℕ };
    /// What one call of `read` answers, of a name and the most bytes that are asked for, and what it leaves,
    /// where more of that is known than the other clauses say.
    ghost reads: { Self → List ℕ → ℕ → Result (Vec ℕ Global) FileFail → Self → Type 0 };
    /// The same of one call of `open`.
    ghost opens: { Self → List ℕ → ℕ → Result (Unit {0}) FileFail → Self → Type 0 };
    /// The same of one call of `part`, of the room that is given.
    ghost parts: { Self → ℕ → Result ℕ Fault → Self → Type 0 };
    /// The same of one call of `write`, of a name and its bytes.
    ghost writes: { Self → List ℕ → List ℕ → Result (Unit {0}) FileFail → Self → Type 0 };

    /// The bytes of a file, which are at most `most`: `TooBig` exactly where it has more, and
    /// `Failed` where there is none. Reading changes no file.
    fn read(&mut self, alloc: Global, name: &str, most: usize) -> Result<Vec<u8>, FileFail>
        ensures answer { ReadIn (files self.old) name.now most result }
        ensures same { files self.new ≡ files self.old }
        ensures stays { opened self.new ≡ opened self.old }
        ensures count { Counts result (faults self.old) (faults self.new) }
        ensures exact { reads self.old name.now most result self.new };

    /// Opens a file of at most `most` bytes, whose bytes `part` gives from then on: `TooBig` exactly where it has more,
    /// and `Failed` where there is none. After an error no file is open: `part` gives nothing, also where another file
    /// was open before.
    fn open(&mut self, name: &str, most: usize) -> Result<(), FileFail>
        ensures answer { OpenIn (files self.old) name.now most (opened self.new) result }
        ensures shut { OnErr result (IfSome (opened self.new) (λ left. left ≡ [])) }
        ensures same { files self.new ≡ files self.old }
        ensures count { Counts result (faults self.old) (faults self.new) }
        ensures exact { opens self.old name.now most result self.new };

    /// Reads some of the bytes that are left of the file opened last into the front of `into`, and answers how many: 0,
    /// where there is room, at their end alone. It takes no memory.
    fn part(&mut self, into: &mut [u8]) -> Result<usize, Failed>
        ensures some { IfOk result (λ n. n ≤ length into.new) }
        ensures rest { IfOk result (λ n. drop n into.new ≡ drop n into.old) }
        ensures ok { IfOk result (λ n. opened self.old ≡ with_front (take n into.new) (opened self.new)) }
        ensures end { IfOk result (λ n. 0 < length into.old → n ≡ 0 → IfSome (opened self.old) (λ bytes. bytes ≡ [])) }
        ensures err { OnErr result (opened self.new ≡ opened self.old) }
        ensures same { files self.new ≡ files self.old }
        ensures kept { OnOk result (faults self.new ≡ faults self.old) }
        ensures cause { OnErr result (HasRisen (faults self.old) (faults self.new)) }
        ensures exact { parts self.old (length into.old) result self.new };

    /// Sets the bytes of a name, and of no other, whole or not at all: after an error no file has changed. It doesn't
    /// answer `TooBig`.
    fn write(&mut self, alloc: Global, name: &str, bytes: &[u8]) -> Result<(), FileFail>
        ensures ok { OnOk result (files self.new ≡ with_file name.now bytes.now (files self.old)) }
        ensures err { OnErr result (files self.new ≡ files self.old) }
        ensures fits { result ≡ Err FileFail.TooBig → ⊥ }
        ensures stays { opened self.new ≡ opened self.old }
        ensures count { Counts result (faults self.old) (faults self.new) }
        ensures exact { writes self.old name.now bytes.now result self.new };
}
