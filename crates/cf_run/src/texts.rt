//! Where the texts of a run that follows go.
ghost use Rattle.std.specs.Prelude.{◌≡◌, ℕ, List, [], Option, Some, OnOk, OnErr, IsErrOf};
ghost use Rattle.cf_bytes.specs.{HasRisen, with_more};
ghost use Rattle.cf_run.specs.Texts.{HasBegun};
ghost use Rattle.cf_run.specs.declared.texts.TextFail.TheVariants.{NoMemory as NoTextMemory};

use cf_bytes::{NoMemory, Sink, put_all};
use std::alloc::{AllocError, Global};
use thiserror::Error;

/// A text was not put.
#[derive(Clone, Copy, Debug, PartialEq, Eq, Error)]
pub enum TextFail {
    /// What takes the texts has failed, and may have taken the beginning of it.
    #[error("the outside failed")]
    Failed,
    /// No memory was found, and nothing of it was taken.
    #[error("out of memory")]
    NoMemory,
}

impl From<NoMemory> for TextFail {
    ghost from_gives = { λ _ e. e ≡ NoTextMemory };

    fn from(_e: NoMemory) -> TextFail {
        TextFail::NoMemory
    }
}

impl From<AllocError> for TextFail {
    ghost from_gives = { λ _ e. e ≡ NoTextMemory };

    fn from(_e: AllocError) -> TextFail {
        TextFail::NoMemory
    }
}

/// What takes the texts of a run that follows, each after those before.
pub trait Texts {
    /// The bytes of all texts that were put, where it tells them.
    ghost told: { Self → Option (List ℕ) };
    /// How often it has failed. The count stands still at the greatest u64.
    ghost faults: { Self → ℕ };
    /// The reference that it goes to, where there is one: it stays the same.
    ghost holds: { Self → ℕ };

    /// Takes one more text.
    fn put(&mut self, text: &str) -> Result<(), TextFail>
        ensures ok { OnOk result (told self.new ≡ with_more (told self.old) text.now) }
        ensures begun { OnErr result (HasBegun text.now (told self.old) (told self.new)) }
        ensures kept { OnOk result (faults self.new ≡ faults self.old) }
        ensures failed { IsErrOf result TextFail.Failed → HasRisen (faults self.old) (faults self.new) }
        ensures no_memory { IsErrOf result TextFail.NoMemory
            → (told self.new ≡ told self.old) × (faults self.new ≡ faults self.old) }
        ensures same_reference { holds self.new ≡ holds self.old };
}

/// Texts that go to a sink, each as it comes.
#[derive(Drop)]
pub struct Live<'a, S: Sink> {
    sink: &'a mut S,
}

impl<'a, S: Sink> Live<'a, S> {
    /// Texts that go to this sink.
    pub fn new(sink: &'a mut S) -> Live<'a, S>
        ensures same_reference { result.sink.ghost_name ≡ sink.entry.ghost_name }
        ensures same { result.sink.now ≡ sink.old }
    {
        Live { sink }
    }
}

impl<'a, S: Sink> Texts for Live<'a, S> {
    ghost told = { λ t. S.written t.sink.now };

    ghost faults = { λ t. S.faults t.sink.now };

    ghost holds = { λ t. t.sink.ghost_name };

    #[tactic(auto, using(crate::proofs::Puts::begun_so))]
    fn put(&mut self, text: &str) -> Result<(), TextFail> {
        match put_all(self.sink, text.as_bytes()) {
            Ok(()) => Ok(()),
            Err(_) => Err(TextFail::Failed),
        }
    }
}

/// Texts that are kept, one behind the other.
#[derive(Drop)]
pub struct KeptTexts {
    bytes: Vec<u8>,
}

impl KeptTexts {
    /// No text yet.
    pub fn new(alloc: Global) -> KeptTexts
        ensures { result.bytes.items ≡ [] }
    {
        KeptTexts {
            bytes: Vec::new(alloc),
        }
    }

    /// All texts, joined.
    pub fn bytes(&self) -> &[u8]
        ensures { result.now ≡ self.now.bytes.items }
    {
        &self.bytes
    }
}

impl Texts for KeptTexts {
    ghost told = { λ t. Some t.bytes.items };

    ghost faults = { λ t. 0 };

    ghost holds = { λ t. 0 };

    #[tactic(auto, using(crate::proofs::Puts::begun_none))]
    fn put(&mut self, text: &str) -> Result<(), TextFail> {
        self.bytes.extend_from_slice(text.as_bytes())?;
        Ok(())
    }
}
