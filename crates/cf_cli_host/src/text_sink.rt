//! Standard output, as the sink of a call's text.
ghost use Rattle.std.specs.Prelude.{◌≡◌, None};

use crate::failure::{Asked, Failure};
use cf_bytes::{Failed, Sink};
use std::alloc::Global;
use std::io::{self, Write};

/// A writer as the sink of texts, each of which comes as a whole. Where it is asked to, it doesn't write a text again
/// that equals the last one written.
#[derive(Drop)]
pub struct TextSink<W> {
    writer: W,
    // The text that was written last; empty where texts aren't compared, or where no memory was found for it.
    last: Vec<u8>,
    // Whether texts are compared.
    compares: bool,
    faults: u64,
    reason: Option<io::Error>,
}

impl<W: Write> TextSink<W> {
    /// The sink of this writer; no write has failed yet. Each text is written.
    pub fn new(alloc: Global, writer: W) -> TextSink<W>
        ensures { result.faults ≡ 0 }
    {
        TextSink {
            writer,
            last: Vec::new(alloc),
            compares: false,
            faults: 0,
            reason: None,
        }
    }

    /// From now on a text that equals the last one written isn't written again.
    pub fn compare(&mut self)
        ensures { self.new.faults ≡ self.old.faults }
    {
        self.compares = true;
    }

    /// The last of the writes that failed; `None` where none has.
    pub fn failure(&self) -> Option<Failure> {
        let reason = self.reason?;
        Some(Failure {
            asked: Asked::Output,
            reason,
        })
    }

    // Keeps the text that was written last, where texts are compared.
    fn keep(&mut self, text: &[u8])
        ensures { self.new.faults ≡ self.old.faults }
    {
        if !self.compares {
            return;
        }
        self.last.clear();
        if self.last.extend_from_slice(text).is_err() {
            self.last.clear();
        }
    }
}

impl<W: Write> Sink for TextSink<W> {
    ghost written = { λ _. None };

    ghost faults = { λ s. s.faults };

    ghost writes = { λ _ _ _ _. Unit {0} };

    // Writes all of it, so that the next call brings the next text.
    fn write(&mut self, from: &[u8]) -> Result<usize, Failed> {
        if self.compares && self.last.as_slice() == from {
            return Ok(from.len());
        }
        match self.writer.write_all(from) {
            Ok(()) => {
                self.keep(from);
                Ok(from.len())
            }
            Err(reason) => {
                self.faults = self.faults.saturating_add(1);
                self.reason = Some(reason);
                Err(Failed)
            }
        }
    }
}
