//! A file that was opened, as a source.
ghost use Rattle.std.specs.Prelude.{◌≡◌, ◌||◌, false};
ghost use Rattle.cf_conn.specs.Opened.{IsPartRead};
ghost use Rattle.cf_conn.specs.Source.{is_end};

use crate::source::Source;
use cf_bytes::{Failed, Files};

/// The bytes of the file that was opened last.
#[derive(Drop)]
pub struct Opened<'a, F: Files> {
    pub(crate) files: &'a mut F,
    ended: bool,
}

impl<'a, F: Files> Opened<'a, F> {
    /// The file of these that was opened last; its end wasn't told yet.
    pub fn new(files: &'a mut F) -> Opened<'a, F>
        ensures ended { result.ended ≡ false }
        ensures same_reference { result.files.ghost_name ≡ files.entry.ghost_name }
        ensures same { result.files.now ≡ files.old }
    {
        Opened {
            files,
            ended: false,
        }
    }
}

impl<'a, F: Files> Source for Opened<'a, F> {
    ghost left = { λ s. F.opened s.files.now };

    ghost ended = { λ s. s.ended };

    ghost faults = { λ s. F.faults s.files.now };

    ghost reads = { λ before after.
        (after.files.ghost_name ≡ before.files.ghost_name)
        × (F.files after.files.now ≡ F.files before.files.now)
        × IsPartRead F.parts before.files.now after.files.now };

    fn read(&mut self, into: &mut [u8]) -> Result<usize, Failed> {
        let n = self.files.part(into)?;
        self.ended |= !into.is_empty() && n == 0;
        Ok(n)
    }
}
