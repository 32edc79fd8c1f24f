//! How a run that was made is told: how its peers stand, and its text.
ghost use Rattle.std.specs.Prelude.{◌≡◌, true, false, IfOk};
ghost use Rattle.cf_answers.specs.{is_over, was_refused, CountsOut};
ghost use Rattle.cf_cli_client.specs.Telling.{IsSaid};
ghost use Rattle.cf_cli_client.specs.Theorem.{AnswersTo, IsOfRun};

use cf_answers::Status;
use cf_bytes::{NoMemory, Sink, put_all};
use cf_place::PeerEnd;
use cf_run::{End, Outcome};
use std::alloc::Global;

/// The answer to a run whose text was written.
pub(crate) fn status_of(end: End, ends: Vec<PeerEnd>) -> Status
    ensures answer { AnswersTo end ends.items result }
    ensures answers { IsOfRun result }
    ensures unrefused { was_refused result ≡ false }
    ensures over { is_over result ≡ true }
{
    match end {
        End::Synced => Status::Done,
        End::NoPeers => Status::NoPeers { ends },
        End::Tired => Status::Tired,
        End::Ended => Status::Ended,
    }
}

/// A copy of how each peer stands at the end of a run.
pub(crate) fn ends_of(alloc: Global, outcome: &Outcome) -> Result<Vec<PeerEnd>, NoMemory>
    ensures { IfOk result (λ ends. ends.items ≡ outcome.now.ends.items) }
{
    Ok(outcome.ends.as_slice().to_vec(alloc)?)
}

/// Writes the text of a run that ended so, and answers how it ended, or that the sink has failed.
pub(crate) fn say<O: Sink>(end: End, ends: Vec<PeerEnd>, text: &[u8], out: &mut O) -> Status
    ensures said { IsSaid result end ends.items text.now (O.written out.old) (O.written out.new) }
    ensures counts { CountsOut result (O.faults out.old) (O.faults out.new) }
{
    match put_all(out, text) {
        Ok(()) => status_of(end, ends),
        Err(_) => Status::OutFault,
    }
}
