//! Writing what a message is answered with.
ghost use Rattle.std.specs.Prelude.{◌≡◌};
ghost use Rattle.cf_grow.specs.Held.{text_all};
ghost use Rattle.cf_server.specs.{CountsWrites, Sends};

use crate::parts::Parts;
use cf_conn::Duplex;
use cf_server::{ServeEnd, flush};
use std::alloc::Global;

/// How many bytes wait at least before they're written. What is left is written after the last part.
const TOGETHER: usize = 16_384;

/// Writes the parts of an answer, one after another, many of them together.
pub(crate) fn send_parts<C: Duplex>(
    alloc: Global,
    conn: &mut C,
    parts: Parts,
) -> Result<(), ServeEnd>
    ensures sends { Sends result (C.written conn.old) (C.written conn.new) (text_all parts) }
    ensures count { CountsWrites result (C.Sink.faults conn.old) (C.Sink.faults conn.new) }
    ensures left { C.left conn.new ≡ C.left conn.old }
    ensures ended { C.ended conn.new ≡ C.ended conn.old }
    ensures read_faults { C.Source.faults conn.new ≡ C.Source.faults conn.old }
{
    let Parts { told, rest, count } = parts;
    let mut waiting = told.into_vec();
    for place in 0..count {
        rest.put(alloc, place, &mut waiting)?;
        if waiting.len() >= TOGETHER {
            flush(conn, &mut waiting)?;
        }
    }
    flush(conn, &mut waiting)
}
