//! A session that is read and run again.
ghost use Rattle.std.specs.Prelude.{◌≡◌, IfSome, true};
ghost use Rattle.std.specs.List.{list_all};
ghost use Rattle.cf_wires.specs.{is_real};

use crate::course::{Course, Until};
use cf_input::{Session, read_session};
use cf_wires::MemoryWires;
use std::alloc::Global;

// What is read of the lines of a session.
fn session_in(alloc: Global, lines: &str) -> Option<Session>
    ensures { IfSome result (λ s. list_all is_real s.deliveries.items ≡ true) }
{
    if lines.len() > 1_000_000 {
        return None;
    }
    read_session(alloc, lines.as_bytes()).ok()
}

// The lines of a course in which all of these are dialled, and all deliveries are taken.
fn taken(course: &mut Course<MemoryWires>, names: &[String]) -> Option<String> {
    for name in names {
        course.dial(name.as_str())?;
    }
    course.take(Until::End)?;
    course.session()
}

/// The lines that wires in memory record, which give what these lines say: all are dialled, and all deliveries are
/// taken.
pub(crate) fn replayed(alloc: Global, lines: &str) -> Option<String> {
    let mut wires = MemoryWires::new(alloc).ok()?;
    let Session {
        names,
        dials,
        deliveries,
    } = session_in(alloc, lines)?;
    wires.load(dials, deliveries);
    let mut course = Course::new(alloc, wires);
    taken(&mut course, &names)
}
