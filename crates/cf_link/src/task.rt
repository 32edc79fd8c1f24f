//! What serves a connection, and its task.
ghost use Rattle.std.specs.Prelude.{◌≡◌, ℕ, IfOk};
ghost use Rattle.cf_conn.specs.{ConnTold};
ghost use Rattle.cf_link.specs.Links.{told_now};

use cf_bytes::NoMemory;
use cf_conn::{Duplex, MemoryConn};
use cf_tasks::Task;
use std::alloc::Global;
use std::sync::Arc;
use std::sync::atomic::{AtomicBool, Ordering};

/// What serves connections. Each task has a share of it.
pub trait Service: Drop {
    /// From what a connection told, by a way that has a number, to what it tells afterwards.
    ghost serves: { Self → ConnTold → ℕ → ConnTold → Type 0 };

    /// A share of the same service.
    fn share(&self) -> Result<Self, NoMemory>
        ensures { IfOk result (λ s. s ≡ self.now) };

    /// Serves a connection, and answers the number of the way in which it ended.
    fn serve<C: Duplex>(&self, conn: &mut C) -> u8
        ensures { serves self.now (told_now C.left C.written C.ended C.Source.faults C.Sink.faults conn.old) result
            (told_now C.left C.written C.ended C.Source.faults C.Sink.faults conn.new) };
}

/// A connection that is told how it has ended.
pub trait Observed {
    /// It was served, and has ended in the way of this number. It is told so by the thread that served it, before it is
    /// closed.
    fn ended(&self, how: u8);
}

/// One in memory passes nothing on.
impl Observed for MemoryConn {
    fn ended(&self, _how: u8) {}
}

/// A connection, a share of the service, and a flag that is raised when it was served.
#[derive(Drop)]
pub struct ServeTask<C, S> {
    pub(crate) conn: C,
    pub(crate) service: S,
    pub(crate) over: Arc<AtomicBool, Global>,
}

/// What stays of a connection that was served, and the number of the way in which it ended.
#[derive(Drop)]
pub struct ServedEnd<E> {
    pub end: E,
    pub how: u8,
}

impl<C: Duplex + Observed + Drop, S: Service> Task for ServeTask<C, S>
where
    C::End: Drop,
{
    type Out = ServedEnd<C::End>;

    ghost gives = { λ t o. S.serves t.service
        (told_now C.left C.written C.ended C.Source.faults C.Sink.faults t.conn) o.how (C.tells o.end) };

    fn run(self) -> ServedEnd<C::End> {
        let ServeTask {
            mut conn,
            service,
            over,
        } = self;
        let how = service.serve(&mut conn);
        conn.ended(how);
        let end = conn.close();
        over.store(true, Ordering::SeqCst);
        ServedEnd { end, how }
    }
}
