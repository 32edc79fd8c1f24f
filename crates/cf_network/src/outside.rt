//! What opens the connections of a network.
ghost use Rattle.std.specs.Prelude.{◌≡◌, ◌≤◌, false, IfOk, OnOk, OnErr};
ghost use Rattle.cf_bytes.specs.{HasRisen};

use crate::pacing::PacedSource;
use crate::pulse::Bell;
use cf_bytes::Failed;
use cf_outside::{Dialer, FailedDial, TcpDialer, TcpSource, TcpWriter};
use std::alloc::{AllocError, Global};
use std::cell::Cell;
use std::io;
use std::io::ErrorKind;
use std::rc::Rc;
use std::sync::Arc;

/// A connection that was opened, and neither read nor written.
#[derive(Drop)]
pub(crate) struct Opened {
    pub(crate) source: TcpSource,
    pub(crate) writer: TcpWriter,
    pub(crate) ghost open: { source.ended ≡ false },
    pub(crate) ghost unread: { source.faults ≡ 0 },
    pub(crate) ghost unwritten: { writer.faults ≡ 0 },
    pub(crate) ghost unshut: { writer.shut ≡ false },
}

/// Opens connections over TCP, by the system, or takes those that are handed to it. They are read at the pace of a
/// bell's pulse.
#[derive(Drop)]
pub(crate) struct SystemDialer {
    rt: HostRuntime,
    tcp: TcpDialer<HostRuntime>,
    // What the next dial answers.
    handed: Rc<Cell<Option<io::Result<Opened>>>, Global>,
    bell: Arc<Bell, Global>,
}

impl SystemDialer {
    /// A dialer by this runtime; no dial has failed yet.
    pub(crate) fn new(
        rt: HostRuntime,
        bell: Arc<Bell, Global>,
    ) -> Result<SystemDialer, AllocError> {
        Ok(SystemDialer {
            rt,
            tcp: TcpDialer::new(rt, rt.alloc()),
            handed: Rc::new(rt.alloc(), Cell::new(None))?,
            bell,
        })
    }

    /// The dials that failed, in order, but for those whose reason isn't known.
    pub(crate) fn failed(&self) -> &[FailedDial] {
        self.tcp.failed()
    }

    /// The next dial is to answer this.
    pub(crate) fn hand(&self, answer: io::Result<Opened>) {
        self.handed.set(Some(answer));
    }

    // Opens a connection, or takes the one that was handed in.
    fn open(&mut self, name: &str) -> Result<(TcpSource, TcpWriter), Failed>
        ensures new { IfOk result
            (λ c. (c.0.ended ≡ false) × (c.0.faults ≡ 0) × (c.1.faults ≡ 0) × (c.1.shut ≡ false)) }
        ensures kept { OnOk result (self.new.tcp.faults ≡ self.old.tcp.faults) }
        ensures cause { OnErr result (HasRisen self.old.tcp.faults self.new.tcp.faults) }
        ensures later { self.old.tcp.faults ≤ self.new.tcp.faults }
    {
        match self.handed.replace(None) {
            None => self.tcp.dial(name),
            Some(Ok(Opened { source, writer })) => Ok((source, writer)),
            Some(Err(reason)) => {
                self.tcp.note(name, reason);
                Err(Failed)
            }
        }
    }
}

impl Dialer for SystemDialer {
    type Read = PacedSource;

    type Write = TcpWriter;

    ghost faults = { λ d. d.tcp.faults };

    ghost dials = { λ _ _ _ _. Unit {0} };

    fn dial(&mut self, name: &str) -> Result<(PacedSource, TcpWriter), Failed> {
        let Ok(bell) = Arc::try_clone(&self.bell) else {
            self.tcp.note(name, io::Error::from(ErrorKind::OutOfMemory));
            return Err(Failed);
        };
        let (source, writer) = self.open(name)?;
        let source = PacedSource::new(self.rt, source, bell);
        Ok((source, writer))
    }
}
