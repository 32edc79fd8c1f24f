//! A listener over TCP that tells the port at which it listens.
ghost use Rattle.std.specs.Prelude.{◌≡◌, ◌-◌, None};

use crate::doors::Count;
use crate::port::tell;
use cf_bytes::{Failed, Hash32, NoMemory};
use cf_link::{Limits, Link, TcpConn, TcpEnd, TcpLink};

/// A listener over TCP, which tells its port once it listens.
#[derive(Drop)]
pub(crate) struct ToldLink {
    link: TcpLink<HostRuntime, ()>,
    port: Count,
}

impl ToldLink {
    /// A listener that doesn't listen yet.
    pub(crate) fn new(rt: HostRuntime, port: Count) -> Result<ToldLink, NoMemory> {
        Ok(ToldLink {
            link: TcpLink::new(rt, rt.alloc(), Limits::usual(), ())?,
            port,
        })
    }

    // Tells where it listens.
    fn tell_port(&self) {
        if let Some(place) = self.link.local_addr() {
            tell(&self.port, place.port());
        }
    }
}

impl Link for ToldLink {
    type Conn = TcpConn<HostRuntime, ()>;

    ghost faults = { λ l. l.link.faults };

    ghost addresses = { λ _. None };

    ghost accepted = { λ l. l.link.accepted };

    ghost owed = { λ l. l.link.accepted - l.link.returned };

    ghost conns = { λ _. None };

    ghost given = { λ _. None };

    fn listen(&mut self, address: &str) -> Result<(), Failed> {
        let answer = self.link.listen(address);
        if answer.is_ok() {
            self.tell_port();
        }
        answer
    }

    fn announce(&mut self, height: u32, tip: &Hash32) {
        self.link.announce(height, tip);
    }

    fn accept(&mut self) -> Result<TcpConn<HostRuntime, ()>, Failed> {
        self.link.accept()
    }

    fn pause(&mut self) {
        self.link.pause();
    }

    fn give_back(&mut self, end: TcpEnd, how: u8) {
        self.link.give_back(end, how);
    }
}
