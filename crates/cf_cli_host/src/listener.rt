//! The listener of `serve`, which tells the user what it does.
ghost use Rattle.std.specs.Prelude.{◌≡◌, ◌-◌, None};

use cf_answers::Status;
use cf_bytes::{Failed, Hash32, NoMemory, Refused, show};
use cf_input::{Command, read_words};
use cf_link::{Limits, Link, TcpConn, TcpEnd, TcpLink, Watcher};
use cf_outside::is_host_and_port;
use cf_tell::Teller;
use std::io::{self, ErrorKind};
use std::net::SocketAddr;

// So many bytes are a megabyte.
const MEGABYTE: u64 = 1_048_576;

// The limits that a command says, and those that are usual where it serves nobody.
fn limits_of(command: &Command) -> Limits {
    match command {
        Command::Serve {
            at_once,
            budget,
            ..
        } => Limits {
            at_once: *at_once,
            bytes: u64::from(*budget).saturating_mul(MEGABYTE),
        },
        _ => Limits::usual(),
    }
}

/// Tells on standard error of each connection at once when it comes, and when it ends.
#[derive(Clone, Copy)]
pub struct ToldConns {
    teller: &'static Teller,
}

impl Watcher for ToldConns {
    fn came(&self, number: u64, peer: Option<SocketAddr>) {
        let _told = match peer {
            Some(peer) => eprintln!(self.teller; "cf: connection {number}: from {peer}"),
            None => eprintln!(self.teller; "cf: connection {number}: from a peer that has gone"),
        };
    }

    fn ended(&self, number: u64, how: u8) {
        let _told = eprintln!(self.teller; "cf: connection {number}: {}", way(how));
    }
}

/// A listener over TCP. It tells on standard error where it listens, which chain is served, and of each connection at
/// once from where it comes and how it has ended.
#[derive(Drop)]
pub struct Listener {
    teller: &'static Teller,
    link: TcpLink<&'static Teller, ToldConns>,
}

impl Listener {
    /// A listener that doesn't listen yet, with these limits.
    ///
    /// # Errors
    ///
    /// Where no memory is found.
    pub fn new(teller: &'static Teller, limits: Limits) -> Result<Listener, NoMemory> {
        Ok(Listener {
            teller,
            link: TcpLink::new(
                teller,
                teller.runtime().alloc(),
                limits,
                ToldConns { teller },
            )?,
        })
    }

    /// The listener for the words of a call, which has taken the address of `serve` already: connections wait there
    /// until the chain is loaded. Where the words ask for something else, or for nothing, it takes none.
    ///
    /// # Errors
    ///
    /// `LinkFault` where the address can't be taken, which is told then; and `NoMemory`.
    pub fn ready(teller: &'static Teller, words: &[String]) -> Result<Listener, Status> {
        match read_words(teller.runtime().alloc(), words) {
            Ok(command) => Listener::ready_for(teller, &command),
            Err(Refused::No(_)) => {
                Listener::new(teller, Limits::usual()).map_err(|_| Status::NoMemory)
            }
            Err(Refused::NoMemory) => Err(Status::NoMemory),
        }
    }

    // The same for a command.
    fn ready_for(teller: &'static Teller, command: &Command) -> Result<Listener, Status> {
        let mut listener = Listener::new(teller, limits_of(command)).map_err(|_| Status::NoMemory)?;
        if let Command::Serve { address, .. } = command {
            listener.take(address.as_str())?;
        }
        Ok(listener)
    }

    // Takes an address, which has the form that a peer's has.
    fn take(&mut self, address: &str) -> Result<(), Status> {
        match self.prepare(address) {
            Ok(()) => Ok(()),
            Err(reason) => {
                let _told = eprintln!(self.teller; "cf: {address}: {reason}");
                Err(Status::LinkFault)
            }
        }
    }

    // The same, and tells nothing.
    fn prepare(&mut self, address: &str) -> io::Result<()> {
        if !is_host_and_port(address) {
            return Err(io::Error::new(ErrorKind::InvalidInput, "it is not HOST:PORT"));
        }
        self.link.prepare(address)
    }

    // Tells where it listens.
    fn tell_place(&self) -> io::Result<()> {
        match self.link.local_addr() {
            Some(place) => eprintln!(self.teller; "cf: listening on {place}"),
            None => Ok(()),
        }
    }

    // Tells why a call failed.
    fn tell_reason(&self, what: &str) -> io::Result<()> {
        match self.link.reason() {
            Some(reason) => eprintln!(self.teller; "cf: {what}: {reason}"),
            None => Ok(()),
        }
    }

    // Tells the tip of the chain.
    fn tell_tip(&self, height: u32, tip: &Hash32) -> io::Result<()> {
        match show(self.teller.runtime().alloc(), tip) {
            Ok(hash) => eprintln!(self.teller; "cf: serving {height} {hash}"),
            Err(_) => eprintln!(self.teller; "cf: serving {height}"),
        }
    }
}

// The way of this number in which a connection ended: the numbers are those of `cf_grow::Ending::number`.
fn way(how: u8) -> &'static str {
    match how {
        0 => "the peer has closed it",
        1 => "what came is no frame",
        2 => "a message could not be read",
        3 => "reading from it failed",
        4 => "writing to it failed",
        5 => "1000000 frames have come",
        7 => "the chain is another than it was told",
        _ => "there was not enough memory",
    }
}

impl Link for Listener {
    type Conn = TcpConn<&'static Teller, ToldConns>;

    ghost faults = { λ l. l.link.faults };

    ghost addresses = { λ _. None };

    ghost accepted = { λ l. l.link.accepted };

    ghost owed = { λ l. l.link.accepted - l.link.returned };

    ghost conns = { λ _. None };

    ghost given = { λ _. None };

    fn listen(&mut self, address: &str) -> Result<(), Failed> {
        let answer = self.link.listen(address);
        let _told = match answer {
            Ok(()) => self.tell_place(),
            Err(Failed) => self.tell_reason(address),
        };
        answer
    }

    fn announce(&mut self, height: u32, tip: &Hash32) {
        let _told = self.tell_tip(height, tip);
    }

    fn accept(&mut self) -> Result<TcpConn<&'static Teller, ToldConns>, Failed> {
        let answer = self.link.accept();
        if answer.is_err() {
            let _told = self.tell_reason("the next connection");
        }
        answer
    }

    fn pause(&mut self) {
        self.link.pause();
    }

    fn give_back(&mut self, end: TcpEnd, how: u8) {
        self.link.give_back(end, how);
    }
}
