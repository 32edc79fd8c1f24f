//! What a user can do about peers that were closed, or not dialled, told on standard error.
use crate::heard::{Front, Heard};
use crate::seen::network_of;
use cf_bytes::PeerNo;
use cf_input::{Command, read_words};
use cf_peer::Cause;
use cf_place::PeerEnd;
use cf_tell::Teller;
use std::io;

// Tells of what network a peer is whose first bytes are no frame of regtest.
fn tell_other(teller: &Teller, p: u32, front: [u8; 4]) -> io::Result<()> {
    match network_of(front) {
        Some(network) => eprintln!(teller;
            "cf: peer {p} is a node of {network}, and not of regtest"
        ),
        None => eprintln!(teller; "cf: peer {p} is of another network, or no Bitcoin node"),
    }
}

// Tells what can be done about a peer that ended so and whose first bytes are these.
fn tell_one(teller: &Teller, p: u32, end: &PeerEnd, front: Front) -> io::Result<()> {
    match (end, front) {
        (PeerEnd::Closed(Cause::NoFilters), _) => eprintln!(teller;
            "cf: peer {p} offers no filters: Bitcoin Core does with -blockfilterindex=1 -peerblockfilters=1"
        ),
        (PeerEnd::Closed(Cause::BadFrame), Front::Other(front)) => tell_other(teller, p, front),
        _ => Ok(()),
    }
}

// Tells that a peer that was not dialled is named without a port, where it is.
fn tell_port(teller: &Teller, name: &str, end: &PeerEnd) -> io::Result<()> {
    match end {
        PeerEnd::NotDialled if !name.contains(':') => eprintln!(teller;
            "cf: {name} names no port: regtest's is 18444, as in {name}:18444"
        ),
        _ => Ok(()),
    }
}

// The same of each peer that a command names.
fn tell_ports(teller: &Teller, command: &Command, ends: &[PeerEnd]) -> io::Result<()> {
    let (Command::Sync { peers, .. } | Command::Follow { peers, .. }) = command else {
        return Ok(());
    };
    let mut ends = ends.iter();
    for name in peers.as_slice() {
        if let Some(end) = ends.next() {
            tell_port(teller, name.as_str(), end)?;
        }
    }
    Ok(())
}

/// Tells what a user can do about each peer that ended so in a run over these wires: one that offers no filters, one
/// that speaks otherwise than regtest from its first bytes on, and one that is named without a port.
pub fn tell_advice<W>(
    teller: &Teller,
    words: &[String],
    ends: &[PeerEnd],
    heard: &Heard<W>,
) -> io::Result<()> {
    let mut p = 0u32;
    for end in ends {
        p = p.saturating_add(1);
        tell_one(teller, p, end, heard.front(PeerNo(p)))?;
    }
    match read_words(teller.runtime().alloc(), words) {
        Ok(command) => tell_ports(teller, &command, ends),
        Err(_) => Ok(()),
    }
}
