//! How each peer stands at the end of a run, told on standard error.
use cf_answers::Status;
use cf_bytes::{MOST_PEERS, PeerNo, show};
use cf_network::{FilterSpan, Network};
use cf_peer::Cause;
use cf_place::PeerEnd;
use cf_tell::Teller;
use std::io;
use std::sync::Wait;
use std::thread::Threads;

// Tells which block's filter omits something.
fn tell_omits(teller: &Teller, p: u32, end: &PeerEnd, span: &FilterSpan) -> io::Result<()> {
    match show(teller.runtime().alloc(), &span.stop) {
        Ok(hash) => {
            eprintln!(teller;
                "cf: peer {p}: {end}, block {hash} at height {}",
                span.start
            )
        }
        Err(_) => eprintln!(teller; "cf: peer {p}: {end}, at height {}", span.start),
    }
}

// Tells how a peer stands, what it was asked for where it was late with that, and the block where it was closed for
// what its filter omits. One of which it was told at once that it is lost is not told of again.
fn tell_end<R: Wait + Threads + Copy + Drop>(
    teller: &Teller,
    p: u32,
    end: &PeerEnd,
    network: &Network<R>,
) -> io::Result<()> {
    if network.is_told(PeerNo(p)) {
        return Ok(());
    }
    if let Some(asked) = network.waited_for(PeerNo(p)) {
        return eprintln!(teller; "cf: peer {p}: {end}, waiting for {asked}");
    }
    match (end, network.closed_at(PeerNo(p))) {
        (PeerEnd::Closed(Cause::Omits), Some(span)) => tell_omits(teller, p, end, &span),
        _ => eprintln!(teller; "cf: peer {p}: {end}"),
    }
}

// Tells how each peer stands.
fn tell_ends<R: Wait + Threads + Copy + Drop>(
    teller: &Teller,
    ends: &[PeerEnd],
    network: &Network<R>,
) -> io::Result<()> {
    let mut p = 0u32;
    for end in ends {
        p = p.saturating_add(1);
        tell_end(teller, p, end, network)?;
    }
    Ok(())
}

/// Tells how each peer stands at the end of a run: of one that was closed the cause, as far as `ends` tell it.
pub fn tell_stands<R: Wait + Threads + Copy + Drop>(
    teller: &Teller,
    status: &Status,
    ends: &[PeerEnd],
    network: &Network<R>,
) -> io::Result<()> {
    if let Status::NoPeers { ends } = status {
        eprintln!(teller; "cf: {status}")?;
        return tell_ends(teller, ends, network);
    }
    let mut ends = ends.iter();
    for p in 1..=MOST_PEERS as u32 {
        match ends.next() {
            Some(end) if network.is_closed(PeerNo(p)) => tell_end(teller, p, end, network)?,
            _ => network.tell_stand(PeerNo(p))?,
        }
    }
    Ok(())
}
