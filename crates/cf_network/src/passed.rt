//! What has passed the wires, as far as the user is told of it.
use crate::counting::Counts;
use cf_bytes::{Hash32, PLACES, PeerNo};
use cf_wires::Delivery;
use std::time::Duration;
use thiserror::Error;

/// How many seconds pass at least between two lines on how far it has come.
const SECONDS_BETWEEN: u64 = 1;

/// What a peer is asked for.
#[derive(Clone, Copy, Debug, PartialEq, Eq, Error)]
pub enum Asked {
    /// To greet.
    #[error("the handshake")]
    Handshake,
    /// `getheaders`.
    #[error("headers")]
    Headers,
    /// `getcfheaders`.
    #[error("filter hashes")]
    FilterHashes,
    /// `getcfilters`.
    #[error("filters")]
    Filters,
    /// `getdata`.
    #[error("a block")]
    Block,
    /// `ping`.
    #[error("a pong")]
    Ping,
}

// What a frame asks for, if it asks for anything.
fn asked_by(frame: &[u8]) -> Option<Asked> {
    let command = frame.get(4..16)?;
    if command == b"version\0\0\0\0\0".as_slice() {
        return Some(Asked::Handshake);
    }
    if command == b"getheaders\0\0".as_slice() {
        return Some(Asked::Headers);
    }
    if command == b"getcfheaders".as_slice() {
        return Some(Asked::FilterHashes);
    }
    if command == b"getcfilters\0".as_slice() {
        return Some(Asked::Filters);
    }
    if command == b"getdata\0\0\0\0\0".as_slice() {
        return Some(Asked::Block);
    }
    if command == b"ping\0\0\0\0\0\0\0\0".as_slice() {
        return Some(Asked::Ping);
    }
    None
}

/// The blocks of which a peer is asked for the filters, by one `getcfilters`: from the first height to the block of the
/// stop hash. Where it is one block these are that block's.
#[derive(Clone, Copy, Debug, PartialEq, Eq)]
pub struct FilterSpan {
    /// The height of the first one.
    pub start: u32,
    /// The hash of the last one.
    pub stop: Hash32,
}

// The blocks of whose filters a frame asks, if it asks for filters.
fn span_of(frame: &[u8]) -> Option<FilterSpan> {
    if asked_by(frame) != Some(Asked::Filters) {
        return None;
    }
    // The frame's first 24 bytes, and the filters' kind, come before.
    let start = *frame.get(25..29)?.first_chunk::<4>()?;
    let stop = *frame.get(29..61)?.first_chunk::<32>()?;
    Some(FilterSpan {
        start: u32::from_le_bytes(start),
        stop: Hash32(stop),
    })
}

/// How a peer stands, as it is told at the end.
#[derive(Clone, Copy, Debug, Error)]
pub(crate) enum Stand {
    #[error("connected to the end")]
    Connected,
    #[error("not dialled")]
    NotDialled,
    #[error("gone")]
    Gone,
    #[error("closed: SendFailed")]
    SendFailed,
    #[error("closed: Overdue, waiting for {0}")]
    Overdue(Asked),
    // With the filters for which that peer was asked last whose delivery was taken before.
    #[error("closed for what it sent")]
    Closed(Option<FilterSpan>),
}

/// How far it has come.
#[derive(Clone, Copy, PartialEq, Eq)]
pub(crate) struct Progress {
    /// How many peers are connected.
    pub(crate) connected: usize,
    /// The most headers that a peer has brought.
    pub(crate) headers: u32,
    /// How many filters the peers have brought together.
    pub(crate) filters: u32,
    /// How many blocks they have.
    pub(crate) blocks: u32,
}

/// What has passed the wires, as far as the user is told of it. Nobody has the number 0.
#[derive(Drop)]
pub(crate) struct Passed {
    // None where the peer was not dialled yet.
    stands: [Option<Stand>; PLACES],
    // What each peer was asked for last.
    asked: [Asked; PLACES],
    // The same of a peer that was asked for filters last.
    spans: [Option<FilterSpan>; PLACES],
    counts: [Counts; PLACES],
    // Whether time was the last that was delivered.
    at_tick: bool,
    // Whose bytes were the last that was delivered.
    heard: Option<PeerNo>,
    // Which peers were told of as lost, with all that is known of why.
    lost: [bool; PLACES],
    // When a line was told last, or the first delivery came.
    told: Option<Duration>,
    // How far it had come when that was told last.
    last: Option<Progress>,
}

impl Passed {
    /// Nothing has passed.
    pub(crate) fn new() -> Passed {
        Passed {
            stands: [None; PLACES],
            asked: [Asked::Handshake; PLACES],
            spans: [None; PLACES],
            counts: [Counts::new(); PLACES],
            at_tick: false,
            heard: None,
            lost: [false; PLACES],
            told: None,
            last: None,
        }
    }

    /// How a peer stands now. One that is lost stays as it was lost.
    pub(crate) fn note_stand(&mut self, p: PeerNo, stand: Stand) {
        if let Some(at) = self.stands.get_mut(p.0 as usize) {
            match at {
                None | Some(Stand::Connected) => *at = Some(stand),
                Some(_) => {}
            }
        }
    }

    /// A peer was told of, as it stands.
    pub(crate) fn note_told(&mut self, p: PeerNo) {
        let is_lost = matches!(
            self.stand(p),
            Some(Stand::Gone | Stand::SendFailed | Stand::Overdue(_))
        );
        if let Some(at) = self.lost.get_mut(p.0 as usize) {
            *at = is_lost;
        }
    }

    /// Whether a peer was told of as lost, with all that is known of why: nothing is left to be told of it.
    pub(crate) fn is_told(&self, p: PeerNo) -> bool {
        self.lost.get(p.0 as usize) == Some(&true)
    }

    /// The next peer was not dialled.
    pub(crate) fn note_not_dialled(&mut self) {
        for at in self.stands[1..].iter_mut() {
            if at.is_none() {
                *at = Some(Stand::NotDialled);
                return;
            }
        }
    }

    // The filters that the peer was asked for last whose bytes were the last that was delivered.
    fn heard_of(&self) -> Option<FilterSpan> {
        *self.spans.get(self.heard?.0 as usize)?
    }

    /// A peer is closed: where time was the last that was delivered, since it was late.
    pub(crate) fn note_closed(&mut self, p: PeerNo) {
        let stand = match self.asked.get(p.0 as usize) {
            Some(asked) if self.at_tick => Stand::Overdue(*asked),
            _ => Stand::Closed(self.heard_of()),
        };
        self.note_stand(p, stand);
    }

    /// A frame is sent to a peer.
    pub(crate) fn note_sent(&mut self, p: PeerNo, frame: &[u8]) {
        let Some(asked) = asked_by(frame) else {
            return;
        };
        if let Some(at) = self.asked.get_mut(p.0 as usize) {
            *at = asked;
        }
        if let Some(at) = self.spans.get_mut(p.0 as usize) {
            *at = span_of(frame);
        }
    }

    fn note_got(&mut self, p: PeerNo, bytes: &[u8]) {
        if let Some(counts) = self.counts.get_mut(p.0 as usize) {
            counts.take(bytes);
        }
    }

    /// What was delivered.
    pub(crate) fn note(&mut self, delivery: &Delivery) {
        self.at_tick = matches!(delivery, Delivery::Tick(_));
        self.heard = match delivery {
            Delivery::Got(p, _) => Some(*p),
            _ => None,
        };
        match delivery {
            Delivery::Got(p, bytes) => self.note_got(*p, bytes.as_slice()),
            Delivery::Gone(p) => self.note_stand(*p, Stand::Gone),
            Delivery::Tick(_) | Delivery::Ended => {}
        }
    }

    /// How far it has come, if that is to be told at this moment, where the clock tells it: not as it was told last,
    /// and not too soon after that. Then it counts as told.
    pub(crate) fn news(&mut self, now: Option<Duration>) -> Option<Progress> {
        let progress = Some(self.progress());
        if self.last == progress || !self.is_time(now) {
            return None;
        }
        self.last = progress;
        progress
    }

    // Whether a line may be told at this moment. Then it counts as told.
    fn is_time(&mut self, now: Option<Duration>) -> bool {
        let Some(now) = now else {
            return false;
        };
        let Some(told) = self.told else {
            self.told = Some(now);
            return false;
        };
        if now.saturating_sub(told).as_secs() < SECONDS_BETWEEN {
            return false;
        }
        self.told = Some(now);
        true
    }

    /// What a peer was asked for that was closed since it was late with that.
    pub(crate) fn waited_for(&self, p: PeerNo) -> Option<Asked> {
        match self.stand(p) {
            Some(Stand::Overdue(asked)) => Some(asked),
            _ => None,
        }
    }

    /// The filters that were asked for last of the peer whose delivery closed this one; `None` where it was asked for
    /// something else.
    pub(crate) fn closed_at(&self, p: PeerNo) -> Option<FilterSpan> {
        match self.stand(p) {
            Some(Stand::Closed(span)) => span,
            _ => None,
        }
    }

    /// How a peer stands; `None` of one that was not dialled yet.
    pub(crate) fn stand(&self, p: PeerNo) -> Option<Stand> {
        *self.stands.get(p.0 as usize)?
    }

    /// How many peers are connected.
    pub(crate) fn connected(&self) -> usize {
        self.stands
            .iter()
            .filter(|stand| matches!(stand, Some(Stand::Connected)))
            .count()
    }

    fn progress(&self) -> Progress {
        Progress {
            connected: self.connected(),
            headers: self.headers(),
            filters: self.filters(),
            blocks: self.blocks(),
        }
    }

    // The most headers that a peer has brought.
    fn headers(&self) -> u32 {
        let mut most = 0;
        for counts in &self.counts {
            most = counts.headers().max(most);
        }
        most
    }

    // How many filters the peers have brought together.
    fn filters(&self) -> u32 {
        let mut sum = 0u32;
        for counts in &self.counts {
            sum = sum.saturating_add(counts.filters());
        }
        sum
    }

    // How many blocks they have.
    fn blocks(&self) -> u32 {
        let mut sum = 0u32;
        for counts in &self.counts {
            sum = sum.saturating_add(counts.blocks());
        }
        sum
    }
}
