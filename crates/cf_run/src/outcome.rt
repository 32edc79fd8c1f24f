//! How a run ends.
use crate::trace::TraceLine;
use cf_bytes::Hash32;
use cf_client::Held;
use cf_place::PeerEnd;
use cf_scan::History;

/// Why a run ended.
#[derive(Clone, Copy, Debug, PartialEq, Eq)]
pub enum End {
    /// Nothing was open, and a peer was ready.
    Synced,
    /// No peer was connected.
    NoPeers,
    /// The stated number of deliveries was taken, and something was open.
    Tired,
    /// The wires had nothing more to give, and something was open.
    Ended,
}

/// What came of a run.
#[derive(Drop)]
pub struct Outcome {
    /// Why it ended.
    pub end: End,
    /// The height of the best chain's tip.
    pub height: u32,
    /// The hash of the best chain's tip.
    pub tip: Hash32,
    /// The history of the best chain's blocks that were fetched.
    pub history: History,
    /// What the run has done, in order, where this is wanted; else nothing.
    pub trace: Vec<TraceLine>,
    /// How each peer stands, by its number from 1.
    pub ends: Vec<PeerEnd>,
    /// How much the client kept when it ended.
    pub held: Held,
}
