//! What a demo tells.
use cf_bytes::Hash32;
use cf_place::PeerEnd;
use cf_run::End;

/// What a demo came to.
#[derive(Drop)]
pub struct Demo {
    /// Why the run ended. It is never `Ended`, since seconds at least can always be delivered.
    pub end: End,
    /// How each peer stands, by its number from 1.
    pub ends: Vec<PeerEnd>,
    /// How many entries the history has.
    pub entries: usize,
    /// The balance after the last entry, in satoshis; 0 where there is none.
    pub balance: u128,
    /// How many `getdata` messages were sent, each of which asks for one block.
    pub fetched: usize,
    /// How many peers were closed.
    pub closed: usize,
    /// The hash of the best chain's tip.
    pub tip: Hash32,
}
