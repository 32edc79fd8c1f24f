//! What a connection was told of a chain that grows.
ghost use Rattle.std.specs.Prelude.{◌≡◌, false};
ghost use Rattle.cf_grow.specs.Standing.{tip_of};

use crate::taking::top_of;
use cf_bytes::Hash32;
use cf_index::Index;
use cf_server::Serving;

/// The height and the hash of a chain's highest block.
#[derive(Clone, Copy, Debug, PartialEq, Eq)]
pub struct Tip {
    pub height: u32,
    pub hash: Hash32,
}

impl Tip {
    /// That of an index's chain.
    pub fn of(index: &Index) -> Tip
        ensures { result ≡ tip_of index.now }
    {
        Tip {
            height: index.tip(),
            hash: top_of(index),
        }
    }
}

/// What a connection is served by, and the height and the hash of the tip that it was told of last, which count once
/// its `version` has come. Beside it the tip that the server's chain began with.
#[derive(Clone, Copy, Debug, PartialEq, Eq)]
pub struct ServedMark {
    pub(crate) served: Serving,
    pub(crate) height: u32,
    pub(crate) hash: Hash32,
    pub(crate) first: Tip,
}

impl ServedMark {
    /// Nothing was told.
    pub fn new(moment: i64, nonce: u64, first: Tip) -> ServedMark
        ensures served { result.served ≡ record { time = moment; nonce = nonce; seen = false } }
        ensures first { result.first ≡ first }
    {
        ServedMark {
            served: Serving::new(moment, nonce),
            height: 0,
            hash: Hash32([0; 32]),
            first,
        }
    }
}

/// The chain has another hash at the height that was told, or at that of its first tip, or is lower.
#[derive(Clone, Copy, Debug, PartialEq, Eq)]
pub struct Shrunk {
    pub(crate) seen: Hash32,
    pub(crate) found: Option<Hash32>,
}

impl Shrunk {
    /// The hash that was told, or that of the first tip.
    pub fn seen(&self) -> Hash32
        ensures { result ≡ self.now.seen }
    {
        self.seen
    }

    /// The hash that stands there now.
    pub fn found(&self) -> Option<Hash32>
        ensures { result ≡ self.now.found }
    {
        self.found
    }
}

/// Why a message isn't answered.
#[derive(Clone, Copy, Debug, PartialEq, Eq)]
pub enum TakeFail {
    /// The chain is another than the one that was told, or than the one that it began with.
    Shrunk(Shrunk),
    /// No memory is found.
    NoMemory,
}
