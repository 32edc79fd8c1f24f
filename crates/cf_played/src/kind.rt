//! The ways in which a peer in memory answers.
use cf_block::Script;
use cf_bytes::Listed;

/// How a peer in memory answers.
#[derive(Drop, Debug)]
pub enum Manner {
    /// As the serving machine of its chain does.
    Honest,
    /// As an honest one, but its filters, their hashes and their headers are made without these scripts, at every
    /// height.
    Omits(Listed<Script>),
    /// As an honest one, but to `version` and to `getheaders` alone.
    Silent,
}

/// How a peer answers, without what it leaves out.
#[derive(Clone, Copy, Debug, PartialEq, Eq)]
pub enum Way {
    /// As the machine does.
    Honest,
    /// With filters that leave scripts out.
    Omits,
    /// To `version` and to `getheaders` alone.
    Silent,
}
