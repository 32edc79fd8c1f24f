//! Where the taking of a piece stops.
use cf_peer::Cause;
use cf_seek::Exposure;

/// Why no more of a piece of a peer's bytes is taken.
#[derive(Clone, Copy, Debug)]
pub enum HearStop {
    /// A frame deserves this cause.
    Fault(Cause),
    /// A message exposes the peer: it claims this filter of a block, which was found to be none or to lack an output's
    /// script.
    Exposed(Exposure),
}
