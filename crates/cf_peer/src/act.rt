//! What the client wants done.
use crate::peer::Cause;
use cf_bytes::PeerNo;
use cf_msg::Msg;

/// What the client wants done.
#[derive(Drop, Debug)]
pub enum Act {
    /// A message is to be sent to a peer.
    Send(PeerNo, Msg),
    /// A peer is to be closed, for this cause.
    Close(PeerNo, Cause),
}
