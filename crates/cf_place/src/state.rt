//! The state of a client.

/// The state of a client.
#[derive(Clone, Copy, Debug, PartialEq, Eq)]
pub enum State {
    /// A request is open.
    Working,
    /// Nothing is open, and a peer is ready.
    Synced,
    /// No peer is connected.
    NoPeers,
}
