//! How much is kept of one peer.
ghost use Rattle.std.specs.Prelude.{◌≡◌, length};
ghost use Rattle.cf_peer.specs.Held.{count_came};

use crate::peer::{Peer, Request};

impl Peer {
    /// How many filters of its open request have come, and are kept until the last of them comes. It takes no memory.
    pub fn filters_held(&self) -> usize
        ensures { result ≡ count_came self.now.request }
    {
        match &self.request {
            Request::Filters(batch, _) => batch.came.len(),
            _ => 0,
        }
    }

    /// How many of its bytes wait: no frame of theirs is whole yet. It takes no memory.
    pub fn bytes_held(&self) -> usize
        ensures { result ≡ length self.now.framer }
    {
        self.framer.len()
    }
}
