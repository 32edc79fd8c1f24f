//! Whoever is told of the blocks that join a chain.

/// Whoever is told of each block that joins a chain.
pub trait Joins {
    /// A block has joined, at this height.
    fn joined(&self, height: u32);
}

/// Nobody, who takes no notice.
#[derive(Clone, Copy, Debug)]
pub struct Nobody;

impl Joins for Nobody {
    fn joined(&self, _height: u32) {}
}
