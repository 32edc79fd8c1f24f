//! What is told of the parts of a batch.

/// Is told of each part of a batch as the work on it begins, by whichever thread does that work.
pub trait Gate: Drop {
    /// The work on this part begins; the first part is 1. It waits until this returns.
    fn enter(&self, part: u32);
}

/// A gate at which nothing waits.
#[derive(Drop)]
pub struct Open;

impl Gate for Open {
    fn enter(&self, _part: u32) {}
}
