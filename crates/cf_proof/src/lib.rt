//! Proofs that a transaction stands in a block: partial Merkle trees of BIP 37, made and checked.
#![tactic(auto)]

mod checking;
mod fault;
mod laws;
mod making;
mod proof;
mod reading;
mod walking;

pub use checking::check_proof;
pub use fault::ProofFault;
pub use laws::laws_of_proofs;
pub use making::make_proof;
pub use proof::Proof;
pub use reading::read_proof;
