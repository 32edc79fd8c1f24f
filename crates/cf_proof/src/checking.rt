//! Checking proofs.
ghost use Rattle.std.specs.Prelude.{◌≡◌, ◌*◌, ◌<◌, ◌≤◌, ◌++◌, length, ℕ, List, nat_eq, IfOk, IfSome, OnOk, Some, None};
ghost use Rattle.cf_block.specs.{tx_spelling, txid_of, bytes_of};
ghost use Rattle.cf_proof.specs.Proof.{flags_of, flags_of_byte};
ghost use Rattle.cf_proof.specs.Checks.{Answers, sized_fault, walk_fault, HasCounts, root_fault as fault_at_root, walk_of};

use crate::fault::ProofFault;
use crate::proof::Proof;
use crate::reading::read_proof;
use crate::walking::{Node, height_of, walk};
use cf_block::{Tx, block_hash, tx_bytes, txid};
use cf_bytes::{Hash32, NoMemory, Refused};
use std::alloc::Global;

/// The hash of the header of a proof that this transaction stands in its block.
///
/// # Errors
///
/// The first of the faults that holds, in the order of `ProofFault`.
pub fn check_proof(alloc: Global, bytes: &[u8], tx: &Tx) -> Result<Hash32, Refused<ProofFault>>
    ensures { Answers bytes.now (tx_spelling tx.now) result }
{
    let proof = match read_proof(alloc, bytes) {
        Ok(proof) => proof,
        Err(e) => return Err(e),
    };
    let size = size_of(alloc, tx)?;
    match counts_fault(&proof, size) {
        Some(fault) => return Err(Refused::No(fault)),
        None => {}
    }
    let bits = bits_of(alloc, &proof)?;
    match walked_fault(&proof, &bits, &txid(tx)) {
        Some(fault) => Err(Refused::No(fault)),
        None => Ok(block_hash(&proof.header)),
    }
}

// The first fault of a proof's counts, for a transaction of this size.
fn counts_fault(proof: &Proof, size: usize) -> Option<ProofFault>
    ensures fault { IfSome result (λ f. (txid : List ℕ) → sized_fault proof.now size txid ≡ Some f) }
    ensures counts { result ≡ None → HasCounts proof.now }
    ensures rest { result ≡ None → (txid : List ℕ)
        → sized_fault proof.now size txid ≡ walk_fault proof.now.header.root.0 txid (walk_of proof.now) }
{
    if proof.total == 0 || proof.total > 16_666 {
        return Some(ProofFault::Total);
    }
    if proof.hashes.len() > proof.total as usize {
        return Some(ProofFault::Hashes);
    }
    if size == 64 {
        return Some(ProofFault::Tx64);
    }
    if proof.flags.len().saturating_mul(8) < proof.hashes.len() {
        return Some(ProofFault::Bits);
    }
    None
}

// The first fault of the walk.
fn walked_fault(proof: &Proof, bits: &[bool], txid: &Hash32) -> Option<ProofFault>
    requires bits { bits.now ≡ flags_of proof.now.flags }
    requires some { 0 < proof.now.total }
    requires few { proof.now.total ≤ 16666 }
    ensures { result ≡ walk_fault proof.now.header.root.0 txid.now.0 (walk_of proof.now) }
{
    let hashes = proof.hashes.as_slice();
    match walk(proof.total, txid, height_of(proof.total), 0, bits, hashes) {
        None => Some(ProofFault::Ends),
        Some(node) => root_fault(&proof.header.root, &node),
    }
}

// The first fault of what a walk gave at the root.
fn root_fault(root: &Hash32, node: &Node) -> Option<ProofFault>
    ensures { result ≡ fault_at_root root.now.0 node.now.hash.0 node.now.twins node.now.found node.now.bits.now
        (bytes_of node.now.hashes.now) }
{
    if node.twins {
        return Some(ProofFault::Same);
    }
    if !node.hashes.is_empty() || node.bits.len() >= 8 {
        return Some(ProofFault::Left);
    }
    if node.hash != *root {
        return Some(ProofFault::Root);
    }
    if !node.found {
        return Some(ProofFault::Absent);
    }
    None
}

// The number of a transaction's bytes.
fn size_of(alloc: Global, tx: &Tx) -> Result<usize, NoMemory>
    ensures { IfOk result (λ n. n ≡ length (tx_spelling tx.now)) }
{
    let bytes = tx_bytes(alloc, tx)?;
    Ok(bytes.len())
}

// The bits of a proof whose counts were judged.
fn bits_of(alloc: Global, proof: &Proof) -> Result<Vec<bool>, NoMemory>
    requires { HasCounts proof.now }
    ensures { IfOk result (λ v. v.items ≡ flags_of proof.now.flags) }
{
    let mut bits = Vec::new(alloc);
    for byte in proof.flags.as_slice() {
        put_bits(&mut bits, *byte)?;
    }
    Ok(bits)
}

fn put_bits(bits: &mut Vec<bool>, byte: u8) -> Result<(), NoMemory>
    ensures { OnOk result (bits.new.items ≡ bits.old.items ++ flags_of_byte byte) }
{
    let b = u32::from(byte);
    bits.extend_from_slice(&[
        b & 1 == 1,
        b >> 1 & 1 == 1,
        b >> 2 & 1 == 1,
        b >> 3 & 1 == 1,
        b >> 4 & 1 == 1,
        b >> 5 & 1 == 1,
        b >> 6 & 1 == 1,
        b >> 7 & 1 == 1,
    ])?;
    Ok(())
}
