//! Making proofs.
ghost use Rattle.std.specs.Prelude.{◌≡◌, ◌+◌, ◌*◌, ◌<◌, ◌≤◌, ◌^◌, ◌++◌, ◌∷◌, [], ◌-◌, length, replicate, false, IfOk, OnOk};
ghost use Rattle.std.specs.List.{flat_map};
ghost use Rattle.cf_block.specs.{txid_of, txids, spelled_txs, AreTxids, bytes_of};
ghost use Rattle.cf_proof.specs.Tree.{node_at};
ghost use Rattle.cf_proof.specs.Proof.{flags_of, proof_spelling};
ghost use Rattle.cf_proof.specs.Steps.{low_bits};
ghost use Rattle.cf_proof.specs.Made.{parts_of, IsProofOf, AreFlagsOf};

use crate::proof::Proof;
use crate::walking::{height_of, is_there, join};
use cf_block::{Block, txids, write_header};
use cf_bytes::{Hash32, Listed, NoMemory, put_compact};
use std::alloc::Global;

/// The bytes of a proof that the transaction at a place of a block stands in it (BIP 37 "merkleblock"). A block has at
/// most 1,000,000 bytes, and so at most 16,666 transactions.
pub fn make_proof(alloc: Global, b: &Block, place: u32) -> Result<Vec<u8>, NoMemory>
    requires few { length b.now.txs ≤ 16666 }
    requires there { place < length b.now.txs }
    ensures { IfOk result (λ v. IsProofOf b.now place v.items) }
{
    let ids = txids(alloc, b.txs.as_slice())?;
    let mut bits = Vec::new(alloc);
    let mut hashes = Vec::new(alloc);
    let total = ids.len() as u32;
    put_parts(
        ids.as_slice(),
        place,
        height_of(total),
        0,
        &mut bits,
        &mut hashes,
    )?;
    let flags = packed(alloc, &bits)?;
    let proof = Proof {
        header: b.header,
        total,
        hashes: Listed::from_vec(hashes),
        flags: Listed::from_vec(flags),
    };
    let mut out = Vec::new(alloc);
    write_proof(&proof, &mut out)?;
    Ok(out)
}

// Writes the bytes of a proof at the end.
#[tactic(auto, unfolding(crate::specs::Proof::proof_spelling))]
fn write_proof(proof: &Proof, out: &mut Vec<u8>) -> Result<(), NoMemory>
    ensures { OnOk result (out.new.items ≡ out.old.items ++ proof_spelling proof.now) }
{
    write_header(&proof.header, out)?;
    out.extend_from_slice(&proof.total.to_le_bytes())?;
    put_compact(out, proof.hashes.len() as u64)?;
    put_hashes(proof.hashes.as_slice(), out)?;
    put_compact(out, proof.flags.len() as u64)?;
    out.extend_from_slice(proof.flags.as_slice())?;
    Ok(())
}

fn put_hashes(hashes: &[Hash32], out: &mut Vec<u8>) -> Result<(), NoMemory>
    ensures { OnOk result (out.new.items ≡ out.old.items ++ flat_map (λ h. h.0) hashes.now) }
{
    for hash in hashes {
        out.extend_from_slice(&hash.0)?;
    }
    Ok(())
}

// The node at a height and place over these leaves.
pub(crate) fn node(leaves: &[Hash32], height: u32, place: u32) -> Hash32
    requires few { length leaves.now ≤ 16666 }
    requires low { height ≤ 15 }
    requires there { place * 2 ^ height < length leaves.now }
    ensures { result.0 ≡ node_at height place (bytes_of leaves.now) }
{
    if height == 0 {
        return leaves[place as usize];
    }
    let left = node(leaves, height - 1, 2 * place);
    if !is_there(leaves.len() as u32, height - 1, 2 * place + 1) {
        return join(&left, &left);
    }
    let right = node(leaves, height - 1, 2 * place + 1);
    join(&left, &right)
}

// Puts the bits and hashes of the nodes from one on, for the leaf at a place.
fn put_parts(
    leaves: &[Hash32],
    leaf: u32,
    height: u32,
    place: u32,
    bits: &mut Vec<bool>,
    hashes: &mut Vec<Hash32>,
) -> Result<(), NoMemory>
    requires few { length leaves.now ≤ 16666 }
    requires low { height ≤ 15 }
    requires there { place * 2 ^ height < length leaves.now }
    ensures bits { OnOk result
        (bits.new.items ≡ bits.old.items ++ (parts_of (bytes_of leaves.now) leaf height place).bits) }
    ensures hashes { OnOk result (bytes_of hashes.new.items
        ≡ bytes_of hashes.old.items ++ (parts_of (bytes_of leaves.now) leaf height place).hashes) }
{
    if height == 0 {
        bits.push(place == leaf)?;
        hashes.push(leaves[place as usize])?;
        return Ok(());
    }
    if leaf >> height != place {
        bits.push(false)?;
        hashes.push(node(leaves, height, place))?;
        return Ok(());
    }
    bits.push(true)?;
    put_parts(leaves, leaf, height - 1, 2 * place, bits, hashes)?;
    if is_there(leaves.len() as u32, height - 1, 2 * place + 1) {
        put_parts(leaves, leaf, height - 1, 2 * place + 1, bits, hashes)?;
    }
    Ok(())
}

// The bits in bytes, the least significant first, the last one filled up with zeros.
fn packed(alloc: Global, bits: &[bool]) -> Result<Vec<u8>, NoMemory>
    ensures { IfOk result (λ v. AreFlagsOf bits.now v.items) }
{
    let mut bytes = Vec::new(alloc);
    let mut part = Part { byte: 0, n: 0 };
    for bit in bits {
        part = put_bit(&mut bytes, part.byte, part.n, *bit)?;
    }
    if part.n > 0 {
        bytes.push(part.byte)?;
    }
    Ok(bytes)
}

// The low n bits of a byte.
#[derive(Clone, Copy)]
struct Part {
    byte: u8,
    n: u32,
}

// One bit more. A byte that is full goes to the others.
fn put_bit(bytes: &mut Vec<u8>, byte: u8, n: u32, bit: bool) -> Result<Part, NoMemory>
    requires few { n < 8 }
    requires small { byte < 2 ^ n }
    ensures bits { IfOk result (λ p. flags_of bytes.new.items ++ low_bits p.n p.byte
        ≡ (flags_of bytes.old.items ++ low_bits n byte) ++ bit ∷ []) }
    ensures few { IfOk result (λ p. p.n < 8) }
    ensures small { IfOk result (λ p. p.byte < 2 ^ p.n) }
{
    let more = with_bit(byte, n, bit);
    if n < 7 {
        return Ok(Part {
            byte: more,
            n: n + 1,
        });
    }
    bytes.push(more)?;
    Ok(Part { byte: 0, n: 0 })
}

// A bit above the low n of a byte.
fn with_bit(byte: u8, n: u32, bit: bool) -> u8
    requires few { n < 8 }
    requires small { byte < 2 ^ n }
    ensures bits { low_bits (n + 1) result ≡ low_bits n byte ++ bit ∷ [] }
    ensures small { result < 2 ^ (n + 1) }
{
    if bit { byte + (1 << n) } else { byte }
}
