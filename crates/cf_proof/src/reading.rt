//! Reading proofs.
ghost use Rattle.std.specs.Prelude.{◌≡◌};
ghost use Rattle.cf_bytes.specs.{Reads, Gives, list_at, counted_bytes_at, compact_at, number_at};
ghost use Rattle.std.specs.Int.{w32};
ghost use Rattle.cf_proof.specs.Proof.{field_at, header_field_at, hash_field_at, fields_at, proof_at};
ghost use Rattle.cf_proof.specs.Steps.{GivesProof};

use crate::fault::ProofFault;
use crate::proof::Proof;
use cf_block::{Header, parse_header};
use cf_bytes::{Cut, Hash32, Listed, Refused, read_list};
use std::alloc::Global;

/// The parts of a proof. Memory is taken for the hashes and bits that are there, whatever numbers the bytes claim.
///
/// # Errors
///
/// The fault of the first field that can't be read, or `Rest` where bytes follow the last one.
#[tactic(auto, unfolding(crate::specs::Proof::proof_at))]
pub fn read_proof(alloc: Global, bytes: &[u8]) -> Result<Proof, Refused<ProofFault>>
    ensures { GivesProof (proof_at bytes.now) result }
{
    let mut cut = Cut::new(bytes);
    let proof = match fields_of(alloc, &mut cut) {
        Ok(proof) => proof,
        Err(e) => return Err(e),
    };
    if cut.rest().len() > 0 {
        return Err(Refused::No(ProofFault::Rest));
    }
    Ok(proof)
}

#[tactic(auto, unfolding(crate::specs::Proof::fields_at))]
fn fields_of(alloc: Global, cut: &mut Cut) -> Result<Proof, Refused<ProofFault>>
    ensures { Gives (λ p. p) (fields_at cut.old) result cut.new }
{
    let header = header_of(cut)?;
    let total = number_of(cut)?;
    let count = count_of(cut)?;
    let hashes = hashes_of(alloc, count, cut)?;
    let flags = flags_of(alloc, cut)?;
    Ok(Proof {
        header,
        total,
        hashes,
        flags,
    })
}

fn header_of(cut: &mut Cut) -> Result<Header, ProofFault>
    ensures { Reads (λ h. h) (header_field_at cut.old) result cut.new }
{
    match parse_header(cut) {
        Ok(header) => Ok(header),
        Err(_) => Err(ProofFault::Short),
    }
}

fn number_of(cut: &mut Cut) -> Result<u32, ProofFault>
    ensures { Reads (λ n. n) (field_at (number_at w32 cut.old)) result cut.new }
{
    Ok(cut.u32()?)
}

fn count_of(cut: &mut Cut) -> Result<u64, ProofFault>
    ensures { Reads (λ n. n) (field_at (compact_at cut.old)) result cut.new }
{
    Ok(cut.compact()?)
}

fn hash_of(cut: &mut Cut) -> Result<Hash32, ProofFault>
    ensures { Reads (λ h. h) (hash_field_at cut.old) result cut.new }
{
    Ok(cut.hash()?)
}

fn hashes_of(
    alloc: Global,
    count: u64,
    cut: &mut Cut,
) -> Result<Listed<Hash32>, Refused<ProofFault>>
    ensures { Gives (λ h. h) (list_at hash_field_at count cut.old) result cut.new }
{
    read_list(alloc, 0, count, cut, |cut| Ok(hash_of(cut)?))
}

fn flags_of(alloc: Global, cut: &mut Cut) -> Result<Listed<u8>, Refused<ProofFault>>
    ensures { Gives (λ f. f) (field_at (counted_bytes_at cut.old)) result cut.new }
{
    let count = match cut.compact() {
        Ok(count) => count,
        Err(fault) => return Err(Refused::No(ProofFault::from(fault))),
    };
    let bytes = match cut.bytes(count as usize) {
        Ok(bytes) => bytes,
        Err(fault) => return Err(Refused::No(ProofFault::from(fault))),
    };
    Ok(Listed::from_vec(Vec::from_slice(alloc, bytes)?))
}
