//! The file of a proof: a transaction, and the proof that it stands in a block.
ghost use Rattle.std.specs.Prelude.{◌≡◌, IfOk, false, option_map};
ghost use Rattle.cf_block.specs.{stored_tx_at, tx_spelling};
ghost use Rattle.cf_input.specs.Lines.{GivesRead};
ghost use Rattle.cf_input.specs.ProofFile.{bytes_after, whole_stored, tx_in, tx_in_line, block_of, block_in_line, block_from, proof_file_of};

use crate::lines::{cut_at, read_hex};
use cf_block::{BlockFaultKind, Tx, parse_tx, read_stored_tx, txid};
use cf_bytes::{Cut, Hash32, NoMemory, Refused};
use cf_headers::meets_target;
use cf_proof::{ProofFault, check_proof};
use std::alloc::Global;
use thiserror::Error;

/// Why a line can't stand in the file of a proof.
#[derive(Clone, Copy, Debug, PartialEq, Eq, Error)]
pub enum ProofCause {
    /// The line has another form, or isn't there; or bytes stand after the second line.
    #[error("the file has two lines: `tx HEX` and `proof HEX`")]
    BadLine,
    /// The bytes of the first line are no transaction.
    #[error("no transaction: {0}")]
    Tx(BlockFaultKind),
    /// The bytes of the second line don't prove that it stands in a block.
    #[error("no proof of the transaction: {0}")]
    Proof(ProofFault),
    /// The hash of the block's header is above the target.
    #[error("no block: the hash of the header is above the target")]
    Work,
}

/// The first line that is refused, counted from 1.
#[derive(Clone, Copy, Debug, PartialEq, Eq, Error)]
#[error("line {place}: {cause}")]
pub struct ProofFileFault {
    pub cause: ProofCause,
    pub place: u32,
}

/// The hash of a block's header, and that of a transaction which stands in the block.
#[derive(Clone, Copy, Debug, PartialEq, Eq)]
pub struct Proven {
    pub block: Hash32,
    pub txid: Hash32,
}

// The bytes in hexadecimal that follow a word at the front of a line.
fn read_after(alloc: Global, word: &[u8], line: &[u8]) -> Result<Option<Vec<u8>>, NoMemory>
    ensures { IfOk result (λ found. option_map (λ v. v.items) found ≡ bytes_after word.now line.now) }
{
    match line.strip_prefix(word) {
        Some(text) => read_hex(alloc, text),
        None => Ok(None),
    }
}

// The transaction whose bytes these are, in its form without witnesses.
fn read_plain(alloc: Global, bytes: &[u8]) -> Result<Tx, Refused<BlockFaultKind>>
    ensures { GivesRead (λ t. t) (tx_in false bytes.now) result }
{
    let mut cut = Cut::new(bytes);
    let tx = match parse_tx(alloc, &mut cut) {
        Ok(tx) => tx,
        Err(Refused::No(fault)) => return Err(Refused::No(fault.kind)),
        Err(Refused::NoMemory) => return Err(Refused::NoMemory),
    };
    if cut.rest().len() > 0 {
        return Err(Refused::No(BlockFaultKind::Rest));
    }
    Ok(tx)
}

// The same in its form with witnesses, or without.
fn read_stored(alloc: Global, bytes: &[u8]) -> Result<Tx, Refused<BlockFaultKind>>
    ensures { GivesRead (λ t. t) (whole_stored (stored_tx_at bytes.now)) result }
{
    let mut cut = Cut::new(bytes);
    let tx = match read_stored_tx(alloc, &mut cut) {
        Ok(tx) => tx,
        Err(Refused::No(kind)) => return Err(Refused::No(kind)),
        Err(Refused::NoMemory) => return Err(Refused::NoMemory),
    };
    if !cut.rest().is_empty() {
        return Err(Refused::No(BlockFaultKind::Rest));
    }
    Ok(tx)
}

// The transaction whose bytes these are, which may have witnesses, or may not.
fn read_tx(alloc: Global, witness: bool, bytes: &[u8]) -> Result<Tx, Refused<BlockFaultKind>>
    ensures { GivesRead (λ t. t) (tx_in witness bytes.now) result }
{
    if witness {
        read_stored(alloc, bytes)
    } else {
        read_plain(alloc, bytes)
    }
}

// The transaction of the first line.
fn read_tx_line(alloc: Global, witness: bool, line: &[u8]) -> Result<Tx, Refused<ProofCause>>
    ensures { GivesRead (λ t. t) (tx_in_line witness line.now) result }
{
    let bytes = match read_after(alloc, b"tx ", line) {
        Ok(Some(bytes)) => bytes,
        Ok(None) => return Err(Refused::No(ProofCause::BadLine)),
        Err(NoMemory) => return Err(Refused::NoMemory),
    };
    match read_tx(alloc, witness, &bytes) {
        Ok(tx) => Ok(tx),
        Err(Refused::No(kind)) => Err(Refused::No(ProofCause::Tx(kind))),
        Err(Refused::NoMemory) => Err(Refused::NoMemory),
    }
}

// The hash of the header of a proof that the transaction stands in its block.
fn read_block(alloc: Global, bytes: &[u8], tx: &Tx) -> Result<Hash32, Refused<ProofCause>>
    ensures { GivesRead (λ h. h) (block_of (tx_spelling tx.now) bytes.now) result }
{
    match check_proof(alloc, bytes, tx) {
        Ok(hash) => {
            if !meets_target(&hash) {
                return Err(Refused::No(ProofCause::Work));
            }
            Ok(hash)
        }
        Err(Refused::No(fault)) => Err(Refused::No(ProofCause::Proof(fault))),
        Err(Refused::NoMemory) => Err(Refused::NoMemory),
    }
}

// The same by the second line.
fn read_block_line(alloc: Global, line: &[u8], tx: &Tx) -> Result<Hash32, Refused<ProofCause>>
    ensures { GivesRead (λ h. h) (block_in_line (tx_spelling tx.now) line.now) result }
{
    match read_after(alloc, b"proof ", line) {
        Ok(Some(bytes)) => read_block(alloc, &bytes, tx),
        Ok(None) => Err(Refused::No(ProofCause::BadLine)),
        Err(NoMemory) => Err(Refused::NoMemory),
    }
}

// The same by what stands from the second line on, which is that line alone.
fn read_block_from(alloc: Global, bytes: &[u8], tx: &Tx) -> Result<Hash32, Refused<ProofCause>>
    ensures { GivesRead (λ h. h) (block_from (tx_spelling tx.now) bytes.now) result }
{
    let (line, after) = cut_at(bytes, b'\n');
    if after.len() > 0 {
        return Err(Refused::No(ProofCause::BadLine));
    }
    read_block_line(alloc, line, tx)
}

/// The hashes of the transaction and of the block of a file of two lines: `tx HEX` with the transaction's bytes, and
/// `proof HEX` with those of a proof of its block (`check_proof`). Digits are of either case. The last LF may lack. The
/// transaction has no witnesses; with `witness` it may have some, which don't count (BIP 144, "Serialization").
///
/// # Errors
///
/// The first line that is refused, for the first of these: `BadLine`, `Tx` with the first fault of the transaction,
/// `Proof` with the first fault of the proof, `Work`. A byte after the second line is its `BadLine`.
#[tactic(auto, unfolding(crate::specs::ProofFile::proof_file_of))]
pub fn read_proof_file(
    alloc: Global,
    witness: bool,
    bytes: &[u8],
) -> Result<Proven, Refused<ProofFileFault>>
    ensures { GivesRead (λ p. p) (proof_file_of witness bytes.now) result }
{
    let (line, rest) = cut_at(bytes, b'\n');
    let tx = match read_tx_line(alloc, witness, line) {
        Ok(tx) => tx,
        Err(Refused::No(cause)) => return Err(Refused::No(ProofFileFault { cause, place: 1 })),
        Err(Refused::NoMemory) => return Err(Refused::NoMemory),
    };
    match read_block_from(alloc, rest, &tx) {
        Ok(block) => Ok(Proven {
            block,
            txid: txid(&tx),
        }),
        Err(Refused::No(cause)) => Err(Refused::No(ProofFileFault { cause, place: 2 })),
        Err(Refused::NoMemory) => Err(Refused::NoMemory),
    }
}
