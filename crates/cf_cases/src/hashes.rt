//! Hashes, and the numbers of a reader.
use crate::fields::bytes_in;
use cf_bytes::{Cut, CutFault, double_hash, put_compact, read_hash, show};
use sha2::{Digest, Sha256};
use std::alloc::Global;

/// SHA-256 of the bytes of a row, and SHA-256 of that, as people read it.
pub(crate) fn answer(alloc: Global, row: &str) -> Option<String> {
    let bytes = bytes_in(alloc, row)?;
    let once = hex::encode(alloc, &Sha256::digest(&bytes)).ok()?;
    let twice = show(alloc, &double_hash(&bytes)).ok()?;
    format!(in alloc; "{once} {twice}").ok()
}

/// The hash that a row shows, in wire order, or `none`.
pub(crate) fn unhash(alloc: Global, row: &str) -> Option<String> {
    match read_hash(row) {
        Some(hash) => hex::encode(alloc, &hash.0).ok(),
        None => String::from_str(alloc, "none").ok(),
    }
}

// A number and its CompactSize.
fn spelled(alloc: Global, n: u64) -> Option<String> {
    let mut bytes = Vec::new(alloc);
    put_compact(&mut bytes, n).ok()?;
    let digits = hex::encode(alloc, &bytes).ok()?;
    format!(in alloc; "{n} {digits}").ok()
}

/// The number at the front of the bytes of a row and its spelling, or why there is none.
pub(crate) fn compact(alloc: Global, row: &str) -> Option<String> {
    let bytes = bytes_in(alloc, row)?;
    match Cut::new(&bytes).compact() {
        Ok(n) => spelled(alloc, n),
        Err(fault) => format!(in alloc; "{fault:?}").ok(),
    }
}

// Numbers of 1, 2, 4 and 8 bytes, and signed ones of 4 and 8.
fn numbers(cut: &mut Cut) -> Result<(u8, u16, u32, u64, i32, i64), CutFault> {
    Ok((
        cut.u8()?,
        cut.u16()?,
        cut.u32()?,
        cut.u64()?,
        cut.i32()?,
        cut.i64()?,
    ))
}

/// Numbers in turn, and the bytes that are left; or the fault, and the bytes from there on.
pub(crate) fn fields(alloc: Global, row: &str) -> Option<String> {
    let bytes = bytes_in(alloc, row)?;
    let mut cut = Cut::new(&bytes);
    let read = numbers(&mut cut);
    let rest = hex::encode(alloc, cut.rest()).ok()?;
    format!(in alloc; "{read:?} {rest}").ok()
}
