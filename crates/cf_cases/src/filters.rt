//! Hashes of items, codes of values, and filters.
ghost use Rattle.cf_golomb.specs.{HasSpelling};

use crate::fields::{block_in, bytes_in, hash_in, put_digits, put_word};
use cf_block::{Block, Script, block_hash};
use cf_bytes::{Cut, Hash32, Refused};
use cf_filter::{Items, build, filter_hash, filter_header, items, lacks, matches, output_items};
use cf_golomb::{decode, encode, meets};
use cf_siphash::sip24;
use std::alloc::Global;

/// SipHash-2-4 under the key of a row, of the bytes after it. The low byte comes first.
pub(crate) fn siphash(alloc: Global, row: &str) -> Option<String> {
    let (key, digits) = row.split_once(' ')?;
    let key = bytes_in(alloc, key)?;
    let mut cut = Cut::new(&key);
    let (k0, k1) = (cut.u64().ok()?, cut.u64().ok()?);
    let bytes = bytes_in(alloc, digits)?;
    hex::encode(alloc, &sip24(k0, k1, &bytes).to_le_bytes()).ok()
}

// Values and their code.
fn coded(alloc: Global, values: &[u64]) -> Option<String>
    requires { HasSpelling values.now }
{
    let code = encode(alloc, values).ok()?;
    let digits = hex::encode(alloc, &code).ok()?;
    format!(in alloc; "{values:?} {digits}").ok()
}

/// The values that the bytes of a row are read as, and their code; or the first fault.
pub(crate) fn golomb(alloc: Global, row: &str) -> Option<String> {
    match decode(alloc, &bytes_in(alloc, row)?) {
        Ok(values) => coded(alloc, &values),
        Err(Refused::No(fault)) => format!(in alloc; "{fault:?}").ok(),
        Err(Refused::NoMemory) => None,
    }
}

/// Whether a number is among the values of the bytes of a row, or the first fault.
pub(crate) fn met(alloc: Global, row: &str) -> Option<String> {
    let (digits, number) = row.split_once(' ')?;
    let query: u64 = number.parse().ok()?;
    let answer = meets(&bytes_in(alloc, digits)?, &[query]);
    format!(in alloc; "{answer:?}").ok()
}

/// The scripts of a field, parted by commas. `none` is no script.
pub(crate) fn scripts_in(alloc: Global, field: &str) -> Option<Vec<Script>> {
    let mut scripts = Vec::new(alloc);
    if field == "none" {
        return Some(scripts);
    }
    for digits in field.split(',') {
        let bytes = bytes_in(alloc, digits)?;
        scripts.push(Script::from_vec(bytes)).ok()?;
    }
    Some(scripts)
}

// The scripts of a set, each after a space.
fn shown(alloc: Global, set: &Items) -> Option<String> {
    let mut text = String::from_str(alloc, "items").ok()?;
    for script in set.as_slice() {
        put_digits(alloc, script, &mut text)?;
    }
    Some(text)
}

// The items of a block whose inputs spend these scripts.
fn set_in(alloc: Global, block: &str, spent: &str) -> Option<Items> {
    let spent = scripts_in(alloc, spent)?;
    let block = block_in(alloc, block)?;
    items(alloc, &block, &spent).ok()
}

// The items of a set that are none of these scripts.
fn left_of(alloc: Global, set: &Items, left_out: &str) -> Option<Items> {
    let left_out = scripts_in(alloc, left_out)?;
    set.without(alloc, &left_out).ok()
}

/// The items of a block whose inputs spend these scripts, without the last scripts of the row.
pub(crate) fn items_left(alloc: Global, row: &str) -> Option<String> {
    let (block, scripts) = row.split_once(' ')?;
    let (spent, left_out) = scripts.split_once(' ')?;
    let set = set_in(alloc, block, spent)?;
    shown(alloc, &left_of(alloc, &set, left_out)?)
}

// Puts whether a filter of a block is none or lacks one of these items.
fn put_lacks(
    alloc: Global,
    hash: &Hash32,
    set: &Items,
    filter: &str,
    out: &mut String,
) -> Option<()> {
    let is_lacking = lacks(alloc, hash, &bytes_in(alloc, filter)?, set).ok()?;
    put_word(if is_lacking { "lacks" } else { "holds" }, out)
}

// Items of a block, and of each filter whether it is none or lacks one of them.
fn tested(alloc: Global, hash: &Hash32, set: &Items, filters: &str) -> Option<String> {
    let mut text = shown(alloc, set)?;
    for filter in filters.split(' ') {
        put_lacks(alloc, hash, set, filter, &mut text)?;
    }
    Some(text)
}

// The items of this block's outputs, and of each filter whether it is none or lacks one of them.
fn lacking_of(alloc: Global, block: &Block, filters: &str) -> Option<String> {
    let set = output_items(alloc, block).ok()?;
    tested(alloc, &block_hash(&block.header), &set, filters)
}

/// The items of a block's outputs, and of each filter of a row whether it is none or lacks one of them.
pub(crate) fn lacking(alloc: Global, row: &str) -> Option<String> {
    let (block, filters) = row.split_once(' ')?;
    let block = block_in(alloc, block)?;
    lacking_of(alloc, &block, filters)
}

// The filter of this block, whose inputs spend these scripts.
fn filter_of(alloc: Global, block: &Block, spent: &[Script]) -> Option<Vec<u8>> {
    let set = items(alloc, block, spent).ok()?;
    if set.len() > 1000 {
        return None;
    }
    build(alloc, &block_hash(&block.header), &set).ok()
}

// The filter of a block whose inputs spend these scripts.
fn filter_in(alloc: Global, block: &str, spent: &str) -> Option<Vec<u8>> {
    let spent = scripts_in(alloc, spent)?;
    let block = block_in(alloc, block)?;
    filter_of(alloc, &block, &spent)
}

// A filter, its hash, and its header after this one.
fn filter_text(alloc: Global, filter: &[u8], before: &Hash32) -> Option<String> {
    let hash = filter_hash(filter);
    let header = filter_header(&hash, before);
    let mut text = hex::encode(alloc, filter).ok()?;
    put_digits(alloc, &hash.0, &mut text)?;
    put_digits(alloc, &header.0, &mut text)?;
    Some(text)
}

/// The filter of a block whose inputs spend these scripts, its hash, and its header after that of a row,
/// all in wire order.
pub(crate) fn answer(alloc: Global, row: &str) -> Option<String> {
    let (block, scripts) = row.split_once(' ')?;
    let (spent, before) = scripts.split_once(' ')?;
    let before = hash_in(alloc, before)?;
    let filter = filter_in(alloc, block, spent)?;
    filter_text(alloc, &filter, &before)
}

// Whether a filter under a block's hash matches one of these scripts, or the first fault.
fn matched_with(alloc: Global, hash: &Hash32, filter: &[u8], scripts: &[Script]) -> Option<String> {
    let mut scratch = vec![in alloc; 0u64; scripts.len()].ok()?;
    let answer = matches(hash, filter, scripts, &mut scratch);
    format!(in alloc; "{answer:?}").ok()
}

/// Whether a filter under a block's hash matches one of the scripts of a row, or the first fault.
pub(crate) fn matched(alloc: Global, row: &str) -> Option<String> {
    let (hash, rest) = row.split_once(' ')?;
    let (filter, scripts) = rest.split_once(' ')?;
    let hash = hash_in(alloc, hash)?;
    let filter = bytes_in(alloc, filter)?;
    let scripts = scripts_in(alloc, scripts)?;
    matched_with(alloc, &hash, &filter, &scripts)
}
