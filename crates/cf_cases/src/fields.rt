//! The fields of rows.
use cf_block::{Block, parse_block};
use cf_bytes::{Cut, Hash32, show};
use std::alloc::Global;

// Puts the bytes of a part behind others.
fn put_part(alloc: Global, part: &str, out: &mut Vec<u8>) -> Option<()> {
    let (digits, times) = part.split_once('*').unwrap_or((part, "1"));
    let times: u32 = times.parse().ok()?;
    let some = hex::decode(alloc, digits).ok()?;
    for _ in 0..times {
        out.extend_from_slice(&some).ok()?;
    }
    Some(())
}

/// The bytes that a field spells: parts that are joined by `+`, each in hexadecimal, or `HEX*N` where its bytes come so
/// often. `-` is none.
pub(crate) fn bytes_in(alloc: Global, field: &str) -> Option<Vec<u8>> {
    let mut bytes = Vec::new(alloc);
    for part in field.trim_start_matches('-').split('+') {
        put_part(alloc, part, &mut bytes)?;
    }
    Some(bytes)
}

/// The block that a field spells in hexadecimal.
pub(crate) fn block_in(alloc: Global, field: &str) -> Option<Block> {
    parse_block(alloc, &bytes_in(alloc, field)?).ok()
}

/// Bytes in hexadecimal, or `-` where there is none.
pub(crate) fn digits_of(alloc: Global, bytes: &[u8]) -> Option<String> {
    if bytes.is_empty() {
        return String::from_str(alloc, "-").ok();
    }
    hex::encode(alloc, bytes).ok()
}

/// The hash that a field spells in hexadecimal, in wire order.
pub(crate) fn hash_in(alloc: Global, field: &str) -> Option<Hash32> {
    let bytes = bytes_in(alloc, field)?;
    Some(Hash32(Cut::new(&bytes).array().ok()?))
}

/// Puts a word behind a text, after a space.
pub(crate) fn put_word(word: &str, out: &mut String) -> Option<()> {
    out.push(' ').ok()?;
    out.push_str(word).ok()
}

/// Puts bytes in hexadecimal behind a text, after a space.
pub(crate) fn put_digits(alloc: Global, bytes: &[u8], out: &mut String) -> Option<()> {
    put_word(&hex::encode(alloc, bytes).ok()?, out)
}

/// Puts a hash behind a text, after a space, as people read it.
pub(crate) fn put_hash(alloc: Global, hash: &Hash32, out: &mut String) -> Option<()> {
    put_word(&show(alloc, hash).ok()?, out)
}

/// The numbers of a field, parted by commas. `-` is none.
pub(crate) fn numbers_in(alloc: Global, field: &str) -> Option<Vec<u64>> {
    let mut numbers = Vec::new(alloc);
    if field == "-" {
        return Some(numbers);
    }
    for text in field.split(',') {
        let number: u64 = text.parse().ok()?;
        numbers.push(number).ok()?;
    }
    Some(numbers)
}

/// The texts of a field, parted by this character. A field of no character has none.
pub(crate) fn texts_in(alloc: Global, field: &str, mark: char) -> Option<Vec<String>> {
    let mut texts = Vec::new(alloc);
    if field.is_empty() {
        return Some(texts);
    }
    for text in field.split(mark) {
        texts.push(String::from_str(alloc, text).ok()?).ok()?;
    }
    Some(texts)
}

/// The lines of a file. Each ends at `;`.
pub(crate) fn file_in(alloc: Global, field: &str) -> Option<String> {
    field.replace(alloc, ";", "\n").ok()
}

/// The bytes of a command of this name: filled up with zeros.
pub(crate) fn command_in(name: &str) -> [u8; 12] {
    let mut command = [0u8; 12];
    for (to, from) in command.iter_mut().zip(name.bytes()) {
        *to = from;
    }
    command
}
