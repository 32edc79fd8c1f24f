//! What peers claim of the filters of blocks.
ghost use Rattle.std.specs.Prelude.{◌≤◌};

use crate::fields::{bytes_in, put_digits, put_word};
use cf_block::{block_hash, genesis_header};
use cf_bytes::{Cut, Hash32, PeerNo, Refused};
use cf_dispute::{At, ClaimFault, Claims, genesis_filter_header};
use std::alloc::Global;

// A hash: 32 bytes, one byte that stands 32 times, or the first block's hash (`genesis`) or filter header (`first`).
fn hash_in(alloc: Global, field: &str) -> Option<Hash32> {
    if field == "genesis" {
        return Some(block_hash(&genesis_header()));
    }
    if field == "first" {
        return Some(genesis_filter_header());
    }
    let bytes = bytes_in(alloc, field)?;
    if bytes.len() == 1 {
        return Some(Hash32([bytes[0]; 32]));
    }
    Some(Hash32(Cut::new(&bytes).array().ok()?))
}

// Hashes, parted by commas.
fn hashes_in(alloc: Global, field: &str) -> Option<Vec<Hash32>> {
    let mut hashes = Vec::new(alloc);
    for text in field.split(',') {
        let hash = hash_in(alloc, text)?;
        hashes.push(hash).ok()?;
    }
    Some(hashes)
}

// A word and hashes after it, in wire order.
fn with_hashes(alloc: Global, word: &str, hashes: &[Hash32]) -> Option<String> {
    let mut text = String::from_str(alloc, word).ok()?;
    for hash in hashes {
        put_digits(alloc, &hash.0, &mut text)?;
    }
    Some(text)
}

fn fault_text(alloc: Global, fault: ClaimFault) -> Option<String> {
    match fault {
        ClaimFault::Count { wanted, got } => format!(in alloc; "Count {wanted} {got}").ok(),
        ClaimFault::Previous { expected, got } => with_hashes(alloc, "Previous", &[expected, got]),
    }
}

// What a peer, whose claims are forgotten before, gives for blocks on the first one.
fn given(
    alloc: Global,
    claims: &mut Claims,
    p: PeerNo,
    blocks: &[Hash32],
    previous: &Hash32,
    hashes: &[Hash32],
) -> Option<String>
    requires { p.0 ≤ 8 }
{
    let parent = block_hash(&genesis_header());
    claims.forget(p);
    let _first = claims.header(p, &parent)?;
    match claims.add(p, &parent, blocks, previous, hashes) {
        Ok(_) => String::from_str(alloc, "taken").ok(),
        Err(Refused::No(fault)) => fault_text(alloc, fault),
        Err(Refused::NoMemory) => None,
    }
}

fn give(alloc: Global, claims: &mut Claims, fields: &str) -> Option<String> {
    let (peer, rest) = fields.split_once(' ')?;
    let (blocks, rest) = rest.split_once(' ')?;
    let (previous, hashes) = rest.split_once(' ')?;
    let peer: u32 = peer.parse().ok()?;
    if peer > 8 {
        return None;
    }
    let previous = hash_in(alloc, previous)?;
    let blocks = hashes_in(alloc, blocks)?;
    let hashes = hashes_in(alloc, hashes)?;
    given(alloc, claims, PeerNo(peer), &blocks, &previous, &hashes)
}

fn forget(alloc: Global, claims: &mut Claims, peer: &str) -> Option<String> {
    claims.forget(PeerNo(peer.parse().ok()?));
    String::from_str(alloc, "forgotten").ok()
}

fn at(alloc: Global, claims: &Claims, block: &str) -> Option<String> {
    match claims.at(&hash_in(alloc, block)?) {
        At::Nobody => String::from_str(alloc, "Nobody").ok(),
        At::One(hash) => with_hashes(alloc, "One", &[hash]),
        At::Differ => String::from_str(alloc, "Differ").ok(),
    }
}

// The filter hash that a peer claims at a block.
fn hash_claimed(alloc: Global, claims: &Claims, peer: PeerNo, block: &Hash32) -> Option<String> {
    match claims.claim(peer, block) {
        Some(claim) => with_hashes(alloc, "hash", &[claim.hash]),
        None => String::from_str(alloc, "no hash").ok(),
    }
}

// The filter header that a peer claims at a block.
fn header_claimed(alloc: Global, claims: &Claims, peer: PeerNo, block: &Hash32) -> Option<String> {
    match claims.header(peer, block) {
        Some(header) => with_hashes(alloc, "header", &[header]),
        None => String::from_str(alloc, "no header").ok(),
    }
}

// The filter hash and the filter header that a peer claims at a block.
fn of(alloc: Global, claims: &Claims, fields: &str) -> Option<String> {
    let (peer, block) = fields.split_once(' ')?;
    let peer = PeerNo(peer.parse().ok()?);
    let block = hash_in(alloc, block)?;
    let mut text = hash_claimed(alloc, claims, peer, &block)?;
    put_word(&header_claimed(alloc, claims, peer, &block)?, &mut text)?;
    Some(text)
}

fn step(alloc: Global, claims: &mut Claims, text: &str) -> Option<String> {
    let (word, fields) = text.split_once(' ')?;
    match word {
        "give" => give(alloc, claims, fields),
        "forget" => forget(alloc, claims, fields),
        "at" => at(alloc, claims, fields),
        "of" => of(alloc, claims, fields),
        _ => None,
    }
}

// Puts what a step comes to behind those before it.
fn put_step(alloc: Global, claims: &mut Claims, words: &str, out: &mut String) -> Option<()> {
    let told = step(alloc, claims, words)?;
    if !out.is_empty() {
        out.push(';').ok()?;
    }
    out.push_str(&told).ok()
}

// What each of these steps comes to.
fn told(alloc: Global, claims: &mut Claims, steps: &str) -> Option<String> {
    let mut text = String::new(alloc);
    for words in steps.split(';') {
        put_step(alloc, claims, words, &mut text)?;
    }
    Some(text)
}

/// What each step of a row comes to, over claims with this filter header of the first block. All are parted by `;`.
pub(crate) fn answer(alloc: Global, row: &str) -> Option<String> {
    let (first, steps) = row.split_once(';')?;
    let first = hash_in(alloc, first)?;
    match Claims::new(alloc, &first) {
        Ok(mut claims) => told(alloc, &mut claims, steps),
        Err(_) => None,
    }
}
