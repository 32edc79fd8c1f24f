//! `cf_library`: the callers of the library that docs/LIBRARY.md shows, over rows `KIND FIELDS`. It prints each row and
//! what it comes to, or `?`. Fields are in hexadecimal.
#![tactic(auto)]

mod address;
mod block;
mod filter;
mod proof;

use cf_block::Script;
use cf_bytes::show;
use std::alloc::Global;
use std::process::ExitCode;

// The scripts of a field, parted by commas; `-` is none.
fn scripts_in(alloc: Global, field: &str) -> Option<Vec<Script>> {
    let mut scripts = Vec::new(alloc);
    if field == "-" {
        return Some(scripts);
    }
    for digits in field.split(',') {
        scripts
            .push(Script::from_vec(hex::decode(alloc, digits).ok()?))
            .ok()?;
    }
    Some(scripts)
}

fn built(alloc: Global, fields: &str) -> Option<String> {
    let (block, spent) = fields.split_once(' ')?;
    let block = hex::decode(alloc, block).ok()?;
    let spent = scripts_in(alloc, spent)?;
    hex::encode(alloc, &filter::filter_of(alloc, &block, &spent)?).ok()
}

fn held(alloc: Global, fields: &str) -> Option<String> {
    let (block, fields) = fields.split_once(' ')?;
    let (filter, scripts) = fields.split_once(' ')?;
    let block = hex::decode(alloc, block).ok()?;
    let filter = hex::decode(alloc, filter).ok()?;
    let scripts = scripts_in(alloc, scripts)?;
    let holds = filter::may_hold(alloc, &block, &filter, &scripts)?;
    format!(in alloc; "{holds}").ok()
}

fn made(alloc: Global, fields: &str) -> Option<String> {
    let (block, place) = fields.split_once(' ')?;
    let place: u32 = place.parse().ok()?;
    let block = hex::decode(alloc, block).ok()?;
    hex::encode(alloc, &proof::proof_at(alloc, &block, place)?).ok()
}

fn proven(alloc: Global, fields: &str) -> Option<String> {
    let (proof, tx) = fields.split_once(' ')?;
    let proof = hex::decode(alloc, proof).ok()?;
    let tx = hex::decode(alloc, tx).ok()?;
    show(alloc, &proof::block_of(alloc, &proof, &tx)?).ok()
}

// What a row comes to.
fn answer(alloc: Global, row: &str) -> Option<String> {
    let (kind, fields) = row.split_once(' ')?;
    match kind {
        "address" => hex::encode(alloc, &address::script_of(alloc, fields)?).ok(),
        "block" => block::hashes_of(alloc, &hex::decode(alloc, fields).ok()?),
        "filter" => built(alloc, fields),
        "holds" => held(alloc, fields),
        "proof" => made(alloc, fields),
        "proven" => proven(alloc, fields),
        _ => None,
    }
}

// The lines that are printed for a row.
fn shown(alloc: Global, row: &str) -> Option<String> {
    match answer(alloc, row) {
        Some(text) => format!(in alloc; "{row}\n{text}").ok(),
        None => format!(in alloc; "{row}\n?").ok(),
    }
}

fn main(rt: HostRuntime) -> ExitCode {
    for row in rt.lines(rt.alloc()) {
        let Ok(row) = row else {
            return ExitCode::from(1);
        };
        let Some(text) = shown(rt.alloc(), &row) else {
            return ExitCode::from(2);
        };
        if println!(&rt; "{text}").is_err() {
            return ExitCode::from(3);
        }
    }
    ExitCode::SUCCESS
}
