//! `cf_cases`: reads rows `KIND REST`, and prints each row and what it comes to. `docs/CONTRIBUTING.md` says how rows
//! and kinds are added. A row that begins with `#` is a remark, and is printed as it is. A row that can't be read, or
//! for which no memory is found, comes to `?`.
#![tactic(auto)]

mod addresses;
mod blocks;
mod chains;
mod claims;
mod conversations;
mod demos;
mod fields;
mod files;
mod filters;
mod growths;
mod hashes;
mod headers;
mod inputs;
mod payloads;
mod players;
mod proofs;
mod runs;
mod servings;
mod stores;
mod streams;
mod verdicts;

use cf_rows::Host;
use std::alloc::Global;
use std::process::ExitCode;

// What a row comes to.
fn answer<R: Host>(rt: R, alloc: Global, row: &str) -> Option<String> {
    let (kind, rest) = row.split_once(' ')?;
    match kind {
        "address" => addresses::answer(alloc, rest),
        "announced" => servings::announced(rt, alloc, rest),
        "bare" => files::bare(&rt, alloc, rest),
        "block" => blocks::block(alloc, rest),
        "blocks" => files::answer(&rt, alloc, rest),
        "chain" => chains::answer(alloc, rest),
        "claims" => claims::answer(alloc, rest),
        "compact" => hashes::compact(alloc, rest),
        "demo" => demos::demo(rt, alloc, rest),
        "fields" => hashes::fields(alloc, rest),
        "fill" => streams::filled(alloc, rest),
        "filter" => filters::answer(alloc, rest),
        "golomb" => filters::golomb(alloc, rest),
        "grow" => growths::answer(rt, alloc, rest),
        "hash" => hashes::answer(alloc, rest),
        "items" => filters::items_left(alloc, rest),
        "lacks" => filters::lacking(alloc, rest),
        "locator" => headers::locator(alloc, rest),
        "match" => filters::matched(alloc, rest),
        "meets" => filters::met(alloc, rest),
        "merkle" => blocks::merkle(alloc, rest),
        "mine" => chains::mined(alloc, rest),
        "mistake" => inputs::mistake(alloc, rest),
        "payload" => payloads::answer(alloc, rest),
        "played" => players::answer(&rt, alloc, rest),
        "proof" => proofs::answer(alloc, rest),
        "prove" => proofs::made(alloc, rest),
        "recorded" => demos::recorded(rt, alloc, rest),
        "run" => runs::answer(rt, alloc, rest),
        "serve" => conversations::answer(&rt, alloc, rest),
        "serving" => servings::answer(rt, alloc, rest),
        "session" => inputs::session(alloc, rest),
        "siphash" => filters::siphash(alloc, rest),
        "stored" => blocks::stored(alloc, rest),
        "stores" => stores::answer(alloc, rest),
        "stream" => streams::answer(alloc, rest),
        "target" => headers::target(alloc, rest),
        "text" => inputs::text(alloc, rest),
        "traced" => stores::traced(alloc, rest),
        "tx" => blocks::tx(alloc, rest),
        "unhash" => hashes::unhash(alloc, rest),
        "verdicts" => verdicts::answer(alloc, rest),
        "watch" => inputs::watch(alloc, rest),
        "words" => inputs::words(alloc, rest),
        _ => None,
    }
}

// The lines that are printed for a row.
fn shown<R: Host>(rt: R, alloc: Global, row: &str) -> Option<String> {
    if row.starts_with('#') {
        return format!(in alloc; "{row}").ok();
    }
    match answer(rt, alloc, row) {
        Some(text) => format!(in alloc; "{row}\n{text}").ok(),
        None => format!(in alloc; "{row}\n?").ok(),
    }
}

fn main(rt: HostRuntime) -> ExitCode {
    for row in rt.lines(rt.alloc()) {
        let Ok(row) = row else {
            return ExitCode::from(1);
        };
        let Some(text) = shown(rt, rt.alloc(), &row) else {
            return ExitCode::from(2);
        };
        if println!(&rt; "{text}").is_err() {
            return ExitCode::from(3);
        }
    }
    ExitCode::SUCCESS
}
