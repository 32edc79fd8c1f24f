//! What is wrong with words that ask for nothing, told to the user.
use crate::words::{
    MOST_AT_ONCE, MOST_BUDGET, MOST_CONNECTIONS, MOST_GROWTH, MOST_HEIGHT, MOST_MADE, MOST_PLAYED,
    MOST_SEED, MOST_TURNS, MOST_WORKERS, at_once_of, budget_of, cli_command, count_of, growth_of,
    is_met, is_set, seed_of, text_of, texts_of, turns_of, workers_of,
};
use cf_bytes::{MOST_PEERS, NoMemory};
use clap::ArgMatches;
use std::alloc::Global;

// A number that is out of its range.
fn ranged(alloc: Global, what: &str, least: u32, most: u32) -> Result<String, NoMemory> {
    Ok(format!(in alloc; "{what} is a number from {least} to {most}")?)
}

// A name of an address or a peer that is too long, or none.
fn unnamed(alloc: Global, what: &str) -> Result<String, NoMemory> {
    Ok(format!(in alloc; "{what} has 1 to 255 characters, without spaces")?)
}

// What is wrong with the peers of `sync` or `follow`.
fn peers_mistake(alloc: Global, matches: &ArgMatches) -> Result<String, NoMemory> {
    match texts_of(matches, "peer") {
        Some(peers) if peers.len() > MOST_PEERS => {
            Ok(format!(in alloc; "there are more than {MOST_PEERS} peers")?)
        }
        _ => unnamed(alloc, "the name of a peer"),
    }
}

// What is out of its range in the words of `sync` or `follow`.
fn run_mistake(alloc: Global, matches: &ArgMatches) -> Result<String, NoMemory> {
    if turns_of(text_of(matches, "turns")).is_none() {
        ranged(alloc, "N of --turns", 1, MOST_TURNS)
    } else if workers_of(text_of(matches, "workers")).is_none() {
        ranged(alloc, "N of --workers", 1, MOST_WORKERS)
    } else {
        peers_mistake(alloc, matches)
    }
}

// What is wrong with a number of connections that counts for nothing.
fn count_mistake(alloc: Global, matches: &ArgMatches) -> Result<String, NoMemory> {
    if is_set(matches, "endless") {
        return Ok(format!(in alloc; "--endless and --connections exclude each other")?);
    }
    ranged(alloc, "N of --connections", 1, MOST_CONNECTIONS)
}

// What is wrong with words of how a chain grows.
fn growth_mistake(alloc: Global, matches: &ArgMatches) -> Result<String, NoMemory> {
    if !is_set(matches, "grow") {
        let word = if is_set(matches, "keep") {
            "--keep"
        } else {
            "--grow-bytes"
        };
        return Ok(format!(in alloc; "{word} goes with --grow alone")?);
    }
    ranged(alloc, "N of --grow-bytes", 1, MOST_GROWTH)
}

// What is out of its range in the words of `serve`.
fn serve_mistake(alloc: Global, matches: &ArgMatches) -> Result<String, NoMemory> {
    let endless = is_set(matches, "endless");
    if count_of(endless, text_of(matches, "connections")).is_none() {
        count_mistake(alloc, matches)
    } else if at_once_of(text_of(matches, "at-once")).is_none() {
        ranged(alloc, "N of --at-once", 1, MOST_AT_ONCE)
    } else if budget_of(text_of(matches, "budget")).is_none() {
        ranged(alloc, "N of --budget", 1, MOST_BUDGET)
    } else if growth_of(
        is_set(matches, "grow"),
        is_set(matches, "keep"),
        text_of(matches, "grow-bytes"),
    )
    .is_none()
    {
        growth_mistake(alloc, matches)
    } else {
        unnamed(alloc, "ADDRESS")
    }
}

// What is out of its range in the words of `make` or `demo`, which takes at most so many blocks.
fn chain_mistake(alloc: Global, matches: &ArgMatches, most: u32) -> Result<String, NoMemory> {
    match text_of(matches, "seed").and_then(seed_of) {
        None => ranged(alloc, "SEED", 0, MOST_SEED),
        Some(_) => ranged(alloc, "BLOCKS", 1, most),
    }
}

// What is out of its range in words that clap takes.
fn range_mistake(alloc: Global, matches: &ArgMatches) -> Result<String, NoMemory> {
    if is_met(matches, "filter") {
        ranged(alloc, "HEIGHT", 0, MOST_HEIGHT)
    } else if is_met(matches, "prove") {
        Ok(format!(in alloc; "TXID is a transaction's hash, of 64 hexadecimal digits")?)
    } else if is_met(matches, "serve") {
        serve_mistake(alloc, matches)
    } else if is_met(matches, "sync") || is_met(matches, "follow") {
        run_mistake(alloc, matches)
    } else if is_met(matches, "make") {
        chain_mistake(alloc, matches, MOST_MADE)
    } else if is_met(matches, "demo") {
        chain_mistake(alloc, matches, MOST_PLAYED)
    } else {
        Ok(format!(in alloc; "there is no command")?)
    }
}

/// What is wrong with words that ask for nothing: clap's own text where clap refuses them, else which number or name
/// is out of its range. The first word is the program's name. Each line ends with LF.
pub fn mistake_text(alloc: Global, words: &[String]) -> Result<String, NoMemory> {
    let command = cli_command(alloc)?;
    match command.try_get_matches_from(words) {
        Ok(matches) => {
            let mistake = range_mistake(alloc, &matches)?;
            Ok(format!(in alloc; "error: {mistake}\n")?)
        }
        Err(e) => Ok(format!(in alloc; "{e}")?),
    }
}
