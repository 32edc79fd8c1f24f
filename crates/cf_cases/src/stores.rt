//! Sessions that are followed over each store of chains, and over wires that fail.
ghost use Rattle.std.specs.Prelude.{◌≡◌, ◌≤◌, ℕ, None, IfSome, [], length, false};
ghost use Rattle.cf_wires.specs.{log_of, finished_of};

use crate::fields::file_in;
use crate::runs::wires_of;
use cf_client::Held;
use cf_headers::{HeaderStore, Tree};
use cf_input::{read_session, read_watch};
use cf_lists::Lists;
use cf_match::Plain;
use cf_run::{Outcome, sync_over};
use cf_run_text::text_of;
use cf_wires::MemoryWires;
use std::alloc::Global;

// How many headers, claims, filters, verdicts and extracts a client keeps.
fn counts(alloc: Global, held: Held) -> Option<String> {
    let Held {
        headers,
        claims,
        filters,
        verdicts,
        extracts,
        ..
    } = held;
    format!(in alloc; "{headers} {claims} {filters} {verdicts} {extracts}").ok()
}

// How a run ended, how much the client kept then, and the history and the tip.
fn shown(alloc: Global, outcome: &Outcome) -> Option<String> {
    let end = outcome.end;
    let counts = counts(alloc, outcome.held)?;
    let text = outcome
        .history
        .text(alloc, outcome.height, &outcome.tip)
        .ok()?;
    format!(in alloc; "{end:?} {counts}\n{text}").ok()
}

// The outcome over a store of what these wires give, with these names of peers and the scripts of a watch file.
fn outcome_over<H: HeaderStore + Drop>(
    alloc: Global,
    store: H,
    watch: &str,
    names: &[String],
    wires: &mut MemoryWires,
) -> Option<Outcome>
    requires empty { (q : ℕ) → H.chain store q ≡ None }
    requires few { length names.now ≤ 8 }
    requires wires { (log_of wires.old ≡ []) × (finished_of wires.old ≡ false) }
{
    match read_watch(alloc, watch.as_bytes()) {
        Ok(watch) => sync_over(
            alloc,
            wires,
            names,
            watch,
            store,
            Plain::new(alloc),
            0,
            0,
            1_000_000,
        )
        .ok(),
        Err(_) => None,
    }
}

// The same over the wires of a session. These calls of theirs fail.
fn outcome_with<H: HeaderStore + Drop>(
    alloc: Global,
    store: H,
    watch: &str,
    names: &[String],
    session: &str,
    failing: &str,
) -> Option<Outcome>
    requires empty { (q : ℕ) → H.chain store q ≡ None }
    requires few { length names.now ≤ 8 }
{
    let mut wires = wires_of(alloc, session, failing)?;
    outcome_over(alloc, store, watch, names, &mut wires)
}

// The names of the peers of a session, at most eight.
fn names_in(alloc: Global, session: &str) -> Option<Vec<String>>
    ensures { IfSome result (λ names. length names.items ≤ 8) }
{
    if session.len() >= 1_000_000 {
        return None;
    }
    match read_session(alloc, session.as_bytes()) {
        Ok(session) => {
            if session.names.len() > 8 {
                return None;
            }
            Some(session.names)
        }
        Err(_) => None,
    }
}

// The outcome of a session over a store. These calls of the wires fail.
fn outcome_of<H: HeaderStore + Drop>(
    alloc: Global,
    store: H,
    watch: &str,
    session: &str,
    failing: &str,
) -> Option<Outcome>
    requires { (q : ℕ) → H.chain store q ≡ None }
{
    let names = names_in(alloc, session)?;
    outcome_with(alloc, store, watch, names.as_slice(), session, failing)
}

// What comes of a session over a store.
fn followed<H: HeaderStore + Drop>(
    alloc: Global,
    store: H,
    watch: &str,
    session: &str,
) -> Option<String>
    requires { (q : ℕ) → H.chain store q ≡ None }
{
    let outcome = outcome_of(alloc, store, watch, session, "-")?;
    shown(alloc, &outcome)
}

// The same over lists.
fn over_lists(alloc: Global, watch: &str, session: &str) -> Option<String> {
    let store = Lists::new(alloc).ok()?;
    followed(alloc, store, watch, session)
}

// The same over a tree.
fn over_tree(alloc: Global, watch: &str, session: &str) -> Option<String> {
    let store = Tree::new(alloc).ok()?;
    followed(alloc, store, watch, session)
}

// The same over each.
fn over_both(alloc: Global, watch: &str, session: &str) -> Option<String> {
    let lists = over_lists(alloc, watch, session)?;
    let tree = over_tree(alloc, watch, session)?;
    format!(in alloc; "lists {lists}tree {tree}").ok()
}

/// What comes of a row's session with its watched scripts: over a store of lists, and over a tree.
pub(crate) fn answer(alloc: Global, row: &str) -> Option<String> {
    let (watch, session) = row.split_once('|')?;
    let watch = file_in(alloc, watch)?;
    let session = file_in(alloc, session)?;
    over_both(alloc, &watch, &session)
}

// How a run ended, its trace, and the history and the tip where it is synced.
fn trace_shown(alloc: Global, outcome: &Outcome) -> Option<String> {
    let end = outcome.end;
    let text = text_of(alloc, outcome, true).ok()?;
    let text = str::from_utf8(&text).ok()?;
    format!(in alloc; "{end:?}\n{text}").ok()
}

/// What comes of a row's session with its watched scripts, where calls of the wires fail, with the trace.
pub(crate) fn traced(alloc: Global, row: &str) -> Option<String> {
    let (failing, rest) = row.split_once('|')?;
    let (watch, session) = rest.split_once('|')?;
    let watch = file_in(alloc, watch)?;
    let session = file_in(alloc, session)?;
    let store = Tree::new(alloc).ok()?;
    let outcome = outcome_of(alloc, store, &watch, &session, failing)?;
    trace_shown(alloc, &outcome)
}
