//! Runs of the client over peers in memory on made chains.
ghost use Rattle.std.specs.Prelude.{◌≡◌, ◌≢◌, ◌⊎◌, ◌≤◌, ◌<◌, ◌+◌, ◌++◌, ◌∷◌, ℕ, [], map, length, IfOk, IfErr, OnOk, true, false};
ghost use Rattle.cf_chain.specs.{IsGoodChain};
ghost use Rattle.cf_headers.specs.{height_limit};
ghost use Rattle.cf_run.specs.{names_in};
ghost use Rattle.cf_demo.specs.Demo.{IsDemo, IsSession, IsToldBy, IsUnmade, IsUnplayed, IsRefusedFor, ArePlayed, HavePrepared, HasPrepared, HasRunOver, AreAdded, demo_watch, demo_names, session_names};
ghost use Rattle.cf_make.specs.{IsExtension, seed_limit};
ghost use Rattle.cf_played.specs.{still, HasAdded, log_of, finished_of, keeps_of, peers_of};

use crate::counting::{count_closes, count_entries, count_fetches};
use crate::demo::Demo;
use crate::running::sync_played;
use crate::unplayed::Unplayed;
use cf_block::Script;
use cf_bytes::{Listed, NoMemory, Refused};
use cf_headers::Tree;
use cf_make::{Chain, chain, script};
use cf_match::Matcher;
use cf_played::{Manner, Played};
use cf_run::Outcome;
use cf_scan::Watch;
use cf_wires::Wires;
use std::alloc::Global;
use std::thread::Threads;

/// The most deliveries that are taken.
const MOST_DELIVERIES: u32 = 10_000_000;

// The chain of so many blocks that the seed tells.
fn make(alloc: Global, seed: u64, blocks: u32) -> Result<Chain, Unplayed>
    requires seeds { seed < seed_limit }
    requires heights { blocks ≤ height_limit }
    ensures ok { IfOk result (λ made. IsExtension [] seed blocks made) }
    ensures err { IfErr result (λ why. IsUnmade seed blocks why) }
{
    match chain(alloc, seed, blocks) {
        Ok(made) => Ok(made),
        Err(Refused::No(at)) => Err(Unplayed::NoNonce(at)),
        Err(Refused::NoMemory) => Err(Unplayed::NoMemory),
    }
}

// Adds a peer on a chain. Where it is refused, or no memory is found, nothing has changed.
fn add(
    rt: &(impl Threads + Sync),
    chain: &Chain,
    kind: Manner,
    played: &mut Played,
) -> Result<(), Unplayed>
    requires new { log_of played.old ≡ [] }
    requires few { length (peers_of played.old) < 8 }
    ensures ok { OnOk result (HasAdded chain.now kind (peers_of played.old) (peers_of played.new)) }
    ensures err { IfErr result (λ why. IsRefusedFor chain.now why) }
    ensures log { log_of played.new ≡ log_of played.old }
    ensures finished { finished_of played.new ≡ finished_of played.old }
    ensures keeps { keeps_of played.new ≡ keeps_of played.old }
{
    match played.add(rt, chain, kind) {
        Ok(()) => Ok(()),
        Err(Refused::No(_)) => Err(Unplayed::Clash),
        Err(Refused::NoMemory) => Err(Unplayed::NoMemory),
    }
}

// Adds the three peers of a demo, the first of which leaves these scripts out.
fn add_three(
    rt: &(impl Threads + Sync),
    chain: &Chain,
    longer: &Chain,
    scripts: Listed<Script>,
    played: &mut Played,
) -> Result<(), Unplayed>
    requires new { log_of played.old ≡ [] }
    requires none { peers_of played.old ≡ [] }
    ensures ok { OnOk result (AreAdded chain.now longer.now (peers_of played.new)) }
    ensures err { IfErr result (λ why. IsRefusedFor chain.now why ⊎ IsRefusedFor longer.now why) }
    ensures log { log_of played.new ≡ log_of played.old }
    ensures finished { finished_of played.new ≡ finished_of played.old }
    ensures keeps { keeps_of played.new ≡ keeps_of played.old }
{
    add(rt, chain, Manner::Omits(scripts), played)?;
    add(rt, longer, Manner::Silent, played)?;
    add(rt, chain, Manner::Honest, played)
}

// The scripts that are watched.
fn scripts(alloc: Global) -> Result<Listed<Script>, NoMemory>
    ensures { IfOk result (λ scripts. scripts ≡ demo_watch) }
{
    let mut scripts = Listed::new(alloc);
    scripts.push(script(alloc, 0)?)?;
    scripts.push(script(alloc, 1)?)?;
    Ok(scripts)
}

// The watch of these scripts, which it can't refuse.
fn watch(alloc: Global, scripts: &[Script]) -> Result<Watch, NoMemory>
    requires { scripts.now ≡ demo_watch }
    ensures { IfOk result (λ watch. watch ≡ demo_watch) }
{
    match Watch::new(alloc, scripts) {
        Ok(watch) => Ok(watch),
        Err(Refused::NoMemory) => Err(NoMemory),
        Err(Refused::No(_)) => unreachable!(),
    }
}

// The name of the only peer of a session.
fn name_one(alloc: Global) -> Result<Vec<String>, NoMemory>
    ensures names { IfOk result (λ names. names_in names.items ≡ session_names) }
    ensures few { IfOk result (λ names. length names.items ≡ 1) }
{
    let mut names = Vec::new(alloc);
    names.push(String::from_str(alloc, "peer1")?)?;
    Ok(names)
}

// The names of the peers of a demo.
fn name_three(alloc: Global) -> Result<Vec<String>, NoMemory>
    ensures names { IfOk result (λ names. names_in names.items ≡ demo_names) }
    ensures few { IfOk result (λ names. length names.items ≡ 3) }
{
    let mut names = name_one(alloc)?;
    names.push(String::from_str(alloc, "peer2")?)?;
    names.push(String::from_str(alloc, "peer3")?)?;
    Ok(names)
}

// Runs the client over peers that are new to it.
fn run<M: Matcher + Drop>(
    alloc: Global,
    names: &[String],
    watch: Watch,
    matcher: M,
    played: &mut Played,
) -> Result<Outcome, NoMemory>
    requires new { log_of played.old ≡ [] }
    requires open { finished_of played.old ≡ false }
    requires few { length names.now ≤ 8 }
    ensures ran { IfOk result
        (λ outcome. HasRunOver watch (peers_of played.old) (names_in names.now) outcome (log_of played.new)) }
    ensures peers { map still (peers_of played.new) ≡ map still (peers_of played.old) }
    ensures finished { OnOk result (finished_of played.new ≡ true) }
    ensures keeps { keeps_of played.new ≡ keeps_of played.old }
{
    let store = Tree::new(alloc)?;
    sync_played(
        alloc,
        played,
        names,
        watch,
        store,
        matcher,
        0,
        0,
        MOST_DELIVERIES,
    )
}

// What a run comes to as a demo.
fn tell(alloc: Global, outcome: Outcome) -> Result<Demo, NoMemory>
    ensures { IfOk result (λ demo. IsToldBy outcome demo) }
{
    let entries = count_entries(alloc, &outcome.history)?;
    Ok(Demo {
        end: outcome.end,
        ends: outcome.ends,
        entries,
        balance: outcome.history.balance(),
        fetched: count_fetches(&outcome.trace),
        closed: count_closes(&outcome.trace),
        tip: outcome.tip,
    })
}

// Makes the chains of a demo and adds its peers, and gives the watch of its scripts.
fn prepare_demo(
    rt: &(impl Threads + Sync),
    alloc: Global,
    seed: u32,
    blocks: u32,
    played: &mut Played,
) -> Result<Watch, Unplayed>
    requires new { log_of played.old ≡ [] }
    requires none { peers_of played.old ≡ [] }
    requires most { blocks + 2 ≤ height_limit }
    ensures ok { OnOk result (HavePrepared seed blocks (peers_of played.new)) }
    ensures watch { IfOk result (λ watch. watch ≡ demo_watch) }
    ensures err { IfErr result (λ why. IsUnplayed seed blocks why) }
    ensures log { log_of played.new ≡ log_of played.old }
    ensures finished { finished_of played.new ≡ finished_of played.old }
    ensures keeps { keeps_of played.new ≡ keeps_of played.old }
{
    let chain = make(alloc, u64::from(seed), blocks)?;
    let longer = make(alloc, u64::from(seed) + 1, blocks + 2)?;
    let scripts = scripts(alloc)?;
    let watch = watch(alloc, scripts.as_slice())?;
    add_three(rt, &chain, &longer, scripts, played)?;
    Ok(watch)
}

// Makes the chain of a session and adds its peer, and gives the watch of its scripts.
fn prepare_session(
    rt: &(impl Threads + Sync),
    alloc: Global,
    seed: u32,
    blocks: u32,
    played: &mut Played,
) -> Result<Watch, Unplayed>
    requires new { log_of played.old ≡ [] }
    requires none { peers_of played.old ≡ [] }
    requires most { blocks ≤ height_limit }
    ensures ok { OnOk result (HasPrepared seed blocks (peers_of played.new)) }
    ensures watch { IfOk result (λ watch. watch ≡ demo_watch) }
    ensures err { IfErr result (λ why. IsUnmade seed blocks why) }
    ensures log { log_of played.new ≡ log_of played.old }
    ensures finished { finished_of played.new ≡ finished_of played.old }
    ensures keeps { keeps_of played.new ≡ keeps_of played.old }
{
    let chain = make(alloc, u64::from(seed), blocks)?;
    let watch = watch(alloc, scripts(alloc)?.as_slice())?;
    add(rt, &chain, Manner::Honest, played)?;
    Ok(watch)
}

/// Plays a demo: the client runs over three peers in memory. Peers 1 and 3 are on the chain of so many blocks that the
/// seed tells, 1 to 499,998, and peer 2 is on that of two blocks more that the next seed tells. Peer 1 leaves the two
/// scripts that are watched out of its filters, peer 2 is silent, and peer 3 is honest. At most 10,000,000 deliveries
/// are taken. `played` is new, has no peers yet, and isn't finished.
///
/// `NoNonce` comes exactly at the lowest height at which no nonce serves: of the first chain, or of the second where
/// the first can be made. `Clash` comes only where two different transactions of one of the chains have one hash. Where
/// either comes nobody was dialled.
pub fn play_demo<M: Matcher + Drop>(
    rt: &(impl Threads + Sync),
    alloc: Global,
    seed: u32,
    blocks: u32,
    matcher: M,
    played: &mut Played,
) -> Result<Demo, Unplayed>
    requires new { log_of played.old ≡ [] }
    requires none { peers_of played.old ≡ [] }
    requires open { finished_of played.old ≡ false }
    requires some { 1 ≤ blocks }
    requires most { blocks + 2 ≤ height_limit }
    ensures ok { IfOk result (λ demo. IsDemo seed blocks demo (log_of played.new)) }
    ensures peers { OnOk result (ArePlayed seed blocks (peers_of played.new)) }
    ensures finished { OnOk result (finished_of played.new ≡ true) }
    ensures err { IfErr result (λ why. IsUnplayed seed blocks why) }
    ensures undialled { IfErr result
        (λ why. why ≢ Unplayed.NoMemory → (log_of played.new ≡ []) × (finished_of played.new ≡ false)) }
    ensures keeps { keeps_of played.new ≡ keeps_of played.old }
{
    let watch = prepare_demo(rt, alloc, seed, blocks, played)?;
    let names = name_three(alloc)?;
    let outcome = run(alloc, &names, watch, matcher, played)?;
    Ok(tell(alloc, outcome)?)
}

/// Plays a session: the client runs over one peer in memory, an honest one on the chain of so many blocks that the seed
/// tells, at most 500,000. It watches the scripts of a demo. The peers keep their log, so that they then give the lines
/// of the session. At most 10,000,000 deliveries are taken. `played` is new, has no peers yet, and isn't finished.
///
/// `NoNonce` comes exactly at the lowest height at which no nonce serves. `Clash` comes only where two different
/// transactions of the chain have one hash. Where either comes nobody was dialled.
pub fn play_session<M: Matcher + Drop>(
    rt: &(impl Threads + Sync),
    alloc: Global,
    seed: u32,
    blocks: u32,
    matcher: M,
    played: &mut Played,
) -> Result<(), Unplayed>
    requires new { log_of played.old ≡ [] }
    requires none { peers_of played.old ≡ [] }
    requires open { finished_of played.old ≡ false }
    requires most { blocks ≤ height_limit }
    ensures ok { OnOk result (IsSession seed blocks (log_of played.new)) }
    ensures finished { OnOk result (finished_of played.new ≡ true) }
    ensures err { IfErr result (λ why. IsUnmade seed blocks why) }
    ensures undialled { IfErr result
        (λ why. why ≢ Unplayed.NoMemory → (log_of played.new ≡ []) × (finished_of played.new ≡ false)) }
    ensures keeps { keeps_of played.new ≡ true }
{
    played.keep_log();
    let watch = prepare_session(rt, alloc, seed, blocks, played)?;
    let names = name_one(alloc)?;
    run(alloc, &names, watch, matcher, played)?;
    Ok(())
}
