//! The client over played peers.
ghost use Rattle.std.specs.Prelude.{◌≡◌, ◌≢◌, ◌≤◌, ◌++◌, ℕ, [], false, IfErr, IfOk, OnOk, codes, string_bytes};
ghost use Rattle.cf_headers.specs.{height_limit};
ghost use Rattle.cf_demo.specs.{IsDemo, IsSession, IsUnmade, IsUnplayed};
ghost use Rattle.cf_wires.specs.Log.{Log};
ghost use Rattle.cf_wires.specs.{session_text};
ghost use Rattle.cf_played.specs.{finished_of, log_of, peers_of};
ghost use Rattle.cf_cli_demo.specs.Demo.{IsDemoText, IsDemoed, IsUnrecorded, IsUntold, count_line, demo_lines};
ghost use Rattle.cf_loading.specs.{IsJudged, no_file};
ghost use Rattle.cf_answers.specs.{has_run, CountsOut};

use cf_answers::{Status, hash_line, write};
use cf_bytes::{NoMemory, Sink};
use cf_demo::{Demo, Unplayed, play_demo, play_session};
use cf_input::MOST_PLAYED;
use cf_match::Plain;
use cf_parallel::Parallel;
use cf_played::Played;
use cf_run::End;
use cf_tasks::Spawner;
use cf_wires::Wires;
use std::alloc::Global;
use std::sync::Wait;
use std::thread::Threads;

/// So many threads judge the filters of a demo.
const WORKERS: u32 = 4;

// Puts a line of a name and a number behind a text.
fn put_count(alloc: Global, name: &str, n: u128, out: &mut String) -> Result<(), NoMemory>
    ensures { OnOk result (string_bytes out.new ≡ string_bytes out.old ++ count_line name.now n) }
{
    let line = format!(in alloc; "{name} {n}\n")?;
    out.push_str(line.as_str())?;
    Ok(())
}

// Puts the lines of a history behind a text.
fn put_history(alloc: Global, demo: &Demo, out: &mut String) -> Result<(), NoMemory>
    ensures { OnOk result (string_bytes out.new ≡ string_bytes out.old
        ++ (count_line (codes "entries") demo.now.entries ++ count_line (codes "balance") demo.now.balance)) }
{
    put_count(alloc, "entries", demo.entries as u128, out)?;
    put_count(alloc, "balance", demo.balance, out)
}

// Puts the lines of what passed behind a text.
fn put_passed(alloc: Global, demo: &Demo, out: &mut String) -> Result<(), NoMemory>
    ensures { OnOk result (string_bytes out.new ≡ string_bytes out.old
        ++ (count_line (codes "fetched") demo.now.fetched ++ count_line (codes "closed") demo.now.closed)) }
{
    put_count(alloc, "fetched", demo.fetched as u128, out)?;
    put_count(alloc, "closed", demo.closed as u128, out)
}

// The seven lines of a demo that is synced.
fn text_of(alloc: Global, blocks: u32, demo: &Demo) -> Result<String, NoMemory>
    ensures { IfOk result (λ text. string_bytes text
        ≡ demo_lines blocks demo.now.entries demo.now.balance demo.now.fetched demo.now.closed demo.now.tip.0) }
{
    let mut text = String::new(alloc);
    put_count(alloc, "blocks", u128::from(blocks), &mut text)?;
    put_count(alloc, "peers", 3, &mut text)?;
    put_history(alloc, demo, &mut text)?;
    put_passed(alloc, demo, &mut text)?;
    let tip = hash_line(alloc, "tip", &demo.tip)?;
    text.push_str(tip.as_str())?;
    Ok(text)
}

// The text of a demo that is synced, or how it ended else.
fn told(alloc: Global, blocks: u32, demo: Demo) -> Result<String, Status>
    ensures text { IfOk result (λ text. (seed : ℕ) (log : Log) → IsDemo seed blocks demo log
        → IsDemoText seed blocks (string_bytes text) log) }
    ensures why { IfErr result
        (λ status. (seed : ℕ) (log : Log) → IsDemo seed blocks demo log → IsUntold status seed blocks log) }
{
    match demo.end {
        End::Synced => match text_of(alloc, blocks, &demo) {
            Ok(text) => Ok(text),
            Err(NoMemory) => Err(Status::NoMemory),
        },
        End::NoPeers => Err(Status::NoPeers { ends: demo.ends }),
        End::Tired => Err(Status::Tired),
        End::Ended => Err(Status::Ended),
    }
}

// The answer where nothing was played.
fn untold(alloc: Global, why: Unplayed) -> Status
    ensures demo { (seed blocks : ℕ) (log : Log) → IsUnplayed seed blocks why → (why ≢ Unplayed.NoMemory → log ≡ [])
        → IsUntold result seed blocks log }
    ensures session { (seed blocks : ℕ) → IsUnmade seed blocks why → IsUnrecorded result seed blocks }
{
    match why {
        Unplayed::NoNonce(at) => Status::NoNonce { height: at.height },
        Unplayed::Clash => Status::NoPeers {
            ends: Vec::new(alloc),
        },
        Unplayed::NoMemory => Status::NoMemory,
    }
}

/// The text of the client's run over three played peers, and why there is none else. Peers 1 and 3 serve the made chain
/// of so many blocks, 1 to 499,998, that the seed tells, and peer 2 that of two blocks more that the next seed tells.
/// Two scripts of made chains are watched, those of 0 and 1: peer 1 leaves them out of its filters. Peer 2 shows its
/// chain and answers nothing else. Peer 3 is honest. Filters are judged in so many threads, 1 to 64.
///
/// The text is seven lines: the blocks, the peers, how many lines the history has, the last balance in satoshis or 0,
/// how many blocks were fetched, how many peers were closed, and the tip's hash. A run that isn't synced has none:
/// `Tired` comes once 10,000,000 deliveries were taken, `NoPeers` only where two strings have one hash, and `NoNonce`
/// exactly at the lowest height where no nonce serves: of peer 3's chain, or of peer 2's where that can be made.
/// `NoMemory` may come in place of any other. The peers are new: none is added and nothing has passed.
pub fn demo_text<R: Wait + Threads + Sync + Copy + Drop + Send + 'static, K: Spawner>(
    rt: R,
    alloc: Global,
    seed: u32,
    blocks: u32,
    workers: u32,
    spawner: &mut K,
    played: &mut Played,
) -> Result<String, Status>
    requires new { log_of played.old ≡ [] }
    requires none { peers_of played.old ≡ [] }
    requires open { finished_of played.old ≡ false }
    requires some_blocks { 1 ≤ blocks }
    requires most_blocks { blocks ≤ MOST_PLAYED }
    requires some { 1 ≤ workers }
    requires most { workers ≤ 64 }
    ensures text { IfOk result (λ text. IsDemoText seed blocks (string_bytes text) (log_of played.new)) }
    ensures why { IfErr result (λ status. IsUntold status seed blocks (log_of played.new)) }
{
    let Ok(matcher) = Parallel::new(rt, alloc, spawner, workers) else {
        return Err(Status::NoMemory);
    };
    match play_demo(&rt, alloc, seed, blocks, matcher, played) {
        Ok(demo) => told(alloc, blocks, demo),
        Err(why) => Err(untold(alloc, why)),
    }
}

/// Writes the text of a demo whose filters are judged in four threads. No blocks, and more than 499,998, for which no
/// words ask, are refused as for want of memory.
pub fn demo<R: Wait + Threads + Sync + Copy + Drop + Send + 'static, K: Spawner, O: Sink>(
    rt: R,
    alloc: Global,
    seed: u32,
    blocks: u32,
    spawner: &mut K,
    played: &mut Played,
    out: &mut O,
) -> Status
    requires new { log_of played.old ≡ [] }
    requires none { peers_of played.old ≡ [] }
    requires open { finished_of played.old ≡ false }
    ensures demoed { IsDemoed result seed blocks (O.written out.old) (O.written out.new) (log_of played.new) }
    ensures judged { IsJudged no_file result }
    ensures unwritten { has_run result ≡ false → O.written out.new ≡ O.written out.old }
    ensures counts { CountsOut result (O.faults out.old) (O.faults out.new) }
{
    if blocks == 0 || blocks > MOST_PLAYED {
        return Status::NoMemory;
    }
    match demo_text(rt, alloc, seed, blocks, WORKERS, spawner, played) {
        Ok(text) => write(text.as_bytes(), out),
        Err(status) => status,
    }
}

/// The session of the client's run over one honest peer that is played: it serves the made chain of so many blocks, at
/// most 500,000, that the seed tells, and the same two scripts are watched. The lines are those of the log, which
/// `replay` reads. The run ends where nothing is open, or after 10,000,000 deliveries. `NoNonce` comes exactly at the
/// lowest height where no nonce serves, and `NoPeers` only where two transactions of the chain have one hash;
/// `NoMemory` may come in place of any other answer. The peers are new, as for `demo_text`.
pub fn session(
    rt: &(impl Threads + Sync),
    alloc: Global,
    seed: u32,
    blocks: u32,
    played: &mut Played,
) -> Result<String, Status>
    requires new { log_of played.old ≡ [] }
    requires none { peers_of played.old ≡ [] }
    requires open { finished_of played.old ≡ false }
    requires most { blocks ≤ height_limit }
    ensures text { IfOk result (λ text. string_bytes text ≡ session_text (log_of played.new)) }
    ensures session { OnOk result (IsSession seed blocks (log_of played.new)) }
    ensures why { IfErr result (λ status. IsUnrecorded status seed blocks) }
{
    match play_session(rt, alloc, seed, blocks, Plain::new(alloc), played) {
        Ok(()) => match played.session() {
            Ok(text) => Ok(text),
            Err(NoMemory) => Err(Status::NoMemory),
        },
        Err(why) => Err(untold(alloc, why)),
    }
}
