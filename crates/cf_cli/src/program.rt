//! All that the program does.
ghost use Rattle.std.specs.Prelude.{◌≡◌, ◌≢◌, ◌≤◌, ◌-◌, ◌⊎◌, true, false, [], ◌∷◌, length, IfSome, is_some, Some, None, Ok, IfErr, IfOk, IsErrOf, OnOk};
ghost use Rattle.std.specs.FinMap as finite;
ghost use Rattle.cf_bytes.specs.{IsRead, HasRisen};
ghost use Rattle.cf_run.specs.{AreNewWires, names_in, IsOfGreeting};
ghost use Rattle.cf_wires.specs.{log_of, told_of};
ghost use Rattle.cf_input.specs.{session_of, watch_of, command_of, HasFewPeers};
ghost use Rattle.cf_cli.specs.Asking.{AsksFor};
ghost use Rattle.cf_loading.specs.{CountsFile, Whole, IsJudged, IsOfFile, Good, and_then, watch_verdict, session_verdict};
ghost use Rattle.cf_answers.specs.{has_run, was_refused, was_unbegun, CountsOut};
ghost use Rattle.cf_cli.specs.Statuses.{verdict_of};
ghost use Rattle.cf_link.specs.{link_now};
ghost use Rattle.cf_tasks.specs.{ArePut};
ghost use Rattle.cf_cli.specs.Doing.{Does, around};
ghost use Rattle.cf_cli.specs.Ends.{AreEnds, dials_in};
ghost use Rattle.cf_cli_client.specs.{AreEndsAfter, AreEndsOver, CountsOn, RunsWires, IsReplayedIn, KeptLive, TalliedOn, IsOfRun, KeptOver, Tallied, PlaysSession, WasOver};
ghost use Rattle.cf_cli.specs.Handed.{IsNewPlayed, IsNewTape, RunsFiles, UsesFiles, UsesLink, UsesOut, UsesPlayed, UsesSpawner, UsesTape, UsesWires};
ghost use Rattle.cf_input.specs.declared.words.Command.{Command};

use cf_answers::Status;
use cf_bytes::{Files, NoMemory, Refused, Sink};
use cf_cli_client::{follow_and_record, follow_on_tape, run_once};
use cf_cli_demo::demo;
use cf_cli_serve::serve;
use cf_conn::Duplex;
use cf_grow::{Joins, Keeper};
use cf_input::{Command, MOST_TURNS, MOST_WORKERS, Word, read_words};
use cf_link::Link;
use cf_loading::{load_session, load_watch};
use cf_match::Plain;
use cf_offline::{address, check, filter, make, prove, scan};
use cf_parallel::{Open, Parallel};
use cf_place::PeerEnd;
use cf_played::Played;
use cf_scan::Watch;
use cf_tasks::Spawner;
use cf_wires::{MemoryWires, Wires};
use std::alloc::Global;
use std::sync::Wait;
use std::thread::Threads;

// Follows the session of a file, on the tape that is handed in: until nothing is open, or as its chains grow.
fn replay<F: Files, O: Sink>(
    alloc: Global,
    files: &mut F,
    watch: &str,
    session: &str,
    follow: bool,
    trace: bool,
    moment: i64,
    nonce: u64,
    tape: &mut MemoryWires,
    out: &mut O,
    ends: &mut Vec<PeerEnd>,
) -> Status
    requires tape { IsNewTape tape.old }
    ensures judged { IfSome (F.files files.old) (λ m. IsJudged (and_then (watch_verdict (finite.get m watch.now))
        (session_verdict (finite.get m session.now))) result) }
    ensures replayed { IsReplayedIn follow result MOST_TURNS trace (F.files files.old) watch.now
        (O.written out.old) (O.written out.new) (told_of tape.old) (told_of tape.new) (log_of tape.new) }
    ensures plays { IfSome (F.files files.old) (λ m. IfSome (finite.get m session.now)
        (λ bytes. PlaysSession result (session_of bytes) (log_of tape.new))) }
    ensures versions { IsOfGreeting (record { moment = moment; number = nonce }) (log_of tape.new) }
    ensures unchanged { F.files files.new ≡ F.files files.old }
    ensures files { AsksFor F.reads F.opens F.parts F.writes (Whole watch.now ∷ Whole session.now ∷ []) None
        files.old files.new }
    ensures file_fault { result ≡ Status.FileFault → HasRisen (F.faults files.old) (F.faults files.new) }
    ensures file_fine { result ≢ Status.FileFault → F.faults files.new ≡ F.faults files.old }
    ensures counts { CountsOut result (O.faults out.old) (O.faults out.new) }
    ensures unwritten { has_run result ≡ false → O.written out.new ≡ O.written out.old }
    ensures unplayed { was_refused result ≡ true → tape.new ≡ tape.old }
    ensures answers { IsOfRun result }
    ensures ends { AreEndsAfter result false (dials_in (F.files files.old) session.now (told_of tape.new).tally.dials)
        (told_of tape.new) ends.old.items ends.new.items }
{
    let scripts = match load_watch(alloc, files, watch) {
        Ok(scripts) => scripts,
        Err(status) => return status,
    };
    let session = match load_session(alloc, files, session) {
        Ok(session) => session,
        Err(status) => return status,
    };
    tape.load(session.dials, session.deliveries);
    let names = session.names.as_slice();
    if follow {
        follow_on_tape(
            alloc,
            tape,
            names,
            scripts,
            Plain::new(alloc),
            moment,
            nonce,
            MOST_TURNS,
            trace,
            out,
            ends,
        )
    } else {
        run_once(
            alloc,
            files,
            tape,
            &None,
            names,
            scripts,
            Plain::new(alloc),
            moment,
            nonce,
            MOST_TURNS,
            trace,
            out,
            ends,
        )
    }
}

// The scripts of the watch file, and a matcher that judges filters in so many threads.
fn set_up<R: Wait + Threads + Copy + Drop + Send + 'static, F: Files, K: Spawner>(
    rt: R,
    alloc: Global,
    files: &mut F,
    watch: &str,
    workers: u32,
    spawner: &mut K,
) -> Result<(Watch, Parallel<Open, R>), Status>
    requires some { 1 ≤ workers }
    requires most { workers ≤ 64 }
    ensures judged { IfErr result
        (λ status. IfSome (F.files files.old) (λ m. IsJudged (watch_verdict (finite.get m watch.now)) status)) }
    ensures good { OnOk result (IfSome (F.files files.old) (λ m. watch_verdict (finite.get m watch.now) ≡ Good)) }
    ensures scripts { IfOk result (λ both. IfSome (F.files files.old)
        (λ m. IfSome (finite.get m watch.now) (λ bytes. watch_of bytes ≡ Ok both.0))) }
    ensures same { F.files files.new ≡ F.files files.old }
    ensures fault { IsErrOf result Status.FileFault → HasRisen (F.faults files.old) (F.faults files.new) }
    ensures count { CountsFile result (F.faults files.old) (F.faults files.new) }
    ensures kept { OnOk result (F.faults files.new ≡ F.faults files.old) }
    ensures only { IfErr result IsOfFile }
    ensures files { IsRead F.reads watch.now files.old files.new }
    ensures threads { OnOk result (ArePut K.moves (workers - 1) spawner.old spawner.new) }
{
    let scripts = load_watch(alloc, files, watch)?;
    match Parallel::new(rt, alloc, spawner, workers) {
        Ok(matcher) => Ok((scripts, matcher)),
        Err(NoMemory) => Err(Status::NoMemory),
    }
}

// Follows the peers of these names, of one to eight, over the wires that are handed in, and records what passes them
// where a file is named for it. Filters are judged by so many threads.
fn sync<R: Wait + Threads + Copy + Drop + Send + 'static, F: Files, W: Wires, K: Spawner, O: Sink>(
    rt: R,
    alloc: Global,
    files: &mut F,
    watch: &str,
    peers: &[String],
    log_file: &Option<Word>,
    workers: u32,
    moment: i64,
    nonce: u64,
    turns: u32,
    wires: &mut W,
    spawner: &mut K,
    out: &mut O,
    ends: &mut Vec<PeerEnd>,
) -> Status
    requires wires { AreNewWires (W.told wires.old) }
    requires few { length peers.now ≤ 8 }
    requires some { 1 ≤ workers }
    requires most { workers ≤ 64 }
    ensures kept { IfSome (W.told wires.new).log (λ log. KeptOver result (is_some log_file.now) false
        (F.files files.old) watch.now (names_in peers.now) (O.written out.old) (O.written out.new) log) }
    ensures tallied { Tallied result turns (length (names_in peers.now)) (W.told wires.old) (W.told wires.new) }
    ensures over { result ≢ Status.NoMemory → WasOver turns (W.told wires.new) }
    ensures files { RunsFiles F.files F.faults F.reads F.opens F.parts F.writes watch.now log_file.now
        (W.told wires.new).log result files.old files.new }
    ensures wires { RunsWires W.told W.keeps W.faults (record { moment = moment; number = nonce })
        (names_in peers.now) (is_some log_file.now) result wires.old wires.new }
    ensures counts { CountsOut result (O.faults out.old) (O.faults out.new) }
    ensures unwritten { has_run result ≡ false → O.written out.new ≡ O.written out.old }
    ensures ends { AreEndsAfter result (is_some log_file.now) (length (names_in peers.now)) (W.told wires.new)
        ends.old.items ends.new.items }
    ensures threads { has_run result ≡ true → ArePut K.moves (workers - 1) spawner.old spawner.new }
{
    match set_up(rt, alloc, files, watch, workers, spawner) {
        Ok((scripts, matcher)) => run_once(
            alloc, files, wires, log_file, peers, scripts, matcher, moment, nonce, turns, false,
            out, ends,
        ),
        Err(status) => status,
    }
}

// Follows the peers of these names, of one to eight, as their chains grow, over the wires that are handed in, and
// records what passes them where a file is named for it. Filters are judged by so many threads.
fn follow<
    R: Wait + Threads + Copy + Drop + Send + 'static,
    F: Files,
    W: Wires,
    K: Spawner,
    O: Sink,
>(
    rt: R,
    alloc: Global,
    files: &mut F,
    watch: &str,
    peers: &[String],
    log_file: &Option<Word>,
    workers: u32,
    moment: i64,
    nonce: u64,
    turns: u32,
    wires: &mut W,
    spawner: &mut K,
    out: &mut O,
    ends: &mut Vec<PeerEnd>,
) -> Status
    requires wires { AreNewWires (W.told wires.old) }
    requires few { length peers.now ≤ 8 }
    requires some { 1 ≤ workers }
    requires most { workers ≤ 64 }
    ensures kept { IfSome (W.told wires.new).log (λ log. KeptLive result (is_some log_file.now)
        (F.files files.old) watch.now (names_in peers.now)
        (O.written out.old) (O.written out.new) (O.faults out.old) (O.faults out.new) log) }
    ensures tallied { TalliedOn result turns (length (names_in peers.now)) (W.told wires.old) (W.told wires.new) }
    ensures files { RunsFiles F.files F.faults F.reads F.opens F.parts F.writes watch.now log_file.now
        (W.told wires.new).log result files.old files.new }
    ensures wires { RunsWires W.told W.keeps W.faults (record { moment = moment; number = nonce })
        (names_in peers.now) (is_some log_file.now) result wires.old wires.new }
    ensures counts { CountsOn (is_some log_file.now) result (O.faults out.old) (O.faults out.new) }
    ensures unwritten { was_unbegun result (is_some log_file.now) ≡ true → O.written out.new ≡ O.written out.old }
    ensures ends { AreEndsOver result (is_some log_file.now) (length (names_in peers.now)) (W.told wires.new)
        ends.old.items ends.new.items }
    ensures threads { has_run result ≡ true → ArePut K.moves (workers - 1) spawner.old spawner.new }
{
    match set_up(rt, alloc, files, watch, workers, spawner) {
        Ok((scripts, matcher)) => follow_and_record(
            alloc, files, wires, log_file, peers, scripts, matcher, moment, nonce, turns, out, ends,
        ),
        Err(status) => status,
    }
}

// So many threads, as far as a matcher may have them. The words ask for no others.
fn threads_of(workers: u32) -> u32
    ensures bounds { (1 ≤ result) × (result ≤ 64) }
    ensures same { 1 ≤ workers → workers ≤ 64 → result ≡ workers }
{
    workers.clamp(1, MOST_WORKERS)
}

// Does what a command asks.
fn perform<
    R: Wait + Threads + Sync + Copy + Drop + Send + 'static,
    J: Joins + Copy + Drop + Send + 'static,
    H: Keeper + Drop + Send + 'static,
    F: Files,
    W: Wires,
    L: Link,
    K: Spawner,
    O: Sink,
>(
    rt: R,
    alloc: Global,
    joins: J,
    keeper: H,
    command: &Command,
    moment: i64,
    nonce: u64,
    files: &mut F,
    wires: &mut W,
    tape: &mut MemoryWires,
    played: &mut Played,
    link: &mut L,
    spawner: &mut K,
    out: &mut O,
    ends: &mut Vec<PeerEnd>,
) -> Status
where
    L::Conn: Send + 'static,
    <L::Conn as Duplex>::End: Drop + Send + 'static,
    requires wires { AreNewWires (W.told wires.old) }
    requires tape { IsNewTape tape.old }
    requires played { IsNewPlayed played.old }
    requires few { HasFewPeers command.now }
    ensures judged { IfSome (F.files files.old) (λ m. IsJudged (verdict_of m command.now) result) }
    ensures does { Does command.now result moment nonce
        (around (F.files files.old) (O.written out.old) (O.faults out.old) (W.told wires.old) tape.old played.old
        (link_now L.addresses L.accepted L.owed L.conns L.given link.old))
        (around (F.files files.new) (O.written out.new) (O.faults out.new) (W.told wires.new) tape.new played.new
        (link_now L.addresses L.accepted L.owed L.conns L.given link.new)) }
    ensures files { UsesFiles F.files F.faults F.reads F.opens F.parts F.writes (Some command.now) result
        files.old files.new }
    ensures wires { UsesWires W.told W.keeps W.faults moment nonce (Some command.now) result
        wires.old wires.new }
    ensures tape { UsesTape moment nonce (Some command.now) result tape.old tape.new }
    ensures played { UsesPlayed (Some command.now) played.old played.new }
    ensures link { UsesLink L.faults (Some command.now) result link.old link.new }
    ensures out { UsesOut O.written O.faults (Some command.now) result out.old out.new }
    ensures spawner { UsesSpawner K.moves (Some command.now) result spawner.old spawner.new }
    ensures asked { result ≢ Status.Usage }
    ensures ends { AreEnds (Some command.now) result (F.files files.old) (W.told wires.new) (told_of tape.new)
        ends.old.items ends.new.items }
{
    match command {
        Command::Replay {
            follow,
            trace,
            watch,
            session,
        } => replay(
            alloc,
            files,
            watch.as_str(),
            session.as_str(),
            *follow,
            *trace,
            moment,
            nonce,
            tape,
            out,
            ends,
        ),
        Command::Sync {
            turns,
            workers,
            record,
            watch,
            peers,
        } => sync(
            rt,
            alloc,
            files,
            watch.as_str(),
            peers.as_slice(),
            record,
            threads_of(*workers),
            moment,
            nonce,
            *turns,
            wires,
            spawner,
            out,
            ends,
        ),
        Command::Follow {
            turns,
            workers,
            record,
            watch,
            peers,
        } => follow(
            rt,
            alloc,
            files,
            watch.as_str(),
            peers.as_slice(),
            record,
            threads_of(*workers),
            moment,
            nonce,
            *turns,
            wires,
            spawner,
            out,
            ends,
        ),
        Command::Scan { file, watch } => scan(alloc, files, file.as_str(), watch.as_str(), out),
        Command::Filter { file, height } => filter(&rt, alloc, files, file.as_str(), *height, out),
        Command::Address { text } => address(alloc, text.as_str(), out),
        Command::Prove { file, txid } => prove(alloc, files, file.as_str(), txid, out),
        Command::Check {
            witness,
            file,
            blocks,
        } => check(alloc, files, *witness, file.as_str(), blocks, out),
        Command::Serve {
            grow,
            connections,
            file,
            address,
            ..
        } => serve(
            rt,
            alloc,
            files,
            *grow,
            joins,
            keeper,
            file.as_str(),
            address.as_str(),
            *connections,
            moment,
            nonce,
            link,
            spawner,
        ),
        Command::Make {
            witness,
            seed,
            blocks,
            file,
        } => make(alloc, files, *witness, *seed, *blocks, file.as_str()),
        Command::Demo { seed, blocks } => demo(rt, alloc, *seed, *blocks, spawner, played, out),
    }
}

/// All that the program does. The first word is the program's name; `moment` is the time in seconds since 1970 and
/// `nonce` a random number, which the client's `version` tells. `sync` and `follow` go over `wires`, `replay` over
/// `tape`, and `demo` over the peers that it adds to `played`; all three are new, nothing has passed them, they aren't
/// finished, no call of `tape` is to fail, and `played` has no peers. `serve` goes over `link`, and starts its
/// connections by `spawner`, and so do `sync`, `follow` and `demo` the threads that judge filters. With `--grow` it
/// tells `joins` of each block that joins its chain, and with `--keep` each is in `keeper` before that. The text goes
/// to `out`.
///
/// `NoMemory` may come in place of any other answer. `Usage` comes where the words ask for nothing. The watch file is
/// judged first, then the session file: what is missing, refused or good is answered so. After that the run is made; a
/// record of it, where `sync` is asked for one, is put into its file; and its text is written. `follow` writes the text
/// of each moment at rest at once, and its record at the end; `replay --follow` writes the texts of all of them after
/// the trace. With `NoMemory`, `Usage`, `BadFile` and `FileFault` no text was written, but by a `follow` whose run was
/// begun. With the last three no wires were used, but for a `FileFault` that comes where the record can't be written;
/// `sync` and `follow` alone use `wires`, `replay` alone `tape`, `demo` alone `played`, `serve` alone `link`. The log
/// of `wires` is kept only where a record is asked for. `make` puts its records into its file; of the other commands
/// only `sync` and `follow` with a record change a file. Of the files at most those that the command names are read,
/// the watch file first and each once, a file of blocks by parts, and after that at most the one that it writes is
/// written, once. Where a call of `files` has failed the answer is `FileFault`, and where one of `link` has
/// `LinkFault`: with any other answer their counts of faults stay. `sync` and `follow` that were carried out have asked
/// `spawner` for the threads that their words ask for.
///
/// How each peer stands once `sync`, `follow` or `replay` has made its run is put into `ends`, in the order of their
/// numbers. Where no run was begun, and with each other command, `ends` stays as it is handed in. With each answer it
/// is one of both: what was handed in, or, where all peers were dialled and the wires are finished, what their log
/// tells, where they tell it.
pub fn run<
    R: Wait + Threads + Sync + Copy + Drop + Send + 'static,
    J: Joins + Copy + Drop + Send + 'static,
    H: Keeper + Drop + Send + 'static,
    F: Files,
    W: Wires,
    L: Link,
    K: Spawner,
    O: Sink,
>(
    rt: R,
    alloc: Global,
    joins: J,
    keeper: H,
    words: &[String],
    moment: i64,
    nonce: u64,
    files: &mut F,
    wires: &mut W,
    tape: &mut MemoryWires,
    played: &mut Played,
    link: &mut L,
    spawner: &mut K,
    out: &mut O,
    ends: &mut Vec<PeerEnd>,
) -> Status
where
    L::Conn: Send + 'static,
    <L::Conn as Duplex>::End: Drop + Send + 'static,
    requires wires { AreNewWires (W.told wires.old) }
    requires tape { IsNewTape tape.old }
    requires played { IsNewPlayed played.old }
    ensures usage { result ≡ Status.Usage → command_of (names_in words.now) ≡ None }
    ensures unasked { command_of (names_in words.now) ≡ None → (result ≡ Status.Usage) ⊎ (result ≡ Status.NoMemory) }
    ensures judged { IfSome (F.files files.old) (λ m. (c : Command) → command_of (names_in words.now) ≡ Some c
        → IsJudged (verdict_of m c) result) }
    ensures does { (c : Command) → command_of (names_in words.now) ≡ Some c → Does c result moment nonce
        (around (F.files files.old) (O.written out.old) (O.faults out.old) (W.told wires.old) tape.old played.old
        (link_now L.addresses L.accepted L.owed L.conns L.given link.old))
        (around (F.files files.new) (O.written out.new) (O.faults out.new) (W.told wires.new) tape.new played.new
        (link_now L.addresses L.accepted L.owed L.conns L.given link.new)) }
    ensures files { UsesFiles F.files F.faults F.reads F.opens F.parts F.writes (command_of (names_in words.now)) result
        files.old files.new }
    ensures wires { UsesWires W.told W.keeps W.faults moment nonce (command_of (names_in words.now)) result
        wires.old wires.new }
    ensures tape { UsesTape moment nonce (command_of (names_in words.now)) result tape.old tape.new }
    ensures played { UsesPlayed (command_of (names_in words.now)) played.old played.new }
    ensures link { UsesLink L.faults (command_of (names_in words.now)) result link.old link.new }
    ensures out { UsesOut O.written O.faults (command_of (names_in words.now)) result out.old out.new }
    ensures spawner { UsesSpawner K.moves (command_of (names_in words.now)) result spawner.old spawner.new }
    ensures ends { AreEnds (command_of (names_in words.now)) result (F.files files.old) (W.told wires.new)
        (told_of tape.new) ends.old.items ends.new.items }
{
    match read_words(alloc, words) {
        Ok(command) => perform(
            rt, alloc, joins, keeper, &command, moment, nonce, files, wires, tape, played, link,
            spawner, out, ends,
        ),
        Err(Refused::No(_)) => Status::Usage,
        Err(Refused::NoMemory) => Status::NoMemory,
    }
}
