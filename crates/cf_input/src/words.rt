//! The program's words, read by clap.
ghost use Rattle.std.specs.Prelude.{◌≡◌, ◌==◌, IfOk, IfErr, [], map, false, codes, string_bytes, option_map};
ghost use Rattle.std.specs.List.{list_any};
ghost use Rattle.clap.specs.Words.{App, Rule, app_of, rule_of, new_rule, subcommand_of, subcommand_rows_of, fault_of, with_rule};
ghost use Rattle.clap.specs.declared.builder.command.Command.TheViews.{out-Command as fields_of};
ghost use Rattle.cf_input.specs.Words.{flag_rule, option_rule, several, needed, replay_app, options_app, peers_app, check_app, serve_app, one_app, two_app, make_app, with_sub, client_app, cli_app, text_of, texts_of, is_met, is_set, turns_of, workers_of, connections_of, bytes_of_growth, height_of, seed_of, made_of, played_of, replay_of, over_peers, over_peers_of, scan_of, filter_of, address_of, hash_in, prove_of, check_of, serve_of, make_of, demo_of, HasFewPeers, asked_of, is_faultless, command_of, is_help_word, is_version_word, serve_options_app, count_of, at_once_of, budget_of, growth_of, serve_with};
ghost use Rattle.cf_input.specs.Commands.{GivesOrUsage, IfUsage, refusal_of};

use crate::number::{number_at_most, number_within};
use crate::text::{PeerNames, Word, are_names, is_name};
use cf_bytes::{Fault, Hash32, NoMemory, Refused, read_hash};
use cf_headers::HEIGHT_LIMIT;
use clap::error::ErrorKind;
use clap::{Arg, ArgAction, ArgMatches};
use std::alloc::{AllocError, Global};

/// The words ask for nothing that the program does.
#[derive(Clone, Copy, Debug, PartialEq, Eq)]
pub struct Usage;

impl Fault for Usage {}

/// At most this many deliveries are taken from the wires.
pub const MOST_TURNS: u32 = 10_000_000;

/// At most this many threads judge filters.
pub const MOST_WORKERS: u32 = 64;

/// So many threads judge filters where no number is given.
pub const USUAL_WORKERS: u32 = 4;

/// At most this many connections are served.
pub const MOST_CONNECTIONS: u32 = 1_000_000;

/// No end by the number of connections: a count that is never reached.
pub const ENDLESS: u64 = u64::MAX;

/// At most this many connections are served at a time.
pub const MOST_AT_ONCE: u32 = 1_000_000;

/// So many connections are served at a time where no number is given.
pub const USUAL_AT_ONCE: u32 = 125;

/// At most this many megabytes, of 1,048,576 bytes, of large messages are held at a time.
pub const MOST_BUDGET: u32 = 1_000_000;

/// So many megabytes of large messages are held at a time where no number is given.
pub const USUAL_BUDGET: u32 = 256;

/// At most this many bytes of blocks may join a chain that grows.
pub const MOST_GROWTH: u32 = 4_294_967_295;

/// So many bytes of blocks join at most where no number is given: as many as a file of blocks may have.
pub const USUAL_GROWTH: u32 = 1_073_741_824;

/// The greatest height that may be asked for.
pub const MOST_HEIGHT: u32 = 4_294_967_295;

/// The greatest number from which a chain is made.
pub const MOST_SEED: u32 = 4_294_967_295;

/// At most this many blocks are made: what a chain may have.
pub const MOST_MADE: u32 = HEIGHT_LIMIT;

/// At most this many blocks are played: a peer beside has two more.
pub const MOST_PLAYED: u32 = HEIGHT_LIMIT - 2;

/// How a served chain grows: by so many bytes of blocks at most, and whether those that join are kept in its file.
#[derive(Clone, Copy, Debug, PartialEq, Eq)]
pub struct Growth {
    pub bytes: u32,
    pub keep: bool,
}

/// What the words ask for.
#[derive(Drop)]
pub enum Command {
    /// The client over a session file. With `follow` it goes on; with `trace` what it sends and closes is written too.
    Replay {
        follow: bool,
        trace: bool,
        watch: Word,
        session: Word,
    },
    /// The client over the wires that are handed in, with 1 to 8 peers. It takes at most so many deliveries, judges
    /// filters in so many threads, and what passed the wires is kept in a file, where one is named.
    Sync {
        turns: u32,
        workers: u32,
        record: Option<Word>,
        watch: Word,
        peers: PeerNames,
    },
    /// The same of a client that goes on: its text is written at once whenever nothing is open.
    Follow {
        turns: u32,
        workers: u32,
        record: Option<Word>,
        watch: Word,
        peers: PeerNames,
    },
    /// The history of the watched scripts in a block file.
    Scan {
        file: Word,
        watch: Word,
    },
    /// The block, its filter and its filter header at a height of a block file.
    Filter {
        file: Word,
        height: u32,
    },
    /// The script of an address, or the address of a script.
    Address {
        text: Word,
    },
    /// The transaction with this hash in a block file, and a proof that it stands in its block.
    Prove {
        file: Word,
        txid: Hash32,
    },
    /// What the file of a proof proves, whose transaction may have witnesses, or may not; and at which height of a block
    /// file, where one is named.
    Check {
        witness: bool,
        file: Word,
        blocks: Option<Word>,
    },
    /// The chain of a block file, served to so many connections to an address: as it is, or grown by what they bring.
    /// At most `at_once` of them are served at a time, and all together hold at most `budget` megabytes of large
    /// messages.
    Serve {
        grow: Option<Growth>,
        connections: u64,
        at_once: u32,
        budget: u32,
        file: Word,
        address: Word,
    },
    /// The blocks of a made chain, from height 1 to so many, in a file; their coinbases have a witness, or none has.
    Make {
        witness: bool,
        seed: u32,
        blocks: u32,
        file: Word,
    },
    /// The client over played peers, of which one is honest and serves a made chain of so many blocks.
    Demo {
        seed: u32,
        blocks: u32,
    },
}

// An option that takes a word.
fn option_arg<'a>(alloc: Global, id: &'a str) -> Arg<'a>
    ensures { (rule_of result ≡ option_rule id.entry.now) × (result.global ≡ false) }
{
    Arg::new(alloc, id).long(id)
}

// An option that takes none.
fn flag_arg<'a>(alloc: Global, id: &'a str) -> Arg<'a>
    ensures { (rule_of result ≡ flag_rule id.entry.now) × (result.global ≡ false) }
{
    Arg::new(alloc, id).long(id).action(ArgAction::SetTrue)
}

fn peers_arg<'a>(alloc: Global) -> Arg<'a>
    ensures { (rule_of result ≡ several (needed (new_rule (codes "peer")))) × (result.global ≡ false) }
{
    Arg::new(alloc, "peer").required(true).num_args(1..)
}

// An argument of one word, which is needed.
fn word_arg<'a>(alloc: Global, id: &'a str) -> Arg<'a>
    ensures { (rule_of result ≡ needed (new_rule id.entry.now)) × (result.global ≡ false) }
{
    Arg::new(alloc, id).required(true)
}

// An argument of one word, which may lack.
fn further_arg<'a>(alloc: Global, id: &'a str) -> Arg<'a>
    ensures { (rule_of result ≡ new_rule id.entry.now) × (result.global ≡ false) }
{
    Arg::new(alloc, id)
}

// The command with one more argument, where it was made.
fn with_arg<'a>(
    command: Result<clap::Command<'a>, AllocError>,
    arg: Arg<'a>,
) -> Result<clap::Command<'a>, AllocError>
    requires command { IfOk command (λ c. (fields_of c).has_globals ≡ false) }
    requires arg { arg.global ≡ false }
    ensures app { (a : App) (r : Rule) → IfOk command.entry (λ c. app_of c ≡ a) → rule_of arg.entry ≡ r
        → IfOk result (λ c. app_of c ≡ with_rule a r) }
    ensures globals { IfOk result (λ c. (fields_of c).has_globals ≡ false) }
{
    match command {
        Ok(command) => command.arg(arg),
        Err(e) => Err(e),
    }
}

// A command over peers with its options alone.
fn options_of<'a>(alloc: Global, name: &'a str) -> Result<clap::Command<'a>, AllocError>
    ensures app { IfOk result (λ c. app_of c ≡ options_app name.entry.now) }
    ensures globals { IfOk result (λ c. (fields_of c).has_globals ≡ false) }
{
    let command = Ok(clap::Command::new(alloc, name));
    let command = with_arg(command, option_arg(alloc, "turns"));
    let command = with_arg(command, option_arg(alloc, "workers"));
    with_arg(command, option_arg(alloc, "record"))
}

// A command over peers: `sync` or `follow`.
fn peers_command<'a>(alloc: Global, name: &'a str) -> Result<clap::Command<'a>, AllocError>
    ensures app { IfOk result (λ c. app_of c ≡ peers_app name.entry.now) }
    ensures globals { IfOk result (λ c. (fields_of c).has_globals ≡ false) }
{
    let command = with_arg(options_of(alloc, name), word_arg(alloc, "watch"));
    with_arg(command, peers_arg(alloc))
}

fn replay_command<'a>(alloc: Global) -> Result<clap::Command<'a>, AllocError>
    ensures app { IfOk result (λ c. app_of c ≡ replay_app) }
    ensures globals { IfOk result (λ c. (fields_of c).has_globals ≡ false) }
{
    let command = Ok(clap::Command::new(alloc, "replay"));
    let command = with_arg(command, flag_arg(alloc, "follow"));
    let command = with_arg(command, flag_arg(alloc, "trace"));
    let command = with_arg(command, word_arg(alloc, "watch"));
    with_arg(command, word_arg(alloc, "session"))
}

// A command of one word.
fn one_word<'a>(alloc: Global, name: &'a str, one: &'a str) -> Result<clap::Command<'a>, AllocError>
    ensures app { IfOk result (λ c. app_of c ≡ one_app name.entry.now one.entry.now) }
    ensures globals { IfOk result (λ c. (fields_of c).has_globals ≡ false) }
{
    let command = Ok(clap::Command::new(alloc, name));
    with_arg(command, word_arg(alloc, one))
}

// A command of two words.
fn two_words<'a>(
    alloc: Global,
    name: &'a str,
    one: &'a str,
    two: &'a str,
) -> Result<clap::Command<'a>, AllocError>
    ensures app { IfOk result (λ c. app_of c ≡ two_app name.entry.now one.entry.now two.entry.now) }
    ensures globals { IfOk result (λ c. (fields_of c).has_globals ≡ false) }
{
    let command = one_word(alloc, name, one);
    with_arg(command, word_arg(alloc, two))
}

fn check_command<'a>(alloc: Global) -> Result<clap::Command<'a>, AllocError>
    ensures app { IfOk result (λ c. app_of c ≡ check_app) }
    ensures globals { IfOk result (λ c. (fields_of c).has_globals ≡ false) }
{
    let command = Ok(clap::Command::new(alloc, "check"));
    let command = with_arg(command, flag_arg(alloc, "witness"));
    let command = with_arg(command, word_arg(alloc, "file"));
    with_arg(command, further_arg(alloc, "blocks"))
}

// `serve` with its options alone.
fn serve_options<'a>(alloc: Global) -> Result<clap::Command<'a>, AllocError>
    ensures app { IfOk result (λ c. app_of c ≡ serve_options_app) }
    ensures globals { IfOk result (λ c. (fields_of c).has_globals ≡ false) }
{
    let command = Ok(clap::Command::new(alloc, "serve"));
    let command = with_arg(command, flag_arg(alloc, "grow"));
    let command = with_arg(command, flag_arg(alloc, "endless"));
    let command = with_arg(command, option_arg(alloc, "connections"));
    let command = with_arg(command, option_arg(alloc, "at-once"));
    let command = with_arg(command, option_arg(alloc, "budget"));
    let command = with_arg(command, option_arg(alloc, "grow-bytes"));
    with_arg(command, flag_arg(alloc, "keep"))
}

fn serve_command<'a>(alloc: Global) -> Result<clap::Command<'a>, AllocError>
    ensures app { IfOk result (λ c. app_of c ≡ serve_app) }
    ensures globals { IfOk result (λ c. (fields_of c).has_globals ≡ false) }
{
    let command = with_arg(serve_options(alloc), word_arg(alloc, "file"));
    with_arg(command, word_arg(alloc, "address"))
}

fn make_command<'a>(alloc: Global) -> Result<clap::Command<'a>, AllocError>
    ensures app { IfOk result (λ c. app_of c ≡ make_app) }
    ensures globals { IfOk result (λ c. (fields_of c).has_globals ≡ false) }
{
    let command = Ok(clap::Command::new(alloc, "make"));
    let command = with_arg(command, flag_arg(alloc, "witness"));
    let command = with_arg(command, word_arg(alloc, "seed"));
    let command = with_arg(command, word_arg(alloc, "blocks"));
    with_arg(command, word_arg(alloc, "file"))
}

// The command with one more subcommand.
#[tactic(auto, unfolding(crate::specs::Words::with_sub))]
fn with_one_more<'a>(
    command: clap::Command<'a>,
    sub: clap::Command<'a>,
) -> Result<clap::Command<'a>, AllocError>
    requires { ((fields_of command).has_globals ≡ false) × ((fields_of sub).has_globals ≡ false) }
    ensures { IfOk result
        (λ c. (app_of c ≡ with_sub (app_of command.entry) (app_of sub.entry)) × ((fields_of c).has_globals ≡ false)) }
{
    command.subcommand(sub)
}

// The same where both were made.
fn add<'a>(
    command: Result<clap::Command<'a>, AllocError>,
    sub: Result<clap::Command<'a>, AllocError>,
) -> Result<clap::Command<'a>, AllocError>
    requires command { IfOk command (λ c. (fields_of c).has_globals ≡ false) }
    requires sub { IfOk sub (λ c. (fields_of c).has_globals ≡ false) }
    ensures app { (a s : App) → IfOk command.entry (λ c. app_of c ≡ a) → IfOk sub.entry (λ c. app_of c ≡ s)
        → IfOk result (λ c. app_of c ≡ with_sub a s) }
    ensures globals { IfOk result (λ c. (fields_of c).has_globals ≡ false) }
{
    match command {
        Ok(command) => match sub {
            Ok(sub) => with_one_more(command, sub),
            Err(e) => Err(e),
        },
        Err(e) => Err(e),
    }
}

// The command line, with the client's commands alone.
fn client_command<'a>(alloc: Global) -> Result<clap::Command<'a>, AllocError>
    ensures app { IfOk result (λ c. app_of c ≡ client_app) }
    ensures globals { IfOk result (λ c. (fields_of c).has_globals ≡ false) }
{
    let command = Ok(clap::Command::new(alloc, "cf"));
    let command = add(command, peers_command(alloc, "sync"));
    let command = add(command, peers_command(alloc, "follow"));
    add(command, replay_command(alloc))
}

/// The whole command line. After them come those over a block file, an address, proofs, the server and a made chain.
pub(crate) fn cli_command<'a>(alloc: Global) -> Result<clap::Command<'a>, AllocError>
    ensures app { IfOk result (λ c. app_of c ≡ cli_app) }
    ensures globals { IfOk result (λ c. (fields_of c).has_globals ≡ false) }
{
    let command = client_command(alloc);
    let command = add(command, two_words(alloc, "scan", "file", "watch"));
    let command = add(command, two_words(alloc, "filter", "file", "height"));
    let command = add(command, one_word(alloc, "address", "text"));
    let command = add(command, two_words(alloc, "prove", "file", "txid"));
    let command = add(command, check_command(alloc));
    let command = add(command, serve_command(alloc));
    let command = add(command, make_command(alloc));
    add(command, two_words(alloc, "demo", "seed", "blocks"))
}

// Clap refuses the words, or finds no memory.
fn refusal(kind: ErrorKind) -> Refused<Usage>
    ensures { result ≡ refusal_of kind }
{
    match kind {
        ErrorKind::OutOfMemory => Refused::NoMemory,
        _ => Refused::No(Usage),
    }
}

// What clap makes of the words.
fn matches_of_words<'a>(
    alloc: Global,
    words: &'a [String],
) -> Result<ArgMatches<'a>, Refused<Usage>>
    ensures ok { IfOk result
        (λ m. subcommand_rows_of m ≡ subcommand_of cli_app (map (λ s. string_bytes s) words.entry.now)) }
    ensures passed { IfOk result (λ m. fault_of cli_app (map (λ s. string_bytes s) words.entry.now) ≡ []) }
    ensures refused { IfErr result
        (λ e. IfUsage e (is_faultless (fault_of cli_app (map (λ s. string_bytes s) words.entry.now)) ≡ false)) }
{
    let command = cli_command(alloc)?;
    match command.try_get_matches_from(words) {
        Ok(matches) => Ok(matches),
        Err(e) => Err(refusal(e.kind())),
    }
}

/// The text of an argument of the subcommand that was met.
pub(crate) fn text_of<'a>(matches: &ArgMatches<'a>, id: &str) -> Option<&'a str>
    ensures { option_map (λ s. s.now) result ≡ text_of id.now (subcommand_rows_of matches.now) }
{
    let (_, inner) = matches.subcommand()?;
    inner.get_str(id)
}

/// The texts of an argument of the subcommand that was met, in order.
pub(crate) fn texts_of<'m, 'a>(matches: &'m ArgMatches<'a>, id: &str) -> Option<&'m [&'a str]>
    ensures { option_map (λ s. map (λ t. t.now) s.now) result ≡ texts_of id.now (subcommand_rows_of matches.now) }
{
    let (_, inner) = matches.subcommand()?;
    inner.get_strs(id)
}

/// Whether this subcommand was met.
pub(crate) fn is_met(matches: &ArgMatches, name: &str) -> bool
    ensures { result ≡ is_met name.now (subcommand_rows_of matches.now) }
{
    match matches.subcommand() {
        Some((met, _)) => met == name,
        None => false,
    }
}

/// Whether this flag was given.
pub(crate) fn is_set(matches: &ArgMatches, id: &str) -> bool
    ensures { result ≡ is_set id.now (subcommand_rows_of matches.now) }
{
    match text_of(matches, id) {
        Some(text) => text == "true",
        None => false,
    }
}

/// The number of `--turns`, or the greatest where none is given.
pub(crate) fn turns_of(text: Option<&str>) -> Option<u32>
    ensures { result ≡ turns_of (option_map (λ s. s.now) text.entry) }
{
    match text {
        Some(text) => number_within(text.as_bytes(), MOST_TURNS),
        None => Some(MOST_TURNS),
    }
}

/// The number of `--workers`, or 4 where none is given.
pub(crate) fn workers_of(text: Option<&str>) -> Option<u32>
    ensures { result ≡ workers_of (option_map (λ s. s.now) text.entry) }
{
    match text {
        Some(text) => number_within(text.as_bytes(), MOST_WORKERS),
        None => Some(USUAL_WORKERS),
    }
}

/// The number of `--connections`, or the greatest where none is given.
pub(crate) fn connections_of(text: Option<&str>) -> Option<u32>
    ensures { result ≡ connections_of (option_map (λ s. s.now) text.entry) }
{
    match text {
        Some(text) => number_within(text.as_bytes(), MOST_CONNECTIONS),
        None => Some(MOST_CONNECTIONS),
    }
}

/// How many connections are served: without `--endless` the number of `--connections`, or the greatest that it may be
/// where none is given. With `--endless` there is no end, and no number may be given beside it.
pub(crate) fn count_of(endless: bool, text: Option<&str>) -> Option<u64>
    ensures { result ≡ count_of endless (option_map (λ s. s.now) text.entry) }
{
    if endless {
        return match text {
            Some(_) => None,
            None => Some(ENDLESS),
        };
    }
    match connections_of(text) {
        Some(connections) => Some(u64::from(connections)),
        None => None,
    }
}

/// The number of `--at-once`, or 125 where none is given.
pub(crate) fn at_once_of(text: Option<&str>) -> Option<u32>
    ensures { result ≡ at_once_of (option_map (λ s. s.now) text.entry) }
{
    match text {
        Some(text) => number_within(text.as_bytes(), MOST_AT_ONCE),
        None => Some(USUAL_AT_ONCE),
    }
}

/// The number of `--budget`, or 256 where none is given.
pub(crate) fn budget_of(text: Option<&str>) -> Option<u32>
    ensures { result ≡ budget_of (option_map (λ s. s.now) text.entry) }
{
    match text {
        Some(text) => number_within(text.as_bytes(), MOST_BUDGET),
        None => Some(USUAL_BUDGET),
    }
}

// By so many bytes of blocks a served chain may grow.
fn bytes_of_growth(text: Option<&str>) -> Option<u32>
    ensures { result ≡ bytes_of_growth (option_map (λ s. s.now) text.entry) }
{
    match text {
        Some(text) => number_within(text.as_bytes(), MOST_GROWTH),
        None => Some(USUAL_GROWTH),
    }
}

/// How a served chain grows: not at all without `--grow`, and neither `--keep` nor `--grow-bytes` may be given then;
/// else by so many bytes of blocks as `--grow-bytes` says, or 1,073,741,824 where no number is given, and kept with
/// `--keep` alone.
pub(crate) fn growth_of(grow: bool, keep: bool, text: Option<&str>) -> Option<Option<Growth>>
    ensures { result ≡ growth_of grow keep (option_map (λ s. s.now) text.entry) }
{
    if !grow {
        return if keep || text.is_some() {
            None
        } else {
            Some(None)
        };
    }
    match bytes_of_growth(text) {
        Some(bytes) => Some(Some(Growth { bytes, keep })),
        None => None,
    }
}

fn height_of(text: &str) -> Option<u32>
    ensures { result ≡ height_of text.now }
{
    number_at_most(text.as_bytes(), MOST_HEIGHT)
}

/// The number from which a chain is made.
pub(crate) fn seed_of(text: &str) -> Option<u32>
    ensures { result ≡ seed_of text.now }
{
    number_at_most(text.as_bytes(), MOST_SEED)
}

/// How many blocks are made.
pub(crate) fn made_of(text: &str) -> Option<u32>
    ensures { result ≡ made_of text.now }
{
    number_within(text.as_bytes(), MOST_MADE)
}

/// How many blocks are played.
pub(crate) fn played_of(text: &str) -> Option<u32>
    ensures { result ≡ played_of text.now }
{
    number_within(text.as_bytes(), MOST_PLAYED)
}

fn read_replay(alloc: Global, matches: &ArgMatches) -> Result<Command, Refused<Usage>>
    ensures { GivesOrUsage (replay_of (subcommand_rows_of matches.now)) result }
{
    let watch = text_of(matches, "watch").ok_or(Usage)?;
    let session = text_of(matches, "session").ok_or(Usage)?;
    let follow = is_set(matches, "follow");
    let trace = is_set(matches, "trace");
    let watch = Word::new(alloc, watch)?;
    let session = Word::new(alloc, session)?;
    Ok(Command::Replay {
        follow,
        trace,
        watch,
        session,
    })
}

// A copy of a text that may be given.
fn word_where(alloc: Global, text: Option<&str>) -> Result<Option<Word>, NoMemory>
    ensures { IfOk result (λ w. w ≡ option_map (λ s. s.now) text.entry) }
{
    match text {
        Some(text) => Ok(Some(Word::new(alloc, text)?)),
        None => Ok(None),
    }
}

// The command `follow`, or else `sync`.
fn over_peers(
    follows: bool,
    turns: u32,
    workers: u32,
    file: Option<Word>,
    watch: Word,
    peers: PeerNames,
) -> Command
    ensures { result ≡ over_peers follows turns workers file watch peers }
{
    if follows {
        Command::Follow {
            turns,
            workers,
            record: file,
            watch,
            peers,
        }
    } else {
        Command::Sync {
            turns,
            workers,
            record: file,
            watch,
            peers,
        }
    }
}

// What `follow` asks for, or else `sync`.
fn read_over_peers(
    alloc: Global,
    matches: &ArgMatches,
    follows: bool,
) -> Result<Command, Refused<Usage>>
    ensures { GivesOrUsage (over_peers_of follows (subcommand_rows_of matches.now)) result }
{
    let turns = turns_of(text_of(matches, "turns")).ok_or(Usage)?;
    let workers = workers_of(text_of(matches, "workers")).ok_or(Usage)?;
    let watch = text_of(matches, "watch").ok_or(Usage)?;
    let peers = texts_of(matches, "peer").ok_or(Usage)?;
    if !are_names(peers) {
        return Err(Refused::No(Usage));
    }
    let record = word_where(alloc, text_of(matches, "record"))?;
    let watch = Word::new(alloc, watch)?;
    let peers = PeerNames::new(alloc, peers)?;
    Ok(over_peers(follows, turns, workers, record, watch, peers))
}

fn read_scan(alloc: Global, matches: &ArgMatches) -> Result<Command, Refused<Usage>>
    ensures { GivesOrUsage (scan_of (subcommand_rows_of matches.now)) result }
{
    let file = text_of(matches, "file").ok_or(Usage)?;
    let watch = text_of(matches, "watch").ok_or(Usage)?;
    let file = Word::new(alloc, file)?;
    let watch = Word::new(alloc, watch)?;
    Ok(Command::Scan { file, watch })
}

fn read_filter(alloc: Global, matches: &ArgMatches) -> Result<Command, Refused<Usage>>
    ensures { GivesOrUsage (filter_of (subcommand_rows_of matches.now)) result }
{
    let file = text_of(matches, "file").ok_or(Usage)?;
    let height = text_of(matches, "height").ok_or(Usage)?;
    let height = height_of(height).ok_or(Usage)?;
    let file = Word::new(alloc, file)?;
    Ok(Command::Filter { file, height })
}

fn read_address(alloc: Global, matches: &ArgMatches) -> Result<Command, Refused<Usage>>
    ensures { GivesOrUsage (address_of (subcommand_rows_of matches.now)) result }
{
    let text = text_of(matches, "text").ok_or(Usage)?;
    let text = Word::new(alloc, text)?;
    Ok(Command::Address { text })
}

// The hash that a text shows.
fn hash_in(text: &str) -> Option<Hash32>
    ensures { result ≡ hash_in text.now }
{
    read_hash(text)
}

fn read_prove(alloc: Global, matches: &ArgMatches) -> Result<Command, Refused<Usage>>
    ensures { GivesOrUsage (prove_of (subcommand_rows_of matches.now)) result }
{
    let file = text_of(matches, "file").ok_or(Usage)?;
    let txid = text_of(matches, "txid").ok_or(Usage)?;
    let txid = hash_in(txid).ok_or(Usage)?;
    let file = Word::new(alloc, file)?;
    Ok(Command::Prove { file, txid })
}

fn read_check(alloc: Global, matches: &ArgMatches) -> Result<Command, Refused<Usage>>
    ensures { GivesOrUsage (check_of (subcommand_rows_of matches.now)) result }
{
    let file = text_of(matches, "file").ok_or(Usage)?;
    let chain = word_where(alloc, text_of(matches, "blocks"))?;
    let file = Word::new(alloc, file)?;
    Ok(Command::Check {
        witness: is_set(matches, "witness"),
        file,
        blocks: chain,
    })
}

// What `serve` asks for, with these numbers.
fn serve_with(
    alloc: Global,
    connections: u64,
    at_once: u32,
    budget: u32,
    grow: Option<Growth>,
    matches: &ArgMatches,
) -> Result<Command, Refused<Usage>>
    ensures exact { GivesOrUsage (serve_with connections at_once budget grow (subcommand_rows_of matches.now)) result }
    ensures few { IfOk result HasFewPeers }
{
    let file = text_of(matches, "file").ok_or(Usage)?;
    let address = text_of(matches, "address").ok_or(Usage)?;
    if !is_name(address.as_bytes()) {
        return Err(Refused::No(Usage));
    }
    let file = Word::new(alloc, file)?;
    let address = Word::new(alloc, address)?;
    Ok(Command::Serve {
        grow,
        connections,
        at_once,
        budget,
        file,
        address,
    })
}

fn read_serve(alloc: Global, matches: &ArgMatches) -> Result<Command, Refused<Usage>>
    ensures exact { GivesOrUsage (serve_of (subcommand_rows_of matches.now)) result }
    ensures few { IfOk result HasFewPeers }
{
    let endless = is_set(matches, "endless");
    let connections = count_of(endless, text_of(matches, "connections")).ok_or(Usage)?;
    let at_once = at_once_of(text_of(matches, "at-once")).ok_or(Usage)?;
    let budget = budget_of(text_of(matches, "budget")).ok_or(Usage)?;
    let grow = is_set(matches, "grow");
    let keep = is_set(matches, "keep");
    let grow = growth_of(grow, keep, text_of(matches, "grow-bytes")).ok_or(Usage)?;
    serve_with(alloc, connections, at_once, budget, grow, matches)
}

fn read_make(alloc: Global, matches: &ArgMatches) -> Result<Command, Refused<Usage>>
    ensures { GivesOrUsage (make_of (subcommand_rows_of matches.now)) result }
{
    let seed = text_of(matches, "seed").ok_or(Usage)?;
    let seed = seed_of(seed).ok_or(Usage)?;
    let blocks = text_of(matches, "blocks").ok_or(Usage)?;
    let blocks = made_of(blocks).ok_or(Usage)?;
    let file = text_of(matches, "file").ok_or(Usage)?;
    let witness = is_set(matches, "witness");
    let file = Word::new(alloc, file)?;
    Ok(Command::Make {
        witness,
        seed,
        blocks,
        file,
    })
}

fn read_demo(matches: &ArgMatches) -> Result<Command, Refused<Usage>>
    ensures { GivesOrUsage (demo_of (subcommand_rows_of matches.now)) result }
{
    let seed = text_of(matches, "seed").ok_or(Usage)?;
    let seed = seed_of(seed).ok_or(Usage)?;
    let blocks = text_of(matches, "blocks").ok_or(Usage)?;
    let blocks = played_of(blocks).ok_or(Usage)?;
    Ok(Command::Demo { seed, blocks })
}

// What the subcommand that was met asks for.
fn read_met(alloc: Global, matches: &ArgMatches) -> Result<Command, Refused<Usage>>
    ensures exact { GivesOrUsage (asked_of (subcommand_rows_of matches.now)) result }
    ensures few { IfOk result HasFewPeers }
{
    if is_met(matches, "replay") {
        return read_replay(alloc, matches);
    }
    if is_met(matches, "sync") {
        return read_over_peers(alloc, matches, false);
    }
    if is_met(matches, "follow") {
        return read_over_peers(alloc, matches, true);
    }
    if is_met(matches, "scan") {
        return read_scan(alloc, matches);
    }
    if is_met(matches, "filter") {
        return read_filter(alloc, matches);
    }
    if is_met(matches, "address") {
        return read_address(alloc, matches);
    }
    if is_met(matches, "prove") {
        return read_prove(alloc, matches);
    }
    if is_met(matches, "check") {
        return read_check(alloc, matches);
    }
    if is_met(matches, "serve") {
        return read_serve(alloc, matches);
    }
    if is_met(matches, "make") {
        return read_make(alloc, matches);
    }
    if is_met(matches, "demo") {
        return read_demo(matches);
    }
    Err(Refused::No(Usage))
}

/// What the words ask for; the first is the program's name. `Usage` exactly where clap refuses them
/// for this command, a number isn't decimal and within its range, a name isn't one, there are more
/// than 8 peers, or a hash isn't 64 hexadecimal digits.
pub fn read_words(alloc: Global, words: &[String]) -> Result<Command, Refused<Usage>>
    ensures exact { GivesOrUsage (command_of (map (λ s. string_bytes s) words.now)) result }
    ensures few { IfOk result HasFewPeers }
{
    let matches = matches_of_words(alloc, words)?;
    read_met(alloc, &matches)
}

/// Whether this word asks for the help text.
pub fn is_help_word(word: &str) -> bool
    ensures { result ≡ is_help_word word.now }
{
    word == "help" || word == "--help" || word == "-h"
}

/// Whether a word asks for the help text.
pub fn is_help(words: &[String]) -> bool
    ensures { result ≡ list_any (λ w. is_help_word (string_bytes w)) words.now }
{
    words.iter().any(|w| is_help_word(w.as_str()))
}

fn is_version_word(word: &str) -> bool
    ensures { result ≡ is_version_word word.now }
{
    word == "--version" || word == "-V"
}

/// Whether a word asks for the version.
pub fn is_version(words: &[String]) -> bool
    ensures { result ≡ list_any (λ w. is_version_word (string_bytes w)) words.now }
{
    words.iter().any(|w| is_version_word(w.as_str()))
}
