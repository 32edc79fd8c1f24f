//! What the program says of itself.
ghost use Rattle.std.specs.Prelude.{◌≡◌, drop, find, not, true, false, None, Some, option_map, string_bytes};
ghost use Rattle.std.specs.List.{list_any};
ghost use Rattle.cf_input.specs.{is_help_word, is_version_word};
ghost use Rattle.cf_answers.specs.Topics.{page_for, page_named};

use crate::pages::{ADDRESS, CHECK, DEMO, FILTER, FOLLOW, MAKE, PROVE, REPLAY, SCAN, SERVE, SYNC};
use cf_input::{is_help, is_help_word, is_version};

/// The answer to `--version`.
pub const VERSION: &str = "cf 0.2.0\n";

/// The answer to `--help`.
pub const HELP: &str = "\
cf: a light client for Bitcoin's regtest network.

It tells the history of the scripts that you watch: from a file of blocks, or
from 1 to 8 peers, whose longest chain of valid block headers it follows. Of
that chain it fetches the blocks on whose filters the peers differ, or whose
filter may hold a script. The last line is the tip of the chain:
    synced HEIGHT HASH

usage: cf scan FILE WATCH
       cf filter FILE HEIGHT
       cf replay [--follow] [--trace] WATCH SESSION
       cf sync [--turns N] [--workers N] [--record FILE] WATCH PEER..
       cf follow [--turns N] [--workers N] [--record FILE] [--redial SECONDS]
                 WATCH PEER..
       cf serve [--grow [--grow-bytes N] [--keep]] [--endless | --connections N]
                [--at-once N] [--budget N] FILE ADDRESS
       cf address TEXT
       cf prove FILE TXID
       cf check [--witness] FILE [BLOCKS]
       cf make [--witness] SEED BLOCKS FILE
       cf demo SEED BLOCKS
       cf help COMMAND
       cf --help
       cf --version

  scan     checks the blocks of FILE, and prints the history of the scripts
  filter   checks the blocks of FILE, and prints the hash, the basic filter
           and the filter header of the block at HEIGHT (0 is genesis)
  replay   runs the client on what SESSION says that came from the peers
  sync     runs the client on the network, with 1 to 8 peers, each HOST:PORT
  follow   goes on where sync would end: it asks for the blocks that its peers
           tell of, and prints the history anew where it or the tip has changed
  serve    checks the blocks of FILE, and serves them and their filters to N
           connections (else 1000000) at ADDRESS, HOST:PORT; port 0 is any
  address  prints the script of an address of regtest, in hexadecimal, or the
           address of a script in hexadecimal
  prove    checks the blocks of FILE, and prints the transaction whose hash is
           TXID and a proof that it stands in its block
  check    checks a proof that prove has printed to FILE, and prints the block
           and the transaction; with BLOCKS, a file of blocks, the height too
  make     writes the blocks of a made chain to FILE, from height 1 to BLOCKS,
           1 to 500000; SEED, 0 to 4294967295, says which chain
  demo     runs the client on three peers that are played, of which one is
           honest and serves a made chain of BLOCKS, 1 to 499998, blocks

  --follow   goes on as follow does; the histories come behind the trace
  --trace    prints first what was sent to peer P, as `> P COMMAND`, and which
             peer was closed, as `x P CAUSE`
  --grow     takes the blocks that the connections bring, and tells of them;
             FILE stays as it is
  --grow-bytes
             with --grow: takes N bytes of blocks at most, from 1 to 4294967295
             (else 1073741824)
  --keep     with --grow: puts the blocks that it takes behind those of FILE
  --endless  serves without an end by the number of connections
  --at-once  serves N connections at a time, from 1 to 1000000 (else 125)
  --budget   holds N megabytes of large messages, from 1 to 1000000 (else 256)
  --turns    takes at most N deliveries, from 1 to 10000000 (else 10000000)
  --workers  judges filters in N threads, from 1 to 64 (else 4)
  --record   writes the dials and what came from the peers to FILE, as the
             lines of a session
  --redial   where no peer is left, waits so long, from 1 to 3600, and dials all
             anew, until it is stopped; it doesn't go with --record
  --witness  make: gives the first transaction of each block a witness, as nodes
             do; check: the transaction may stand with its witnesses

A line of the history, in hundred millionths of a coin:
    HEIGHT TXID +RECEIVED -SPENT BALANCE

FILE holds blocks as nodes keep them, from height 1 upward: for each the bytes
fabfb5da, its length in 4 bytes and the block, with witnesses or without.
Genesis may stand first, and zeros at the end. The blocks must make a chain on
which each may stand.

WATCH is a text file of the scripts that are watched: one on each line, in
hexadecimal or by its address (bcrt1..), at most 1000. It may be empty.

SESSION is a text file of what happens: first a line on the dial of each peer,
1 to 8 of them, numbered from 1 in this order, and then one for each delivery.
    dial NAME      the dial is answered       nodial NAME   the dial fails
    got P HEX      peer P sent these bytes    gone P        peer P has gone
    tick SECONDS   so much time has passed, from 1 to 86400

`cf help COMMAND` says more of one command, with an example.

The exit status:
  0  done: the whole text was written
  1  there was not enough memory
  2  the words are no command
  3  a file is not in its form; the message names its first wrong line or
     record
  4  a file could not be read or written
  5  the text could not be written
  6  no peer is left: each was closed, has gone or was not reached
  7  N deliveries were taken, and an answer was still to come
  8  the session was at its end, and an answer was still to come
  9  ADDRESS could not be listened at, or no connection could be accepted
 10  no nonce that is tried makes a block of the made chain
 11  HEIGHT is above the tip of FILE
 12  no block of FILE has a transaction whose hash is TXID, or the block of the
     proof is not in the chain of BLOCKS
 13  TEXT is neither an address of regtest nor the script of one
";

// What is asked for, behind the program's name.
fn asked(words: &[String]) -> &[String]
    ensures { result.now ≡ drop 1 words.now }
{
    if words.is_empty() { words } else { &words[1..] }
}

// The first word that asks for no help.
fn topic(asked: &[String]) -> Option<&String>
    ensures { option_map (λ w. w.now) result ≡ find (λ w. not (is_help_word (string_bytes w))) asked.now }
{
    asked.iter().find(|w| !is_help_word(w.as_str()))
}

// The page of the command of this name, or the help of all.
fn page(name: &str) -> &'static str
    ensures { result.now ≡ page_named name.now
        HELP.now SCAN.now FILTER.now REPLAY.now SYNC.now FOLLOW.now
        SERVE.now ADDRESS.now PROVE.now CHECK.now MAKE.now DEMO.now }
{
    if name == "scan" {
        SCAN
    } else if name == "filter" {
        FILTER
    } else if name == "replay" {
        REPLAY
    } else if name == "sync" {
        SYNC
    } else if name == "follow" {
        FOLLOW
    } else if name == "serve" {
        SERVE
    } else if name == "address" {
        ADDRESS
    } else if name == "prove" {
        PROVE
    } else if name == "check" {
        CHECK
    } else if name == "make" {
        MAKE
    } else if name == "demo" {
        DEMO
    } else {
        HELP
    }
}

// The page that a word asks for, or the help of all.
fn page_for(word: Option<&String>) -> &'static str
    ensures { result.now ≡ page_for (option_map (λ w. string_bytes w.now) word.entry)
        HELP.now SCAN.now FILTER.now REPLAY.now SYNC.now FOLLOW.now
        SERVE.now ADDRESS.now PROVE.now CHECK.now MAKE.now DEMO.now }
{
    match word {
        Some(name) => page(name.as_str()),
        None => HELP,
    }
}

/// The text that words behind the program's name ask for. Where one asks for help it is the page of the first other
/// word, if that is a command, or else the help of all; where none does it is the version.
pub fn own_text(words: &[String]) -> Option<&'static str>
    ensures help { list_any (λ w. is_help_word (string_bytes w)) (drop 1 words.now) ≡ true
        → option_map (λ text. text.now) result ≡ Some (page_for
        (option_map (λ w. string_bytes w) (find (λ w. not (is_help_word (string_bytes w))) (drop 1 words.now)))
        HELP.now SCAN.now FILTER.now REPLAY.now SYNC.now FOLLOW.now
        SERVE.now ADDRESS.now PROVE.now CHECK.now MAKE.now DEMO.now) }
    ensures version { list_any (λ w. is_help_word (string_bytes w)) (drop 1 words.now) ≡ false
        → list_any (λ w. is_version_word (string_bytes w)) (drop 1 words.now) ≡ true
        → option_map (λ text. text.now) result ≡ Some VERSION.now }
    ensures none { list_any (λ w. is_help_word (string_bytes w)) (drop 1 words.now) ≡ false
        → list_any (λ w. is_version_word (string_bytes w)) (drop 1 words.now) ≡ false → result ≡ None }
{
    let asked = asked(words);
    if is_help(asked) {
        Some(page_for(topic(asked)))
    } else if is_version(asked) {
        Some(VERSION)
    } else {
        None
    }
}
