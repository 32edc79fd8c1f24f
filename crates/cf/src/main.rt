//! `cf`: the program. Its words, the clock and a random number go to `run` (cf_cli), whose text goes to standard
//! output; what it does over the network, and what went wrong, is told on standard error, and the exit status says
//! which way the call ended. `follow --redial` calls `run` again where no peer is left.
#![tactic(auto)]

ghost use Rattle.std.specs.Prelude.{◌≡◌};

use cf_answers::{Status, own_text};
use cf_bytes::{Refused, put_all};
use cf_cli::run;
use cf_cli_host::{
    Call, Edge, Failure, Heard, Joined, KeptFile, Listener, Redial, ShownFiles, TextSink, Working,
    hold, is_follow, moment, nonce, read_call, read_dials, tell, tell_advice, tell_hint,
    tell_stands, try_record, with_turns, words_of,
};
use cf_network::Network;
use cf_tasks::{InThreads, Spawner};
use cf_tell::Teller;
use std::io::{self, Write};
use std::process::ExitCode;
use std::sync::Wait;
use std::thread::Threads;
use std::time::{Clock, Duration};

// Tells what went wrong. Where standard error can't be written, the exit status alone tells it.
fn told(teller: &Teller, words: &[String], status: Status, failure: &Option<Failure>) -> Status {
    let _told = tell(teller, words, &status, failure);
    status
}

// Writes a whole text to standard output.
fn say(teller: &Teller, words: &[String], text: &str) -> Status {
    let rt = teller.runtime();
    let mut out = TextSink::new(rt.alloc(), io::writer(&rt));
    match put_all(&mut out, text.as_bytes()) {
        Ok(()) => Status::Done,
        Err(_) => told(teller, words, Status::OutFault, &out.failure()),
    }
}

// Where the client stays, each peer that comes, goes or is closed is told of at once.
fn tell_changes<R: Wait + Threads + Copy + Drop>(network: &mut Network<R>, stays: bool)
    ensures same { network.new ≡ network.old }
{
    if stays {
        network.tell_at_once();
    }
}

// The last call over a file that failed, or over the output where the text could not be written.
fn failure_of<W: Write>(status: &Status, files: &ShownFiles, out: &TextSink<W>) -> Option<Failure> {
    match status {
        Status::OutFault => out.failure(),
        _ => files.failure(),
    }
}

// What came of a run.
#[derive(Drop)]
struct Ran {
    status: Status,
    // How many deliveries it took.
    taken: u32,
}

// A run that was not begun, and why.
fn unrun(status: Status) -> Ran {
    Ran { status, taken: 0 }
}

// A run that was not begun, as no memory was found.
fn not_begun(teller: &Teller, words: &[String]) -> Ran {
    unrun(told(teller, words, Status::NoMemory, &None))
}

// Runs the command. `sync` and `follow` go over TCP.
fn run_command<
    R: Wait + Threads + Sync + Copy + Drop + Send + 'static,
    K: Spawner,
    W: Write + Drop,
>(
    teller: &'static Teller,
    handle: R,
    words: &[String],
    spawner: &mut K,
    out: &mut TextSink<W>,
) -> Ran {
    let rt = teller.runtime();
    let alloc = rt.alloc();
    let Ok(dials) = read_dials(alloc, words) else {
        return not_begun(teller, words);
    };
    if let Err(status) = try_record(teller, words) {
        return unrun(status);
    }
    let mut listener = match Listener::ready(teller, words) {
        Ok(listener) => listener,
        Err(status) => return unrun(told(teller, words, status, &None)),
    };
    let keeper = match KeptFile::ready(teller, words) {
        Ok(keeper) => keeper,
        Err(status) => return unrun(status),
    };
    let Ok(edge) = Edge::new(teller, handle, spawner, dials.names.as_slice()) else {
        return not_begun(teller, words);
    };
    let Edge {
        mut network,
        mut tape,
        mut played,
    } = edge;
    tell_changes(&mut network, dials.stays);
    let mut heard = Heard::new(network);
    let mut files = ShownFiles::new(teller, dials.watches);
    let mut ends = Vec::new(alloc);
    let working = Working::begin(teller, spawner, words);
    let status = run(
        handle,
        alloc,
        Joined::new(teller),
        keeper,
        words,
        moment(&rt),
        nonce(&rt),
        &mut files,
        &mut heard,
        &mut tape,
        &mut played,
        &mut listener,
        spawner,
        out,
        &mut ends,
    );
    working.end(spawner);
    files.end();
    let _stands = tell_stands(teller, &status, &ends, &heard.wires);
    let _advice = tell_advice(teller, words, &ends, &heard);
    let failure = failure_of(&status, &files, out);
    let status = told(teller, words, status, &failure);
    let _hint = tell_hint(teller, words, &status, &files.seen());
    Ran {
        status,
        taken: heard.taken(),
    }
}

// Runs `follow` with these words, and where no peer is left again and again, over all names, after so many seconds each
// time: until a run ends otherwise, or until all deliveries are taken that may be.
fn follow_again<R: Wait + Threads + Sync + Copy + Drop + Send + 'static, K: Spawner>(
    teller: &'static Teller,
    handle: R,
    words: &[String],
    redial: Redial,
    spawner: &mut K,
) -> Status {
    let rt = teller.runtime();
    let mut out = TextSink::new(rt.alloc(), io::writer(&rt));
    out.compare();
    let mut turns = redial.turns;
    for _ in handle.forever() {
        let Ok(words) = with_turns(rt.alloc(), words, turns) else {
            return told(teller, words, Status::NoMemory, &None);
        };
        let Ran { status, taken } = run_command(teller, handle, &words, spawner, &mut out);
        turns = turns.saturating_sub(taken);
        match status {
            Status::NoPeers { .. } if turns > 0 => {}
            status => return status,
        }
        let _told = eprintln!(teller;
            "cf: all peers are dialled again in {} seconds",
            redial.seconds
        );
        teller.sleep(Duration::from_secs(u64::from(redial.seconds)));
    }
    unreachable!()
}

// Runs a command once.
fn run_once<R: Wait + Threads + Sync + Copy + Drop + Send + 'static, K: Spawner>(
    teller: &'static Teller,
    handle: R,
    words: &[String],
    spawner: &mut K,
) -> Status {
    let rt = teller.runtime();
    let mut out = TextSink::new(rt.alloc(), io::writer(&rt));
    run_command(teller, handle, words, spawner, &mut out).status
}

// Runs `follow`: once, or with `--redial` as often as no peer is left.
fn follow<R: Wait + Threads + Sync + Copy + Drop + Send + 'static, K: Spawner>(
    teller: &'static Teller,
    handle: R,
    words: &[String],
    spawner: &mut K,
) -> Status {
    match read_call(teller.runtime().alloc(), words) {
        Ok(Call { words, redial }) => match redial {
            Some(redial) => follow_again(teller, handle, &words, redial, spawner),
            None => run_once(teller, handle, &words, spawner),
        },
        Err(Refused::No(fault)) => {
            let _told = eprintln!(teller; "error: {fault}");
            Status::Usage
        }
        Err(Refused::NoMemory) => told(teller, words, Status::NoMemory, &None),
    }
}

fn main(rt: HostRuntime) -> ExitCode {
    hold(&rt);
    let Ok(teller) = Teller::kept(rt) else {
        return ExitCode::from(told(&Teller::new(rt), &[], Status::NoMemory, &None).code());
    };
    let status = match words_of(&rt) {
        Ok(words) => match own_text(&words) {
            Some(text) => say(teller, &words, text),
            None if is_follow(&words) => follow(teller, rt, &words, &mut InThreads::new(rt)),
            None => run_once(teller, rt, &words, &mut InThreads::new(rt)),
        },
        Err(status) => told(teller, &[], status, &None),
    };
    teller.tell_unwritten();
    ExitCode::from(status.code())
}
