//! `cf_hub_cases`: reads rows `KIND REST`, and prints each row and what it comes to. `docs/CONTRIBUTING.md` says how
//! rows and kinds are added. A row of the kind `cf` begins with a call of the program, and is read with its first word.
//! A row that begins with `#` is a remark, and is printed as it is. A row that can't be read, or for which no memory is
//! found, comes to `?`.
#![tactic(auto)]

mod course;
mod doors;
mod following;
mod guide;
mod hearing;
mod held;
mod hubs;
mod lines;
mod link;
mod loopback;
mod outside;
mod port;
mod queues;
mod replays;
mod row;
mod runs;
mod serving;
mod sockets;
mod telling;
mod ticking;

use cf_rows::Host;
use std::process::ExitCode;

// What a row comes to.
fn answer<R: Host>(rt: HostRuntime, handle: R, row: &str) -> Option<String> {
    let (kind, rest) = row.split_once(' ').unwrap_or((row, ""));
    match kind {
        "cf" => loopback::answer(rt, handle, row),
        "dial" => sockets::reason(rt, rest),
        "heard" => hearing::answer(rt, handle, rest),
        "hub" => hubs::answer(rt, handle, rest),
        "queue" => queues::answer(&handle, rt.alloc(), rest),
        "run" => runs::answer(rt, handle, rest),
        "ticks" => ticking::answer(rt, handle, rest),
        _ => None,
    }
}

// The lines that are printed for a row.
fn shown<R: Host>(rt: HostRuntime, handle: R, row: &str) -> Option<String> {
    let alloc = rt.alloc();
    if row.starts_with('#') {
        return format!(in alloc; "{row}").ok();
    }
    match answer(rt, handle, row) {
        Some(text) => format!(in alloc; "{row}\n{}", text.trim_start()).ok(),
        None => format!(in alloc; "{row}\n?").ok(),
    }
}

fn main(rt: HostRuntime) -> ExitCode {
    for row in rt.lines(rt.alloc()) {
        let Ok(row) = row else {
            return ExitCode::from(1);
        };
        let Some(text) = shown(rt, rt, &row) else {
            return ExitCode::from(2);
        };
        if println!(&rt; "{text}").is_err() {
            return ExitCode::from(3);
        }
    }
    ExitCode::SUCCESS
}
