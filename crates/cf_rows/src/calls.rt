//! Calls of the program.
ghost use Rattle.std.specs.Prelude.{◌≡◌, [], false};
ghost use Rattle.cf_wires.specs.{Tells};

use crate::host::Host;
use cf_answers::Status;
use cf_bytes::{MapFiles, VecSink};
use cf_cli::run;
use cf_conn::{Duplex, MemoryConn};
use cf_grow::{Nobody, Unkept};
use cf_link::{Link, ListLink};
use cf_played::Played;
use cf_tasks::Spawner;
use cf_wires::{MemoryWires, Wires};
use std::alloc::Global;

/// A link to which nobody connects.
pub fn no_link(alloc: Global) -> Option<ListLink<MemoryConn>> {
    ListLink::new(alloc, Vec::new(alloc)).ok()
}

/// How a call of the program by these words ends, at a moment and with a nonce, and what it writes to where there is so
/// much room. The tape and the played peers are new, and nobody is told of blocks that join.
pub fn answered<R: Host, W: Wires, L: Link, K: Spawner>(
    rt: R,
    alloc: Global,
    words: &[String],
    at: (i64, u64),
    room: usize,
    files: &mut MapFiles,
    wires: &mut W,
    link: &mut L,
    spawner: &mut K,
) -> Option<String>
where
    L::Conn: Send + 'static,
    <L::Conn as Duplex>::End: Drop + Send + 'static,
    requires new { Tells [] (W.told wires.old) }
    requires running { (W.told wires.old).finished ≡ false }
{
    let mut tape = MemoryWires::new(alloc).ok()?;
    let mut played = Played::new(alloc).ok()?;
    let mut out = VecSink::new(alloc, 7, room).ok()?;
    let status = run(
        rt,
        alloc,
        Nobody,
        Unkept,
        words,
        at.0,
        at.1,
        files,
        wires,
        &mut tape,
        &mut played,
        link,
        spawner,
        &mut out,
        &mut Vec::new(alloc),
    );
    shown(alloc, &status, out.bytes())
}

// The exit status, the status, and what went wrong, in words.
fn told(alloc: Global, status: &Status) -> Option<String> {
    let code = status.code();
    match status {
        Status::Done => format!(in alloc; "{code} {status:?}").ok(),
        _ => format!(in alloc; "{code} {status:?}: {status}").ok(),
    }
}

/// The exit status, the status, what went wrong, in words, and behind them what was written.
pub fn shown(alloc: Global, status: &Status, written: &[u8]) -> Option<String> {
    let text = str::from_utf8(written).ok()?;
    let told = told(alloc, status)?;
    format!(in alloc; "{told}\n{text}").ok()
}
