//! The call that serves.
use crate::doors::Count;
use crate::link::ToldLink;
use crate::row::{chain_in, words_at};
use cf_rows::{Host, answered};
use cf_tasks::InThreads;
use cf_wires::MemoryWires;

// How a call ends over a link, and what it writes.
fn served<R: Host>(
    rt: HostRuntime,
    handle: R,
    call: &str,
    blocks: &str,
    link: &mut ToldLink,
) -> Option<String> {
    let alloc = rt.alloc();
    let words = words_at(alloc, call, 0)?;
    let mut files = chain_in(alloc, blocks)?;
    let mut wires = MemoryWires::new(alloc).ok()?;
    answered(
        handle,
        alloc,
        &words,
        (0, 0),
        1000,
        &mut files,
        &mut wires,
        link,
        &mut InThreads::new(handle),
    )
}

/// How the call ends, at any port, and what it writes. The port is told once it listens.
pub(crate) fn serve<R: Host>(
    rt: HostRuntime,
    handle: R,
    call: String,
    blocks: String,
    port: Count,
) -> Option<String> {
    let mut link = ToldLink::new(rt, port).ok()?;
    served(rt, handle, call.as_str(), blocks.as_str(), &mut link)
}
