//! The call that follows.
use crate::doors::count;
use crate::link::ToldLink;
use crate::row::{watch_in, words_at};
use cf_bytes::MapFiles;
use cf_cli_host::read_dials;
use cf_network::Network;
use cf_rows::{Host, answered};
use cf_tasks::{InThreads, Spawner};
use cf_tell::Teller;

// How a call ends that goes over TCP, and what it writes.
fn followed<R: Host, K: Spawner>(
    rt: HostRuntime,
    handle: R,
    words: &[String],
    files: &mut MapFiles,
    spawner: &mut K,
) -> Option<String> {
    let alloc = rt.alloc();
    let mut link = ToldLink::new(rt, count(alloc)?).ok()?;
    let teller = Teller::kept(rt).ok()?;
    let dials = read_dials(alloc, words).ok()?;
    let Ok(mut network) = Network::new(teller, handle, spawner, dials.names.as_slice()) else {
        return None;
    };
    answered(
        handle,
        alloc,
        words,
        (0, 0),
        1000,
        files,
        &mut network,
        &mut link,
        spawner,
    )
}

/// How calls end that dial this port, one after another, and what each writes. They are parted by `;`, and the files
/// that one writes are there for the next.
pub(crate) fn follow<R: Host>(
    rt: HostRuntime,
    handle: R,
    calls: &str,
    watch: &str,
    port: u32,
) -> Option<String> {
    let alloc = rt.alloc();
    let mut files = watch_in(alloc, watch)?;
    let mut spawner = InThreads::new(handle);
    let mut text = String::new(alloc);
    for call in calls.split(';') {
        let words = words_at(alloc, call, port)?;
        text.push_str(&followed(rt, handle, &words, &mut files, &mut spawner)?)
            .ok()?;
    }
    Some(text)
}
