//! What several calls need of rows with calls of the program.
use cf_bytes::{Files, MapFiles};
use std::alloc::Global;

/// The words of a call, where `@` stands for this port of loopback.
pub(crate) fn words_at(alloc: Global, call: &str, port: u32) -> Option<Vec<String>> {
    let place = format!(in alloc; "127.0.0.1:{port}").ok()?;
    let call = call.replace(alloc, "@", place.as_str()).ok()?;
    words_in(alloc, call.as_str())
}

/// The words of a call.
pub(crate) fn words_in(alloc: Global, call: &str) -> Option<Vec<String>> {
    let mut words = Vec::new(alloc);
    for word in call.split(' ') {
        words.push(String::from_str(alloc, word).ok()?).ok()?;
    }
    Some(words)
}

/// The block file `f`.
pub(crate) fn chain_in(alloc: Global, blocks: &str) -> Option<MapFiles> {
    let blocks = hex::decode(alloc, blocks).ok()?;
    let mut files = MapFiles::new(alloc);
    files.write(alloc, "f", &blocks).ok()?;
    Some(files)
}

/// The watch file `w`. Each of its lines ends at `;`.
pub(crate) fn watch_in(alloc: Global, watch: &str) -> Option<MapFiles> {
    let watch = watch.replace(alloc, ";", "\n").ok()?;
    let mut files = MapFiles::new(alloc);
    files.write(alloc, "w", watch.as_bytes()).ok()?;
    Some(files)
}
