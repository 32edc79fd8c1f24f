//! The target of hashes, and the locators of chains of headers.
ghost use Rattle.std.specs.Prelude.{◌≡◌, ℕ, None, IsSome};

use crate::chains::chain_in;
use cf_block::Header;
use cf_bytes::{Hash32, PeerNo, read_hash};
use cf_headers::{HeaderStore, Tree, meets_target};
use cf_lists::Lists;
use std::alloc::Global;

// The peer whose chain it is.
const PEER: PeerNo = PeerNo(1);

/// Whether the hash of a row meets the target.
pub(crate) fn target(alloc: Global, row: &str) -> Option<String> {
    let hash = read_hash(row)?;
    format!(in alloc; "{}", meets_target(&hash)).ok()
}

// The headers of the made chain that a row tells.
fn headers_of(alloc: Global, row: &str) -> Option<Vec<Header>> {
    let chain = chain_in(alloc, row)?;
    let mut headers = Vec::new(alloc);
    for block in chain.as_slice() {
        headers.push(block.header).ok()?;
    }
    Some(headers)
}

// The heights of hashes in the peer's chain.
fn heights_of<H: HeaderStore>(alloc: Global, store: &H, hashes: &[Hash32]) -> Option<String>
    requires { IsSome (H.chain store.now 1) }
{
    let mut text = format!(in alloc; "heights").ok()?;
    for hash in hashes {
        let height = store.place(PEER, hash)?;
        let word = format!(in alloc; " {height}").ok()?;
        text.push_str(word.as_str()).ok()?;
    }
    Some(text)
}

// The heights of the locator of the peer's chain.
fn located<H: HeaderStore>(alloc: Global, store: &H) -> Option<String>
    requires { IsSome (H.chain store.now 1) }
{
    let hashes = store.locator(alloc, PEER).ok()?;
    heights_of(alloc, store, &hashes)
}

// The same, once it has shown these headers.
#[tactic(auto, using(cf_headers::proofs::Places::still_entered))]
fn located_on<H: HeaderStore>(alloc: Global, store: &mut H, headers: &[Header]) -> Option<String>
    requires { IsSome (H.chain store.old 1) }
{
    match store.accept(PEER, headers) {
        Ok(_) => located(alloc, store),
        Err(_) => None,
    }
}

// The same over a new store, which the peer enters.
fn located_in<H: HeaderStore + Drop>(
    alloc: Global,
    mut store: H,
    headers: &[Header],
) -> Option<String>
    requires { (q : ℕ) → H.chain store q ≡ None }
{
    match store.enter(PEER) {
        Ok(()) => located_on(alloc, &mut store, headers),
        Err(_) => None,
    }
}

// The same over new lists.
fn over_lists(alloc: Global, headers: &[Header]) -> Option<String> {
    located_in(alloc, Lists::new(alloc).ok()?, headers)
}

// The same over a new tree.
fn over_tree(alloc: Global, headers: &[Header]) -> Option<String> {
    located_in(alloc, Tree::new(alloc).ok()?, headers)
}

/// The heights of the locator of the made chain that a row tells, over a store of lists and over a tree: one list of
/// heights where they are the same, as they have to be.
pub(crate) fn locator(alloc: Global, row: &str) -> Option<String> {
    let headers = headers_of(alloc, row)?;
    let lists = over_lists(alloc, &headers)?;
    let tree = over_tree(alloc, &headers)?;
    if lists == tree {
        Some(lists)
    } else {
        format!(in alloc; "lists {lists} tree {tree}").ok()
    }
}
