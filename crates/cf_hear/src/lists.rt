//! Lists out of the lists that a message lends.
ghost use Rattle.std.specs.Prelude.{◌≡◌, IfOk};

use cf_bytes::NoMemory;
use cf_lent::{HashesView, HeadersView};
use cf_msg::{Hashes, Headers};
use std::alloc::Global;

/// The headers that are lent, in a list of their own.
pub(crate) fn headers_in(alloc: Global, headers: HeadersView) -> Result<Headers, NoMemory>
    ensures { IfOk result (λ list. list ≡ headers.entry) }
{
    let mut headers = headers;
    let mut list = Headers::new(alloc);
    while let Some(header) = headers.next() {
        list.push(header)?;
    }
    Ok(list)
}

/// The hashes that are lent, in a list of their own.
pub(crate) fn hashes_in(alloc: Global, hashes: HashesView) -> Result<Hashes, NoMemory>
    ensures { IfOk result (λ list. list ≡ hashes.entry) }
{
    let mut hashes = hashes;
    let mut list = Hashes::new(alloc);
    while let Some(hash) = hashes.next() {
        list.push(hash)?;
    }
    Ok(list)
}
