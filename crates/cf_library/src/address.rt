//! The script of an address.
use cf_address::{read, script};
use std::alloc::Global;

/// The script that a regtest address (`bcrt1..`) pays, or `None` where the text is no such address.
pub(crate) fn script_of(alloc: Global, address: &str) -> Option<Vec<u8>> {
    let program = read(alloc, "bcrt", address).ok()?;
    script(alloc, &program).ok()
}
