//! Addresses and their scripts.
use crate::fields::put_word;
use cf_address::{Program, is_prefix, program, read, script, write};
use cf_bytes::Refused;
use std::alloc::Global;

// The address of the program of a script.
fn address_of(alloc: Global, prefix: &str, script: &[u8]) -> Option<String> {
    if !is_prefix(prefix) {
        return None;
    }
    match program(alloc, script) {
        Ok(Some(again)) => write(alloc, prefix, &again).ok(),
        _ => None,
    }
}

// A script, and the address of its program.
fn with_address(alloc: Global, prefix: &str, script: &[u8]) -> Option<String> {
    let mut text = hex::encode(alloc, script).ok()?;
    put_word(&address_of(alloc, prefix, script)?, &mut text)?;
    Some(text)
}

// The script of a program, and the address of the program of that script.
fn told(alloc: Global, prefix: &str, read: &Program) -> Option<String> {
    let script = script(alloc, read).ok()?;
    with_address(alloc, prefix, &script)
}

/// The script of an address and its address in lower case, or its first fault.
pub(crate) fn answer(alloc: Global, row: &str) -> Option<String> {
    let (prefix, text) = row.split_once(' ')?;
    if !is_prefix(prefix) {
        return None;
    }
    match read(alloc, prefix, text) {
        Ok(program) => told(alloc, prefix, &program),
        Err(Refused::No(fault)) => format!(in alloc; "{fault:?}").ok(),
        Err(Refused::NoMemory) => None,
    }
}
