//! Writing messages.
ghost use Rattle.std.specs.Prelude.{◌≡◌, ◌≤◌, ◌++◌, ◌∷◌, length, IfOk, OnOk};
ghost use Rattle.std.specs.List.{flat_map};
ghost use Rattle.std.specs.Int.{w32, w64, to_le_bytes};
ghost use Rattle.cf_bytes.specs.{counted_bytes};
ghost use Rattle.cf_frame.specs.{IsFrame};
ghost use Rattle.cf_msg.specs.Message.{IsWithinLimits, address_spelling, byte_or_none, command_of as command_of_message, counted_list, entry_spelling, frame_of, hash_spelling, item_spelling, payload_of};

use crate::command::{
    BLOCK, CFCHECKPT, CFHEADERS, CFILTER, GETCFCHECKPT, GETCFHEADERS, GETCFILTERS, GETDATA,
    GETHEADERS, HEADERS, INV, PING, PONG, VERACK, VERSION,
};
use crate::lists::{Bytes, Entries, Hashes, Headers};
use crate::msg::{Inventory, Msg, NetAddress};
use cf_block::{Header, write_block, write_header};
use cf_bytes::{Hash32, NoMemory, put_compact};
use cf_frame::{Frame, Payload};
use std::alloc::Global;

/// The frame that carries a message. The message's counts are within its limits; a block keeps to the rules of its
/// bytes; an `Other` has a command of
/// printable characters and then NULs, and none of those that are looked into; the payload has at most 4,000,000
/// bytes.
pub fn write(alloc: Global, msg: &Msg) -> Result<Frame, NoMemory>
    requires limits { IsWithinLimits msg.now }
    requires fits { length (payload_of msg.now) ≤ 4000000 }
    ensures exact { IfOk result (λ f. f ≡ frame_of msg.now) }
    ensures frame { IfOk result (λ f. IsFrame f) }
{
    let mut payload = Vec::new(alloc);
    put_payload(msg, &mut payload)?;
    Ok(Frame {
        command: command_of(msg),
        payload: Payload::from_vec(payload),
    })
}

fn command_of(msg: &Msg) -> [u8; 12]
    ensures { result ≡ command_of_message msg.now }
{
    match msg {
        Msg::Version { .. } => VERSION,
        Msg::Verack => VERACK,
        Msg::Ping(_) => PING,
        Msg::Pong(_) => PONG,
        Msg::GetHeaders { .. } => GETHEADERS,
        Msg::Headers(_) => HEADERS,
        Msg::GetData(_) => GETDATA,
        Msg::Inv(_) => INV,
        Msg::Block(_) => BLOCK,
        Msg::GetCfilters { .. } => GETCFILTERS,
        Msg::Cfilter { .. } => CFILTER,
        Msg::GetCfheaders { .. } => GETCFHEADERS,
        Msg::Cfheaders { .. } => CFHEADERS,
        Msg::GetCfcheckpt { .. } => GETCFCHECKPT,
        Msg::Cfcheckpt { .. } => CFCHECKPT,
        Msg::Other { command, .. } => *command,
    }
}

// Writes the payload at the end.
#[tactic(auto, unfolding(crate::specs::Message::payload_of), using(std::proofs::Common::append_assoc))]
fn put_payload(msg: &Msg, out: &mut Vec<u8>) -> Result<(), NoMemory>
    ensures { OnOk result (out.new.items ≡ out.old.items ++ payload_of msg.now) }
{
    match msg {
        Msg::Version {
            version,
            services,
            time,
            to,
            from,
            nonce,
            agent,
            height,
            relay,
        } => {
            put_sender(
                version.cast_unsigned(),
                *services,
                time.cast_unsigned(),
                out,
            )?;
            put_addresses(to, from, *nonce, out)?;
            put_agent(agent, height.cast_unsigned(), *relay, out)
        }
        Msg::Verack => Ok(()),
        Msg::Ping(nonce) => put_u64(*nonce, out),
        Msg::Pong(nonce) => put_u64(*nonce, out),
        Msg::GetHeaders {
            version,
            locator,
            stop,
        } => {
            out.extend_from_slice(&version.to_le_bytes())?;
            put_compact(out, locator.len() as u64)?;
            put_hashes(locator, out)?;
            out.extend_from_slice(&stop.0)?;
            Ok(())
        }
        Msg::Headers(headers) => {
            put_compact(out, headers.len() as u64)?;
            put_headers(headers, out)
        }
        Msg::GetData(entries) | Msg::Inv(entries) => put_entries(entries, out),
        Msg::Block(block) => write_block(block, out),
        Msg::GetCfilters {
            filter,
            start,
            stop,
        } => put_range(*filter, *start, stop, out),
        Msg::Cfilter {
            filter,
            block,
            bytes,
        } => {
            put_typed(*filter, block, out)?;
            put_counted(bytes, out)
        }
        Msg::GetCfheaders {
            filter,
            start,
            stop,
        } => put_range(*filter, *start, stop, out),
        Msg::Cfheaders {
            filter,
            stop,
            previous,
            hashes,
        } => {
            put_typed(*filter, stop, out)?;
            put_hash(previous, out)?;
            put_counted_hashes(hashes, out)
        }
        Msg::GetCfcheckpt { filter, stop } => put_typed(*filter, stop, out),
        Msg::Cfcheckpt {
            filter,
            stop,
            headers,
        } => {
            put_typed(*filter, stop, out)?;
            put_counted_hashes(headers, out)
        }
        Msg::Other { payload, .. } => {
            out.extend_from_slice(payload.as_slice())?;
            Ok(())
        }
    }
}

fn put_u32(n: u32, out: &mut Vec<u8>) -> Result<(), NoMemory>
    ensures { OnOk result (out.new.items ≡ out.old.items ++ to_le_bytes w32 n) }
{
    out.extend_from_slice(&n.to_le_bytes())?;
    Ok(())
}

// The first fields of `version`, signed ones as their bits.
fn put_sender(version: u32, services: u64, time: u64, out: &mut Vec<u8>) -> Result<(), NoMemory>
    ensures { OnOk result (out.new.items ≡ out.old.items
        ++ (to_le_bytes w32 version ++ (to_le_bytes w64 services ++ to_le_bytes w64 time))) }
{
    put_u32(version, out)?;
    put_u64(services, out)?;
    put_u64(time, out)
}

#[tactic(auto, using(std::proofs::Common::append_assoc))]
fn put_addresses(
    to: &NetAddress,
    from: &NetAddress,
    nonce: u64,
    out: &mut Vec<u8>,
) -> Result<(), NoMemory>
    ensures { OnOk result (out.new.items ≡ out.old.items
        ++ (address_spelling to.now ++ (address_spelling from.now ++ to_le_bytes w64 nonce))) }
{
    put_address(to, out)?;
    put_address(from, out)?;
    put_u64(nonce, out)
}

#[tactic(auto, using(std::proofs::Common::append_assoc))]
fn put_agent(
    agent: &Bytes,
    height: u32,
    relay: Option<u8>,
    out: &mut Vec<u8>,
) -> Result<(), NoMemory>
    ensures { OnOk result
        (out.new.items ≡ out.old.items ++ (counted_bytes agent.now ++ (to_le_bytes w32 height ++ byte_or_none relay))) }
{
    put_counted(agent, out)?;
    put_u32(height, out)?;
    put_byte_or_none(relay, out)
}

fn put_u64(n: u64, out: &mut Vec<u8>) -> Result<(), NoMemory>
    ensures { OnOk result (out.new.items ≡ out.old.items ++ to_le_bytes w64 n) }
{
    out.extend_from_slice(&n.to_le_bytes())?;
    Ok(())
}

#[tactic(auto, using(std::proofs::Common::append_assoc))]
fn put_address(address: &NetAddress, out: &mut Vec<u8>) -> Result<(), NoMemory>
    ensures { OnOk result (out.new.items ≡ out.old.items ++ address_spelling address.now) }
{
    out.extend_from_slice(&address.services.to_le_bytes())?;
    out.extend_from_slice(&address.ip)?;
    out.extend_from_slice(&address.port.to_be_bytes())?;
    Ok(())
}

#[tactic(auto, using(std::proofs::Common::append_assoc))]
fn put_counted(bytes: &Bytes, out: &mut Vec<u8>) -> Result<(), NoMemory>
    ensures { OnOk result (out.new.items ≡ out.old.items ++ counted_bytes bytes.now) }
{
    put_compact(out, bytes.len() as u64)?;
    out.extend_from_slice(bytes.as_slice())?;
    Ok(())
}

fn put_byte_or_none(byte: Option<u8>, out: &mut Vec<u8>) -> Result<(), NoMemory>
    ensures { OnOk result (out.new.items ≡ out.old.items ++ byte_or_none byte) }
{
    match byte {
        None => Ok(()),
        Some(b) => {
            out.push(b)?;
            Ok(())
        }
    }
}

fn put_hashes(hashes: &Hashes, out: &mut Vec<u8>) -> Result<(), NoMemory>
    ensures { OnOk result (out.new.items ≡ out.old.items ++ flat_map hash_spelling hashes.now) }
{
    for hash in hashes.as_slice() {
        out.extend_from_slice(&hash.0)?;
    }
    Ok(())
}

#[tactic(auto, using(std::proofs::Common::append_assoc))]
fn put_item(header: &Header, out: &mut Vec<u8>) -> Result<(), NoMemory>
    ensures { OnOk result (out.new.items ≡ out.old.items ++ item_spelling header.now) }
{
    write_header(header, out)?;
    out.push(0)?;
    Ok(())
}

fn put_headers(headers: &Headers, out: &mut Vec<u8>) -> Result<(), NoMemory>
    ensures { OnOk result (out.new.items ≡ out.old.items ++ flat_map item_spelling headers.now) }
{
    for header in headers.as_slice() {
        put_item(header, out)?;
    }
    Ok(())
}

fn put_hash(hash: &Hash32, out: &mut Vec<u8>) -> Result<(), NoMemory>
    ensures { OnOk result (out.new.items ≡ out.old.items ++ hash_spelling hash.now) }
{
    out.extend_from_slice(&hash.0)?;
    Ok(())
}

#[tactic(auto, using(std::proofs::Common::append_assoc))]
fn put_counted_hashes(hashes: &Hashes, out: &mut Vec<u8>) -> Result<(), NoMemory>
    ensures { OnOk result (out.new.items ≡ out.old.items ++ counted_list hash_spelling hashes.now) }
{
    put_compact(out, hashes.len() as u64)?;
    put_hashes(hashes, out)
}

#[tactic(auto, using(std::proofs::Common::append_assoc))]
fn put_entry(entry: &Inventory, out: &mut Vec<u8>) -> Result<(), NoMemory>
    ensures { OnOk result (out.new.items ≡ out.old.items ++ entry_spelling entry.now) }
{
    put_u32(entry.kind, out)?;
    put_hash(&entry.hash, out)
}

fn put_entry_list(entries: &Entries, out: &mut Vec<u8>) -> Result<(), NoMemory>
    ensures { OnOk result (out.new.items ≡ out.old.items ++ flat_map entry_spelling entries.now) }
{
    for entry in entries.as_slice() {
        put_entry(entry, out)?;
    }
    Ok(())
}

#[tactic(auto, using(std::proofs::Common::append_assoc))]
fn put_entries(entries: &Entries, out: &mut Vec<u8>) -> Result<(), NoMemory>
    ensures { OnOk result (out.new.items ≡ out.old.items ++ counted_list entry_spelling entries.now) }
{
    put_compact(out, entries.len() as u64)?;
    put_entry_list(entries, out)
}

// A filter's type and a hash.
#[tactic(auto, using(std::proofs::Common::append_assoc))]
fn put_typed(filter: u8, hash: &Hash32, out: &mut Vec<u8>) -> Result<(), NoMemory>
    ensures { OnOk result (out.new.items ≡ out.old.items ++ filter ∷ hash_spelling hash.now) }
{
    out.push(filter)?;
    put_hash(hash, out)
}

// The fields of a request about filters of several blocks.
#[tactic(auto, using(std::proofs::Common::append_assoc))]
fn put_range(filter: u8, start: u32, stop: &Hash32, out: &mut Vec<u8>) -> Result<(), NoMemory>
    ensures { OnOk result
        (out.new.items ≡ out.old.items ++ filter ∷ (to_le_bytes w32 start ++ hash_spelling stop.now)) }
{
    out.push(filter)?;
    put_u32(start, out)?;
    put_hash(stop, out)
}
