//! Reading messages.
ghost use Rattle.std.specs.Prelude.{◌≡◌};
ghost use Rattle.cf_bytes.specs.{Reads, Gives, list_at, counted_bytes_at};
ghost use Rattle.cf_msg.specs.Reading.{Answers, of_cut, port_at, address_at, byte_or_none_at, count_at, hash_item_at, header_item_at, entry_at, entries_at, filter_hashes_at, version_at, ping_at, pong_at, getheaders_at, headers_at, getdata_at, inv_at, block_message_at, getcfilters_at, cfilter_at, getcfheaders_at, cfheaders_at, getcfcheckpt_at, cfcheckpt_at, fields_at, whole_at, message_of};

use crate::command::{Kind, kind_of};
use crate::lists::{Bytes, Entries, Hashes, Headers};
use crate::msg::{Cause, Inventory, Malformed, Msg, NetAddress};
use cf_block::{Header, parse_block, parse_header};
use cf_bytes::{Cut, CutFault, Hash32, Refused, read_list};
use cf_frame::Frame;
use std::alloc::Global;

/// The most hashes of a locator.
pub const MAX_LOCATOR: u64 = 101;

/// The most headers of one message.
pub const MAX_HEADERS: u64 = 2000;

/// The most entries of an inventory.
pub const MAX_ENTRIES: u64 = 50_000;

/// The most hashes or headers of filters in one message.
pub const MAX_FILTER_HASHES: u64 = 2000;

/// The message that a frame carries. It is refused at the first field that can't be read: with the number of
/// payload bytes before that field.
#[tactic(auto, unfolding(crate::specs::Reading::message_of))]
pub fn read(alloc: Global, frame: &Frame) -> Result<Msg, Refused<Malformed>>
    ensures { Answers (message_of frame.now) result }
{
    let payload = frame.payload.as_slice();
    let mut cut = Cut::new(payload);
    match whole_of(alloc, &frame.command, &mut cut) {
        Ok(msg) => Ok(msg),
        Err(Refused::NoMemory) => Err(Refused::NoMemory),
        Err(Refused::No(cause)) => {
            let place = payload.len().saturating_sub(cut.rest().len());
            let command = frame.command;
            Err(Refused::No(Malformed {
                command,
                place,
                cause,
            }))
        }
    }
}

#[tactic(auto, unfolding(crate::specs::Reading::whole_at))]
fn whole_of(alloc: Global, command: &[u8; 12], cut: &mut Cut) -> Result<Msg, Refused<Cause>>
    ensures { Gives (λ m. m) (whole_at command.now cut.old) result cut.new }
{
    let msg = fields_of(alloc, kind_of(command), command, cut)?;
    if !cut.rest().is_empty() {
        return Err(Refused::No(Cause::Rest));
    }
    Ok(msg)
}

#[tactic(auto, unfolding(crate::specs::Reading::fields_at))]
fn fields_of(
    alloc: Global,
    kind: Kind,
    command: &[u8; 12],
    cut: &mut Cut,
) -> Result<Msg, Refused<Cause>>
    ensures { Gives (λ m. m) (fields_at kind command.now cut.old) result cut.new }
{
    match kind {
        Kind::Version => version_of(alloc, cut),
        Kind::Verack => Ok(Msg::Verack),
        Kind::Ping => ping_of(cut),
        Kind::Pong => pong_of(cut),
        Kind::GetHeaders => getheaders_of(alloc, cut),
        Kind::Headers => headers_of(alloc, cut),
        Kind::GetData => getdata_of(alloc, cut),
        Kind::Inv => inv_of(alloc, cut),
        Kind::Block => block_of(alloc, cut),
        Kind::GetCfilters => getcfilters_of(cut),
        Kind::Cfilter => cfilter_of(alloc, cut),
        Kind::GetCfheaders => getcfheaders_of(cut),
        Kind::Cfheaders => cfheaders_of(alloc, cut),
        Kind::GetCfcheckpt => getcfcheckpt_of(cut),
        Kind::Cfcheckpt => cfcheckpt_of(alloc, cut),
        Kind::Other => other_of(alloc, command, cut),
    }
}

#[tactic(auto, unfolding(crate::specs::Reading::fields_at))]
fn other_of(alloc: Global, command: &[u8; 12], cut: &mut Cut) -> Result<Msg, Refused<Cause>>
    ensures { Gives (λ m. m) (fields_at Kind.Other command.now cut.old) result cut.new }
{
    let bytes = cut.rest();
    let payload = Bytes::from_vec(Vec::from_slice(alloc, bytes)?);
    *cut = Cut::new(&bytes[bytes.len()..]);
    let command = *command;
    Ok(Msg::Other { command, payload })
}

fn port_of(cut: &mut Cut) -> Result<u16, CutFault>
    ensures { Reads (λ n. n) (port_at cut.old) result cut.new }
{
    let bytes = cut.array()?;
    Ok(u16::from_be_bytes(bytes))
}

/// A peer's address in a `version` message: its services, its address and its port.
#[tactic(auto, unfolding(crate::specs::Reading::address_at))]
pub fn address_of(cut: &mut Cut) -> Result<NetAddress, CutFault>
    ensures { Reads (λ a. a) (address_at cut.old) result cut.new }
{
    let services = cut.u64()?;
    let ip = cut.array()?;
    let port = port_of(cut)?;
    Ok(NetAddress { services, ip, port })
}

// Bytes with their count before them. Memory is taken once they stand there.
fn counted_of(alloc: Global, cut: &mut Cut) -> Result<Bytes, Refused<Cause>>
    ensures { Gives (λ b. b) (of_cut (counted_bytes_at cut.old)) result cut.new }
{
    let count = cut.compact().map_err(Cause::Cut)?;
    let bytes = cut.bytes(count as usize).map_err(Cause::Cut)?;
    Ok(Bytes::from_vec(Vec::from_slice(alloc, bytes)?))
}

/// The next byte, if one is left.
pub fn byte_or_none(cut: &mut Cut) -> Option<u8>
    ensures { byte_or_none_at cut.old ≡ Ok (result, cut.new) }
{
    cut.u8().ok()
}

#[tactic(auto, unfolding(crate::specs::Reading::version_at))]
fn version_of(alloc: Global, cut: &mut Cut) -> Result<Msg, Refused<Cause>>
    ensures { Gives (λ m. m) (version_at cut.old) result cut.new }
{
    let version = cut.i32().map_err(Cause::Cut)?;
    let services = cut.u64().map_err(Cause::Cut)?;
    let time = cut.i64().map_err(Cause::Cut)?;
    let to = address_of(cut).map_err(Cause::Cut)?;
    let from = address_of(cut).map_err(Cause::Cut)?;
    let nonce = cut.u64().map_err(Cause::Cut)?;
    let agent = counted_of(alloc, cut)?;
    let height = cut.i32().map_err(Cause::Cut)?;
    let relay = byte_or_none(cut);
    Ok(Msg::Version {
        version,
        services,
        time,
        to,
        from,
        nonce,
        agent,
        height,
        relay,
    })
}

#[tactic(auto, unfolding(crate::specs::Reading::ping_at))]
fn ping_of(cut: &mut Cut) -> Result<Msg, Refused<Cause>>
    ensures { Gives (λ m. m) (ping_at cut.old) result cut.new }
{
    let nonce = cut.u64().map_err(Cause::Cut)?;
    Ok(Msg::Ping(nonce))
}

#[tactic(auto, unfolding(crate::specs::Reading::pong_at))]
fn pong_of(cut: &mut Cut) -> Result<Msg, Refused<Cause>>
    ensures { Gives (λ m. m) (pong_at cut.old) result cut.new }
{
    let nonce = cut.u64().map_err(Cause::Cut)?;
    Ok(Msg::Pong(nonce))
}

/// How many items follow: a count of at most this many. It is refused where it begins.
pub fn count_of(limit: u64, cut: &mut Cut) -> Result<u64, Cause>
    ensures { Reads (λ n. n) (count_at limit cut.old) result cut.new }
{
    let start = cut.rest();
    let count = cut.compact()?;
    if count > limit {
        *cut = Cut::new(start);
        return Err(Cause::TooMany);
    }
    Ok(count)
}

/// A hash.
pub fn hash_of(cut: &mut Cut) -> Result<Hash32, Cause>
    ensures { Reads (λ h. h) (hash_item_at cut.old) result cut.new }
{
    Ok(cut.hash()?)
}

fn hashes_of(alloc: Global, count: u64, cut: &mut Cut) -> Result<Hashes, Refused<Cause>>
    ensures { Gives (λ h. h) (list_at hash_item_at count cut.old) result cut.new }
{
    read_list(alloc, 0, count, cut, |cut| Ok(hash_of(cut)?))
}

#[tactic(auto, unfolding(crate::specs::Reading::getheaders_at))]
fn getheaders_of(alloc: Global, cut: &mut Cut) -> Result<Msg, Refused<Cause>>
    ensures { Gives (λ m. m) (getheaders_at cut.old) result cut.new }
{
    let version = cut.u32().map_err(Cause::Cut)?;
    let count = count_of(MAX_LOCATOR, cut)?;
    let locator = hashes_of(alloc, count, cut)?;
    let stop = hash_of(cut)?;
    Ok(Msg::GetHeaders {
        version,
        locator,
        stop,
    })
}

/// A header, and the zero after it that stands for the count of its transactions.
#[tactic(auto, unfolding(crate::specs::Reading::header_item_at))]
pub fn header_of(cut: &mut Cut) -> Result<Header, Cause>
    ensures { Reads (λ h. h) (header_item_at cut.old) result cut.new }
{
    let Ok(header) = parse_header(cut) else {
        return Err(Cause::Cut(CutFault::Short));
    };
    let start = cut.rest();
    if cut.u8()? != 0 {
        *cut = Cut::new(start);
        return Err(Cause::NotZero);
    }
    Ok(header)
}

fn header_list_of(alloc: Global, count: u64, cut: &mut Cut) -> Result<Headers, Refused<Cause>>
    ensures { Gives (λ h. h) (list_at header_item_at count cut.old) result cut.new }
{
    read_list(alloc, 0, count, cut, |cut| Ok(header_of(cut)?))
}

#[tactic(auto, unfolding(crate::specs::Reading::headers_at))]
fn headers_of(alloc: Global, cut: &mut Cut) -> Result<Msg, Refused<Cause>>
    ensures { Gives (λ m. m) (headers_at cut.old) result cut.new }
{
    let count = count_of(MAX_HEADERS, cut)?;
    let headers = header_list_of(alloc, count, cut)?;
    Ok(Msg::Headers(headers))
}

/// An entry of an inventory: its kind and its hash.
#[tactic(auto, unfolding(crate::specs::Reading::entry_at))]
pub fn entry_of(cut: &mut Cut) -> Result<Inventory, Cause>
    ensures { Reads (λ e. e) (entry_at cut.old) result cut.new }
{
    let kind = cut.u32()?;
    let hash = hash_of(cut)?;
    Ok(Inventory { kind, hash })
}

fn entry_list_of(alloc: Global, count: u64, cut: &mut Cut) -> Result<Entries, Refused<Cause>>
    ensures { Gives (λ e. e) (list_at entry_at count cut.old) result cut.new }
{
    read_list(alloc, 0, count, cut, |cut| Ok(entry_of(cut)?))
}

#[tactic(auto, unfolding(crate::specs::Reading::entries_at))]
fn entries_of(alloc: Global, cut: &mut Cut) -> Result<Entries, Refused<Cause>>
    ensures { Gives (λ e. e) (entries_at cut.old) result cut.new }
{
    let count = count_of(MAX_ENTRIES, cut)?;
    entry_list_of(alloc, count, cut)
}

#[tactic(auto, unfolding(crate::specs::Reading::getdata_at))]
fn getdata_of(alloc: Global, cut: &mut Cut) -> Result<Msg, Refused<Cause>>
    ensures { Gives (λ m. m) (getdata_at cut.old) result cut.new }
{
    let entries = entries_of(alloc, cut)?;
    Ok(Msg::GetData(entries))
}

#[tactic(auto, unfolding(crate::specs::Reading::inv_at))]
fn inv_of(alloc: Global, cut: &mut Cut) -> Result<Msg, Refused<Cause>>
    ensures { Gives (λ m. m) (inv_at cut.old) result cut.new }
{
    let entries = entries_of(alloc, cut)?;
    Ok(Msg::Inv(entries))
}

// A block takes all the bytes. Where it is refused the reader then stands at the refused field.
#[tactic(auto, unfolding(crate::specs::Reading::block_message_at), using(cf_block::proofs::Taken::block_place))]
fn block_of(alloc: Global, cut: &mut Cut) -> Result<Msg, Refused<Cause>>
    ensures { Gives (λ m. m) (block_message_at cut.old) result cut.new }
{
    let bytes = cut.rest();
    match parse_block(alloc, bytes) {
        Ok(block) => {
            *cut = Cut::new(&bytes[bytes.len()..]);
            Ok(Msg::Block(block))
        }
        Err(Refused::NoMemory) => Err(Refused::NoMemory),
        Err(Refused::No(fault)) => {
            *cut = Cut::new(&bytes[fault.place as usize..]);
            Err(Refused::No(Cause::Block(fault.kind)))
        }
    }
}

#[tactic(auto, unfolding(crate::specs::Reading::filter_hashes_at))]
fn filter_hashes_of(alloc: Global, cut: &mut Cut) -> Result<Hashes, Refused<Cause>>
    ensures { Gives (λ h. h) (filter_hashes_at cut.old) result cut.new }
{
    let count = count_of(MAX_FILTER_HASHES, cut)?;
    hashes_of(alloc, count, cut)
}

#[tactic(auto, unfolding(crate::specs::Reading::getcfilters_at))]
fn getcfilters_of(cut: &mut Cut) -> Result<Msg, Refused<Cause>>
    ensures { Gives (λ m. m) (getcfilters_at cut.old) result cut.new }
{
    let filter = cut.u8().map_err(Cause::Cut)?;
    let start = cut.u32().map_err(Cause::Cut)?;
    let stop = hash_of(cut)?;
    Ok(Msg::GetCfilters {
        filter,
        start,
        stop,
    })
}

#[tactic(auto, unfolding(crate::specs::Reading::cfilter_at))]
fn cfilter_of(alloc: Global, cut: &mut Cut) -> Result<Msg, Refused<Cause>>
    ensures { Gives (λ m. m) (cfilter_at cut.old) result cut.new }
{
    let filter = cut.u8().map_err(Cause::Cut)?;
    let block = hash_of(cut)?;
    let bytes = counted_of(alloc, cut)?;
    Ok(Msg::Cfilter {
        filter,
        block,
        bytes,
    })
}

#[tactic(auto, unfolding(crate::specs::Reading::getcfheaders_at))]
fn getcfheaders_of(cut: &mut Cut) -> Result<Msg, Refused<Cause>>
    ensures { Gives (λ m. m) (getcfheaders_at cut.old) result cut.new }
{
    let filter = cut.u8().map_err(Cause::Cut)?;
    let start = cut.u32().map_err(Cause::Cut)?;
    let stop = hash_of(cut)?;
    Ok(Msg::GetCfheaders {
        filter,
        start,
        stop,
    })
}

#[tactic(auto, unfolding(crate::specs::Reading::cfheaders_at))]
fn cfheaders_of(alloc: Global, cut: &mut Cut) -> Result<Msg, Refused<Cause>>
    ensures { Gives (λ m. m) (cfheaders_at cut.old) result cut.new }
{
    let filter = cut.u8().map_err(Cause::Cut)?;
    let stop = hash_of(cut)?;
    let previous = hash_of(cut)?;
    let hashes = filter_hashes_of(alloc, cut)?;
    Ok(Msg::Cfheaders {
        filter,
        stop,
        previous,
        hashes,
    })
}

#[tactic(auto, unfolding(crate::specs::Reading::getcfcheckpt_at))]
fn getcfcheckpt_of(cut: &mut Cut) -> Result<Msg, Refused<Cause>>
    ensures { Gives (λ m. m) (getcfcheckpt_at cut.old) result cut.new }
{
    let filter = cut.u8().map_err(Cause::Cut)?;
    let stop = hash_of(cut)?;
    Ok(Msg::GetCfcheckpt { filter, stop })
}

#[tactic(auto, unfolding(crate::specs::Reading::cfcheckpt_at))]
fn cfcheckpt_of(alloc: Global, cut: &mut Cut) -> Result<Msg, Refused<Cause>>
    ensures { Gives (λ m. m) (cfcheckpt_at cut.old) result cut.new }
{
    let filter = cut.u8().map_err(Cause::Cut)?;
    let stop = hash_of(cut)?;
    let headers = filter_hashes_of(alloc, cut)?;
    Ok(Msg::Cfcheckpt {
        filter,
        stop,
        headers,
    })
}
