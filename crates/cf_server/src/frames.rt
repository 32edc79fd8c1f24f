//! The frames of replies, one at a time.
ghost use Rattle.std.specs.Prelude.{◌≡◌, ◌≤◌, ◌<◌, ◌+◌, ◌++◌, suc, List, length, map, take, drop, slice_index_or, Some, IfOk, OnOk};
ghost use Rattle.std.specs.Option.{option_to_list};
ghost use Rattle.cf_block.specs.declared.tx.Block.{Block};
ghost use Rattle.cf_block.specs.{first_block};
ghost use Rattle.cf_frame.specs.{IsFrame, spelling};
ghost use Rattle.cf_msg.specs.declared.msg.Msg.TheVariants.{Block as BlockMessage, Cfilter as CfilterMessage, Headers as HeadersMessage};
ghost use Rattle.cf_msg.specs.{IsWithinLimits, frame_of, payload_of};
ghost use Rattle.cf_chain.specs.{first_filtered, filters_of, filter_at, IsGoodChain, all_blocks, block_height, version_reply, cfilter_of, cfheaders_of, cfcheckpt_of, header_or_zeros as header_shown, header_before as header_shown_before, thousands};
ghost use Rattle.cf_headers.specs.{height_limit};
ghost use Rattle.cf_filter.specs.{filter_hash_of};
ghost use Rattle.cf_server.specs.Replies.{IsReplyOf, message_of};

use crate::answering::Serving;
use crate::reply::Reply;
use cf_block::Listed;
use cf_bytes::{Hash32, NoMemory};
use cf_frame::{Frame, encode};
use cf_index::Index;
use cf_msg::{Bytes, Hashes, Headers, Msg, NetAddress, frame_block, write};
use std::alloc::Global;

/// The version of the protocol that the server speaks.
const PROTOCOL: i32 = 70016;

/// The server's services: it keeps the chain (bit 0), and answers about filters (bit 6).
const SERVICES: u64 = 65;

/// The type of basic filters.
const BASIC: u8 = 0;

/// An address that isn't told.
const NO_ADDRESS: NetAddress = NetAddress {
    services: 0,
    ip: [0; 16],
    port: 0,
};

/// No hash.
const NO_HASH: Hash32 = Hash32([0; 32]);

/// The bytes of the frame of a reply.
pub fn write_reply(
    alloc: Global,
    index: &Index,
    served: &Serving,
    reply: Reply,
) -> Result<Vec<u8>, NoMemory>
    requires { IsReplyOf index.now reply }
    ensures { IfOk result (λ bytes. bytes.items ≡ spelling (frame_of (message_of served.now index.now reply))) }
{
    let tip = index.tip();
    match reply {
        Reply::OwnVersion => own_version(alloc, served, tip),
        Reply::OwnVerack => message_bytes(alloc, &Msg::Verack),
        Reply::PongOf(number) => message_bytes(alloc, &Msg::Pong(number)),
        Reply::HeadersOf { start, count } => headers_bytes(alloc, index, start, count),
        Reply::BlockAt(height) => block_bytes(alloc, index, height),
        Reply::CfilterAt(height) => cfilter_bytes(alloc, index, height),
        Reply::CfheadersOf {
            start,
            stop_height,
            stop,
        } => cfheaders_bytes(alloc, index, start, stop_height, &stop),
        Reply::CfcheckptOf { stop_height, stop } => {
            cfcheckpt_bytes(alloc, index, stop_height, &stop)
        }
    }
}

fn frame_bytes(alloc: Global, frame: &Frame) -> Result<Vec<u8>, NoMemory>
    requires { IsFrame frame.now }
    ensures { IfOk result (λ bytes. bytes.items ≡ spelling frame.now) }
{
    encode(alloc, &frame.command, frame.payload.as_slice())
}

/// The bytes of the frame of a message, where they fit into one.
pub fn message_bytes(alloc: Global, msg: &Msg) -> Result<Vec<u8>, NoMemory>
    requires limits { IsWithinLimits msg.now }
    requires fits { length (payload_of msg.now) ≤ 4000000 }
    ensures { IfOk result (λ bytes. bytes.items ≡ spelling (frame_of msg.now)) }
{
    let frame = write(alloc, msg)?;
    frame_bytes(alloc, &frame)
}

// The server's version, where the chain is so high.
fn own_version(alloc: Global, served: &Serving, tip: u32) -> Result<Vec<u8>, NoMemory>
    requires { tip ≤ height_limit }
    ensures { IfOk result (λ bytes. (blocks : List Block) → tip ≡ length blocks
        → bytes.items ≡ spelling (frame_of (version_reply served.now.time served.now.nonce blocks))) }
{
    let agent = Vec::from_slice(alloc, b"/cf:1/")?;
    let version = Msg::Version {
        version: PROTOCOL,
        services: SERVICES,
        time: served.time,
        to: NO_ADDRESS,
        from: NO_ADDRESS,
        nonce: served.nonce,
        agent: Bytes::from_vec(agent),
        height: tip as i32,
        relay: Some(0),
    };
    message_bytes(alloc, &version)
}

// Puts one at the end, where there is one.
fn push_some<T: Drop>(list: &mut Listed<T>, item: Option<T>) -> Result<(), NoMemory>
    ensures { OnOk result (list.new ≡ list.old ++ option_to_list item) }
{
    match item {
        None => Ok(()),
        Some(item) => list.push(item),
    }
}

// The headers of so many blocks, from a height on.
fn headers_from(alloc: Global, index: &Index, start: u32, count: u32) -> Result<Headers, NoMemory>
    requires good { IsGoodChain index.now }
    requires there { start + count ≤ suc (length index.now) }
    ensures { IfOk result (λ headers. headers ≡ take count (drop start (map (λ b. b.header) (all_blocks index.now)))) }
{
    let mut headers = Headers::from_vec(Vec::with_capacity(alloc, count as usize)?);
    for i in 0..count {
        push_some(&mut headers, index.header(start + i))?;
    }
    Ok(headers)
}

fn headers_bytes(alloc: Global, index: &Index, start: u32, count: u32) -> Result<Vec<u8>, NoMemory>
    requires good { IsGoodChain index.now }
    requires few { count ≤ 2000 }
    requires there { start + count ≤ suc (length index.now) }
    ensures { IfOk result (λ bytes. bytes.items
        ≡ spelling (frame_of (HeadersMessage (take count (drop start (map (λ b. b.header) (all_blocks index.now))))))) }
{
    let headers = headers_from(alloc, index, start, count)?;
    message_bytes(alloc, &Msg::Headers(headers))
}

fn block_bytes(alloc: Global, index: &Index, height: u32) -> Result<Vec<u8>, NoMemory>
    requires good { IsGoodChain index.now }
    requires there { height ≤ length index.now }
    ensures { IfOk result (λ bytes. bytes.items
        ≡ spelling (frame_of (BlockMessage (slice_index_or (all_blocks index.now) height first_block)))) }
{
    match index.block(height) {
        None => unreachable!(),
        Some(block) => {
            let frame = frame_block(alloc, block)?;
            frame_bytes(alloc, &frame)
        }
    }
}

/// The bytes of the frame of a basic filter, by its block's hash.
pub fn filter_bytes(alloc: Global, block: Hash32, filter: &[u8]) -> Result<Vec<u8>, NoMemory>
    requires { length filter.now ≤ 3999900 }
    ensures { IfOk result (λ bytes. bytes.items ≡ spelling (frame_of (CfilterMessage 0 block filter.now))) }
{
    let bytes = Bytes::from_vec(Vec::from_slice(alloc, filter)?);
    message_bytes(
        alloc,
        &Msg::Cfilter {
            filter: BASIC,
            block,
            bytes,
        },
    )
}

fn cfilter_bytes(alloc: Global, index: &Index, height: u32) -> Result<Vec<u8>, NoMemory>
    requires good { IsGoodChain index.now }
    requires there { height ≤ length index.now }
    ensures { IfOk result (λ bytes. bytes.items
        ≡ spelling (frame_of (cfilter_of (slice_index_or (filters_of index.now) height first_filtered)))) }
{
    let (Some(block), Some(filter)) = (index.hash(height), index.filter(height)) else {
        unreachable!()
    };
    filter_bytes(alloc, block, filter)
}

// The filter header at a height, or zeros above the chain.
fn header_or_zeros(index: &Index, height: u32) -> Hash32
    ensures { result ≡ header_shown (filter_at index.now height) }
{
    index.filter_header(height).unwrap_or(NO_HASH)
}

// The filter header before a height: zeros before genesis.
fn header_before(index: &Index, height: u32) -> Hash32
    ensures { result ≡ header_shown_before height index.now }
{
    if height == 0 {
        NO_HASH
    } else {
        header_or_zeros(index, height - 1)
    }
}

// So many filter hashes, from a height on.
fn filter_hashes_from(
    alloc: Global,
    index: &Index,
    start: u32,
    count: u32,
) -> Result<Hashes, NoMemory>
    requires good { IsGoodChain index.now }
    requires there { start + count ≤ suc (length index.now) }
    ensures { IfOk result (λ hashes. hashes ≡ map
        (λ f. record { 0 = filter_hash_of f.filter }) (take count (drop start (filters_of index.now)))) }
{
    let mut hashes = Hashes::new(alloc);
    for i in 0..count {
        push_some(&mut hashes, index.filter_hash(start + i))?;
    }
    Ok(hashes)
}

fn cfheaders_bytes(
    alloc: Global,
    index: &Index,
    start: u32,
    stop_height: u32,
    stop: &Hash32,
) -> Result<Vec<u8>, NoMemory>
    requires good { IsGoodChain index.now }
    requires order { start ≤ stop_height }
    requires few { stop_height < start + 2000 }
    requires there { block_height stop.now index.now ≡ Some stop_height }
    ensures { IfOk result
        (λ bytes. bytes.items ≡ spelling (frame_of (cfheaders_of start stop_height stop.now index.now))) }
{
    let hashes = filter_hashes_from(alloc, index, start, stop_height - start + 1)?;
    message_bytes(
        alloc,
        &Msg::Cfheaders {
            filter: BASIC,
            stop: *stop,
            previous: header_before(index, start),
            hashes,
        },
    )
}

// Every thousandth filter header, so many of them.
fn checkpoints(alloc: Global, index: &Index, count: u32) -> Result<Hashes, NoMemory>
    requires { count ≤ 500 }
    ensures { IfOk result (λ headers. headers ≡ map (λ h. header_shown (filter_at index.now h)) (thousands count)) }
{
    let mut headers = Hashes::new(alloc);
    for i in 0..count {
        headers.push(header_or_zeros(index, 1000 * (i + 1)))?;
    }
    Ok(headers)
}

fn cfcheckpt_bytes(
    alloc: Global,
    index: &Index,
    stop_height: u32,
    stop: &Hash32,
) -> Result<Vec<u8>, NoMemory>
    requires good { IsGoodChain index.now }
    requires there { block_height stop.now index.now ≡ Some stop_height }
    ensures { IfOk result (λ bytes. bytes.items ≡ spelling (frame_of (cfcheckpt_of stop_height stop.now index.now))) }
{
    let headers = checkpoints(alloc, index, stop_height / 1000)?;
    message_bytes(
        alloc,
        &Msg::Cfcheckpt {
            filter: BASIC,
            stop: *stop,
            headers,
        },
    )
}
