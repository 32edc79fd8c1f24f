//! Filters that leave scripts out, and the messages that tell of them (BIP 158, "Contents"; BIP 157, "New Messages").
ghost use Rattle.std.specs.Prelude.{◌≡◌, ◌≤◌, ◌<◌, ◌+◌, Bool, true, length, IfOk, IfSome, OnOk};
ghost use Rattle.std.specs.List.{AllByRecursion};
ghost use Rattle.cf_block.specs.{IsHash};
ghost use Rattle.cf_headers.specs.{height_limit};
ghost use Rattle.cf_played.specs.Answers.{is_filtering};
ghost use Rattle.cf_played.specs.Frames.{AreFramesAlike, IsFrameAlike, IsOther, machine};
ghost use Rattle.cf_server.specs.{IsReplyOf, AreRepliesOf, message_of, messages_of};

use crate::filtered::Filtered;
use crate::frames::{message_frame, own_frame, put_frame};
use cf_block::{Block, OutPoint, Script, Tx, block_hash, genesis};
use cf_bytes::{Hash32, Listed, NoMemory};
use cf_filter::{build, filter_hash, filter_header, items};
use cf_index::{CheckedChain, Index, TxIndex};
use cf_msg::{Bytes, Hashes, Msg};
use cf_server::Reply;
use std::alloc::Global;

/// The most items of a filter.
const MOST_ITEMS: usize = 33_554_432;

/// The most bytes of a filter that surely fits into a frame.
const MOST_BYTES: usize = 3_999_900;

/// The type of basic filters.
const BASIC: u8 = 0;

/// No hash.
const NO_HASH: Hash32 = Hash32([0; 32]);

// The script that an output of the chain pays, if it is there.
fn script_of(
    alloc: Global,
    chain: &CheckedChain,
    places: &TxIndex,
    prev: &OutPoint,
) -> Result<Option<Script>, NoMemory> {
    let Some((height, place)) = places.find(&prev.txid) else {
        return Ok(None);
    };
    let Some(block) = chain.blocks().get((height as usize).saturating_sub(1)) else {
        return Ok(None);
    };
    let Some(tx) = block.txs.as_slice().get(place as usize) else {
        return Ok(None);
    };
    match tx.outputs.as_slice().get(prev.index as usize) {
        Some(output) => Ok(Some(output.script.copy(alloc)?)),
        None => Ok(None),
    }
}

// Puts the scripts that a transaction's inputs spend at the end.
fn put_spent(
    alloc: Global,
    chain: &CheckedChain,
    places: &TxIndex,
    tx: &Tx,
    spent: &mut Vec<Script>,
) -> Result<(), NoMemory> {
    for input in tx.inputs.as_slice() {
        if let Some(script) = script_of(alloc, chain, places, &input.prev)? {
            spent.push(script)?;
        }
    }
    Ok(())
}

// The scripts that a block's inputs spend.
fn spent_by(
    alloc: Global,
    chain: &CheckedChain,
    places: &TxIndex,
    block: &Block,
) -> Result<Vec<Script>, NoMemory> {
    let mut spent = Vec::new(alloc);
    for tx in block.txs.as_slice() {
        put_spent(alloc, chain, places, tx, &mut spent)?;
    }
    Ok(spent)
}

// The filter of a block without these scripts, above the filter header before.
fn filter_without(
    alloc: Global,
    block: &Block,
    spent: &[Script],
    scripts: &[Script],
    previous: &Hash32,
) -> Result<Filtered, NoMemory> {
    let block_name = block_hash(&block.header);
    let kept = items(alloc, block, spent)?.without(alloc, scripts)?;
    if kept.len() > MOST_ITEMS {
        return Err(NoMemory);
    }
    let filter = build(alloc, &block_name, &kept)?;
    let hash = filter_hash(&filter);
    Ok(Filtered {
        block: block_name,
        filter: Listed::from_vec(filter),
        hash,
        header: filter_header(&hash, previous),
    })
}

// The filters of genesis and of a chain's blocks without these scripts, in the order of their heights, from 0.
pub(crate) fn filters_without(
    alloc: Global,
    chain: &CheckedChain,
    scripts: &[Script],
) -> Result<Listed<Filtered>, NoMemory> {
    let places = TxIndex::of(alloc, chain)?;
    let first = genesis(alloc)?;
    let mut filters = Listed::new(alloc);
    let lowest = filter_without(alloc, &first, &[], scripts, &NO_HASH)?;
    let mut previous = lowest.header;
    filters.push(lowest)?;
    for block in chain.blocks() {
        let spent = spent_by(alloc, chain, &places, block)?;
        let filter = filter_without(alloc, block, &spent, scripts, &previous)?;
        previous = filter.header;
        filters.push(filter)?;
    }
    Ok(filters)
}

// A hash has 32 bytes.
fn seen_hash(hash: Hash32) -> Hash32
    ensures { IsHash result }
{
    hash
}

// The filter header before a height: zeros before genesis.
fn header_before(filters: &[Filtered], height: u32) -> Hash32
    ensures { IsHash result }
{
    if height == 0 {
        return seen_hash(NO_HASH);
    }
    match filters.get(height as usize - 1) {
        Some(filter) => seen_hash(filter.header),
        None => seen_hash(NO_HASH),
    }
}

// Puts a hash at the end.
fn put_hash(hashes: &mut Hashes, hash: Hash32) -> Result<(), NoMemory>
    ensures each { OnOk result (AllByRecursion IsHash hashes.old → AllByRecursion IsHash hashes.new) }
    ensures len { OnOk result (length hashes.new ≡ length hashes.old + 1) }
{
    hashes.push(hash)?;
    Ok(())
}

// The hashes of filters.
fn hashes_of(alloc: Global, filters: &[Filtered]) -> Result<Hashes, NoMemory>
    ensures each { IfOk result (λ hashes. AllByRecursion IsHash hashes) }
    ensures len { IfOk result (λ hashes. length hashes ≡ length filters.now) }
{
    let mut hashes = Hashes::new(alloc);
    for filter in filters {
        put_hash(&mut hashes, filter.hash)?;
    }
    Ok(hashes)
}

// Every thousandth filter header, so many of them.
fn checkpoints(alloc: Global, filters: &[Filtered], count: u32) -> Result<Hashes, NoMemory>
    requires { count ≤ 2000 }
    ensures each { IfOk result (λ hashes. AllByRecursion IsHash hashes) }
    ensures len { IfOk result (λ hashes. length hashes ≡ count) }
{
    let mut hashes = Hashes::new(alloc);
    for i in 0..count {
        let header = header_before(filters, 1000 * (i + 1) + 1);
        put_hash(&mut hashes, header)?;
    }
    Ok(hashes)
}

// The `cfilter` with these bytes; bytes that are too many are refused as for want of memory.
fn cfilter_with(block: Hash32, bytes: Bytes) -> Result<Msg, NoMemory>
    ensures { IfOk result IsOther }
{
    if bytes.len() > MOST_BYTES {
        return Err(NoMemory);
    }
    Ok(Msg::Cfilter {
        filter: BASIC,
        block,
        bytes,
    })
}

fn cfilter(alloc: Global, filter: &Filtered) -> Result<Msg, NoMemory>
    ensures { IfOk result IsOther }
{
    let bytes = Vec::from_slice(alloc, filter.filter.as_slice())?;
    cfilter_with(filter.block, Bytes::from_vec(bytes))
}

fn cfheaders(
    alloc: Global,
    filters: &[Filtered],
    start: u32,
    stop_height: u32,
    stop: Hash32,
) -> Result<Msg, NoMemory>
    requires { stop_height < start + 2000 }
    ensures { IfOk result IsOther }
{
    let end = filters.len().min(stop_height as usize + 1);
    let first = end.min(start as usize);
    let hashes = hashes_of(alloc, &filters[first..end])?;
    Ok(Msg::Cfheaders {
        filter: BASIC,
        stop,
        previous: header_before(filters, start),
        hashes,
    })
}

fn cfcheckpt(
    alloc: Global,
    filters: &[Filtered],
    stop_height: u32,
    stop: Hash32,
) -> Result<Msg, NoMemory>
    requires { stop_height ≤ height_limit }
    ensures { IfOk result IsOther }
{
    Ok(Msg::Cfcheckpt {
        filter: BASIC,
        stop,
        headers: checkpoints(alloc, filters, stop_height / 1000)?,
    })
}

// The message of these filters that stands in place of a reply about filters, if there is one.
fn other_message(
    alloc: Global,
    index: &Index,
    filters: &[Filtered],
    reply: Reply,
) -> Result<Option<Msg>, NoMemory>
    requires { IsReplyOf index.now reply }
    ensures { IfOk result (λ message. IfSome message (λ m. IsOther m × ((seen : Bool)
        → is_filtering (message_of (machine seen) index.now reply) ≡ true))) }
{
    // An index has a good chain, so that the message can be sent.
    let _tip = index.tip();
    match reply {
        Reply::CfilterAt(height) => match filters.get(height as usize) {
            Some(filter) => Ok(Some(cfilter(alloc, filter)?)),
            None => Ok(None),
        },
        Reply::CfheadersOf {
            start,
            stop_height,
            stop,
        } => Ok(Some(cfheaders(alloc, filters, start, stop_height, stop)?)),
        Reply::CfcheckptOf { stop_height, stop } => {
            Ok(Some(cfcheckpt(alloc, filters, stop_height, stop)?))
        }
        Reply::OwnVersion
        | Reply::OwnVerack
        | Reply::PongOf(_)
        | Reply::HeadersOf { .. }
        | Reply::BlockAt(_) => Ok(None),
    }
}

// The frame of a reply, with these filters in place of the chain's.
fn omitted_frame(
    alloc: Global,
    index: &Index,
    filters: &[Filtered],
    seen: bool,
    reply: Reply,
) -> Result<Vec<u8>, NoMemory>
    requires { IsReplyOf index.now reply }
    ensures { IfOk result (λ bytes. IsFrameAlike (message_of (machine seen) index.now reply) bytes.items) }
{
    match other_message(alloc, index, filters, reply)? {
        Some(message) => message_frame(alloc, &message),
        None => own_frame(alloc, index, seen, reply),
    }
}

// The frames of replies, one after another, with these filters in place of the chain's.
pub(crate) fn omitted_text(
    alloc: Global,
    index: &Index,
    filters: &[Filtered],
    seen: bool,
    replies: &[Reply],
) -> Result<Vec<u8>, NoMemory>
    requires { AreRepliesOf index.now replies.now }
    ensures { IfOk result (λ text. AreFramesAlike (messages_of (machine seen) index.now replies.now) text.items) }
{
    let mut text = Vec::new(alloc);
    for reply in replies {
        let frame = omitted_frame(alloc, index, filters, seen, *reply)?;
        put_frame(&mut text, frame)?;
    }
    Ok(text)
}
