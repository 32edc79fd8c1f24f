//! Which replies are planned for a message.
ghost use Rattle.std.specs.Prelude.{◌≡◌, ◌≤◌, ◌-◌, suc, ◌++◌, map, length, IfSome, OnOk, OnErr};
ghost use Rattle.std.specs.List.{flat_map, range_with_len};
ghost use Rattle.cf_chain.specs.{fork_height, most_headers as most_of, range_end as range_end_of};
ghost use Rattle.cf_server.specs.declared.reply.Reply.TheVariants.{CfilterAt};
ghost use Rattle.cf_server.specs.Plans.{Begun, alone_plan, above_plan, headers_plan, data_plan, cfilters_plan, cfheaders_plan, cfcheckpt_plan, basic_height as basic_height_of, plan_for as plan_in, greeting_plan, plan_of};

use crate::reply::{Replies, Reply};
use cf_bytes::{Hash32, NoMemory};
use cf_index::Index;
use cf_msg::{BLOCK_KIND, Inventory, Msg};

/// The most headers of one message.
const MAX_HEADERS: u32 = 2000;

/// The most filters of one range.
const MAX_FILTERS: u32 = 1000;

/// The most filter headers of one range.
const MAX_FILTER_HEADERS: u32 = 2000;

/// The type of basic filters.
const BASIC: u8 = 0;

// Puts the replies to a message at the end, where this tells whether a version came before.
pub(crate) fn plan(index: &Index, seen: bool, msg: &Msg, out: &mut Replies) -> Result<(), NoMemory>
    ensures ok { OnOk result (out.new ≡ out.old ++ plan_of seen index.now msg.now) }
    ensures err { OnErr result (Begun out.old out.new (plan_of seen index.now msg.now)) }
{
    if seen {
        plan_for(index, msg, out)
    } else {
        plan_greeting(msg, out)
    }
}

// Before the first version only a version is answered.
fn plan_greeting(msg: &Msg, out: &mut Replies) -> Result<(), NoMemory>
    ensures ok { OnOk result (out.new ≡ out.old ++ greeting_plan msg.now) }
    ensures err { OnErr result (Begun out.old out.new (greeting_plan msg.now)) }
{
    match msg {
        Msg::Version { .. } => {
            out.push(Reply::OwnVersion)?;
            out.push(Reply::OwnVerack)
        }
        _ => Ok(()),
    }
}

// After it other messages are.
fn plan_for(index: &Index, msg: &Msg, out: &mut Replies) -> Result<(), NoMemory>
    ensures ok { OnOk result (out.new ≡ out.old ++ plan_in index.now msg.now) }
    ensures err { OnErr result (Begun out.old out.new (plan_in index.now msg.now)) }
{
    match msg {
        Msg::Ping(number) => out.push(Reply::PongOf(*number)),
        Msg::GetHeaders { locator, stop, .. } => {
            plan_headers(index, locator.as_slice(), stop, out)
        }
        Msg::GetData(entries) => plan_data(index, entries.as_slice(), out),
        Msg::GetCfilters {
            filter,
            start,
            stop,
        } => plan_cfilters(
            *start,
            range_end(index, MAX_FILTERS, *filter, *start, stop),
            out,
        ),
        Msg::GetCfheaders {
            filter,
            start,
            stop,
        } => {
            let end = range_end(index, MAX_FILTER_HEADERS, *filter, *start, stop);
            plan_cfheaders(*start, end, stop, out)
        }
        Msg::GetCfcheckpt { filter, stop } => plan_cfcheckpt(index, *filter, stop, out),
        _ => Ok(()),
    }
}

// The height of the first hash of a locator that is in the chain, genesis's where none is.
fn fork_of(index: &Index, locator: &[Hash32]) -> u32
    ensures height { result ≡ fork_height locator.now index.now }
    ensures within { result ≤ length index.now }
{
    for hash in locator {
        if let Some(height) = index.height_of(hash) {
            return height;
        }
    }
    0
}

// How many headers may be sent above a height and up to a stop. A stop that isn't above is never met.
fn most_headers(fork: u32, stop: Option<u32>) -> u32
    ensures { result ≡ most_of fork stop }
{
    match stop {
        None => MAX_HEADERS,
        Some(stop) => {
            if fork < stop {
                MAX_HEADERS.min(stop - fork)
            } else {
                MAX_HEADERS
            }
        }
    }
}

fn plan_headers(
    index: &Index,
    locator: &[Hash32],
    stop: &Hash32,
    out: &mut Replies,
) -> Result<(), NoMemory>
    ensures ok { OnOk result (out.new ≡ out.old ++ headers_plan locator.now stop.now index.now) }
    ensures err { OnErr result (out.new ≡ out.old) }
{
    let stop = index.height_of(stop);
    if locator.is_empty() {
        plan_header_alone(stop, out)
    } else {
        let fork = fork_of(index, locator);
        plan_headers_above(index, fork, stop, out)
    }
}

// Without a locator the one header of the stop hash is asked for.
fn plan_header_alone(stop: Option<u32>, out: &mut Replies) -> Result<(), NoMemory>
    ensures ok { OnOk result (out.new ≡ out.old ++ alone_plan stop) }
    ensures err { OnErr result (out.new ≡ out.old) }
{
    match stop {
        None => Ok(()),
        Some(start) => out.push(Reply::HeadersOf { start, count: 1 }),
    }
}

fn plan_headers_above(
    index: &Index,
    fork: u32,
    stop: Option<u32>,
    out: &mut Replies,
) -> Result<(), NoMemory>
    requires { fork ≤ length index.now }
    ensures ok { OnOk result (out.new ≡ out.old ++ above_plan fork stop index.now) }
    ensures err { OnErr result (out.new ≡ out.old) }
{
    let count = most_headers(fork, stop).min(index.tip() - fork);
    out.push(Reply::HeadersOf {
        start: fork + 1,
        count,
    })
}

fn plan_data(index: &Index, entries: &[Inventory], out: &mut Replies) -> Result<(), NoMemory>
    ensures ok { OnOk result (out.new ≡ out.old ++ flat_map (data_plan index.now) entries.now) }
    ensures err { OnErr result (Begun out.old out.new (flat_map (data_plan index.now) entries.now)) }
{
    for entry in entries {
        plan_entry(index, entry, out)?;
    }
    Ok(())
}

fn plan_entry(index: &Index, entry: &Inventory, out: &mut Replies) -> Result<(), NoMemory>
    ensures ok { OnOk result (out.new ≡ out.old ++ data_plan index.now entry.now) }
    ensures err { OnErr result (out.new ≡ out.old) }
{
    if entry.kind != BLOCK_KIND {
        return Ok(());
    }
    match index.height_of(&entry.hash) {
        None => Ok(()),
        Some(height) => out.push(Reply::BlockAt(height)),
    }
}

// The height of a hash, where a basic filter is asked for.
fn basic_height(index: &Index, filter: u8, stop: &Hash32) -> Option<u32>
    ensures { result ≡ basic_height_of filter stop.now index.now }
{
    if filter != BASIC {
        return None;
    }
    index.height_of(stop)
}

// The height where a range of basic filters ends that may be asked for: it begins no later, and has at most so many
// heights.
fn range_end(index: &Index, most: u32, filter: u8, start: u32, stop: &Hash32) -> Option<u32>
    ensures end { result ≡ range_end_of most filter start stop.now index.now }
    ensures from { IfSome result (λ last. start ≤ last) }
{
    match basic_height(index, filter, stop) {
        None => None,
        Some(height) => {
            if start <= height && height - start < most {
                Some(height)
            } else {
                None
            }
        }
    }
}

fn plan_cfilters(start: u32, end: Option<u32>, out: &mut Replies) -> Result<(), NoMemory>
    requires { IfSome end (λ last. start ≤ last) }
    ensures ok { OnOk result (out.new ≡ out.old ++ cfilters_plan start end) }
    ensures err { OnErr result (Begun out.old out.new (cfilters_plan start end)) }
{
    match end {
        None => Ok(()),
        Some(last) => plan_each_cfilter(start, last, out),
    }
}

// A filter for each height from one to another.
fn plan_each_cfilter(start: u32, last: u32, out: &mut Replies) -> Result<(), NoMemory>
    requires { start ≤ last }
    ensures ok { OnOk result (out.new ≡ out.old ++ map (λ h. CfilterAt h) (range_with_len start (suc last - start))) }
    ensures err { OnErr result
        (Begun out.old out.new (map (λ h. CfilterAt h) (range_with_len start (suc last - start)))) }
{
    for height in start..=last {
        out.push(Reply::CfilterAt(height))?;
    }
    Ok(())
}

fn plan_cfheaders(
    start: u32,
    end: Option<u32>,
    stop: &Hash32,
    out: &mut Replies,
) -> Result<(), NoMemory>
    ensures ok { OnOk result (out.new ≡ out.old ++ cfheaders_plan start end stop.now) }
    ensures err { OnErr result (out.new ≡ out.old) }
{
    match end {
        None => Ok(()),
        Some(stop_height) => out.push(Reply::CfheadersOf {
            start,
            stop_height,
            stop: *stop,
        }),
    }
}

fn plan_cfcheckpt(
    index: &Index,
    filter: u8,
    stop: &Hash32,
    out: &mut Replies,
) -> Result<(), NoMemory>
    ensures ok { OnOk result
        (out.new ≡ out.old ++ cfcheckpt_plan (basic_height_of filter stop.now index.now) stop.now) }
    ensures err { OnErr result (out.new ≡ out.old) }
{
    match basic_height(index, filter, stop) {
        None => Ok(()),
        Some(stop_height) => out.push(Reply::CfcheckptOf {
            stop_height,
            stop: *stop,
        }),
    }
}
