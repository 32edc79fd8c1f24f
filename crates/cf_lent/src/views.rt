//! Messages whose lists and bytes are lent.

use crate::viewing::{EntriesView, HashesView, HeadersView, Text};
use cf_bytes::Hash32;
use cf_msg::NetAddress;
use cf_view::BlockView;

/// A message, by the command of its frame. Its lists and bytes are lent out of the payload.
#[derive(Drop)]
pub enum View<'a> {
    Version {
        version: i32,
        services: u64,
        time: i64,
        to: NetAddress,
        from: NetAddress,
        nonce: u64,
        agent: Text<'a>,
        height: i32,
        relay: Option<u8>,
    },
    Verack,
    Ping(u64),
    Pong(u64),
    GetHeaders {
        version: u32,
        locator: HashesView<'a>,
        stop: Hash32,
    },
    Headers(HeadersView<'a>),
    GetData(EntriesView<'a>),
    Inv(EntriesView<'a>),
    Block(BlockView<'a>),
    GetCfilters {
        filter: u8,
        start: u32,
        stop: Hash32,
    },
    Cfilter {
        filter: u8,
        block: Hash32,
        bytes: Text<'a>,
    },
    GetCfheaders {
        filter: u8,
        start: u32,
        stop: Hash32,
    },
    Cfheaders {
        filter: u8,
        stop: Hash32,
        previous: Hash32,
        hashes: HashesView<'a>,
    },
    GetCfcheckpt {
        filter: u8,
        stop: Hash32,
    },
    Cfcheckpt {
        filter: u8,
        stop: Hash32,
        headers: HashesView<'a>,
    },
    Other {
        command: [u8; 12],
        payload: Text<'a>,
    },
}
