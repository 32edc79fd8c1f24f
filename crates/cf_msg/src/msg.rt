//! Messages, and why a payload is none.
ghost use Rattle.std.specs.Prelude.{◌≡◌};
ghost use Rattle.cf_msg.specs.declared.msg.Cause.TheVariants.{Cut as OfCut};

use crate::lists::{Bytes, Entries, Hashes, Headers};
use cf_block::{Block, BlockFaultKind};
use cf_bytes::{CutFault, Fault, Hash32};
use thiserror::Error;

/// A network address as `version` has it: 26 bytes.
#[derive(Clone, Copy, Debug, PartialEq, Eq)]
pub struct NetAddress {
    /// The services of the node, a bit each.
    pub services: u64,
    /// The IPv6 address, or an IPv4 address that is mapped into it.
    pub ip: [u8; 16],
    /// The port, which is spelled with its high byte first.
    pub port: u16,
}

/// The kind of an inventory's entry that tells of a block, or asks for one in the form without witnesses.
pub const BLOCK_KIND: u32 = 2;

/// An entry of an inventory: 36 bytes.
#[derive(Clone, Copy, Debug, PartialEq, Eq)]
pub struct Inventory {
    /// The kind of the object: 1 a transaction, 2 a block. Any other is kept as it is.
    pub kind: u32,
    /// The hash of the object.
    pub hash: Hash32,
}

/// A message, by the command of its frame.
#[derive(Drop, Debug)]
pub enum Msg {
    /// The first message of each side.
    Version {
        /// The protocol's version that the sender speaks.
        version: i32,
        /// The sender's services, a bit each.
        services: u64,
        /// The sender's clock, in seconds since 1970.
        time: i64,
        to: NetAddress,
        from: NetAddress,
        /// A random number by which a node knows its own `version`.
        nonce: u64,
        /// The program's name, of at most 33,554,432 bytes.
        agent: Bytes,
        /// The height of the sender's chain.
        height: i32,
        /// Whether transactions are to be relayed (BIP 37): any byte, or none.
        relay: Option<u8>,
    },
    /// The answer to `version`.
    Verack,
    /// Asks for a `pong` with the same number.
    Ping(u64),
    /// The answer to `ping`.
    Pong(u64),
    /// Asks for the headers after the first known hash of a locator.
    GetHeaders {
        version: u32,
        /// Hashes of blocks from the tip downward, at most 101.
        locator: Hashes,
        /// The last block that is asked for, or zeros.
        stop: Hash32,
    },
    /// Headers in the order of their chain, at most 2000.
    Headers(Headers),
    /// Asks for the objects of these entries, at most 50,000.
    GetData(Entries),
    /// Tells of objects that the sender has, at most 50,000.
    Inv(Entries),
    /// A block, in the form without witnesses.
    Block(Block),
    /// Asks for the filters of the blocks from a height to a hash (BIP 157).
    GetCfilters {
        /// The filters' type; 0 is the basic one.
        filter: u8,
        /// The height of the first block.
        start: u32,
        /// The hash of the last block.
        stop: Hash32,
    },
    /// The filter of one block (BIP 157).
    Cfilter {
        filter: u8,
        /// The hash of the block.
        block: Hash32,
        /// The filter, of at most 33,554,432 bytes.
        bytes: Bytes,
    },
    /// Asks for the hashes of the filters from a height to a hash (BIP 157).
    GetCfheaders {
        filter: u8,
        start: u32,
        stop: Hash32,
    },
    /// Hashes of filters in the order of their blocks (BIP 157).
    Cfheaders {
        filter: u8,
        /// The hash of the last block.
        stop: Hash32,
        /// The filter header before the first hash.
        previous: Hash32,
        /// At most 2000.
        hashes: Hashes,
    },
    /// Asks for every thousandth filter header up to a block (BIP 157).
    GetCfcheckpt {
        filter: u8,
        stop: Hash32,
    },
    /// Every thousandth filter header up to a block (BIP 157).
    Cfcheckpt {
        filter: u8,
        stop: Hash32,
        /// At most 2000.
        headers: Hashes,
    },
    /// A message that isn't looked into.
    Other {
        command: [u8; 12],
        payload: Bytes,
    },
}

/// Why a field of a payload can't be read.
#[derive(Clone, Copy, Debug, PartialEq, Eq, Error)]
pub enum Cause {
    /// The field is cut off, or its number is badly spelled.
    #[error("a field is cut off or badly spelled")]
    Cut(CutFault),
    /// A field of a block breaks a rule.
    #[error("{0}")]
    Block(BlockFaultKind),
    /// A count is above what the message may have.
    #[error("a count is too large")]
    TooMany,
    /// The byte after a header isn't zero.
    #[error("the byte after a header isn't zero")]
    NotZero,
    /// Bytes stand after the last field.
    #[error("bytes stand after the last field")]
    Rest,
}

impl From<CutFault> for Cause {
    ghost from_gives = { λ fault e. e ≡ OfCut fault };

    fn from(fault: CutFault) -> Cause {
        Cause::Cut(fault)
    }
}

impl Fault for Cause {}

/// The first field of a payload that can't be read.
#[derive(Clone, Copy, Debug, PartialEq, Eq, Error)]
#[error("{cause}, at byte {place} of a payload")]
pub struct Malformed {
    /// The frame's command.
    pub command: [u8; 12],
    /// How many bytes of the payload stand before the field.
    pub place: usize,
    pub cause: Cause,
}

impl Fault for Malformed {}
