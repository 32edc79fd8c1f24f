//! What the client keeps of one peer.
ghost use Rattle.std.specs.Prelude.{◌≡◌, ◌+◌, List, true, false, not, None, Some, IfNone, IfSome, ◌∷◌, [], length};
ghost use Rattle.cf_block.specs.declared.header.Header.{Header};
ghost use Rattle.cf_block.specs.declared.tx.Block.{Block};
ghost use Rattle.cf_block.specs.{block_hash_of, commit_fault};
ghost use Rattle.cf_dispute.specs.{Table};
ghost use Rattle.cf_headers.specs.{accept, link_height, change_of};
ghost use Rattle.cf_msg.specs.declared.msg.Msg.{Msg};
ghost use Rattle.std.specs.List.{list_any};
ghost use Rattle.cf_msg.specs.declared.msg.Inventory.{Inventory};
ghost use Rattle.cf_msg.specs.declared.msg.Msg.TheVariants.{Inv, Block as BlockMessage};
ghost use Rattle.cf_lent.specs.{msg_of};
ghost use Rattle.cf_peer.specs.Trail.{Trail, Said, Passed, is_unknown, own};
ghost use Rattle.cf_peer.specs.Asking.{request, fetched_by};
ghost use Rattle.cf_peer.specs.Peer.{Holds, Hears, IsRight, TakesHeaders, calm, called_peer, is_ready_peer, is_idle_peer, is_plain, IsVersionOf, heard_out, heard_up_to, wants, awaits as awaits_block, is_pinged as pinged_by, asked_for_headers, asked_for_block, asked_for_ping, IsReplySendable};

use crate::mode::Mode;
use cf_bytes::{Hash32, Listed};
use cf_frame::Framer;
use cf_headers::Change;
use cf_lent::View;
use cf_match::Job;
use cf_msg::{Hashes, Msg};
use std::alloc::Global;
use thiserror::Error;

/// Why a peer is closed.
#[derive(Clone, Copy, Debug, PartialEq, Eq, Error)]
pub enum Cause {
    /// Its bytes are no frame.
    #[error("BadFrame")]
    BadFrame = 1,
    /// A frame's payload is no spelling of the command's message.
    #[error("Malformed")]
    Malformed = 2,
    /// Its version lacks service bit 0 or 6.
    #[error("NoFilters")]
    NoFilters = 3,
    /// Its headers don't begin on its own chain.
    #[error("Unlinked")]
    Unlinked = 4,
    /// A header breaks a rule.
    #[error("InvalidHeader")]
    InvalidHeader = 5,
    /// Its chain would be above the greatest height.
    #[error("TooHigh")]
    TooHigh = 6,
    /// Its answer to `getcfheaders` has another number of hashes than blocks were asked for.
    #[error("WrongCount")]
    WrongCount = 7,
    /// Its answer to `getcfheaders` gives another filter header before them than it claims at the block below.
    #[error("WrongPrevious")]
    WrongPrevious = 8,
    /// The filter that it was asked for hasn't the hash that it claims.
    #[error("OtherFilter")]
    OtherFilter = 9,
    /// Its block has a header that doesn't stand for its transactions.
    #[error("BadBlock")]
    BadBlock = 10,
    /// A send to it failed.
    #[error("SendFailed")]
    SendFailed = 11,
    /// It left a request open for 60 seconds or more.
    #[error("Overdue")]
    Overdue = 12,
    /// It claims a filter that omits the script of an output of a fetched block.
    #[error("Omits")]
    Omits = 13,
}

/// A run of blocks whose filters' hashes were asked for. Hashes are in wire order.
#[derive(Drop, Debug)]
pub struct Range {
    /// The hash of the last of them.
    pub stop: Hash32,
    /// The hash of the block below the first.
    pub parent: Hash32,
    /// Their hashes, the lowest first, at most 2000.
    pub blocks: Hashes,
}

/// A run of blocks whose filters were asked for. Hashes are in wire order.
#[derive(Drop, Debug)]
pub struct Batch {
    /// Their hashes, the lowest first, at most 1000.
    pub blocks: Hashes,
    /// The filters that came, each for the next of them.
    pub came: Listed<Job>,
}

/// The one request that is open to a peer, with its age in seconds.
#[derive(Drop, Debug)]
pub enum Request {
    /// Nothing is open.
    Nothing,
    /// The handshake, since the peer was dialled.
    Handshake(u64),
    /// `getheaders`.
    Headers(u64),
    /// `getcfheaders`.
    Claims(Range, u64),
    /// `getcfilters`.
    Filters(Batch, u64),
    /// `getdata` of the block with this hash.
    Block(Hash32, u64),
    /// `ping` with this number.
    Ping(u64, u64),
}

/// What a message has the client do.
#[derive(Drop, Debug)]
pub enum Reaction {
    /// Nothing.
    Nothing,
    /// A message is sent back.
    Send(Msg),
    /// The peer is closed.
    Close(Cause),
    /// Who claims of the block with the first hash the filter with the second is closed.
    Expose(Hash32, Hash32),
}

/// A connected peer.
#[derive(Drop)]
pub struct Peer {
    pub(crate) framer: Framer,
    pub(crate) met: bool,
    // Whether it has no more to tell: at all, and since its last news.
    pub(crate) heard: bool,
    pub(crate) current: bool,
    pub(crate) request: Request,
    // How many pings it was sent since it was dialled.
    pub(crate) pings: u64,
}

impl Peer {
    /// A peer that was just dialled: its handshake is open.
    pub fn called(alloc: Global) -> Peer
        ensures { result ≡ called_peer }
    {
        Peer {
            framer: Framer::new(alloc),
            met: false,
            heard: false,
            current: false,
            request: Request::Handshake(0),
            pings: 0,
        }
    }

    /// Whether its handshake is over.
    pub fn is_ready(&self) -> bool
        ensures { result ≡ is_ready_peer self.now }
    {
        !matches!(self.request, Request::Handshake(_))
    }

    /// Takes one message that is neither headers nor claims, a filter, a block or news.
    #[tactic(auto, unfolding(cf_msg::specs::Message::payload_of), using(crate::proofs::Modes::unheard_in))]
    pub fn hear(&mut self, message: &View) -> Reaction
        requires plain { is_plain (msg_of message.now) ≡ true }
        ensures sendable { IsReplySendable result }
        ensures heard { (t : Trail) → Holds self.old t → Hears self.new (msg_of message.now) t result }
        ensures right { (table : Table) → IsRight self.old.request table → IsRight self.new.request table }
        ensures waits { self.new.framer ≡ self.old.framer }
        ensures calm { calm self.old ≡ true → calm self.new ≡ true }
    {
        match message {
            View::Version { services, .. } => self.hear_version(*services),
            View::Verack => {
                if self.met && !self.is_ready() {
                    self.request = Request::Nothing;
                }
                Reaction::Nothing
            }
            View::Ping(number) => {
                if self.met {
                    Reaction::Send(Msg::Pong(*number))
                } else {
                    Reaction::Nothing
                }
            }
            View::Pong(number) => {
                if self.is_pinged(*number) {
                    self.request = Request::Nothing;
                }
                Reaction::Nothing
            }
            _ => Reaction::Nothing,
        }
    }

    /// Takes what it tells of blocks (`inv`): whether one of them isn't on its own chain. A client that follows hears
    /// it out again then.
    pub fn hear_news(&mut self, unknown: bool)
        ensures heard { (t : Trail) (entries : List Inventory) → Holds self.old t
            → unknown ≡ list_any (is_unknown (own t)) entries → Holds self.new (Said (Inv entries) ∷ t) }
        ensures right { (table : Table) → IsRight self.old.request table → IsRight self.new.request table }
        ensures waits { self.new.framer ≡ self.old.framer }
        ensures calm { calm self.old ≡ true → calm self.new ≡ true }
    {
        if unknown {
            self.current = false;
        }
    }

    /// Opens a ping, and answers its number: one above that of the last, 1 for the first. `None` where all numbers were
    /// used.
    pub fn ask_ping(&mut self) -> Option<u64>
        requires { is_idle_peer self.old ≡ true }
        ensures asked { IfSome result
            (λ number. (number ≡ self.old.pings + 1) × (self.new ≡ asked_for_ping number self.old)) }
        ensures none { IfNone result ((self.old.pings ≡ 18446744073709551615) × (self.new ≡ self.old)) }
    {
        let number = self.pings.checked_add(1)?;
        self.pings = number;
        self.request = Request::Ping(number, 0);
        Some(number)
    }

    // Whether the `ping` with this number is open to it.
    fn is_pinged(&self, number: u64) -> bool
        ensures { result ≡ pinged_by number self.now }
    {
        match &self.request {
            Request::Ping(wanted, _) => number == *wanted,
            _ => false,
        }
    }

    // Takes a version: the first must have service bits 0 and 6, and a later one changes nothing.
    #[tactic(auto, unfolding(cf_msg::specs::Message::payload_of), using(crate::proofs::Modes::unheard_in))]
    fn hear_version(&mut self, services: u64) -> Reaction
        ensures sendable { IsReplySendable result }
        ensures heard { (t : Trail) (m : Msg) → Holds self.old t → IsVersionOf services m → Hears self.new m t result }
        ensures right { (table : Table) → IsRight self.old.request table → IsRight self.new.request table }
        ensures waits { self.new.framer ≡ self.old.framer }
        ensures calm { calm self.old ≡ true → calm self.new ≡ true }
    {
        if self.met {
            return Reaction::Nothing;
        }
        if services & 65 != 65 {
            return Reaction::Close(Cause::NoFilters);
        }
        self.met = true;
        Reaction::Send(Msg::Verack)
    }

    /// Takes what so many headers did to the chain of a ready peer: the cause that they give, if they give one. Headers
    /// end an open `getheaders`; where there were fewer than 2000, or they made no longer chain, the peer has no more
    /// to tell.
    #[tactic(auto, using(crate::proofs::Modes::headers_heard))]
    pub fn take_headers(&mut self, change: &Change, count: usize) -> Option<Cause>
        requires ready { is_ready_peer self.old ≡ true }
        ensures heard { (t : Trail) (hs : List Header) → Holds self.old t → count ≡ length hs
            → change.now ≡ change_of (link_height hs (own t)) (accept hs (own t)) → TakesHeaders self.new hs t result }
        ensures right { (table : Table) → IsRight self.old.request table → IsRight self.new.request table }
        ensures waits { self.new.framer ≡ self.old.framer }
        ensures calm { calm self.old ≡ true → calm self.new ≡ true }
    {
        match change {
            Change::Unlinked => return Some(Cause::Unlinked),
            Change::Invalid(_, _) => return Some(Cause::InvalidHeader),
            Change::TooHigh => return Some(Cause::TooHigh),
            Change::NoLonger => self.hear_out(true),
            Change::Longer(_) => self.hear_out(count < 2000),
        }
        if let Request::Headers(_) = self.request {
            self.request = Request::Nothing;
        }
        None
    }

    /// Whether the block with this hash is open to it.
    #[tactic(auto, unfolding(cf_headers::specs::Rules::same))]
    pub fn awaits(&self, hash: &Hash32) -> bool
        ensures awaits { result ≡ awaits_block self.now hash.now }
    {
        match &self.request {
            Request::Block(wanted, _) => wanted == hash,
            _ => false,
        }
    }

    /// Takes the block that is open to it.
    pub fn take_block(&mut self, hash: &Hash32)
        requires { awaits_block self.old hash.now ≡ true }
        ensures holds { (t : Trail) (b : Block) → Holds self.old t → block_hash_of b.header ≡ hash.now.0
            → commit_fault b ≡ None → Holds self.new (Said (BlockMessage b) ∷ t) }
        ensures brought { (t : Trail) (b : Block) → Holds self.old t → block_hash_of b.header ≡ hash.now.0
            → commit_fault b ≡ None → fetched_by (BlockMessage b) (request t) ≡ b ∷ [] }
        ensures right { (table : Table) → IsRight self.new.request table }
        ensures waits { self.new.framer ≡ self.old.framer }
        ensures calm { calm self.new ≡ true }
    {
        // Contracts alone look at `hash`.
        self.request = Request::Nothing;
    }

    /// Adds seconds to the age of the open request.
    pub fn pass(&mut self, seconds: u32)
        requires { calm self.old ≡ true }
        ensures holds { (t : Trail) → Holds self.old t → Holds self.new (Passed seconds ∷ t) }
        ensures right { (table : Table) → IsRight self.old.request table → IsRight self.new.request table }
        ensures waits { self.new.framer ≡ self.old.framer }
    {
        let seconds = u64::from(seconds);
        match &mut self.request {
            Request::Nothing => {}
            Request::Handshake(age) => *age += seconds,
            Request::Headers(age) => *age += seconds,
            Request::Claims(_, age) => *age += seconds,
            Request::Filters(_, age) => *age += seconds,
            Request::Block(_, age) => *age += seconds,
            Request::Ping(_, age) => *age += seconds,
        }
    }

    /// Whether its open request is 60 seconds old or more.
    pub fn is_late(&self) -> bool
        ensures { result ≡ not (calm self.now) }
    {
        match &self.request {
            Request::Nothing => false,
            Request::Handshake(age)
            | Request::Headers(age)
            | Request::Claims(_, age)
            | Request::Filters(_, age)
            | Request::Block(_, age)
            | Request::Ping(_, age) => *age >= 60,
        }
    }

    /// Whether nothing is open to it.
    pub fn is_idle(&self) -> bool
        ensures { result ≡ is_idle_peer self.now }
    {
        matches!(self.request, Request::Nothing)
    }

    // It has no more to tell, or nothing has changed.
    fn hear_out(&mut self, over: bool)
        ensures { self.new ≡ heard_up_to over self.old }
    {
        self.heard = self.heard || over;
        self.current = self.current || over;
    }

    // Whether it has no more to tell to a client of this mode.
    fn is_heard_out(&self, mode: Mode) -> bool
        ensures { result ≡ heard_out mode self.now }
    {
        match mode {
            Mode::Once => self.heard,
            Mode::Following => self.current,
        }
    }

    /// Whether a client of this mode is to ask it for headers: nothing is open to it, and it has more to tell.
    pub fn wants_headers(&self, mode: Mode) -> bool
        ensures { result ≡ wants mode self.now }
    {
        !self.is_heard_out(mode) && self.is_idle()
    }

    /// Opens a request for headers.
    pub fn ask_headers(&mut self)
        requires { is_idle_peer self.old ≡ true }
        ensures asked { self.new ≡ asked_for_headers self.old }
    {
        self.request = Request::Headers(0);
    }

    /// Opens a request for a block.
    pub fn ask_block(&mut self, hash: &Hash32)
        requires { is_idle_peer self.old ≡ true }
        ensures asked { self.new ≡ asked_for_block hash.now self.old }
    {
        self.request = Request::Block(*hash, 0);
    }
}
