//! What is sent for a message, planned by heights.
ghost use Rattle.std.specs.Prelude.{◌≡◌, ◌<◌, ◌++◌, ◌∷◌, [], length, get_or, IfOk, OnOk, OnErr};
ghost use Rattle.cf_server.specs.declared.reply.Reply.{Reply};
ghost use Rattle.cf_server.specs.declared.reply.Reply.TheVariants.{BlockAt};

use cf_bytes::{Hash32, Listed, NoMemory};
use std::alloc::Global;
use std::marker::Model;

/// A reply. It tells by heights what of the chain it sends, so no plan of replies copies the chain.
#[derive(Clone, Copy, Debug, PartialEq, Eq)]
pub enum Reply {
    /// The server's own `version`.
    OwnVersion,
    /// `verack`.
    OwnVerack,
    /// `pong` with this number.
    PongOf(u64),
    /// `headers` of so many blocks, from a height on.
    HeadersOf {
        start: u32,
        count: u32,
    },
    /// `block` of the block at this height.
    BlockAt(u32),
    /// `cfilter` of the block at this height.
    CfilterAt(u32),
    /// `cfheaders` of the blocks from a height to another, where the block with this hash stands.
    CfheadersOf {
        start: u32,
        stop_height: u32,
        stop: Hash32,
    },
    /// `cfcheckpt` up to a height, where the block with this hash stands.
    CfcheckptOf {
        stop_height: u32,
        stop: Hash32,
    },
}

/// Replies in their order.
pub type Replies = Listed<Reply>;

// Replies in their order. Each block at their front takes 4 bytes: many may be asked for at once.
#[derive(Drop)]
struct PackedReplies {
    blocks: Listed<u32>,
    others: Replies,
}

impl Model for PackedReplies {
    ghost use Rattle.std.specs.Prelude.{List, ◌++◌, map};
    ghost use Rattle.cf_server.specs.declared.reply.Reply.{Reply};
    ghost use Rattle.cf_server.specs.declared.reply.Reply.TheVariants.{BlockAt};

    ghost Value = { List Reply };

    ghost view = { λ s. map (λ h. BlockAt h) s.blocks ++ s.others };
}

impl PackedReplies {
    // None yet.
    fn new(alloc: Global) -> PackedReplies
        ensures { result ≡ [] }
    {
        PackedReplies {
            blocks: Listed::new(alloc),
            others: Replies::new(alloc),
        }
    }

    // Puts a block's height at the front's end, where nothing else follows.
    fn put_block(&mut self, height: u32) -> Result<(), NoMemory>
        ensures ok { OnOk result (self.new ≡ self.old ++ BlockAt height ∷ []) }
        ensures err { OnErr result (self.new ≡ self.old) }
    {
        if self.others.is_empty() {
            return self.blocks.push(height);
        }
        self.others.push(Reply::BlockAt(height))
    }

    // Puts one at the end.
    fn put(&mut self, reply: Reply) -> Result<(), NoMemory>
        ensures ok { OnOk result (self.new ≡ self.old ++ reply ∷ []) }
        ensures err { OnErr result (self.new ≡ self.old) }
    {
        match reply {
            Reply::BlockAt(height) => self.put_block(height),
            _ => self.others.push(reply),
        }
    }

    // The one at this place, from 0.
    fn at(&self, place: usize) -> Reply
        requires { place < length self.now }
        ensures { (d : Reply) → result ≡ get_or self.now place d }
    {
        let first = self.blocks.len();
        if place < first {
            return Reply::BlockAt(self.blocks.as_slice()[place]);
        }
        self.others.as_slice()[place - first]
    }
}

// These replies, packed.
fn pack(alloc: Global, replies: &[Reply]) -> Result<PackedReplies, NoMemory>
    ensures { IfOk result (λ packed. packed ≡ replies.now) }
{
    let mut packed = PackedReplies::new(alloc);
    for reply in replies {
        packed.put(*reply)?;
    }
    Ok(packed)
}

// Replies that wait to be written, and how many there are.
#[derive(Drop)]
pub(crate) struct Planned {
    replies: PackedReplies,
    count: usize,
}

impl Model for Planned {
    ghost use Rattle.std.specs.Prelude.{◌≡◌, List, length};
    ghost use Rattle.cf_server.specs.declared.reply.Reply.{Reply};

    ghost Value = { List Reply };

    ghost view = { λ s. s.replies };

    ghost invariant = { λ s. s.count ≡ length s.replies };
}

impl Planned {
    // These replies.
    pub(crate) fn of(alloc: Global, replies: Replies) -> Result<Planned, NoMemory>
        ensures { IfOk result (λ planned. planned ≡ replies) }
    {
        let packed = pack(alloc, replies.as_slice())?;
        Ok(Planned {
            replies: packed,
            count: replies.len(),
        })
    }

    // How many there are.
    pub(crate) fn len(&self) -> usize
        ensures { result ≡ length self.now }
    {
        self.count
    }

    // The one at this place, from 0.
    pub(crate) fn at(&self, place: usize) -> Reply
        requires { place < length self.now }
        ensures { (d : Reply) → result ≡ get_or self.now place d }
    {
        self.replies.at(place)
    }
}
