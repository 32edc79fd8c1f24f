//! What a message is answered with, held so that the chain isn't needed any more.
ghost use Rattle.std.specs.Prelude.{◌≡◌, ◌≤◌, ◌<◌, ◌++◌, ◌∷◌, [], List, ℕ, length, get_or, slice_index_or, true, IfOk, OnErr, OnOk};
ghost use Rattle.std.specs.List.{AllByRecursion};
ghost use Rattle.cf_block.specs.{first_block, IsBlock};
ghost use Rattle.cf_chain.specs.{IsGoodChain, announcement, asked_for, all_blocks, cfilter_of, filters_of, first_filtered};
ghost use Rattle.cf_frame.specs.{spelling};
ghost use Rattle.cf_grow.specs.Growing.{messages_in, news_in};
ghost use Rattle.cf_grow.specs.declared.held.Held.{Held as HeldPart};
ghost use Rattle.cf_grow.specs.declared.held.Held.TheVariants.{Block as BlockPart};
ghost use Rattle.cf_grow.specs.Held.{text_all, text_in, texts_in};
ghost use Rattle.cf_msg.specs.declared.msg.Msg.TheVariants.{Block as BlockMessage};
ghost use Rattle.cf_msg.specs.{IsEntry, IsWithinLimits, frame_of, payload_of};
ghost use Rattle.cf_server.specs.{AreRepliesOf, IsReplyOf, message_of, messages_of, text_of};

use crate::filter::HeldFilter;
use crate::parts::Parts;
use crate::taking::Answer;
use cf_bytes::{Hash32, Listed, NoMemory};
use cf_frame::encode;
use cf_index::{Index, SharedBlock};
use cf_msg::{BLOCK_KIND, Bytes, Entries, Inventory, Msg, frame_block};
use cf_server::{Reply, Serving, message_bytes, write_reply};
use std::alloc::Global;
use std::marker::Model;

/// A block that is to be sent. It is shared with the chain, and keeps to the rules of its bytes.
#[derive(Drop)]
pub struct HeldBlock {
    shared: SharedBlock,
}

impl Model for HeldBlock {
    ghost use Rattle.cf_block.specs.declared.tx.Block.{Block};
    ghost use Rattle.cf_block.specs.{IsBlock};

    ghost Value = { Block };

    ghost view = { λ s. s.shared };

    ghost invariant = { λ s. IsBlock s.shared };
}

impl HeldBlock {
    // A block that keeps to the rules.
    fn new(shared: SharedBlock) -> HeldBlock
        requires { IsBlock shared }
        ensures { result ≡ shared }
    {
        HeldBlock { shared }
    }

    // The bytes of its frame.
    fn frame(&self, alloc: Global) -> Result<Vec<u8>, NoMemory>
        ensures { IfOk result (λ bytes. bytes.items ≡ spelling (frame_of (BlockMessage self.now))) }
    {
        let frame = frame_block(alloc, self.shared.block())?;
        encode(alloc, &frame.command, frame.payload.as_slice())
    }
}

/// A part of an answer.
#[derive(Drop)]
pub enum Held {
    /// The bytes of a frame.
    Bytes(Bytes),
    /// The frame of a block.
    Block(HeldBlock),
    /// The frame of a filter.
    Filter(HeldFilter),
}

impl Held {
    // Puts its bytes at the end of those that wait.
    fn put(&self, alloc: Global, waiting: &mut Vec<u8>) -> Result<(), NoMemory>
        ensures { OnOk result (waiting.new.items ≡ waiting.old.items ++ text_in self.now) }
    {
        match self {
            Held::Bytes(bytes) => waiting.extend_from_slice(bytes.as_slice())?,
            Held::Block(block) => {
                let frame = block.frame(alloc)?;
                waiting.extend_from_slice(&frame)?;
            }
            Held::Filter(filter) => {
                let frame = filter.frame(alloc)?;
                waiting.extend_from_slice(&frame)?;
            }
        }
        Ok(())
    }
}

/// Parts in their order. Contracts see them as a list. Many blocks may be asked for at once: each at the front takes
/// one pointer.
#[derive(Drop)]
pub struct HeldParts {
    blocks: Listed<HeldBlock>,
    others: Listed<Held>,
}

impl Model for HeldParts {
    ghost use Rattle.std.specs.Prelude.{List, ◌++◌, map};
    ghost use Rattle.cf_grow.specs.declared.held.Held.{Held};
    ghost use Rattle.cf_grow.specs.declared.held.Held.TheVariants.{Block};

    ghost Value = { List Held };

    ghost view = { λ s. map (λ b. Block b) s.blocks ++ s.others };
}

impl HeldParts {
    // None yet.
    fn new(alloc: Global) -> HeldParts
        ensures { result ≡ [] }
    {
        HeldParts {
            blocks: Listed::new(alloc),
            others: Listed::new(alloc),
        }
    }

    // Puts a block at the end.
    fn push_block(&mut self, block: HeldBlock) -> Result<(), NoMemory>
        ensures ok { OnOk result (self.new ≡ self.old ++ BlockPart block ∷ []) }
        ensures err { OnErr result (self.new ≡ self.old) }
    {
        if self.others.is_empty() {
            return self.blocks.push(block);
        }
        self.others.push(Held::Block(block))
    }

    // Puts a part at the end.
    fn push(&mut self, part: Held) -> Result<(), NoMemory>
        ensures ok { OnOk result (self.new ≡ self.old ++ part ∷ []) }
        ensures err { OnErr result (self.new ≡ self.old) }
    {
        match part {
            Held::Block(block) => self.push_block(block),
            other => self.others.push(other),
        }
    }

    // Puts the bytes of the part at this place, from 0, at the end of those that wait.
    pub(crate) fn put(
        &self,
        alloc: Global,
        place: usize,
        waiting: &mut Vec<u8>,
    ) -> Result<(), NoMemory>
        requires { place < length self.now }
        ensures { OnOk result
            ((d : HeldPart) → waiting.new.items ≡ waiting.old.items ++ text_in (get_or self.now place d)) }
    {
        let first = self.blocks.len();
        if place < first {
            let frame = self.blocks.as_slice()[place].frame(alloc)?;
            waiting.extend_from_slice(&frame)?;
            return Ok(());
        }
        self.others.as_slice()[place - first].put(alloc, waiting)
    }
}

// The frame of a message, at the end.
#[tactic(auto, using(crate::proofs::Holding::held_message))]
fn hold_message(alloc: Global, msg: &Msg, told: &mut Vec<u8>) -> Result<(), NoMemory>
    requires limits { IsWithinLimits msg.now }
    requires fits { length (payload_of msg.now) ≤ 4000000 }
    ensures { OnOk result (told.new.items ≡ told.old.items ++ text_of (msg.now ∷ [])) }
{
    let bytes = message_bytes(alloc, msg)?;
    told.extend_from_slice(&bytes)?;
    Ok(())
}

// The announcement of a tip.
#[tactic(auto, using(crate::proofs::Holding::announcement_fits, crate::proofs::Holding::held_announcement))]
fn hold_announcement(alloc: Global, hash: Hash32, told: &mut Vec<u8>) -> Result<(), NoMemory>
    ensures { OnOk result (told.new.items ≡ told.old.items ++ text_of (announcement hash.0 ∷ [])) }
{
    let mut entries = Entries::new(alloc);
    entries.push(Inventory {
        kind: BLOCK_KIND,
        hash,
    })?;
    hold_message(alloc, &Msg::Inv(entries), told)?;
    Ok(())
}

// That of the tip that is told first.
#[tactic(auto, using(crate::proofs::Holding::held_none))]
fn hold_news(alloc: Global, news: Option<Hash32>, told: &mut Vec<u8>) -> Result<(), NoMemory>
    ensures { OnOk result (told.new.items ≡ told.old.items ++ text_of (news_in news)) }
{
    match news {
        None => Ok(()),
        Some(hash) => hold_announcement(alloc, hash, told),
    }
}

// The request for the blocks that are asked for.
#[tactic(auto, using(crate::proofs::Holding::asked_so))]
fn hold_wants(alloc: Global, wants: Entries, told: &mut Vec<u8>) -> Result<(), NoMemory>
    requires few { length wants ≤ 50000 }
    requires entries { AllByRecursion IsEntry wants }
    ensures { OnOk result (told.new.items ≡ told.old.items ++ text_of (asked_for wants)) }
{
    if wants.is_empty() {
        return Ok(());
    }
    hold_message(alloc, &Msg::GetData(wants), told)?;
    Ok(())
}

// The block at a height.
fn hold_block(index: &Index, height: u32) -> Result<Held, NoMemory>
    requires good { IsGoodChain index.now }
    requires there { height ≤ length index.now }
    ensures { IfOk result (λ part. text_in part
        ≡ spelling (frame_of (BlockMessage (slice_index_or (all_blocks index.now) height first_block)))) }
{
    match index.shared(height) {
        None => unreachable!(),
        Some(block) => {
            let shared = block.share()?;
            Ok(Held::Block(HeldBlock::new(shared)))
        }
    }
}

// The filter at a height.
fn hold_filter(index: &Index, height: u32) -> Result<Held, NoMemory>
    requires good { IsGoodChain index.now }
    requires there { height ≤ length index.now }
    ensures { IfOk result (λ part. text_in part
        ≡ spelling (frame_of (cfilter_of (slice_index_or (filters_of index.now) height first_filtered)))) }
{
    let (Some(block), Some(filter)) = (index.hash(height), index.shared_filter(height)) else {
        unreachable!()
    };
    let shared = filter.share()?;
    Ok(Held::Filter(HeldFilter::new(block, shared)))
}

// A reply: a block or a filter as a share, and all others as bytes.
fn hold_reply(
    alloc: Global,
    index: &Index,
    served: &Serving,
    reply: Reply,
) -> Result<Held, NoMemory>
    requires { IsReplyOf index.now reply }
    ensures { IfOk result (λ part. text_in part ≡ spelling (frame_of (message_of served.now index.now reply))) }
{
    // An index has a good chain, whose blocks and filters can be sent.
    let _tip = index.tip();
    match reply {
        Reply::BlockAt(height) => hold_block(index, height),
        Reply::CfilterAt(height) => hold_filter(index, height),
        other => {
            let bytes = write_reply(alloc, index, served, other)?;
            Ok(Held::Bytes(Bytes::from_vec(bytes)))
        }
    }
}

// Replies, one behind another.
fn hold_replies(
    alloc: Global,
    index: &Index,
    served: &Serving,
    replies: &[Reply],
) -> Result<HeldParts, NoMemory>
    requires { AreRepliesOf index.now replies.now }
    ensures told { IfOk result (λ parts. texts_in parts ≡ text_of (messages_of served.now index.now replies.now)) }
    ensures count { IfOk result (λ parts. length parts ≡ length replies.now) }
{
    let mut out = HeldParts::new(alloc);
    for reply in replies {
        let part = hold_reply(alloc, index, served, *reply)?;
        out.push(part)?;
    }
    Ok(out)
}

/// An answer, held.
#[tactic(auto, using(crate::proofs::Holding::held_all))]
pub(crate) fn hold_answer(
    alloc: Global,
    index: &Index,
    served: &Serving,
    answer: Answer,
) -> Result<Parts, NoMemory>
    requires each { AreRepliesOf index.now answer.plain }
    requires few { length answer.wants ≤ 50000 }
    requires entries { AllByRecursion IsEntry answer.wants }
    ensures { IfOk result (λ parts. text_all parts ≡ text_of (messages_in served.now index.now answer)) }
{
    let Answer { news, wants, plain } = answer;
    let mut told = Vec::new(alloc);
    hold_news(alloc, news, &mut told)?;
    hold_wants(alloc, wants, &mut told)?;
    let rest = hold_replies(alloc, index, served, plain.as_slice())?;
    Ok(Parts {
        told: Bytes::from_vec(told),
        rest,
        count: plain.len(),
    })
}
