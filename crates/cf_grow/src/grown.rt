//! A chain that grows while it is served.
ghost use Rattle.std.specs.Prelude.{◌≡◌, ◌≤◌, ◌+◌, ◌∷◌, ◌++◌, [], None, length, Ok, IfOk, IfSome, OnOk, OnErr, true};
ghost use Rattle.cf_block.specs.{AreTxids, IsBlock};
ghost use Rattle.cf_bytes.specs.{with_more};
ghost use Rattle.cf_chain.specs.{IsGoodChain, grown};
ghost use Rattle.cf_grow.specs.Growing.{FoundFor, HasMark, HasMomentOf, IsStep, KeepsWhatJoins, Refuses, RefusesBy, TakesRoom, answer_at, fits_on, height_joined, joined_in, mark_of};
ghost use Rattle.cf_grow.specs.Standing.{Keeps};
ghost use Rattle.cf_grow.specs.Held.{text_all};
ghost use Rattle.cf_index.specs.{IsCommitmentOf};
ghost use Rattle.cf_msg.specs.declared.msg.Msg.TheVariants.{Block as BlockMessage};
ghost use Rattle.cf_msg.specs.{HasSpelling, message_of as message_in};
ghost use Rattle.cf_server.specs.{text_of};
ghost use Rattle.cf_walk.specs.{cause_on, record_spelling};

use crate::held::hold_answer;
use crate::keeper::Keeper;
use crate::mark::{ServedMark, TakeFail};
use crate::parts::Parts;
use crate::record::record_of;
use crate::refused::RefusedBlocks;
use crate::taking::take_at;
use cf_block::{Block, TxIds};
use cf_bytes::{NoMemory, Refused};
use cf_frame::Frame;
use cf_index::{Commitment, Index};
use cf_msg::Msg;
use std::alloc::Global;
use std::marker::Model;
use std::sync::{Mutex, Wait};

/// What a message is answered with, and the height of the block that has joined by it, where one has.
#[derive(Drop)]
pub struct Taken {
    pub parts: Parts,
    pub joined: Option<u32>,
}

/// How many bytes of blocks may join a chain in all, where no other limit is given.
pub const MOST_JOINED: u64 = 1_073_741_824;

// The answer to a message, held. After a refusal the mark is unchanged.
#[tactic(auto, using(crate::proofs::Holding::told_so))]
fn answer_held(
    alloc: Global,
    index: &Index,
    mark: &mut ServedMark,
    msg: &Msg,
) -> Result<Parts, TakeFail>
    requires { HasSpelling msg.now }
    ensures has { OnOk result (HasMark index.now mark.old) }
    ensures keeps { OnOk result (Keeps index.now mark.old.first) }
    ensures answer { IfOk result (λ parts. text_all parts ≡ text_of (answer_at mark.old index.now msg.now).replies) }
    ensures mark { OnOk result (mark_of mark.new ≡ (answer_at mark.old index.now msg.now).mark) }
    ensures moment { HasMomentOf mark.old mark.new }
    ensures refused { Refuses index.now mark.old result }
    ensures kept { OnErr result (mark.new ≡ mark.old) }
{
    let before = *mark;
    let answer = match take_at(alloc, index, mark, msg) {
        Ok(answer) => answer,
        Err(e) => return Err(e),
    };
    match hold_answer(alloc, index, &before.served, answer) {
        Ok(parts) => Ok(parts),
        Err(NoMemory) => {
            *mark = before;
            Err(TakeFail::NoMemory)
        }
    }
}

/// A chain that grows while it is served. Contracts see the list of its blocks above genesis, the lowest first, how many
/// bytes of blocks may still join it, and the bytes that its keeper has, where they are told.
#[derive(Drop)]
pub struct Grown<K: Keeper> {
    index: Index,
    room: u64,
    // Blocks that may not stand on the chain as it is.
    refused: RefusedBlocks,
    // Has the record of each block that has joined.
    keeper: K,
}

impl<K: Keeper> Model for Grown<K> {
    ghost use Rattle.std.specs.List.{AllByRecursion};
    ghost use Rattle.cf_grow.specs.Growing.{BringsNone, Growth};

    ghost Value = { Growth };

    ghost view = { λ s. record { blocks = s.index; room = s.room; kept = K.kept s.keeper } };

    ghost invariant = { λ s. AllByRecursion (BringsNone s.index) s.refused };
}

impl<K: Keeper> Grown<K> {
    /// A chain that was loaded, which so many bytes of blocks may join in all, and who keeps these.
    pub fn new(alloc: Global, index: Index, room: u64, keeper: K) -> Grown<K>
        ensures { result ≡ record { blocks = index; room = room; kept = K.kept keeper } }
    {
        Grown {
            index,
            room,
            refused: RefusedBlocks::new(alloc),
            keeper,
        }
    }

    // Puts a block on the chain that may stand there, once its record is kept. Where it isn't put on nothing is kept.
    #[tactic(auto, using(crate::proofs::Keeping::taken_back))]
    fn join(
        &mut self,
        alloc: Global,
        block: Block,
        txids: &TxIds,
        size: u64,
    ) -> Result<(), NoMemory>
        requires block { IsBlock block }
        requires fits { cause_on self.old.blocks block ≡ None }
        requires hashes { AreTxids txids.now block.txs }
        requires room { size ≤ self.old.room }
        ensures blocks { OnOk result (self.new.blocks ≡ self.old.blocks ++ block ∷ []) }
        ensures room { OnOk result (self.new.room + size ≡ self.old.room) }
        ensures kept { OnOk result (self.new.kept ≡ with_more self.old.kept (record_spelling block)) }
        ensures err { OnErr result (self.new ≡ self.old) }
    {
        let record = record_of(alloc, &block)?;
        let Ok(()) = self.keeper.keep(record.as_slice()) else {
            return Err(NoMemory);
        };
        match self.index.put(alloc, block, txids) {
            Ok(()) => {
                self.room -= size;
                self.refused.forget();
                Ok(())
            }
            Err(NoMemory) => {
                self.keeper.take_back(record.len());
                Err(NoMemory)
            }
        }
    }

    // Puts the block of a frame on the chain, where it may stand there. Where the frame's bytes have no room, or the
    // block's record isn't kept, no memory is found.
    #[tactic(auto, using(crate::proofs::Grows::put_so, crate::proofs::Keeping::kept_so))]
    fn put(
        &mut self,
        alloc: Global,
        frame: Frame,
        block: Block,
        commitment: Option<Commitment>,
    ) -> Result<(), NoMemory>
        requires block { IsBlock block }
        requires brings { message_in frame ≡ Ok (BlockMessage block) }
        requires commitment { IfSome commitment (IsCommitmentOf block) }
        ensures ok { OnOk result (self.new.blocks ≡ grown fits_on self.old.blocks true (BlockMessage block)) }
        ensures room { OnOk result (TakesRoom (length frame.payload) self.old self.new) }
        ensures kept { OnOk result (KeepsWhatJoins self.old self.new) }
        ensures err { OnErr result (self.new ≡ self.old) }
    {
        let size = frame.payload.len() as u64;
        if self.room < size {
            return Err(NoMemory);
        }
        match self.index.judge(alloc, &block, commitment) {
            Ok(txids) => self.join(alloc, block, &txids, size),
            Err(Refused::No(_cause)) => {
                self.refused.keep(frame);
                Ok(())
            }
            Err(Refused::NoMemory) => Err(NoMemory),
        }
    }

    // Puts the block of a frame on the chain, where it may stand there and wasn't refused lately.
    #[tactic(auto, using(crate::proofs::Grows::stays_refused, crate::proofs::Keeping::keeps_none))]
    fn put_new(
        &mut self,
        alloc: Global,
        frame: Frame,
        block: Block,
        commitment: Option<Commitment>,
    ) -> Result<(), NoMemory>
        requires block { IsBlock block }
        requires brings { message_in frame ≡ Ok (BlockMessage block) }
        requires commitment { IfSome commitment (IsCommitmentOf block) }
        ensures ok { OnOk result (self.new.blocks ≡ grown fits_on self.old.blocks true (BlockMessage block)) }
        ensures room { OnOk result (TakesRoom (length frame.payload) self.old self.new) }
        ensures kept { OnOk result (KeepsWhatJoins self.old self.new) }
        ensures err { OnErr result (self.new ≡ self.old) }
    {
        if self.refused.has(&frame) {
            return Ok(());
        }
        self.put(alloc, frame, block, commitment)
    }

    // Whether a frame's block wasn't refused lately, has room, and its header may stand on the chain: then it pays to
    // find its commitment.
    fn may_join(&self, frame: &Frame, block: &Block) -> bool {
        self.index.is_next(&block.header)
            && frame.payload.len() as u64 <= self.room
            && !self.refused.has(frame)
    }

    // Puts the block of a message on the chain, where its sender was met and the block may stand there.
    #[tactic(auto, using(crate::proofs::Keeping::keeps_none))]
    fn grow(
        &mut self,
        alloc: Global,
        met: bool,
        frame: Frame,
        msg: Msg,
        commitment: Option<Commitment>,
    ) -> Result<(), NoMemory>
        requires spelled { HasSpelling msg }
        requires brings { message_in frame ≡ Ok msg }
        requires commitment { FoundFor msg commitment }
        ensures ok { OnOk result (self.new.blocks ≡ grown fits_on self.old.blocks met msg) }
        ensures room { OnOk result (TakesRoom (length frame.payload) self.old self.new) }
        ensures kept { OnOk result (KeepsWhatJoins self.old self.new) }
        ensures err { OnErr result (self.new ≡ self.old) }
    {
        if !met {
            return Ok(());
        }
        if let Msg::Block(block) = msg {
            return self.put_new(alloc, frame, block, commitment);
        }
        Ok(())
    }

    /// One step: the chain as it stands answers the message of a frame, and then the block that it brings is put on,
    /// where it may stand there, once its record is kept: what is kept is what was kept before, and the record of the
    /// block that has joined. Where the block's commitment was found before, it isn't found again. The step is refused
    /// where the chain hasn't the mark's hash at its height, or no longer has its first tip, and where no memory is
    /// found, no room for a block, or its record can't be kept; after that nothing has changed.
    pub fn take(
        &mut self,
        alloc: Global,
        mark: &mut ServedMark,
        frame: Frame,
        msg: Msg,
        commitment: Option<Commitment>,
    ) -> Result<Taken, TakeFail>
        requires spelled { HasSpelling msg }
        requires brings { message_in frame ≡ Ok msg }
        requires commitment { FoundFor msg commitment }
        ensures good { IsGoodChain self.old.blocks }
        ensures has { OnOk result (HasMark self.old.blocks mark.old × Keeps self.old.blocks mark.old.first) }
        ensures answer { IfOk result
            (λ taken. text_all taken.parts ≡ text_of (answer_at mark.old self.old.blocks msg).replies) }
        ensures mark { OnOk result (mark_of mark.new ≡ (answer_at mark.old self.old.blocks msg).mark) }
        ensures grown { OnOk result (self.new.blocks ≡ grown fits_on self.old.blocks mark.old.served.seen msg) }
        ensures room { OnOk result (TakesRoom (length frame.payload) self.old self.new) }
        ensures keeps_all { OnOk result (KeepsWhatJoins self.old self.new) }
        ensures joined { IfOk result (λ taken. taken.joined ≡ joined_in self.old.blocks self.new.blocks) }
        ensures moment { HasMomentOf mark.old mark.new }
        ensures refused { Refuses self.old.blocks mark.old result }
        ensures kept { OnErr result ((mark.new ≡ mark.old) × (self.new ≡ self.old)) }
    {
        let height = self.index.tip();
        let before = *mark;
        let parts = match answer_held(alloc, &self.index, mark, &msg) {
            Ok(parts) => parts,
            Err(e) => return Err(e),
        };
        match self.grow(alloc, before.served.seen, frame, msg, commitment) {
            Ok(()) => {
                let joined = height_above(height, self.index.tip());
                Ok(Taken { parts, joined })
            }
            Err(NoMemory) => {
                *mark = before;
                Err(TakeFail::NoMemory)
            }
        }
    }
}

// The commitment of a message's block, which is found while the lock isn't held, where the block's sender was met and
// it may join the chain by what is known of it. Where no memory is found it isn't found yet.
fn commitment_before<R: Wait, K: Keeper>(
    rt: &R,
    alloc: Global,
    grown: &Mutex<Grown<K>>,
    met: bool,
    frame: &Frame,
    msg: &Msg,
) -> Option<Commitment>
    ensures { FoundFor msg.now result }
{
    if !met {
        return None;
    }
    let Msg::Block(block) = msg else {
        return None;
    };
    let is_hopeful = grown.lock(rt).may_join(frame, block);
    if !is_hopeful {
        return None;
    }
    Commitment::of(alloc, block).ok()
}

// The height of the tip, where it is higher now.
fn height_above(before: u32, now: u32) -> Option<u32>
    ensures { result ≡ height_joined before now }
{
    if before < now { Some(now) } else { None }
}

/// One step under the lock, before which a block's commitment is found: whatever others have put on the chain, the
/// answer is that of a good chain on which the mark stands, and which still has its first tip; the height is told of a
/// block that joins that chain. It is refused only by a good chain that hasn't the mark's hash at its height, or no
/// longer has its first tip, with both hashes, and where no memory is found, no room for a block, or its record can't
/// be kept. The lock is let go with the return, and what is answered needs it no more.
pub fn take_locked<R: Wait, K: Keeper>(
    rt: &R,
    alloc: Global,
    grown: &Mutex<Grown<K>>,
    mark: &mut ServedMark,
    frame: Frame,
    msg: Msg,
) -> Result<Taken, TakeFail>
    requires spelled { HasSpelling msg }
    requires brings { message_in frame ≡ Ok msg }
    ensures step { IfOk result (λ taken. IsStep mark.old mark.new msg taken) }
    ensures moment { HasMomentOf mark.old mark.new }
    ensures refused { RefusesBy mark.old result }
    ensures kept { OnErr result (mark.new ≡ mark.old) }
{
    let commitment = commitment_before(rt, alloc, grown, mark.served.seen, &frame, &msg);
    let mut locked = grown.lock(rt);
    locked.take(alloc, mark, frame, msg, commitment)
}
