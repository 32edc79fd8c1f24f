//! The answer to a message, by the chain as it stands.
ghost use Rattle.std.specs.Prelude.{◌≡◌, ◌++◌, IfOk, OnOk, OnErr, true, false};
ghost use Rattle.std.specs.List.{flat_map};
ghost use Rattle.cf_chain.specs.{is_unknown, told_first, top_hash, unknown_entry, wanted_entries};
ghost use Rattle.cf_grow.specs.Growing.{HasMark, HasMomentOf, IsAnswerOf, Refuses, answer_at, mark_of, moved, news_in};
ghost use Rattle.cf_grow.specs.Standing.{Keeps};

use crate::mark::{ServedMark, Shrunk, TakeFail};
use cf_bytes::{Hash32, NoMemory};
use cf_index::Index;
use cf_msg::{BLOCK_KIND, Entries, Inventory, Msg};
use cf_server::{Replies, Serving, answer};
use std::alloc::Global;

/// The answer to one message: the tip that is told first, the blocks that are asked for, and the replies, by heights.
#[derive(Drop)]
pub(crate) struct Answer {
    pub(crate) news: Option<Hash32>,
    pub(crate) wants: Entries,
    pub(crate) plain: Replies,
}

// Whether the mark still stands on the chain.
#[tactic(auto, unfolding(cf_headers::specs::Rules::same))]
fn has_mark(index: &Index, mark: &ServedMark) -> bool
    ensures has { result ≡ true → HasMark index.now mark.now }
    ensures lacks { result ≡ false → HasMark index.now mark.now → ⊥ }
{
    if !mark.served.seen {
        return true;
    }
    match index.hash(mark.height) {
        Some(hash) => hash == mark.hash,
        None => false,
    }
}

// Whether the chain still has the tip that it began with.
fn has_first(index: &Index, mark: &ServedMark) -> bool
    ensures has { result ≡ true → Keeps index.now mark.now.first }
    ensures lacks { result ≡ false → Keeps index.now mark.now.first → ⊥ }
{
    match index.hash(mark.first.height) {
        Some(hash) => hash == mark.first.hash,
        None => false,
    }
}

// The hash of the highest block.
pub(crate) fn top_of(index: &Index) -> Hash32
    ensures { result.0 ≡ top_hash index.now }
{
    let tip = index.tip();
    match index.hash(tip) {
        Some(hash) => hash,
        None => Hash32([0; 32]),
    }
}

// The tip that is told first.
#[tactic(auto, using(crate::proofs::Marks::news_none, crate::proofs::Marks::news_up, crate::proofs::Marks::news_at))]
fn news_of(index: &Index, mark: &ServedMark) -> Option<Hash32>
    ensures { news_in result ≡ told_first index.now (mark_of mark.now) }
{
    if !mark.served.seen {
        return None;
    }
    if mark.height < index.tip() {
        return Some(top_of(index));
    }
    None
}

// Whether an entry tells of a block that isn't in the chain.
fn is_news(index: &Index, entry: &Inventory) -> bool
    ensures { result ≡ is_unknown index.now entry.now }
{
    entry.kind == BLOCK_KIND && index.height_of(&entry.hash).is_none()
}

fn put_news(index: &Index, entry: &Inventory, out: &mut Entries) -> Result<(), NoMemory>
    ensures { OnOk result (out.new ≡ out.old ++ unknown_entry index.now entry.now) }
{
    if is_news(index, entry) {
        out.push(*entry)?;
    }
    Ok(())
}

// The blocks that an inventory tells of and that aren't in the chain.
fn find_news(index: &Index, entries: &[Inventory], out: &mut Entries) -> Result<(), NoMemory>
    ensures { OnOk result (out.new ≡ out.old ++ flat_map (unknown_entry index.now) entries.now) }
{
    for entry in entries {
        put_news(index, entry, out)?;
    }
    Ok(())
}

// What is asked for by an inventory, once a version has come.
fn wants_of(alloc: Global, index: &Index, seen: bool, msg: &Msg) -> Result<Entries, NoMemory>
    ensures { IfOk result (λ wants. wants ≡ wanted_entries index.now seen msg.now) }
{
    let mut wants = Entries::new(alloc);
    if !seen {
        return Ok(wants);
    }
    if let Msg::Inv(entries) = msg {
        find_news(index, entries.as_slice(), &mut wants)?;
    }
    Ok(wants)
}

// Moves the mark to the tip, where the tip was told.
#[tactic(auto, using(crate::proofs::Marks::moves))]
fn move_mark(index: &Index, mark: &mut ServedMark, served: Serving)
    requires { mark.old.served.seen ≡ true → served.seen ≡ true }
    ensures mark { mark_of mark.new ≡ moved index.now (mark_of mark.old) served.seen }
    ensures served { mark.new.served ≡ served }
    ensures first { mark.new.first ≡ mark.old.first }
{
    let height = index.tip();
    let hash = top_of(index);
    let first = mark.first;
    if !mark.served.seen {
        *mark = ServedMark {
            served,
            height,
            hash,
            first,
        };
        return;
    }
    if mark.height < height {
        *mark = ServedMark {
            served,
            height,
            hash,
            first,
        };
        return;
    }
    mark.served = served;
}

/// Answers a message by the chain that the index holds, the tip first where the connection wasn't told of it, and moves
/// the mark. It is refused exactly where the chain hasn't the mark's hash at its height, or no longer has its first
/// tip. After a refusal the mark is unchanged.
#[tactic(auto, using(crate::proofs::Marks::taken_so))]
pub(crate) fn take_at(
    alloc: Global,
    index: &Index,
    mark: &mut ServedMark,
    msg: &Msg,
) -> Result<Answer, TakeFail>
    ensures has { OnOk result (HasMark index.now mark.old) }
    ensures keeps { OnOk result (Keeps index.now mark.old.first) }
    ensures answer { IfOk result
        (λ a. IsAnswerOf mark.old.served index.now a (answer_at mark.old index.now msg.now).replies) }
    ensures wants { IfOk result (λ a. a.wants ≡ wanted_entries index.now mark.old.served.seen msg.now) }
    ensures mark { OnOk result (mark_of mark.new ≡ (answer_at mark.old index.now msg.now).mark) }
    ensures moment { HasMomentOf mark.old mark.new }
    ensures refused { Refuses index.now mark.old result }
    ensures kept { OnErr result (mark.new ≡ mark.old) }
{
    if !has_first(index, mark) {
        return Err(TakeFail::Shrunk(Shrunk {
            seen: mark.first.hash,
            found: index.hash(mark.first.height),
        }));
    }
    if !has_mark(index, mark) {
        return Err(TakeFail::Shrunk(Shrunk {
            seen: mark.hash,
            found: index.hash(mark.height),
        }));
    }
    let news = news_of(index, mark);
    let Ok(wants) = wants_of(alloc, index, mark.served.seen, msg) else {
        return Err(TakeFail::NoMemory);
    };
    let mut plain = Replies::new(alloc);
    let mut served = mark.served;
    let Ok(()) = answer(index, &mut served, msg, &mut plain) else {
        return Err(TakeFail::NoMemory);
    };
    move_mark(index, mark, served);
    Ok(Answer { news, wants, plain })
}
