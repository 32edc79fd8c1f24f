//! How a peer's bytes are taken.
ghost use Rattle.std.specs.Prelude.{◌≡◌, ◌<◌, ◌≤◌, ◌++◌, ℕ, List, [], true, Some, None, Ok, IsSome, IfOk, IfSome, OnOk, is_none, false};
ghost use Rattle.std.specs.List.{All, list_any};
ghost use Rattle.cf_frame.specs.{front_of};
ghost use Rattle.cf_msg.specs.declared.msg.Msg.TheVariants.{Headers, Inv, Block as BlockMessage, Cfheaders, Cfilter};
ghost use Rattle.cf_lent.specs.{msg_of};
ghost use Rattle.cf_peer.specs.{IsDoable, Part, heard_part, is_unknown, Holds, calm, is_idle_peer, IsReplySendable, IsRight};
ghost use Rattle.cf_peer.specs.Trail.{Trail};
ghost use Rattle.cf_match.specs.{AreSameVerdicts, with_verdicts};
ghost use Rattle.cf_headers.specs.{back_to, own_of};
ghost use Rattle.cf_seek.specs.{Closes, IsSameElse, IsSameOpens};
ghost use Rattle.cf_tables.specs.{IsSameTold, judged_if, tested_if};
ghost use Rattle.cf_tracker.specs.{IsSameSeen, aims_of, chains_of, claims_of, opens_of, paid_of, seen_of, tests_of, trials_of, verdicts_of, watch_of};
ghost use Rattle.cf_hear.specs.Seen.{Follows};
ghost use Rattle.cf_dispute.specs.{blocks_of};
ghost use Rattle.cf_hear.specs.Hearing.{HearsFrom, HearsNext, HeardPiece, KeepsPeer, Leaves, LeavesOthers};
ghost use Rattle.cf_hear.specs.Exposing.{ExposesAmong, ExposesLast, ExposesNext, IsUnexposed, MayExpose};
ghost use Rattle.cf_hear.specs.Judging.{HasJudged, AreJudgedBy, MayJudge, judging_of};

use crate::lists::{hashes_in, headers_in};
use crate::stop::HearStop;
use cf_block::{Header, block_hash};
use cf_bytes::{Cut, Hash32, NoMemory, PeerNo, Refused};
use cf_frame::Framer;
use cf_headers::HeaderStore;
use cf_lent::{EntriesView, View};
use cf_match::{Job, Matcher};
use cf_msg::Inventory;
use cf_peer::{Act, Cause, Coming, Heard, Peer, Reaction, cause_of, next_coming};
use cf_seek::Exposure;
use cf_tracker::Tracker;
use cf_view::{BlockView, check_view_by, view_txids};
use std::alloc::Global;

// Takes headers that a tracked peer sent. Those of a peer that isn't ready are read over.
fn hear_headers<H: HeaderStore>(
    tracker: &mut Tracker<H>,
    peer: &mut Peer,
    p: PeerNo,
    headers: &[Header],
) -> Result<Reaction, NoMemory>
    requires entered { IsSome (chains_of tracker.old p.0) }
    requires right { IsRight peer.old.request (claims_of tracker.old p.0) }
    ensures heard { IfOk result (HearsFrom (seen_of tracker.old) (seen_of tracker.new) p peer.old peer.new
        (Headers headers.now)) }
    ensures exposes { IfOk result (MayExpose (seen_of tracker.old) (seen_of tracker.new) p.0 peer.old) }
    ensures sendable { IfOk result IsReplySendable }
    ensures stays { OnOk result (LeavesOthers p.0 (seen_of tracker.old) (seen_of tracker.new)) }
    ensures right { OnOk result (IsRight peer.new.request (claims_of tracker.new p.0)) }
    ensures verdicts { OnOk result (AreSameVerdicts (verdicts_of tracker.new) (verdicts_of tracker.old)) }
    ensures keeps { KeepsPeer peer.old peer.new }
{
    if !peer.is_ready() {
        return Ok(Reaction::Nothing);
    }
    let change = tracker.accept(p, headers)?;
    match peer.take_headers(&change, headers.len()) {
        None => Ok(Reaction::Nothing),
        Some(cause) => Ok(Reaction::Close(cause)),
    }
}

// Takes a block that a tracked peer sent. One that isn't open to it is read over.
fn hear_block<H: HeaderStore>(
    alloc: Global,
    tracker: &mut Tracker<H>,
    peer: &mut Peer,
    p: PeerNo,
    block: &BlockView,
) -> Result<Reaction, NoMemory>
    requires entered { IsSome (chains_of tracker.old p.0) }
    requires right { IsRight peer.old.request (claims_of tracker.old p.0) }
    ensures heard { IfOk result (HearsFrom (seen_of tracker.old) (seen_of tracker.new) p peer.old peer.new
        (BlockMessage block.now)) }
    ensures exposes { IfOk result (MayExpose (seen_of tracker.old) (seen_of tracker.new) p.0 peer.old) }
    ensures sendable { IfOk result IsReplySendable }
    ensures stays { OnOk result (LeavesOthers p.0 (seen_of tracker.old) (seen_of tracker.new)) }
    ensures right { OnOk result (IsRight peer.new.request (claims_of tracker.new p.0)) }
    ensures verdicts { OnOk result (AreSameVerdicts (verdicts_of tracker.new) (verdicts_of tracker.old)) }
    ensures keeps { KeepsPeer peer.old peer.new }
{
    let hash = block_hash(block.header());
    if !peer.awaits(&hash) {
        return Ok(Reaction::Nothing);
    }
    let hashes = view_txids(alloc, block)?;
    match check_view_by(alloc, block, hashes.as_slice()) {
        Ok(()) => {}
        Err(Refused::No(_)) => return Ok(Reaction::Close(Cause::BadBlock)),
        Err(Refused::NoMemory) => return Err(NoMemory),
    }
    tracker.keep(&hash, block, hashes.as_slice())?;
    peer.take_block(&hash);
    tracker.answered(p);
    Ok(Reaction::Nothing)
}

// The reply to what a peer said of blocks: it is exposed by the first of which it claims a filter that was found to
// lack what the block pays.
fn reply_after<H: HeaderStore>(tracker: &Tracker<H>, p: PeerNo, blocks: &[Hash32]) -> Reaction
    ensures sendable { IsReplySendable result }
    ensures exposed { ExposesAmong (seen_of tracker.now) p.0 (blocks_of blocks.now) result }
{
    match tracker.exposed(p, blocks) {
        Some(exposure) => Reaction::Expose(exposure.block, exposure.filter),
        None => Reaction::Nothing,
    }
}

// Takes claims that a tracked peer sent. Those that don't answer what is open to it are read over.
fn hear_claims<H: HeaderStore>(
    tracker: &mut Tracker<H>,
    peer: &mut Peer,
    p: PeerNo,
    filter: u8,
    stop: &Hash32,
    previous: &Hash32,
    hashes: &[Hash32],
) -> Result<Reaction, NoMemory>
    requires low { p.0 ≤ 8 }
    requires entered { IsSome (chains_of tracker.old p.0) }
    requires right { IsRight peer.old.request (claims_of tracker.old p.0) }
    ensures heard { IfOk result (HearsFrom (seen_of tracker.old) (seen_of tracker.new) p peer.old peer.new
        (Cfheaders filter stop.now previous.now hashes.now)) }
    ensures exposes { IfOk result (MayExpose (seen_of tracker.old) (seen_of tracker.new) p.0 peer.old) }
    ensures sendable { IfOk result IsReplySendable }
    ensures stays { OnOk result (LeavesOthers p.0 (seen_of tracker.old) (seen_of tracker.new)) }
    ensures right { OnOk result (IsRight peer.new.request (claims_of tracker.new p.0)) }
    ensures verdicts { OnOk result (AreSameVerdicts (verdicts_of tracker.new) (verdicts_of tracker.old)) }
    ensures keeps { KeepsPeer peer.old peer.new }
{
    let Some(range) = peer.take_range(filter, stop) else {
        return Ok(Reaction::Nothing);
    };
    let blocks = range.blocks.as_slice();
    match tracker.add_claims(p, &range.parent, blocks, previous, hashes) {
        Ok(()) => Ok(reply_after(tracker, p, blocks)),
        Err(Refused::No(fault)) => Ok(Reaction::Close(cause_of(fault))),
        Err(Refused::NoMemory) => Err(NoMemory),
    }
}

// Has the tracker let go of what was open to a peer, once nothing is.
fn let_go<H: HeaderStore>(tracker: &mut Tracker<H>, peer: &Peer, p: PeerNo)
    ensures closes { is_idle_peer peer.now ≡ true → Closes (opens_of tracker.old) (opens_of tracker.new) p.0 }
    ensures busy { is_idle_peer peer.now ≡ false → IsSameOpens (opens_of tracker.old) (opens_of tracker.new) }
    ensures others { IsSameElse (opens_of tracker.old) (opens_of tracker.new) p.0 }
    ensures stays { IsSameSeen (record (seen_of tracker.old) { opens = opens_of tracker.new }) (seen_of tracker.new) }
{
    if peer.is_idle() {
        tracker.answered(p);
    }
}

// Tests what a peer gave to be tested: that is one filter.
fn test_given<H: HeaderStore>(tracker: &mut Tracker<H>, jobs: &[Job]) -> Result<(), NoMemory>
    ensures told { OnOk result (IsSameTold (tests_of tracker.new)
        (tested_if true (paid_of tracker.old) jobs.now (tests_of tracker.old))) }
    ensures stays { IsSameSeen
        (record (seen_of tracker.old) { trials = record (trials_of tracker.old) { told = tests_of tracker.new } })
        (seen_of tracker.new) }
{
    if jobs.len() != 1 {
        return Ok(());
    }
    tracker.test(&jobs[0])?;
    Ok(())
}

// Has the matcher judge what a peer gave, and keeps the verdicts.
fn judge_given<H: HeaderStore, M: Matcher>(
    tracker: &mut Tracker<H>,
    matcher: &mut M,
    jobs: &[Job],
) -> Result<(), NoMemory>
    ensures ok { OnOk result (AreSameVerdicts (verdicts_of tracker.new)
        (with_verdicts (watch_of tracker.old) jobs.now (verdicts_of tracker.old))) }
    ensures judged { OnOk result (HasJudged M.judges (watch_of tracker.old)
        (judging_of tracker.old matcher.old) (judging_of tracker.new matcher.new)) }
    ensures stays { IsSameSeen
        (record (seen_of tracker.old) { verdicts = verdicts_of tracker.new }) (seen_of tracker.new) }
{
    let verdicts = matcher.run(jobs, tracker.watch())?;
    tracker.judge(jobs, verdicts.as_slice())?;
    Ok(())
}

// Takes filters that a peer gave. Where it was asked for them so that they are tested they are only tested; else they
// are judged, and not tested.
fn take_given<H: HeaderStore, M: Matcher>(
    tracker: &mut Tracker<H>,
    matcher: &mut M,
    p: PeerNo,
    jobs: &[Job],
) -> Result<(), NoMemory>
    ensures ok { OnOk result (AreSameVerdicts (verdicts_of tracker.new)
        (judged_if (aims_of tracker.old p.0) (watch_of tracker.old) jobs.now (verdicts_of tracker.old))) }
    ensures judged { OnOk result (MayJudge M.judges tracker.old matcher.old tracker.new matcher.new) }
    ensures told { OnOk result (IsSameTold (tests_of tracker.new)
        (tested_if (aims_of tracker.old p.0) (paid_of tracker.old) jobs.now (tests_of tracker.old))) }
    ensures stays { IsSameSeen
        (record (seen_of tracker.old)
        { verdicts = verdicts_of tracker.new; trials = record (trials_of tracker.old) { told = tests_of tracker.new } })
        (seen_of tracker.new) }
{
    if tracker.is_test(p) {
        test_given(tracker, jobs)?;
        return Ok(());
    }
    judge_given(tracker, matcher, jobs)?;
    Ok(())
}

// Takes a filter that a tracked peer sent. The last of a batch has all of them judged, or tested where they are to be.
fn hear_filter<H: HeaderStore, M: Matcher>(
    alloc: Global,
    tracker: &mut Tracker<H>,
    matcher: &mut M,
    peer: &mut Peer,
    p: PeerNo,
    filter: u8,
    block: &Hash32,
    bytes: &[u8],
) -> Result<Reaction, NoMemory>
    requires entered { IsSome (chains_of tracker.old p.0) }
    requires right { IsRight peer.old.request (claims_of tracker.old p.0) }
    ensures heard { IfOk result (HearsFrom (seen_of tracker.old) (seen_of tracker.new) p peer.old peer.new
        (Cfilter filter block.now bytes.now)) }
    ensures exposes { IfOk result (MayExpose (seen_of tracker.old) (seen_of tracker.new) p.0 peer.old) }
    ensures sendable { IfOk result IsReplySendable }
    ensures stays { OnOk result (LeavesOthers p.0 (seen_of tracker.old) (seen_of tracker.new)) }
    ensures right { OnOk result (IsRight peer.new.request (claims_of tracker.new p.0)) }
    ensures judged { OnOk result (MayJudge M.judges tracker.old matcher.old tracker.new matcher.new) }
    ensures keeps { KeepsPeer peer.old peer.new }
{
    match peer.take_filter(alloc, tracker.claims(), p, filter, block, bytes)? {
        Heard::Nothing => Ok(Reaction::Nothing),
        Heard::Close(cause) => Ok(Reaction::Close(cause)),
        Heard::Whole(jobs) => {
            take_given(tracker, matcher, p, jobs.as_slice())?;
            let_go(tracker, peer, p);
            Ok(reply_after(tracker, p, &[*block]))
        }
    }
}

// Whether the block with this hash isn't on a tracked peer's own chain.
#[tactic(auto, using(crate::proofs::Hearing::is_unplaced))]
fn is_off_chain<H: HeaderStore>(tracker: &Tracker<H>, p: PeerNo, hash: &Hash32) -> bool
    requires { IsSome (chains_of tracker.now p.0) }
    ensures { result ≡ is_none (back_to hash.now.0 (own_of (chains_of tracker.now) p)) }
{
    tracker.place(p, hash).is_none()
}

// Whether an entry that a tracked peer tells names a block that isn't on its own chain.
fn is_news<H: HeaderStore>(tracker: &Tracker<H>, p: PeerNo, entry: &Inventory) -> bool
    requires { IsSome (chains_of tracker.now p.0) }
    ensures { result ≡ is_unknown (own_of (chains_of tracker.now) p) entry.now }
{
    entry.kind == 2 && is_off_chain(tracker, p, &entry.hash)
}

// Whether one of the entries that a tracked peer tells names such a block.
fn are_news<H: HeaderStore>(tracker: &Tracker<H>, p: PeerNo, entries: EntriesView) -> bool
    requires { IsSome (chains_of tracker.now p.0) }
    ensures { result ≡ list_any (is_unknown (own_of (chains_of tracker.now) p)) entries.entry }
{
    let mut entries = entries;
    while let Some(entry) = entries.next() {
        if is_news(tracker, p, &entry) {
            return true;
        }
    }
    false
}

// Takes what a tracked peer tells of blocks (`inv`).
fn hear_inv<H: HeaderStore>(
    tracker: &Tracker<H>,
    peer: &mut Peer,
    p: PeerNo,
    entries: EntriesView,
) -> Reaction
    requires { IsSome (chains_of tracker.now p.0) }
    ensures heard { HearsFrom (seen_of tracker.now) (seen_of tracker.now) p peer.old peer.new
        (Inv entries.entry) result }
    ensures exposes { MayExpose (seen_of tracker.now) (seen_of tracker.now) p.0 peer.old result }
    ensures sendable { IsReplySendable result }
    ensures right { IsRight peer.old.request (claims_of tracker.now p.0)
        → IsRight peer.new.request (claims_of tracker.now p.0) }
    ensures keeps { KeepsPeer peer.old peer.new }
{
    peer.hear_news(are_news(tracker, p, entries));
    Reaction::Nothing
}

// Takes one message of a tracked peer.
fn hear<H: HeaderStore, M: Matcher>(
    alloc: Global,
    tracker: &mut Tracker<H>,
    matcher: &mut M,
    peer: &mut Peer,
    p: PeerNo,
    message: View,
) -> Result<Reaction, NoMemory>
    requires low { p.0 ≤ 8 }
    requires entered { IsSome (chains_of tracker.old p.0) }
    requires right { IsRight peer.old.request (claims_of tracker.old p.0) }
    ensures heard { IfOk result (HearsFrom (seen_of tracker.old) (seen_of tracker.new) p peer.old peer.new
        (msg_of message.entry)) }
    ensures exposes { IfOk result (MayExpose (seen_of tracker.old) (seen_of tracker.new) p.0 peer.old) }
    ensures sendable { IfOk result IsReplySendable }
    ensures stays { OnOk result (LeavesOthers p.0 (seen_of tracker.old) (seen_of tracker.new)) }
    ensures right { OnOk result (IsRight peer.new.request (claims_of tracker.new p.0)) }
    ensures judged { OnOk result (MayJudge M.judges tracker.old matcher.old tracker.new matcher.new) }
    ensures keeps { KeepsPeer peer.old peer.new }
{
    match message {
        View::Headers(headers) => {
            let headers = headers_in(alloc, headers)?;
            let reply = hear_headers(tracker, peer, p, headers.as_slice())?;
            Ok(reply)
        }
        View::Block(block) => {
            let reply = hear_block(alloc, tracker, peer, p, &block)?;
            Ok(reply)
        }
        View::Cfheaders {
            filter,
            stop,
            previous,
            hashes,
        } => {
            let hashes = hashes_in(alloc, hashes)?;
            let reply = hear_claims(
                tracker,
                peer,
                p,
                filter,
                &stop,
                &previous,
                hashes.as_slice(),
            )?;
            Ok(reply)
        }
        View::Cfilter {
            filter,
            block,
            bytes,
        } => {
            let reply = hear_filter(
                alloc,
                tracker,
                matcher,
                peer,
                p,
                filter,
                &block,
                bytes.as_slice(),
            )?;
            Ok(reply)
        }
        View::Inv(entries) => Ok(hear_inv(tracker, peer, p, entries)),
        other => Ok(peer.hear(&other)),
    }
}

// Takes bytes of a piece up to the end of the frame that is being read.
#[tactic(auto, using(crate::proofs::Hearing::taken_so))]
fn take_bytes(framer: &mut Framer, piece: &mut Cut) -> Result<(), NoMemory>
    ensures joined { OnOk result (framer.new ++ piece.new ≡ framer.old ++ piece.old) }
    ensures all { OnOk result (front_of framer.new ≡ Ok None → piece.new ≡ []) }
{
    let rest = piece.rest();
    let taken = framer.fill(rest)?;
    *piece = Cut::new(&rest[taken..]);
    Ok(())
}

// Takes bytes of a piece of a tracked peer up to the end of a frame, and then that frame, if it is whole. Where none
// is, nothing is left of the piece.
fn hear_next<H: HeaderStore, M: Matcher>(
    alloc: Global,
    tracker: &mut Tracker<H>,
    matcher: &mut M,
    framer: &mut Framer,
    peer: &mut Peer,
    p: PeerNo,
    piece: &mut Cut,
) -> Result<Option<Reaction>, NoMemory>
    requires low { p.0 ≤ 8 }
    requires entered { IsSome (chains_of tracker.old p.0) }
    requires right { IsRight peer.old.request (claims_of tracker.old p.0) }
    ensures heard { IfOk result (λ o. (t : Trail) → Holds peer.old t → Follows (seen_of tracker.old) p.0 t
        → HearsNext (seen_of tracker.old) (seen_of tracker.new) p
        (framer.old ++ piece.old) (framer.new ++ piece.new) peer.new t o) }
    ensures left { IfOk result (Leaves (framer.old ++ piece.old) framer.new piece.new) }
    ensures exposes { IfOk result (λ o. (t : Trail) → Holds peer.old t → Follows (seen_of tracker.old) p.0 t
        → IsUnexposed (seen_of tracker.old) → ExposesNext (seen_of tracker.new) p.0 o) }
    ensures sendable { IfOk result (λ o. IfSome o IsReplySendable) }
    ensures stays { OnOk result (LeavesOthers p.0 (seen_of tracker.old) (seen_of tracker.new)) }
    ensures right { OnOk result (IsRight peer.new.request (claims_of tracker.new p.0)) }
    ensures judged { OnOk result (MayJudge M.judges tracker.old matcher.old tracker.new matcher.new) }
    ensures calm { calm peer.old ≡ true → calm peer.new ≡ true }
{
    take_bytes(framer, piece)?;
    match next_coming(framer) {
        None => Ok(None),
        Some(Coming::Fault(cause)) => Ok(Some(Reaction::Close(cause))),
        Some(Coming::Message(message)) => {
            let reply = hear(alloc, tracker, matcher, peer, p, message)?;
            framer.done();
            Ok(Some(reply))
        }
    }
}

// Takes a piece of a tracked peer's bytes by the framer that was taken out of the peer.
fn hear_frames<H: HeaderStore, M: Matcher>(
    alloc: Global,
    tracker: &mut Tracker<H>,
    matcher: &mut M,
    framer: &mut Framer,
    peer: &mut Peer,
    p: PeerNo,
    piece: &[u8],
    acts: &mut Vec<Act>,
) -> Result<Option<HearStop>, NoMemory>
    requires low { p.0 ≤ 8 }
    requires entered { IsSome (chains_of tracker.old p.0) }
    requires right { IsRight peer.old.request (claims_of tracker.old p.0) }
    ensures heard { IfOk result (λ o. (part : Part) → Holds peer.old part.trail → framer.old ≡ part.waits
        → Follows (seen_of tracker.old) p.0 part.trail
        → HeardPiece p (record peer.new { framer = framer.new }) (seen_of tracker.old) (seen_of tracker.new)
        acts.old.items acts.new.items part (heard_part piece.now part) o) }
    ensures exposes { IfOk result (λ o. (part : Part) → Holds peer.old part.trail → framer.old ≡ part.waits
        → Follows (seen_of tracker.old) p.0 part.trail → IsUnexposed (seen_of tracker.old)
        → ExposesLast (seen_of tracker.new) p.0 o) }
    ensures doable { OnOk result (p.0 < 9 → All IsDoable acts.old.items → All IsDoable acts.new.items) }
    ensures stays { OnOk result (LeavesOthers p.0 (seen_of tracker.old) (seen_of tracker.new)) }
    ensures right { OnOk result (IsRight peer.new.request (claims_of tracker.new p.0)) }
    ensures judged { OnOk result (AreJudgedBy M.judges (watch_of tracker.old)
        (judging_of tracker.old matcher.old) (judging_of tracker.new matcher.new)) }
    ensures calm { OnOk result (calm peer.old ≡ true → calm peer.new ≡ true) }
{
    let mut rest = Cut::new(piece);
    while let Some(reply) = hear_next(alloc, tracker, matcher, framer, peer, p, &mut rest)? {
        match reply {
            Reaction::Nothing => {}
            Reaction::Send(message) => acts.push(Act::Send(p, message))?,
            Reaction::Close(cause) => return Ok(Some(HearStop::Fault(cause))),
            Reaction::Expose(block, filter) => {
                return Ok(Some(HearStop::Exposed(Exposure { block, filter })));
            }
        }
    }
    Ok(None)
}

/// Takes a piece of a tracked peer's bytes, up to the first frame that deserves a cause or exposes the peer, and adds
/// the replies that are owed to its messages to the acts. Filters are judged by this matcher alone.
pub fn hear_piece<H: HeaderStore, M: Matcher>(
    alloc: Global,
    tracker: &mut Tracker<H>,
    matcher: &mut M,
    peer: &mut Peer,
    p: PeerNo,
    piece: &[u8],
    acts: &mut Vec<Act>,
) -> Result<Option<HearStop>, NoMemory>
    requires low { p.0 ≤ 8 }
    requires entered { IsSome (chains_of tracker.old p.0) }
    requires right { IsRight peer.old.request (claims_of tracker.old p.0) }
    ensures heard { IfOk result (λ o. (part : Part) → Holds peer.old part.trail → peer.old.framer ≡ part.waits
        → Follows (seen_of tracker.old) p.0 part.trail → HeardPiece p peer.new (seen_of tracker.old)
        (seen_of tracker.new) acts.old.items acts.new.items part (heard_part piece.now part) o) }
    ensures exposes { IfOk result (λ o. (part : Part) → Holds peer.old part.trail → peer.old.framer ≡ part.waits
        → Follows (seen_of tracker.old) p.0 part.trail → IsUnexposed (seen_of tracker.old)
        → ExposesLast (seen_of tracker.new) p.0 o) }
    ensures doable { OnOk result (p.0 < 9 → All IsDoable acts.old.items → All IsDoable acts.new.items) }
    ensures stays { OnOk result (LeavesOthers p.0 (seen_of tracker.old) (seen_of tracker.new)) }
    ensures right { OnOk result (IsRight peer.new.request (claims_of tracker.new p.0)) }
    ensures judged { OnOk result (AreJudgedBy M.judges (watch_of tracker.old)
        (judging_of tracker.old matcher.old) (judging_of tracker.new matcher.new)) }
    ensures calm { OnOk result (calm peer.old ≡ true → calm peer.new ≡ true) }
{
    let mut framer = peer.take_framer(alloc);
    let heard = hear_frames(alloc, tracker, matcher, &mut framer, peer, p, piece, acts);
    peer.put_framer(framer);
    heard
}
