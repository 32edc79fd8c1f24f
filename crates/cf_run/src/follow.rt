//! A run that follows: the dials, the deliveries, and the texts of its moments at rest.
ghost use Rattle.std.specs.Prelude.{◌≡◌, ◌≢◌, ℕ, None, ◌<◌, ◌≤◌, ◌+◌, ◌∷◌, [], List, Option, OnOk, IfOk, IfErr, IfNone, IfSome, Some, false, true, length, string_bytes, if◌then◌else◌};
ghost use Rattle.std.specs.Bool.{Decides};
ghost use Rattle.cf_client.specs.{Reflects, count_of, rule_by, watch_by, greeting_by};
ghost use Rattle.cf_peer.specs.declared.mode.Mode.TheVariants.{Following};
ghost use Rattle.cf_run.specs.Names.{names_in};
ghost use Rattle.cf_run.specs.Passing.{Passes, StaysRight};
ghost use Rattle.cf_run.specs.Run.{IsEnd, IsRight};
ghost use Rattle.cf_run.specs.States.{EndsTurns, HoldsOver, IsInStep, Stopped, TakesTurns, Turned, Turns, run_state, CountsTurn};
ghost use Rattle.cf_run.specs.Texts.{AllPut, HavePut, IsLast, IsOver, IsSameTold, last_text, PutBefore, PutsBegun, PutsNext, PutsOne, PutsSome, SomePut, CountsTexts};
ghost use Rattle.cf_run.specs.Whole.{AreNewWires, EndsWithin, GivesUp, IsOutcome, LeavesWires, PutsAll};
ghost use Rattle.cf_scan.specs.{history_text};
ghost use Rattle.cf_sync.specs.{following, FollowTheorem, put};
ghost use Rattle.cf_wires.specs.Log.{Log};
ghost use Rattle.cf_wires.specs.declared.event.Delivery.TheVariants.{Ended};
ghost use Rattle.cf_wires.specs.declared.event.Event.TheVariants.{Took};

use crate::outcome::{End, Outcome};
use crate::over::{dial_first, last_end, outcome_of, take_next};
use crate::progress::Progress;
use crate::shown::Shown;
use crate::texts::{TextFail, Texts};
use cf_bytes::NoMemory;
use cf_client::Client;
use cf_headers::HeaderStore;
use cf_match::Matcher;
use cf_place::State;
use cf_scan::Watch;
use cf_tracker::Report;
use cf_wires::Wires;
use std::alloc::Global;

// Whether this is the last text that was put.
fn is_last(last: &Option<Shown>, text: &str) -> bool
    ensures { (before : List (List ℕ)) → IsLast (last_text last.now) before
        → put text.now before ≡ (if result then before else text.now ∷ before) }
{
    match last {
        Some(shown) => text == shown.text.as_str(),
        None => false,
    }
}

// Whether the last text tells the same tip and the same history as a report, whose text is then the same too.
fn tells(last: &Option<Shown>, report: &Report) -> bool
    ensures some { IfSome last.now (λ shown. Decides result (IsSameTold shown.report report.now)) }
    ensures none { IfNone last.now (result ≡ false) }
{
    match last {
        Some(shown) => {
            shown.report.height == report.height
                && shown.report.tip == report.tip
                && shown.report.history.is_same(&report.history)
        }
        None => false,
    }
}

// Puts the text that tells a report, unless it is the last one that was put.
fn put_text<T: Texts>(
    texts: &mut T,
    last: &mut Option<Shown>,
    text: String,
    report: Report,
) -> Result<(), TextFail>
    requires tells { string_bytes text ≡ history_text report.history report.height report.tip.0 }
    ensures put { OnOk result ((before : List (List ℕ)) → IsLast (last_text last.old) before
        → PutsOne (string_bytes text) before (last_text last.new) (T.told texts.old) (T.told texts.new)) }
    ensures begun { IfErr result (λ fail. (before : List (List ℕ)) → IsLast (last_text last.old) before
        → PutsBegun fail (string_bytes text) before (T.told texts.old) (T.told texts.new)) }
    ensures texts { CountsTexts T.faults T.holds result texts.old texts.new }
{
    if is_last(last, text.as_str()) {
        return Ok(());
    }
    texts.put(text.as_str())?;
    *last = Some(Shown { text, report });
    Ok(())
}

// Where nothing is open and a peer is connected, puts the text of the history and the tip, unless it is the last one
// that was put. Where they are those that were put last no text is made.
fn put_at_rest<H: HeaderStore, M: Matcher, T: Texts>(
    alloc: Global,
    client: &mut Client<H, M>,
    texts: &mut T,
    last: &mut Option<Shown>,
) -> Result<(), TextFail>
    requires follows { (rule_by client.old).mode ≡ Following }
    ensures put { OnOk result ((before : List (List ℕ)) → IsLast (last_text last.old) before
        → PutsNext client.old before (last_text last.new) (T.told texts.old) (T.told texts.new)) }
    ensures put_some { IfErr result (λ fail. (before : List (List ℕ)) → IsLast (last_text last.old) before
        → PutsSome fail client.old before (T.told texts.old) (T.told texts.new)) }
    ensures same { OnOk result (client.new ≡ client.old) }
    ensures texts { CountsTexts T.faults T.holds result texts.old texts.new }
{
    match client.state() {
        State::Working => return Ok(()),
        State::NoPeers => return Ok(()),
        State::Synced => {}
    }
    let report = client.report()?;
    if tells(last, &report) {
        return Ok(());
    }
    let text = report.history.text(alloc, report.height, &report.tip)?;
    put_text(texts, last, text, report)?;
    Ok(())
}

// How a run that follows ends once its wires give no more, of which the client isn't told.
fn end_of_wires<H: HeaderStore, M: Matcher>(client: &Client<H, M>) -> End
    ensures end { (log : Log) → Reflects client.now log → IsEnd result (Took Ended ∷ log) }
    ensures untired { result ≢ End.Tired }
{
    match client.state() {
        State::Working => End::Ended,
        State::Synced => End::Synced,
        State::NoPeers => End::NoPeers,
    }
}

// Puts the text of a moment at rest, and takes the next delivery, unless no peer is connected.
fn follow_turn<W: Wires, H: HeaderStore, M: Matcher, T: Texts>(
    alloc: Global,
    wires: &mut W,
    client: &mut Client<H, M>,
    progress: &mut Progress,
    texts: &mut T,
    last: &mut Option<Shown>,
) -> Result<Option<End>, TextFail>
    requires follows { (rule_by client.old).mode ≡ Following }
    requires step { IsInStep (W.told wires.old) progress.old }
    requires open { (W.told wires.old).finished ≡ false }
    ensures turned { IfOk result (λ end. (called : List (List ℕ))
        → HoldsOver client.old progress.old called (W.told wires.old)
        → Turned end client.new progress.new called (W.told wires.new)) }
    ensures puts { IfOk result (λ end. end ≡ None → (watch called : List (List ℕ)) (first : Option (List ℕ))
        → watch_by client.old ≡ watch → HoldsOver client.old progress.old called (W.told wires.old)
        → HavePut watch (last_text last.old) (W.told wires.old) first (T.told texts.old)
        → HavePut watch (last_text last.new) (W.told wires.new) first (T.told texts.new)) }
    ensures all_put { IfOk result (λ end. (e : End) → end ≡ Some e
        → (watch called : List (List ℕ)) (first : Option (List ℕ)) → watch_by client.old ≡ watch
        → HoldsOver client.old progress.old called (W.told wires.old)
        → HavePut watch (last_text last.old) (W.told wires.old) first (T.told texts.old)
        → AllPut watch (W.told wires.new) first (T.told texts.new)) }
    ensures put_some { IfErr result (λ fail. (watch called : List (List ℕ)) (first : Option (List ℕ))
        → watch_by client.old ≡ watch → HoldsOver client.old progress.old called (W.told wires.old)
        → HavePut watch (last_text last.old) (W.told wires.old) first (T.told texts.old)
        → SomePut fail watch called (W.told wires.new) first (T.told texts.new)) }
    ensures stays { (called : List (List ℕ)) → HoldsOver client.old progress.old called (W.told wires.old)
        → StaysRight result client.old (W.told wires.old) (W.told wires.new) }
    ensures rule { OnOk result (rule_by client.new ≡ rule_by client.old) }
    ensures greeting { OnOk result (greeting_by client.new ≡ greeting_by client.old) }
    ensures counts { IfOk result (λ end. CountsTurn Following end (W.told wires.old).tally (W.told wires.new).tally) }
    ensures turns { Turns
        (run_state (W.told wires.old) (W.faults wires.old) (W.script wires.old) (W.keeps wires.old) progress.old)
        (run_state (W.told wires.new) (W.faults wires.new) (W.script wires.new) (W.keeps wires.new) progress.new) }
    ensures texts { CountsTexts T.faults T.holds result texts.old texts.new }
{
    put_at_rest(alloc, client, texts, last)?;
    if let State::NoPeers = client.state() {
        return Ok(Some(End::NoPeers));
    }
    let more = take_next(alloc, wires, client, progress)?;
    if more {
        return Ok(None);
    }
    put_at_rest(alloc, client, texts, last)?;
    Ok(Some(end_of_wires(client)))
}

// Takes turns until the run ends, and puts the text of each moment at rest.
fn follow_turns<W: Wires, H: HeaderStore, M: Matcher, T: Texts>(
    alloc: Global,
    wires: &mut W,
    client: &mut Client<H, M>,
    progress: &mut Progress,
    turns: u32,
    texts: &mut T,
) -> Result<End, TextFail>
    requires follows { (rule_by client.old).mode ≡ Following }
    requires fresh { (W.told wires.old).tally.taken ≡ 0 }
    requires unended { (W.told wires.old).tally.ended ≡ 0 }
    requires step { IsInStep (W.told wires.old) progress.old }
    requires open { (W.told wires.old).finished ≡ false }
    ensures stopped { IfOk result (λ end. (called : List (List ℕ))
        → HoldsOver client.old progress.old called (W.told wires.old)
        → Stopped end client.new progress.new called (W.told wires.new)) }
    ensures put { OnOk result ((watch called : List (List ℕ)) → watch_by client.old ≡ watch
        → HoldsOver client.old progress.old called (W.told wires.old) → PutBefore watch [] (W.told wires.old)
        → AllPut watch (W.told wires.new) (T.told texts.old) (T.told texts.new)) }
    ensures put_some { IfErr result (λ fail. (watch called : List (List ℕ)) → watch_by client.old ≡ watch
        → HoldsOver client.old progress.old called (W.told wires.old) → PutBefore watch [] (W.told wires.old)
        → SomePut fail watch called (W.told wires.new) (T.told texts.old) (T.told texts.new)) }
    ensures stays { (called : List (List ℕ)) → HoldsOver client.old progress.old called (W.told wires.old)
        → StaysRight result client.old (W.told wires.old) (W.told wires.new) }
    ensures rule { OnOk result (rule_by client.new ≡ rule_by client.old) }
    ensures done { IfOk result (λ end. end ≡ End.Synced → IsOver turns (W.told wires.new).tally) }
    ensures ends { IfOk result (λ end. EndsTurns end turns (W.told wires.new).tally) }
    ensures takes { TakesTurns turns
        (run_state (W.told wires.old) (W.faults wires.old) (W.script wires.old) (W.keeps wires.old) progress.old)
        (run_state (W.told wires.new) (W.faults wires.new) (W.script wires.new) (W.keeps wires.new) progress.new) }
    ensures texts { CountsTexts T.faults T.holds result texts.old texts.new }
{
    let mut last = None;
    for _turn in 0..turns {
        if let Some(end) = follow_turn(alloc, wires, client, progress, texts, &mut last)? {
            return Ok(end);
        }
    }
    put_at_rest(alloc, client, texts, &mut last)?;
    Ok(last_end(client))
}

// A client that follows, before its first dial.
fn follower<H: HeaderStore + Drop, M: Matcher + Drop>(
    alloc: Global,
    watch: Watch,
    store: H,
    matcher: M,
    moment: i64,
    nonce: u64,
) -> Result<Client<H, M>, NoMemory>
    requires { (q : ℕ) → H.chain store q ≡ None }
    ensures reflects { IfOk result (λ c. Reflects c []) }
    ensures rule { IfOk result (λ c. rule_by c ≡ following watch) }
    ensures greeting { IfOk result (λ c. greeting_by c ≡ record { moment = moment; number = nonce }) }
    ensures count { IfOk result (λ c. count_of c ≡ 1) }
{
    let client = Client::new(alloc, watch, store, matcher, moment, nonce)?;
    Ok(client.following())
}

// Dials the peers, follows what they show, and puts together what came of it.
fn follow_all<W: Wires, H: HeaderStore + Drop, M: Matcher + Drop, T: Texts>(
    alloc: Global,
    wires: &mut W,
    names: &[String],
    watch: Watch,
    store: H,
    matcher: M,
    moment: i64,
    nonce: u64,
    turns: u32,
    trace: bool,
    texts: &mut T,
) -> Result<Outcome, TextFail>
    requires wires { AreNewWires (W.told wires.old) }
    requires few { length names.now ≤ 8 }
    requires empty { (q : ℕ) → H.chain store q ≡ None }
    ensures outcome { IfOk result
        (λ o. IfSome (W.told wires.new).log (IsOutcome H.counts (following watch) trace (names_in names.now) o)) }
    ensures within { IfOk result (λ o. EndsWithin o.end (length names.now) turns (W.told wires.new).tally) }
    ensures done { IfOk result (λ o. o.end ≡ End.Synced → IsOver turns (W.told wires.new).tally) }
    ensures passes { Passes W.told W.faults W.script W.keeps (record { moment = moment; number = nonce })
        (names_in names.now) turns wires.old wires.new }
    ensures right { IsRight Following (W.told wires.new) }
    ensures put { OnOk result (PutsAll T.told T.faults watch (W.told wires.new).log texts.old texts.new) }
    ensures cut { IfErr result (λ fail.
        GivesUp fail T.told T.faults watch (names_in names.now) (W.told wires.new) texts.old texts.new) }
    ensures same_reference { T.holds texts.new ≡ T.holds texts.old }
{
    let mut client = follower(alloc, watch, store, matcher, moment, nonce)?;
    let mut progress = dial_first(alloc, wires, &mut client, names, trace)?;
    let end = follow_turns(alloc, wires, &mut client, &mut progress, turns, texts)?;
    let outcome = outcome_of(&mut client, progress, end)?;
    Ok(outcome)
}

/// Dials the peers in order, at most eight, and follows the best chain that they show as it grows, until no peer is
/// left, the stated number of deliveries was taken, or the wires give no more. At each moment between two deliveries at
/// which nothing is open and a peer is connected the text of the history and the tip is put, unless it is the last one
/// that was put. It ends with `Synced` where the turns are taken or the wires give no more with nothing open, and a
/// peer is connected. The wires are new: nothing has passed them, and they aren't finished. They are finished once,
/// whatever is answered; and whatever is, what was sent might be sent, and who was closed deserved it. In the store no
/// peer is entered. What the run has done is kept line by line.
pub fn follow_over<W: Wires, H: HeaderStore + Drop, M: Matcher + Drop, T: Texts>(
    alloc: Global,
    wires: &mut W,
    names: &[String],
    watch: Watch,
    store: H,
    matcher: M,
    moment: i64,
    nonce: u64,
    turns: u32,
    texts: &mut T,
) -> Result<Outcome, TextFail>
    requires wires { AreNewWires (W.told wires.old) }
    requires few { length names.now ≤ 8 }
    requires empty { (q : ℕ) → H.chain store q ≡ None }
    ensures outcome { IfOk result
        (λ o. IfSome (W.told wires.new).log (IsOutcome H.counts (following watch) true (names_in names.now) o)) }
    ensures theorem { IfOk result (λ o. IfSome (W.told wires.new).log (λ log.
        FollowTheorem watch o.height o.tip o.history log)) }
    ensures within { IfOk result (λ o. EndsWithin o.end (length names.now) turns (W.told wires.new).tally) }
    ensures done { IfOk result (λ o. o.end ≡ End.Synced → IsOver turns (W.told wires.new).tally) }
    ensures wires { LeavesWires W.told W.faults W.script W.keeps (record { moment = moment; number = nonce })
        (names_in names.now) turns wires.old wires.new }
    ensures right { IsRight Following (W.told wires.new) }
    ensures put { OnOk result (PutsAll T.told T.faults watch (W.told wires.new).log texts.old texts.new) }
    ensures cut { IfErr result (λ fail.
        GivesUp fail T.told T.faults watch (names_in names.now) (W.told wires.new) texts.old texts.new) }
    ensures same_reference { T.holds texts.new ≡ T.holds texts.old }
{
    follow_traced(
        alloc, wires, names, watch, store, matcher, moment, nonce, turns, true, texts,
    )
}

/// The same as `follow_over`, where what the run has done is kept line by line if that is wanted, and else no line.
pub fn follow_traced<W: Wires, H: HeaderStore + Drop, M: Matcher + Drop, T: Texts>(
    alloc: Global,
    wires: &mut W,
    names: &[String],
    watch: Watch,
    store: H,
    matcher: M,
    moment: i64,
    nonce: u64,
    turns: u32,
    trace: bool,
    texts: &mut T,
) -> Result<Outcome, TextFail>
    requires wires { AreNewWires (W.told wires.old) }
    requires few { length names.now ≤ 8 }
    requires empty { (q : ℕ) → H.chain store q ≡ None }
    ensures outcome { IfOk result
        (λ o. IfSome (W.told wires.new).log (IsOutcome H.counts (following watch) trace (names_in names.now) o)) }
    ensures theorem { IfOk result (λ o. IfSome (W.told wires.new).log (λ log.
        FollowTheorem watch o.height o.tip o.history log)) }
    ensures within { IfOk result (λ o. EndsWithin o.end (length names.now) turns (W.told wires.new).tally) }
    ensures done { IfOk result (λ o. o.end ≡ End.Synced → IsOver turns (W.told wires.new).tally) }
    ensures wires { LeavesWires W.told W.faults W.script W.keeps (record { moment = moment; number = nonce })
        (names_in names.now) turns wires.old wires.new }
    ensures right { IsRight Following (W.told wires.new) }
    ensures put { OnOk result (PutsAll T.told T.faults watch (W.told wires.new).log texts.old texts.new) }
    ensures cut { IfErr result (λ fail.
        GivesUp fail T.told T.faults watch (names_in names.now) (W.told wires.new) texts.old texts.new) }
    ensures same_reference { T.holds texts.new ≡ T.holds texts.old }
{
    let outcome = follow_all(
        alloc, wires, names, watch, store, matcher, moment, nonce, turns, trace, texts,
    );
    wires.finish();
    outcome
}
