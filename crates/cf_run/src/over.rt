//! The run of a client over any wires: the dials, the turns, and the finish.
ghost use Rattle.std.specs.Prelude.{◌≡◌, ◌≢◌, ℕ, None, ◌<◌, ◌≤◌, ◌+◌, ◌∷◌, ◌++◌, [], List, OnOk, OnErr, IfOk, IfSome, IsErrOf, true, false, length};
ghost use Rattle.cf_run.specs.Names.{names_in};
ghost use Rattle.cf_sync.specs.{MayTake, Rule, once, SyncTheorem};
ghost use Rattle.cf_run.specs.Texts.{PutBefore, PutBy};
ghost use Rattle.cf_place.specs.{MayAct, Allowed, after, entry_of, ActTells, Greeting, TellsGreeting};
ghost use Rattle.cf_run.specs.Passing.{Passes, KeepsTerms, StaysRight};
ghost use Rattle.cf_run.specs.Run.{AreBytesOf, HasDialled, HasNames, IsEnd, IsRight, IsTicked};
ghost use Rattle.cf_run.specs.States.{Doing, HoldsOver, run_state, Runs, Performs, Dials, Turns, IsOneMore, Turned, Stopped, IsInStep, EndsTurns, TakesTurns, CountsTurn};
ghost use Rattle.cf_client.specs.{Reflects, Answers, count_of, rule_by, greeting_by};
ghost use Rattle.cf_run.specs.Versions.{KeepsGreeting};
ghost use Rattle.cf_run.specs.Whole.{AreNewWires, EndsWithin, IsOutcome, LeavesWires};
ghost use Rattle.std.specs.List.{All};
ghost use Rattle.cf_bytes.specs.{IsBytes};
ghost use Rattle.cf_msg.specs.{command_of};
ghost use Rattle.cf_peer.specs.declared.act.Act.{Act};
ghost use Rattle.cf_peer.specs.declared.act.Act.TheVariants.{Send, Close};
ghost use Rattle.cf_peer.specs.declared.mode.Mode.TheVariants.{Once};
ghost use Rattle.cf_peer.specs.{IsDoable, IsSendable, bytes_of};
ghost use Rattle.cf_wires.specs.{Told, tell, HasCause};
ghost use Rattle.cf_wires.specs.Log.{Log};
ghost use Rattle.cf_wires.specs.declared.event.Delivery.TheVariants.{Ended};
ghost use Rattle.cf_wires.specs.declared.event.Event.TheVariants.{Dialled, Sent, SendFailed, Closed, Took};

use crate::outcome::{End, Outcome};
use crate::progress::Progress;
use crate::trace::TraceLine;
use cf_bytes::{NoMemory, PeerNo};
use cf_client::Client;
use cf_frame::encode;
use cf_headers::HeaderStore;
use cf_match::Matcher;
use cf_msg::{Msg, write};
use cf_peer::{Act, Cause};
use cf_place::State;
use cf_scan::Watch;
use cf_wires::{Delivery, WireFail, Wires};
use std::alloc::Global;

// Writes a message and sends it.
fn send_message<W: Wires>(
    alloc: Global,
    wires: &mut W,
    p: PeerNo,
    message: &Msg,
) -> Result<[u8; 12], WireFail>
    requires sendable { IsSendable message.now }
    requires open { (W.told wires.old).finished ≡ false }
    ensures sent { IfOk result (λ command. (command ≡ command_of message.now)
        × (W.told wires.new ≡ tell (Sent p (bytes_of message.now)) (W.told wires.old))) }
    ensures not_sent { IsErrOf result WireFail.Failed → W.told wires.new ≡ tell (SendFailed p) (W.told wires.old) }
    ensures no_memory { IsErrOf result WireFail.NoMemory → W.told wires.new ≡ W.told wires.old }
    ensures cause { HasCause (W.faults wires.old) (W.faults wires.new) result }
    ensures keeps { W.keeps wires.new ≡ W.keeps wires.old }
    ensures same { W.script wires.new ≡ W.script wires.old }
{
    let frame = write(alloc, message)?;
    let bytes = encode(alloc, &frame.command, frame.payload.as_slice())?;
    wires.send(p, &bytes)?;
    Ok(frame.command)
}

// Sends a message, unless the peer's failed send is still to be told.
fn perform_send<W: Wires>(
    alloc: Global,
    wires: &mut W,
    p: PeerNo,
    message: &Msg,
    progress: &mut Progress,
) -> Result<(), NoMemory>
    requires number { p.0 < 9 }
    requires sendable { IsSendable message.now }
    requires step { IsInStep (W.told wires.old) progress.old }
    requires open { (W.told wires.old).finished ≡ false }
    ensures doing { OnOk result ((rule : Rule) (more : List Act) (called : List (List ℕ)) (planned : Log)
        → MayAct rule (Send p message.now) planned
        → Doing rule (Send p message.now ∷ more) progress.old called planned (W.told wires.old)
        → Doing rule more progress.new called (Sent p (bytes_of message.now) ∷ planned) (W.told wires.new)) }
    ensures right { OnErr result ((rule : Rule) (more : List Act) (called : List (List ℕ)) (planned : Log)
        → MayAct rule (Send p message.now) planned
        → Doing rule (Send p message.now ∷ more) progress.old called planned (W.told wires.old)
        → IsRight rule.mode (W.told wires.new)) }
    ensures versions { (greeting : Greeting) → TellsGreeting greeting message.now
        → KeepsGreeting greeting (W.told wires.old) (W.told wires.new) }
    ensures performs { Performs
        (run_state (W.told wires.old) (W.faults wires.old) (W.script wires.old) (W.keeps wires.old) progress.old)
        (run_state (W.told wires.new) (W.faults wires.new) (W.script wires.new) (W.keeps wires.new) progress.new) }
{
    if progress.is_pending(p) {
        return Ok(());
    }
    match send_message(alloc, wires, p, message) {
        Ok(command) => {
            progress.trace.push(TraceLine::Sent(p, command))?;
            Ok(())
        }
        Err(WireFail::Failed) => {
            progress.note_failure(p);
            Ok(())
        }
        Err(WireFail::NoMemory) => Err(NoMemory),
    }
}

// Closes a peer, unless its failed send is still to be told. A second close does nothing.
fn perform_close<W: Wires>(
    wires: &mut W,
    p: PeerNo,
    cause: Cause,
    progress: &mut Progress,
) -> Result<(), NoMemory>
    requires number { p.0 < 9 }
    requires step { IsInStep (W.told wires.old) progress.old }
    requires open { (W.told wires.old).finished ≡ false }
    ensures doing { OnOk result ((rule : Rule) (more : List Act) (called : List (List ℕ)) (planned : Log)
        → MayAct rule (Close p cause) planned
        → Doing rule (Close p cause ∷ more) progress.old called planned (W.told wires.old)
        → Doing rule more progress.new called (Closed p ∷ planned) (W.told wires.new)) }
    ensures right { OnErr result ((rule : Rule) (more : List Act) (called : List (List ℕ)) (planned : Log)
        → MayAct rule (Close p cause) planned
        → Doing rule (Close p cause ∷ more) progress.old called planned (W.told wires.old)
        → IsRight rule.mode (W.told wires.new)) }
    ensures versions { (greeting : Greeting) → KeepsGreeting greeting (W.told wires.old) (W.told wires.new) }
    ensures performs { Performs
        (run_state (W.told wires.old) (W.faults wires.old) (W.script wires.old) (W.keeps wires.old) progress.old)
        (run_state (W.told wires.new) (W.faults wires.new) (W.script wires.new) (W.keeps wires.new) progress.new) }
{
    if progress.is_pending(p) {
        return Ok(());
    }
    if progress.is_closed(p) {
        return Ok(());
    }
    progress.trace.push(TraceLine::Closed(p, cause))?;
    wires.close(p);
    progress.closed[p.0 as usize] = true;
    Ok(())
}

// Does one act, unless its peer's failed send is still to be told.
fn perform_act<W: Wires>(
    alloc: Global,
    wires: &mut W,
    act: &Act,
    progress: &mut Progress,
) -> Result<(), NoMemory>
    requires doable { IsDoable act.now }
    requires step { IsInStep (W.told wires.old) progress.old }
    requires open { (W.told wires.old).finished ≡ false }
    ensures doing { OnOk result ((rule : Rule) (more : List Act) (called : List (List ℕ)) (planned : Log)
        → MayAct rule act.now planned → Doing rule (act.now ∷ more) progress.old called planned (W.told wires.old)
        → Doing rule more progress.new called (entry_of act.now ∷ planned) (W.told wires.new)) }
    ensures right { OnErr result ((rule : Rule) (more : List Act) (called : List (List ℕ)) (planned : Log)
        → MayAct rule act.now planned → Doing rule (act.now ∷ more) progress.old called planned (W.told wires.old)
        → IsRight rule.mode (W.told wires.new)) }
    ensures versions { (greeting : Greeting) → ActTells greeting act.now
        → KeepsGreeting greeting (W.told wires.old) (W.told wires.new) }
    ensures performs { Performs
        (run_state (W.told wires.old) (W.faults wires.old) (W.script wires.old) (W.keeps wires.old) progress.old)
        (run_state (W.told wires.new) (W.faults wires.new) (W.script wires.new) (W.keeps wires.new) progress.new) }
{
    match act {
        Act::Send(p, message) => {
            perform_send(alloc, wires, *p, message, progress)?;
            Ok(())
        }
        Act::Close(p, cause) => {
            perform_close(wires, *p, *cause, progress)?;
            Ok(())
        }
    }
}

// Does acts in order.
fn perform_acts<W: Wires>(
    alloc: Global,
    wires: &mut W,
    acts: &[Act],
    progress: &mut Progress,
) -> Result<(), NoMemory>
    requires doable { All IsDoable acts.now }
    requires step { IsInStep (W.told wires.old) progress.old }
    requires open { (W.told wires.old).finished ≡ false }
    ensures doing { OnOk result ((rule : Rule) (called : List (List ℕ)) (planned : Log)
        → Allowed rule acts.now planned → Doing rule acts.now progress.old called planned (W.told wires.old)
        → Doing rule [] progress.new called (after acts.now planned) (W.told wires.new)) }
    ensures right { OnErr result ((rule : Rule) (called : List (List ℕ)) (planned : Log)
        → Allowed rule acts.now planned → Doing rule acts.now progress.old called planned (W.told wires.old)
        → IsRight rule.mode (W.told wires.new)) }
    ensures versions { (greeting : Greeting) → All (ActTells greeting) acts.now
        → KeepsGreeting greeting (W.told wires.old) (W.told wires.new) }
    ensures performs { Performs
        (run_state (W.told wires.old) (W.faults wires.old) (W.script wires.old) (W.keeps wires.old) progress.old)
        (run_state (W.told wires.new) (W.faults wires.new) (W.script wires.new) (W.keeps wires.new) progress.new) }
{
    for act in acts {
        perform_act(alloc, wires, act, progress)?;
    }
    Ok(())
}

// Tells the client of each failed send, the lowest number first, and does what it then wants, which begins with the
// peer's close.
fn settle<W: Wires, H: HeaderStore, M: Matcher>(
    alloc: Global,
    wires: &mut W,
    client: &mut Client<H, M>,
    progress: &mut Progress,
) -> Result<(), NoMemory>
    requires step { IsInStep (W.told wires.old) progress.old }
    requires open { (W.told wires.old).finished ≡ false }
    ensures holds { OnOk result ((called : List (List ℕ)) (planned : Log) → Reflects client.old planned
        → Doing (rule_by client.old) [] progress.old called planned (W.told wires.old)
        → IsTicked (rule_by client.old).mode planned
        → HoldsOver client.new progress.new called (W.told wires.new)) }
    ensures stays { (called : List (List ℕ)) (planned : Log)
        → Reflects client.old planned → Doing (rule_by client.old) [] progress.old called planned (W.told wires.old)
        → StaysRight result client.old (W.told wires.old) (W.told wires.new) }
    ensures count { OnOk result (count_of client.new ≡ count_of client.old) }
    ensures terms { KeepsTerms result client.old client.new }
    ensures performs { Performs
        (run_state (W.told wires.old) (W.faults wires.old) (W.script wires.old) (W.keeps wires.old) progress.old)
        (run_state (W.told wires.new) (W.faults wires.new) (W.script wires.new) (W.keeps wires.new) progress.new) }
{
    while let Some(p) = progress.next_pending() {
        progress.note_told(p);
        let acts = client.send_failed(p)?;
        perform_acts(alloc, wires, &acts, progress)?;
    }
    Ok(())
}

// Does what the client wants, and tells it of what failed.
fn carry_out<W: Wires, H: HeaderStore, M: Matcher>(
    alloc: Global,
    wires: &mut W,
    client: &mut Client<H, M>,
    acts: &[Act],
    progress: &mut Progress,
) -> Result<(), NoMemory>
    requires doable { All IsDoable acts.now }
    requires step { IsInStep (W.told wires.old) progress.old }
    requires open { (W.told wires.old).finished ≡ false }
    ensures holds { OnOk result ((called : List (List ℕ)) (log : Log) → Answers client.old acts.now log
        → Doing (rule_by client.old) acts.now progress.old called log (W.told wires.old)
        → IsTicked (rule_by client.old).mode (after acts.now log)
        → HoldsOver client.new progress.new called (W.told wires.new)) }
    ensures right { OnErr result ((called : List (List ℕ)) (log : Log) → Answers client.old acts.now log
        → Doing (rule_by client.old) acts.now progress.old called log (W.told wires.old)
        → IsRight (rule_by client.old).mode (W.told wires.new)) }
    ensures versions { (called : List (List ℕ)) (log : Log) → Answers client.old acts.now log
        → Doing (rule_by client.old) acts.now progress.old called log (W.told wires.old)
        → All (ActTells (greeting_by client.old)) acts.now
        → KeepsGreeting (greeting_by client.old) (W.told wires.old) (W.told wires.new) }
    ensures count { OnOk result (count_of client.new ≡ count_of client.old) }
    ensures terms { KeepsTerms result client.old client.new }
    ensures performs { Performs
        (run_state (W.told wires.old) (W.faults wires.old) (W.script wires.old) (W.keeps wires.old) progress.old)
        (run_state (W.told wires.new) (W.faults wires.new) (W.script wires.new) (W.keeps wires.new) progress.new) }
{
    perform_acts(alloc, wires, acts, progress)?;
    settle(alloc, wires, client, progress)?;
    Ok(())
}

// Tells the client of a peer that was dialled, and does what it then wants.
fn greet<W: Wires, H: HeaderStore, M: Matcher>(
    alloc: Global,
    wires: &mut W,
    client: &mut Client<H, M>,
    progress: &mut Progress,
    p: PeerNo,
    name: &str,
) -> Result<(), NoMemory>
    requires room { p.0 ≤ 8 }
    requires next { p.0 ≡ count_of client.old }
    requires step { IsInStep (W.told wires.old) progress.old }
    requires open { (W.told wires.old).finished ≡ false }
    ensures holds { OnOk result ((called : List (List ℕ)) (log : Log) → Reflects client.old log → ((acts : List Act)
        → Doing (rule_by client.old) acts progress.old called (Dialled p name.now ∷ log) (W.told wires.old))
        → IsTicked (rule_by client.old).mode log → HoldsOver client.new progress.new called (W.told wires.new)) }
    ensures stays { (called : List (List ℕ)) (log : Log) → Reflects client.old log → ((acts : List Act)
        → Doing (rule_by client.old) acts progress.old called (Dialled p name.now ∷ log) (W.told wires.old))
        → StaysRight result client.old (W.told wires.old) (W.told wires.new) }
    ensures count { OnOk result (count_of client.new ≡ count_of client.old + 1) }
    ensures terms { KeepsTerms result client.old client.new }
    ensures performs { Performs
        (run_state (W.told wires.old) (W.faults wires.old) (W.script wires.old) (W.keeps wires.old) progress.old)
        (run_state (W.told wires.new) (W.faults wires.new) (W.script wires.new) (W.keeps wires.new) progress.new) }
{
    let acts = client.dialled(p, name)?;
    carry_out(alloc, wires, client, &acts, progress)?;
    Ok(())
}

// Dials the next peer.
fn dial_one<W: Wires, H: HeaderStore, M: Matcher>(
    alloc: Global,
    wires: &mut W,
    client: &mut Client<H, M>,
    progress: &mut Progress,
    name: &str,
) -> Result<(), NoMemory>
    requires room { (W.told wires.old).tally.dials < 8 }
    requires untaken { (W.told wires.old).tally.taken ≡ 0 }
    requires unended { (W.told wires.old).tally.ended ≡ 0 }
    requires next { count_of client.old ≡ (W.told wires.old).tally.dials + 1 }
    requires step { IsInStep (W.told wires.old) progress.old }
    requires open { (W.told wires.old).finished ≡ false }
    ensures holds { OnOk result ((called : List (List ℕ)) → HoldsOver client.old progress.old called (W.told wires.old)
        → HoldsOver client.new progress.new (called ++ name.now ∷ []) (W.told wires.new)) }
    ensures stays { (called : List (List ℕ)) → HoldsOver client.old progress.old called (W.told wires.old)
        → StaysRight result client.old (W.told wires.old) (W.told wires.new) }
    ensures count { OnOk result (count_of client.new ≡ count_of client.old + 1) }
    ensures terms { KeepsTerms result client.old client.new }
    ensures one { OnOk result (IsOneMore name.now (W.told wires.old) (W.told wires.new)) }
    ensures dials { Dials name.now
        (run_state (W.told wires.old) (W.faults wires.old) (W.script wires.old) (W.keeps wires.old) progress.old)
        (run_state (W.told wires.new) (W.faults wires.new) (W.script wires.new) (W.keeps wires.new) progress.new) }
{
    match wires.dial(name) {
        Ok(p) => {
            greet(alloc, wires, client, progress, p, name)?;
            Ok(())
        }
        Err(WireFail::Failed) => {
            client.not_dialled(client.next_number(), name)?;
            Ok(())
        }
        Err(WireFail::NoMemory) => Err(NoMemory),
    }
}

// What a slice of bytes holds are bytes: its type says so.
fn are_bytes(piece: &[u8])
    ensures { IsBytes piece.now }
{}

// What is delivered are bytes.
fn note_bytes(d: &Delivery)
    ensures { AreBytesOf d.now }
{
    if let Delivery::Got(_, piece) = d {
        are_bytes(piece.as_slice());
    }
}

// Takes the next delivery, and does what the client then wants. Says whether there was one: the client isn't told of
// the end.
pub(crate) fn take_next<W: Wires, H: HeaderStore, M: Matcher>(
    alloc: Global,
    wires: &mut W,
    client: &mut Client<H, M>,
    progress: &mut Progress,
) -> Result<bool, NoMemory>
    requires step { IsInStep (W.told wires.old) progress.old }
    requires open { (W.told wires.old).finished ≡ false }
    ensures holds { IfOk result (λ more. more ≡ true
        → (called : List (List ℕ)) (holds : HoldsOver client.old progress.old called (W.told wires.old))
        → MayTake (rule_by client.old).mode holds.actual
        → HoldsOver client.new progress.new called (W.told wires.new)) }
    ensures over { IfOk result (λ more. more ≡ false → (client.new ≡ client.old) × (progress.new ≡ progress.old)
        × (W.told wires.new ≡ tell (Took Ended) (W.told wires.old))) }
    ensures stays { (called : List (List ℕ)) (holds : HoldsOver client.old progress.old called (W.told wires.old))
        → MayTake (rule_by client.old).mode holds.actual
        → StaysRight result client.old (W.told wires.old) (W.told wires.new) }
    ensures puts { OnOk result ((watch texts : List (List ℕ)) → PutBy watch texts (W.told wires.old)
        → PutBefore watch texts (W.told wires.new)) }
    ensures terms { KeepsTerms result client.old client.new }
    ensures taken { IfOk result (λ more. more ≡ true
        → (W.told wires.new).tally.taken ≡ (W.told wires.old).tally.taken + 1) }
    ensures unended { IfOk result (λ more. more ≡ true
        → (W.told wires.new).tally.ended ≡ (W.told wires.old).tally.ended) }
    ensures turns { Turns
        (run_state (W.told wires.old) (W.faults wires.old) (W.script wires.old) (W.keeps wires.old) progress.old)
        (run_state (W.told wires.new) (W.faults wires.new) (W.script wires.new) (W.keeps wires.new) progress.new) }
{
    let d = wires.next()?;
    if let Delivery::Ended = &d {
        return Ok(false);
    }
    // What is delivered are bytes, as the log has it.
    note_bytes(&d);
    let acts = client.step(&d)?;
    carry_out(alloc, wires, client, &acts, progress)?;
    Ok(true)
}

// Takes one delivery, if something is open.
fn take_turn<W: Wires, H: HeaderStore, M: Matcher>(
    alloc: Global,
    wires: &mut W,
    client: &mut Client<H, M>,
    progress: &mut Progress,
) -> Result<Option<End>, NoMemory>
    requires step { IsInStep (W.told wires.old) progress.old }
    requires open { (W.told wires.old).finished ≡ false }
    ensures turned { IfOk result (λ end. (called : List (List ℕ))
        → HoldsOver client.old progress.old called (W.told wires.old)
        → Turned end client.new progress.new called (W.told wires.new)) }
    ensures stays { (called : List (List ℕ)) → HoldsOver client.old progress.old called (W.told wires.old)
        → StaysRight result client.old (W.told wires.old) (W.told wires.new) }
    ensures terms { KeepsTerms result client.old client.new }
    ensures counts { IfOk result (λ end. CountsTurn Once end (W.told wires.old).tally (W.told wires.new).tally) }
    ensures turns { Turns
        (run_state (W.told wires.old) (W.faults wires.old) (W.script wires.old) (W.keeps wires.old) progress.old)
        (run_state (W.told wires.new) (W.faults wires.new) (W.script wires.new) (W.keeps wires.new) progress.new) }
{
    match client.state() {
        State::Synced => return Ok(Some(End::Synced)),
        State::NoPeers => return Ok(Some(End::NoPeers)),
        State::Working => {}
    }
    let more = take_next(alloc, wires, client, progress)?;
    if more {
        return Ok(None);
    }
    Ok(Some(End::Ended))
}

// Dials the names in order.
fn dial_all<W: Wires, H: HeaderStore, M: Matcher>(
    alloc: Global,
    wires: &mut W,
    client: &mut Client<H, M>,
    progress: &mut Progress,
    names: &[String],
) -> Result<(), NoMemory>
    requires few { length names.now ≤ 8 }
    requires fresh { (W.told wires.old).tally.dials ≡ 0 }
    requires untaken { (W.told wires.old).tally.taken ≡ 0 }
    requires unended { (W.told wires.old).tally.ended ≡ 0 }
    requires next { count_of client.old ≡ 1 }
    requires step { IsInStep (W.told wires.old) progress.old }
    requires open { (W.told wires.old).finished ≡ false }
    ensures holds { OnOk result (HoldsOver client.old progress.old [] (W.told wires.old)
        → HoldsOver client.new progress.new (names_in names.now) (W.told wires.new)) }
    ensures stays { HoldsOver client.old progress.old [] (W.told wires.old)
        → StaysRight result client.old (W.told wires.old) (W.told wires.new) }
    ensures terms { KeepsTerms result client.old client.new }
    ensures dialled { OnOk result ((W.told wires.new).tally.dials ≡ length names.now) }
    ensures first { HasNames [] (W.told wires.old) → HasDialled (names_in names.now) (W.told wires.new) }
    ensures taken { (W.told wires.new).tally.taken ≡ 0 }
    ensures unended { (W.told wires.new).tally.ended ≡ 0 }
    ensures puts { (watch texts : List (List ℕ)) → PutBefore watch texts (W.told wires.old)
        → PutBefore watch texts (W.told wires.new) }
    ensures runs { Runs
        (run_state (W.told wires.old) (W.faults wires.old) (W.script wires.old) (W.keeps wires.old) progress.old)
        (run_state (W.told wires.new) (W.faults wires.new) (W.script wires.new) (W.keeps wires.new) progress.new) }
{
    for name in names {
        dial_one(alloc, wires, client, progress, name.as_str())?;
    }
    Ok(())
}

// Dials the names in order over new wires, for a client that knows of nothing yet.
pub(crate) fn dial_first<W: Wires, H: HeaderStore, M: Matcher>(
    alloc: Global,
    wires: &mut W,
    client: &mut Client<H, M>,
    names: &[String],
    trace: bool,
) -> Result<Progress, NoMemory>
    requires wires { AreNewWires (W.told wires.old) }
    requires few { length names.now ≤ 8 }
    requires reflects { Reflects client.old [] }
    requires next { count_of client.old ≡ 1 }
    ensures holds { IfOk result (λ progress.
        HoldsOver client.new progress (names_in names.now) (W.told wires.new)) }
    ensures wanted { IfOk result (λ progress. progress.trace.wanted ≡ trace) }
    ensures step { IfOk result (IsInStep (W.told wires.new)) }
    ensures terms { KeepsTerms result client.old client.new }
    ensures dialled { OnOk result ((W.told wires.new).tally.dials ≡ length names.now) }
    ensures taken { (W.told wires.new).tally.taken ≡ 0 }
    ensures unended { (W.told wires.new).tally.ended ≡ 0 }
    ensures open { (W.told wires.new).finished ≡ false }
    ensures right { OnErr result (IsRight (rule_by client.old).mode (W.told wires.new)) }
    ensures puts { (watch : List (List ℕ)) → PutBefore watch [] (W.told wires.new) }
    ensures passes { Passes W.told W.faults W.script W.keeps (greeting_by client.old) (names_in names.now) 0
        wires.old wires.new }
{
    let mut progress = Progress::new(alloc, trace);
    dial_all(alloc, wires, client, &mut progress, names)?;
    Ok(progress)
}

// How a run ends once its turns are used up.
pub(crate) fn last_end<H: HeaderStore, M: Matcher>(client: &Client<H, M>) -> End
    ensures end { (log : Log) → Reflects client.now log → IsEnd result log }
    ensures unended { result ≢ End.Ended }
{
    match client.state() {
        State::Working => End::Tired,
        State::Synced => End::Synced,
        State::NoPeers => End::NoPeers,
    }
}

// Takes turns until the run ends.
fn take_turns<W: Wires, H: HeaderStore, M: Matcher>(
    alloc: Global,
    wires: &mut W,
    client: &mut Client<H, M>,
    progress: &mut Progress,
    turns: u32,
) -> Result<End, NoMemory>
    requires fresh { (W.told wires.old).tally.taken ≡ 0 }
    requires unended { (W.told wires.old).tally.ended ≡ 0 }
    requires step { IsInStep (W.told wires.old) progress.old }
    requires open { (W.told wires.old).finished ≡ false }
    ensures stopped { IfOk result (λ end. (called : List (List ℕ))
        → HoldsOver client.old progress.old called (W.told wires.old)
        → Stopped end client.new progress.new called (W.told wires.new)) }
    ensures stays { (called : List (List ℕ)) → HoldsOver client.old progress.old called (W.told wires.old)
        → StaysRight result client.old (W.told wires.old) (W.told wires.new) }
    ensures terms { KeepsTerms result client.old client.new }
    ensures ends { IfOk result (λ end. EndsTurns end turns (W.told wires.new).tally) }
    ensures takes { TakesTurns turns
        (run_state (W.told wires.old) (W.faults wires.old) (W.script wires.old) (W.keeps wires.old) progress.old)
        (run_state (W.told wires.new) (W.faults wires.new) (W.script wires.new) (W.keeps wires.new) progress.new) }
{
    for _turn in 0..turns {
        if let Some(end) = take_turn(alloc, wires, client, progress)? {
            return Ok(end);
        }
    }
    Ok(last_end(client))
}

// What came of a run that ended so.
pub(crate) fn outcome_of<H: HeaderStore, M: Matcher>(
    client: &mut Client<H, M>,
    progress: Progress,
    end: End,
) -> Result<Outcome, NoMemory>
    ensures end { IfOk result (λ o. o.end ≡ end) }
    ensures outcome { IfOk result (λ o. (called : List (List ℕ)) (t : Told)
        → Stopped end client.old progress called t
        → IfSome t.log (IsOutcome H.counts (rule_by client.old) progress.trace.wanted called o)) }
{
    let held = client.held();
    let ends = client.ends()?;
    let report = client.report()?;
    Ok(Outcome {
        end,
        height: report.height,
        tip: report.tip,
        history: report.history,
        trace: progress.trace.into_lines(),
        ends,
        held,
    })
}

// Dials the peers and takes turns, and puts together what came of it.
fn sync_all<W: Wires, H: HeaderStore + Drop, M: Matcher + Drop>(
    alloc: Global,
    wires: &mut W,
    names: &[String],
    watch: Watch,
    store: H,
    matcher: M,
    moment: i64,
    nonce: u64,
    turns: u32,
    trace: bool,
) -> Result<Outcome, NoMemory>
    requires wires { AreNewWires (W.told wires.old) }
    requires few { length names.now ≤ 8 }
    requires empty { (q : ℕ) → H.chain store q ≡ None }
    ensures outcome { IfOk result
        (λ o. IfSome (W.told wires.new).log (IsOutcome H.counts (once watch) trace (names_in names.now) o)) }
    ensures within { IfOk result (λ o. EndsWithin o.end (length names.now) turns (W.told wires.new).tally) }
    ensures right { IsRight Once (W.told wires.new) }
    ensures passes { Passes W.told W.faults W.script W.keeps (record { moment = moment; number = nonce })
        (names_in names.now) turns wires.old wires.new }
{
    let mut client = Client::new(alloc, watch, store, matcher, moment, nonce)?;
    let mut progress = dial_first(alloc, wires, &mut client, names, trace)?;
    let end = take_turns(alloc, wires, &mut client, &mut progress, turns)?;
    outcome_of(&mut client, progress, end)
}

/// Dials the peers in order, at most eight, and follows the best chain that they show, until nothing is open, no peer
/// is left, the stated number of deliveries was taken, or the wires give no more. Of its blocks those are fetched on
/// whose filters the peers differ, or whose filter the matcher doesn't answer with a miss (BIP 157, "Client
/// Operation"). The wires are new: nothing has passed them, and they aren't finished. They are finished once, whatever
/// is answered; and whatever is, what was sent might be sent, and who was closed deserved it. In the store no peer is
/// entered. What the run has done is kept line by line.
pub fn sync_over<W: Wires, H: HeaderStore + Drop, M: Matcher + Drop>(
    alloc: Global,
    wires: &mut W,
    names: &[String],
    watch: Watch,
    store: H,
    matcher: M,
    moment: i64,
    nonce: u64,
    turns: u32,
) -> Result<Outcome, NoMemory>
    requires wires { AreNewWires (W.told wires.old) }
    requires few { length names.now ≤ 8 }
    requires empty { (q : ℕ) → H.chain store q ≡ None }
    ensures outcome { IfOk result
        (λ o. IfSome (W.told wires.new).log (IsOutcome H.counts (once watch) true (names_in names.now) o)) }
    ensures theorem { IfOk result
        (λ o. IfSome (W.told wires.new).log (λ log. SyncTheorem watch o.height o.tip o.history log)) }
    ensures within { IfOk result (λ o. EndsWithin o.end (length names.now) turns (W.told wires.new).tally) }
    ensures right { IsRight Once (W.told wires.new) }
    ensures wires { LeavesWires W.told W.faults W.script W.keeps (record { moment = moment; number = nonce })
        (names_in names.now) turns wires.old wires.new }
{
    sync_traced(
        alloc, wires, names, watch, store, matcher, moment, nonce, turns, true,
    )
}

/// The same as `sync_over`, where what the run has done is kept line by line if that is wanted, and else no line.
pub fn sync_traced<W: Wires, H: HeaderStore + Drop, M: Matcher + Drop>(
    alloc: Global,
    wires: &mut W,
    names: &[String],
    watch: Watch,
    store: H,
    matcher: M,
    moment: i64,
    nonce: u64,
    turns: u32,
    trace: bool,
) -> Result<Outcome, NoMemory>
    requires wires { AreNewWires (W.told wires.old) }
    requires few { length names.now ≤ 8 }
    requires empty { (q : ℕ) → H.chain store q ≡ None }
    ensures outcome { IfOk result
        (λ o. IfSome (W.told wires.new).log (IsOutcome H.counts (once watch) trace (names_in names.now) o)) }
    ensures theorem { IfOk result
        (λ o. IfSome (W.told wires.new).log (λ log. SyncTheorem watch o.height o.tip o.history log)) }
    ensures within { IfOk result (λ o. EndsWithin o.end (length names.now) turns (W.told wires.new).tally) }
    ensures right { IsRight Once (W.told wires.new) }
    ensures wires { LeavesWires W.told W.faults W.script W.keeps (record { moment = moment; number = nonce })
        (names_in names.now) turns wires.old wires.new }
{
    let outcome = sync_all(
        alloc, wires, names, watch, store, matcher, moment, nonce, turns, trace,
    );
    wires.finish();
    outcome
}
