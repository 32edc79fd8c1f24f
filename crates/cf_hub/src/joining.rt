//! What is known once the readers and the ticker are joined.
ghost use Rattle.std.specs.Prelude.{◌≡◌, ◌≤◌, ◌<◌, [], map, All, vec_len, vec_capacity, IsSome, ◌↔◌};
ghost use Rattle.std.specs.Option.{ForSome};
ghost use Rattle.crossbeam_channel.specs.Claims.{view as knows};
ghost use Rattle.crossbeam_channel.specs.Ends.{sends_on};
ghost use Rattle.cf_tasks.specs.{of};
ghost use Rattle.cf_hub.specs.Finish.{whose, begun, Fronts, pulse_in};
ghost use Rattle.cf_hub.specs.Gives.{IsFront};
ghost use Rattle.cf_outside.specs.{Reads, Ticked};

use cf_conn::Source;
use cf_outside::{EntryKind, Finished, Pulse, Reader, Stopped, Ticker};
use cf_tasks::{Busy, Queue, Sender};
use std::marker::Model;
use std::snapshot::Snapshot;
use std::sync::Wait;
use std::thread::Threads;

/// A source that was read. Contracts see its number, how it was dialled, what was sent of it, and what it came to.
#[derive(Drop)]
pub struct Joined<S: Source + Drop, R: Wait + Drop> {
    number: u8,
    of: Snapshot<Busy<Reader<S, R>, R>>,
    source: S,
    seat: Snapshot<Sender<EntryKind>>,
}

impl<S: Source + Drop, R: Wait + Drop> Model for Joined<S, R> {
    ghost use Rattle.crossbeam_channel.specs.Claims.{view as knows};
    ghost use Rattle.cf_hub.specs.Finish.{Read};
    ghost use Rattle.cf_outside.specs.{Reads};

    ghost Value = { Read S };

    ghost view = { λ j. record {
      number = j.number;
      before = j.of.value.source;
      sent = (knows j.seat.value.seat).sent;
      after = j.source;
    } };

    ghost invariant = { λ j. Reads S.left S.faults S.ended j.of.value.source (knows j.seat.value.seat).sent j.source };
}

impl<S: Source + Drop, R: Wait + Drop> Joined<S, R> {
    // What was sent is what the source gave.
    fn reads(&self)
        ensures { Reads S.left S.faults S.ended self.now.before self.now.sent self.now.after }
    {
        // To look at a field opens the invariant, which says so.
        let _ = &self.number;
    }
}

/// What was sent of each is what its source gave.
pub(crate) fn each_reads<S: Source + Drop, R: Wait + Drop>(done: &[Joined<S, R>])
    ensures { All (λ j. Reads S.left S.faults S.ended j.before j.sent j.after) done.now }
{
    for i in 0..done.len() {
        done[i].reads();
    }
}

/// A pulse that was waited for. Contracts see how it came, what was sent of it, and what it came to.
#[derive(Drop)]
pub struct Rested<P: Pulse, R: Wait + Drop> {
    of: Snapshot<Busy<Ticker<P, R>, R>>,
    pulse: P,
    seat: Snapshot<Sender<EntryKind>>,
}

impl<P: Pulse, R: Wait + Drop> Model for Rested<P, R> {
    ghost use Rattle.crossbeam_channel.specs.Claims.{view as knows};
    ghost use Rattle.cf_hub.specs.Finish.{Beat};
    ghost use Rattle.cf_outside.specs.{Ticked};

    ghost Value = { Beat P };

    ghost view = { λ r. record { before = r.of.value.pulse; sent = (knows r.seat.value.seat).sent; after = r.pulse } };

    ghost invariant = { λ r. Ticked P.answers r.of.value.pulse (knows r.seat.value.seat).sent r.pulse };
}

impl<P: Pulse, R: Wait + Drop> Rested<P, R> {
    // What was sent is all of the pulse's answers but the last.
    fn ticks(&self)
        ensures { Ticked P.answers self.now.before self.now.sent self.now.after }
    {
        // To look at a field opens the invariant, which says so.
        let _ = &self.pulse;
    }
}

/// What was sent of the pulse, where it was waited for, is all of its answers but the last.
pub(crate) fn it_ticks<P: Pulse, R: Wait + Drop>(rested: &Option<Rested<P, R>>)
    ensures { ForSome rested.now (λ b. Ticked P.answers b.before b.sent b.after) }
{
    match rested {
        Some(one) => one.ticks(),
        None => {}
    }
}

/// Waits for each reader, and takes its sender in. What was received of each is a beginning of what it sent, and that
/// is what its source gave.
pub(crate) fn join_readers<S: Source + Drop, R: Wait + Drop, T: Threads + Wait>(
    rt: &T,
    queue: &mut Queue<EntryKind>,
    held: Vec<Busy<Reader<S, R>, R>>,
    done: &mut Vec<Joined<S, R>>,
)
    requires one { All (λ h. (sends_on h.sender.line ≡ sends_on queue.old.line) × (0 < h.sender.number)) held.items }
    requires none { done.old.items ≡ [] }
    requires room { vec_len held ≤ vec_capacity done.old }
    ensures ring { sends_on queue.new.line ≡ sends_on queue.old.line }
    ensures got { (knows queue.new.seat).got ≡ (knows queue.old.seat).got }
    ensures whose { map whose done.new.items ≡ map begun held.items }
    ensures fronts { Fronts (knows queue.new.seat).got done.new.items }
{
    for busy in held {
        let of = Snapshot::of(&busy);
        let Finished { source, sender } = busy.wait(rt);
        let seat = Snapshot::of(&sender);
        let number = sender.number();
        queue.take(sender);
        done.push_reserved(Joined {
            number,
            of,
            source,
            seat,
        });
    }
    // What was received of each is a beginning of what it sent.
    queue.account();
}

/// Waits for the ticker, and takes its sender in. What was received of it is a beginning of what it sent.
pub(crate) fn join_ticker<P: Pulse, R: Wait + Drop, T: Threads + Wait>(
    rt: &T,
    queue: &mut Queue<EntryKind>,
    held: Option<Busy<Ticker<P, R>, R>>,
) -> Option<Rested<P, R>>
    requires one { ForSome held (λ h. (sends_on h.sender.line ≡ sends_on queue.old.line) × (h.sender.number ≡ 0)) }
    ensures ring { sends_on queue.new.line ≡ sends_on queue.old.line }
    ensures got { (knows queue.new.seat).got ≡ (knows queue.old.seat).got }
    ensures some { IsSome result ↔ IsSome held }
    ensures whose { pulse_in (λ r. r.before) result ≡ pulse_in (λ h. h.pulse) held }
    ensures front { ForSome result (λ r. IsFront (of 0 (knows queue.new.seat).got) r.sent) }
{
    let Some(busy) = held else {
        return None;
    };
    let of = Snapshot::of(&busy);
    let Stopped { pulse, sender, .. } = busy.wait(rt);
    let seat = Snapshot::of(&sender);
    queue.take(sender);
    // What was received of it is a beginning of what it sent.
    queue.account();
    Some(Rested { of, pulse, seat })
}
