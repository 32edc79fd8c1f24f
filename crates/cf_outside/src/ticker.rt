//! The task that waits, and sends how long.
ghost use Rattle.std.specs.Prelude.{◌≡◌, ◌⊎◌, ◌++◌, ◌∷◌, [], true, false, MatchBool};
ghost use Rattle.cf_bytes.specs.{with_more};
ghost use Rattle.crossbeam_channel.specs.Claims.{view};
ghost use Rattle.crossbeam_channel.specs.Ends.{sends_on};
ghost use Rattle.cf_outside.specs.Pieces.{HasStopped};
ghost use Rattle.cf_outside.specs.Ticks.{TicksOn, TicksOff, Ticked, WasTold};

use crate::entry::{EntryKind, Seconds};
use crate::outside::Pulse;
use crate::stop::StopFlag;
use cf_tasks::{Sender, Task};
use std::sync::Wait;

/// Waits, and sends each answer of the pulse, until it is told to stop.
#[derive(Drop)]
pub struct Ticker<P, R> {
    /// The handle by which it waits.
    pub rt: R,
    /// What waits.
    pub pulse: P,
    /// Where the ticks go.
    pub sender: Sender<EntryKind>,
    /// Whether it is to stop.
    pub stop: StopFlag,
    pub ghost fresh: { (view sender.seat).sent ≡ [] },
    pub ghost unasked: { stop ≡ false },
}

/// A pulse that was waited for, the sender, which lists what was sent, and the flag.
#[derive(Drop)]
pub struct Stopped<P> {
    /// The pulse.
    pub pulse: P,
    /// The sender.
    pub sender: Sender<EntryKind>,
    /// Whether it was told to stop.
    pub stop: StopFlag,
}

// Waits once, and sends the tick, or the last entry where it is to stop: then the answer is false.
fn tick_one<P: Pulse, R: Wait>(
    rt: &R,
    pulse: &mut P,
    sender: &mut Sender<EntryKind>,
    stop: &mut StopFlag,
) -> bool
    ensures ring { (sends_on sender.new.line ≡ sends_on sender.old.line) × (sender.new.number ≡ sender.old.number) }
    ensures kept { result ≡ true → sender.new.returned ≡ sender.old.returned }
    ensures step { MatchBool result (TicksOn P.answers sender.old.number pulse.old
        (view sender.old.seat).sent (view sender.new.seat).sent pulse.new)
        (TicksOff P.answers sender.old.number pulse.old (view sender.old.seat).sent sender.old.returned
        (view sender.new.seat).sent sender.new.returned pulse.new stop.new) }
{
    let seconds = pulse.wait();
    if stop.is_told() {
        let _ = sender.send(rt, EntryKind::Last);
        return false;
    }
    sender
        .send(rt, EntryKind::Tick(Seconds::new(seconds)))
        .is_ok()
}

impl<P: Pulse, R: Wait + Drop> Task for Ticker<P, R> {
    type Out = Stopped<P>;

    ghost gives = { λ t o. (sends_on o.sender.line ≡ sends_on t.sender.line)
        × (o.sender.number ≡ t.sender.number) × Ticked P.answers t.pulse (view o.sender.seat).sent o.pulse
        × HasStopped t.sender.returned (view o.sender.seat).sent o.sender.returned
        × WasTold o.stop t.sender.returned o.sender.returned };

    fn run(self) -> Stopped<P> {
        let Ticker {
            rt,
            mut pulse,
            mut sender,
            mut stop,
        } = self;
        for _ in rt.forever() {
            if !tick_one(&rt, &mut pulse, &mut sender, &mut stop) {
                return Stopped {
                    pulse,
                    sender,
                    stop,
                };
            }
        }
        unreachable!()
    }
}
