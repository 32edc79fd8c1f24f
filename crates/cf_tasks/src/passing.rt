//! The calls by which entries pass through queues.
ghost use Rattle.std.specs.Prelude.{◌≡◌, true, IfOk, IfErr, OnOk, OnErr};
ghost use Rattle.crossbeam_channel.specs.Claims.{view, IsSeatAt};
ghost use Rattle.crossbeam_channel.specs.Ends.{sends_on, receives_on};
ghost use Rattle.crossbeam_channel.specs.Err.{send_message};
ghost use Rattle.cf_tasks.specs.Queue.{with_sent, with_got};

use crate::ends::{Front, Line, Seat};
use crate::entry::Item;
use crate::rule::{Received, Sent};
use crossbeam_channel::{RecvError, SendError};
use std::sync::Wait;

/// The calls by which entries pass through queues, by a handle that may wait. That one has failed is known of its
/// answer alone.
pub trait Passing: Wait {
    /// A call to send handed its entry back.
    ghost hands_back: { Self → Type 0 };
    /// A call to receive answered that nothing comes.
    ghost gets_none: { Self → Type 0 };

    /// Sends an entry. It waits where the queue is full.
    fn put<M: Drop>(
        &self,
        line: &Line<M>,
        seat: &mut Seat<M>,
        entry: Item<M>,
    ) -> Result<(), SendError<Item<M>>>
        requires seated { IsSeatAt (sends_on line.now) seat.old }
        requires sends { (view seat.old).sends ≡ true }
        requires numbered { (view seat.old).from ≡ entry.from }
        ensures seated { IsSeatAt (sends_on line.now) seat.new }
        ensures ok { OnOk result (view seat.new ≡ with_sent (view seat.old) entry) }
        ensures err { IfErr result (λ e. (send_message e ≡ entry) × (view seat.new ≡ view seat.old)) }
        ensures cause { OnErr result (hands_back self.now) };

    /// Receives an entry. It waits for one.
    fn take<M: Drop>(&self, front: &Front<M>, seat: &mut Seat<M>) -> Result<Item<M>, RecvError>
        requires seated { IsSeatAt (receives_on front.now) seat.old }
        requires gets { (view seat.old).gets ≡ true }
        ensures seated { IsSeatAt (receives_on front.now) seat.new }
        ensures ok { IfOk result (λ e. view seat.new ≡ with_got (view seat.old) e) }
        ensures err { OnErr result (view seat.new ≡ view seat.old) }
        ensures cause { OnErr result (gets_none self.now) };
}

impl<R: Wait> Passing for R {
    ghost hands_back = { λ _. Unit {0} };

    ghost gets_none = { λ _. Unit {0} };

    fn put<M: Drop>(
        &self,
        line: &Line<M>,
        seat: &mut Seat<M>,
        entry: Item<M>,
    ) -> Result<(), SendError<Item<M>>> {
        line.send_as::<Sent, R>(self, seat, entry)
    }

    fn take<M: Drop>(&self, front: &Front<M>, seat: &mut Seat<M>) -> Result<Item<M>, RecvError> {
        front.recv_as::<Received, R>(self, seat)
    }
}
