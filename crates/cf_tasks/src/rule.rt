//! The rule of a queue, and its steps.
ghost use Rattle.std.specs.Prelude.{◌≡◌};
ghost use Rattle.cf_tasks.specs.Queue.{receiver, sender, spent, with_sent, with_got, with_made, with_ended, Kept, Accounts};

use crate::entry::{Item, View};
use crossbeam_channel::protocol::{Join, Lesson, Outcome, Protocol, Split};

/// The rule: what was received and then what waits is, of each sender, what it sent.
pub struct InOrder;

impl<M> Protocol<Item<M>, View<M>> for InOrder {
    ghost holds = { Kept };

    ghost first = { receiver };
}

/// An entry is sent.
pub(crate) struct Sent;

impl<M> Outcome<Item<M>, View<M>> for Sent {
    ghost then = { λ v x w. w ≡ with_sent v x };
}

impl<M> Lesson<Item<M>, View<M>> for Sent {
    ghost fact = { λ v items. Unit {0} };
}

/// An entry is received.
pub(crate) struct Received;

impl<M> Outcome<Item<M>, View<M>> for Received {
    ghost then = { λ v x w. w ≡ with_got v x };
}

impl<M> Lesson<Item<M>, View<M>> for Received {
    ghost fact = { λ v items. Unit {0} };
}

/// A sender gets the next number.
pub(crate) struct Made;

impl<M> Split<View<M>> for Made {
    ghost left = { with_made };

    ghost right = { λ v. sender v.made };
}

/// The receiver takes in what a sender had sent.
pub(crate) struct Taken;

impl<M> Join<View<M>> for Taken {
    ghost both = { with_ended };

    ghost spent = { spent };
}

/// What the receiver knows of the senders that it took in.
pub(crate) struct Account;

impl<M> Lesson<Item<M>, View<M>> for Account {
    ghost fact = { Accounts };
}
