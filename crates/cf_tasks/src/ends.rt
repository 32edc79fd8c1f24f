//! The ends of a queue.
ghost use Rattle.std.specs.Prelude.{◌≡◌, ◌<◌, ◌+◌, ◌^◌, List, [], true, IfOk, IfErr, IfSome, IfNone, OnOk, OnErr};
ghost use Rattle.cf_bytes.specs.{HasRisen};
ghost use Rattle.crossbeam_channel.specs.Claims.{view, IsSeatAt};
ghost use Rattle.crossbeam_channel.specs.Ends.{sends_on, receives_on};
ghost use Rattle.cf_tasks.specs.Queue.{receiver, sender, with_sent, with_got, with_made, with_ended, entry, Accounts};
ghost use Rattle.cf_tasks.specs.declared.entry.Item.{Item};

use crate::entry::{Item, View};
use crate::passing::Passing;
use crate::rule::{Account, InOrder, Made, Received, Taken};
use crossbeam_channel::{Pass, RuledReceiver, RuledSender, bounded_with};
use std::alloc::{AllocError, Global};
use std::sync::Wait;

/// The end by which entries are sent.
pub type Line<M> = RuledSender<Item<M>, View<M>, InOrder>;

/// The end by which entries are received.
pub type Front<M> = RuledReceiver<Item<M>, View<M>, InOrder>;

/// What a thread carries of a queue: what it knows, which stands in proofs alone. It takes no bytes.
pub type Seat<M> = Pass<Item<M>, View<M>>;

/// One sender of a queue, which knows what it sent.
#[derive(Drop)]
pub struct Sender<M: Drop> {
    /// Where it sends.
    pub line: Line<M>,
    /// What it knows.
    pub seat: Seat<M>,
    /// Its number.
    pub number: u8,
    // How often an entry came back to it.
    returned: u64,
    pub ghost seated: { IsSeatAt (sends_on line) seat },
    pub ghost sends: { (view seat).sends ≡ true },
    pub ghost numbered: { (view seat).from ≡ number },
}

impl<M: Drop> Sender<M> {
    /// Its number.
    pub fn number(&self) -> u8
        ensures { result ≡ self.now.number }
    {
        self.number
    }

    /// How often an entry came back to it. The count stands still at the greatest u64.
    pub fn returned(&self) -> u64
        ensures { result ≡ self.now.returned }
    {
        self.returned
    }

    /// Sends an entry under its number. It waits where the queue is full. An entry that comes back was not sent, and is
    /// counted; it comes back only where the queue's own call handed it back.
    pub fn send<R: Passing>(&mut self, rt: &R, kind: M) -> Result<(), M>
        ensures ring { sends_on self.new.line ≡ sends_on self.old.line }
        ensures number { self.new.number ≡ self.old.number }
        ensures ok { IfOk result
            (λ _. view self.new.seat ≡ with_sent (view self.old.seat) (entry self.old.number kind)) }
        ensures err { IfErr result (λ k. (k ≡ kind) × (view self.new.seat ≡ view self.old.seat)) }
        ensures kept { OnOk result (self.new.returned ≡ self.old.returned) }
        ensures returned { OnErr result (HasRisen self.old.returned self.new.returned) }
        ensures cause { OnErr result (R.hands_back rt.now) }
    {
        let Sender {
            line,
            seat,
            number,
            returned,
        } = self;
        let entry = Item {
            from: *number,
            kind,
        };
        match rt.put(line, seat, entry) {
            Ok(()) => Ok(()),
            Err(e) => {
                *returned = returned.saturating_add(1);
                Err(e.into_inner().kind)
            }
        }
    }
}

/// The receiver of a queue, which knows what it got. It keeps an end by which entries are sent, so that the queue never
/// closes.
#[derive(Drop)]
pub struct Queue<M: Drop> {
    /// Where it sends.
    pub line: Line<M>,
    /// Where it receives.
    pub front: Front<M>,
    /// What it knows.
    pub seat: Seat<M>,
    /// How many senders were made.
    pub made: u8,
    pub ghost seated: { IsSeatAt (sends_on line) seat },
    pub ghost one: { receives_on front ≡ sends_on line },
    pub ghost gets: { (view seat).gets ≡ true },
    pub ghost numbered: { (view seat).made ≡ made },
}

impl<M: Drop> Queue<M> {
    /// A queue of so many places, in which nothing waits.
    pub fn new(alloc: Global, places: usize) -> Result<Queue<M>, AllocError>
        requires { 0 < places }
        ensures { IfOk result (λ q. view q.seat ≡ receiver) }
    {
        let (line, front, seat) = bounded_with::<Item<M>, View<M>, InOrder, Global>(alloc, places)?;
        Ok(Queue {
            line,
            front,
            seat,
            made: 0,
        })
    }

    /// How many senders were made.
    pub fn made(&self) -> u8
        ensures { result ≡ self.now.made }
    {
        self.made
    }

    /// A sender with the next number, from 0.
    pub fn sender(&mut self) -> Result<Sender<M>, AllocError>
        requires { self.old.made < 255 }
        ensures ring { sends_on self.new.line ≡ sends_on self.old.line }
        ensures made { OnOk result (view self.new.seat ≡ with_made (view self.old.seat)) }
        ensures sender { IfOk result (λ s. (sends_on s.line ≡ sends_on self.old.line)
            × (view s.seat ≡ sender self.old.made) × (s.number ≡ self.old.made)) }
        ensures fresh { IfOk result (λ s. s.returned ≡ 0) }
        ensures err { IfErr result (λ _. view self.new.seat ≡ view self.old.seat) }
    {
        let line = self.line.try_clone()?;
        let seat = self.line.another::<Made>(&mut self.seat);
        let number = self.made;
        self.made += 1;
        Ok(Sender {
            line,
            seat,
            number,
            returned: 0,
        })
    }

    /// The next entry. It waits for one.
    pub fn next<R: Wait>(&mut self, rt: &R) -> Item<M>
        ensures ring { sends_on self.new.line ≡ sends_on self.old.line }
        ensures got { view self.new.seat ≡ with_got (view self.old.seat) result }
    {
        for _ in rt.forever() {
            if let Ok(entry) = self.front.recv_as::<Received, R>(rt, &mut self.seat) {
                return entry;
            }
        }
        unreachable!()
    }

    /// Takes in a sender of this queue that sends no more: what it sent is known here from now on.
    pub fn take(&mut self, sender: Sender<M>)
        requires { sends_on sender.line ≡ sends_on self.old.line }
        ensures ring { sends_on self.new.line ≡ sends_on self.old.line }
        ensures ended { view self.new.seat ≡ with_ended (view self.old.seat) (view sender.seat) }
    {
        let Sender { line: _, seat, .. } = sender;
        self.line.absorb::<Taken>(&mut self.seat, seat);
    }

    /// Looks at what waits: of each sender that was taken in, what was received and then what waits is what it sent, in
    /// order.
    pub fn account(&mut self)
        ensures ring { sends_on self.new.line ≡ sends_on self.old.line }
        ensures same { view self.new.seat ≡ view self.old.seat }
        ensures accounts { (items : List (Item M)) × Accounts (view self.new.seat) items }
    {
        self.line.learn_as::<Account>(&mut self.seat);
    }

    /// The receiver alone, which sees that the queue is closed once its one sender is gone; and that sender, number 0.
    pub fn parted(self) -> (Taker<M>, Sender<M>)
        requires { view self.seat ≡ receiver }
        ensures ring { receives_on result.0.front ≡ sends_on result.1.line }
        ensures taker { view result.0.seat ≡ with_made receiver }
        ensures sender { (view result.1.seat ≡ sender 0) × (result.1.number ≡ 0) }
        ensures fresh { result.1.returned ≡ 0 }
    {
        let Queue {
            line,
            front,
            mut seat,
            ..
        } = self;
        let theirs = line.another::<Made>(&mut seat);
        let taker = Taker { front, seat };
        (
            taker,
            Sender {
                line,
                seat: theirs,
                number: 0,
                returned: 0,
            },
        )
    }
}

/// The receiver of a queue with one sender, which knows what it got. It keeps no sending end.
#[derive(Drop)]
pub struct Taker<M: Drop> {
    front: Front<M>,
    seat: Seat<M>,
    ghost seated: { IsSeatAt (receives_on front) seat },
    ghost gets: { (view seat).gets ≡ true },
}

impl<M: Drop> Taker<M> {
    /// The next entry. It waits for one; `None` where the sender is gone and nothing waits, as the queue's own call
    /// answers.
    pub fn next<R: Passing>(&mut self, rt: &R) -> Option<Item<M>>
        ensures ring { receives_on self.new.front ≡ receives_on self.old.front }
        ensures got { IfSome result (λ e. view self.new.seat ≡ with_got (view self.old.seat) e) }
        ensures none { IfNone result (view self.new.seat ≡ view self.old.seat) }
        ensures cause { IfNone result (R.gets_none rt.now) }
    {
        match rt.take(&self.front, &mut self.seat) {
            Ok(entry) => Some(entry),
            Err(_) => None,
        }
    }

    /// Takes its sender in, and looks at what waits.
    pub fn back(self, sender: Sender<M>) -> Back<M>
        requires { receives_on self.front ≡ sends_on sender.line }
        ensures ended { view result.seat ≡ with_ended (view self.seat) (view sender.seat) }
        ensures accounts { (items : List (Item M)) × Accounts (view result.seat) items }
    {
        let Taker { front, mut seat } = self;
        let Sender {
            line,
            seat: theirs,
            ..
        } = sender;
        line.absorb::<Taken>(&mut seat, theirs);
        line.learn_as::<Account>(&mut seat);
        Back { line, front, seat }
    }
}

/// A queue whose one sender was taken in.
#[derive(Drop)]
pub struct Back<M: Drop> {
    line: Line<M>,
    front: Front<M>,
    seat: Seat<M>,
    ghost seated: { IsSeatAt (sends_on line) seat },
    ghost one: { receives_on front ≡ sends_on line },
    ghost gets: { (view seat).gets ≡ true },
}

impl<M: Drop> Back<M> {
    /// The next entry that still waits there.
    pub fn next<R: Wait>(&mut self, rt: &R) -> Item<M>
        ensures got { view self.new.seat ≡ with_got (view self.old.seat) result }
        ensures accounts { (items : List (Item M)) × Accounts (view self.new.seat) items }
    {
        for _ in rt.forever() {
            if let Ok(waiting) = self.front.recv_as::<Received, R>(rt, &mut self.seat) {
                self.line.learn_as::<Account>(&mut self.seat);
                return waiting;
            }
        }
        unreachable!()
    }
}
