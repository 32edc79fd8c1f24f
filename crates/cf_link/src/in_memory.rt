//! A link in memory, with calls that are to fail.
ghost use Rattle.std.specs.Prelude.{◌≡◌, ◌≤◌, ◌+◌, ◌-◌, ◌↔◌, [], ◌∷◌, ◌++◌, length, take, drop, map, All, Some, IfOk, OnOk, OnErr, IsErr, IsTrue, true, false, nat_lt, vec_len, vec_capacity};
ghost use Rattle.std.specs.VecDeque.{deque_len};
ghost use Rattle.cf_bytes.specs.{HasRisen, is_refused, after_call};
ghost use Rattle.cf_link.specs.Links.{IsFresh, can_listen, listen_addresses, longer_by, told_now};

use crate::link::Link;
use crate::task::Observed;
use cf_bytes::{Failed, Hash32, NoMemory, Plan};
use cf_conn::Duplex;
use std::alloc::Global;
use std::collections::VecDeque;
use std::snapshot::Snapshot;

/// The most bytes of an address.
const MOST_ADDRESS: usize = 255;

/// Gives connections from a list, and keeps what is given back, with calls that are to fail. It listens once, at an
/// address of at most 255 bytes, for which it has room from the start.
#[derive(Drop)]
pub struct ListLink<C: Duplex + Observed + Drop>
where
    C::End: Drop,
{
    plan: Plan,
    address: Vec<u8>,
    listens: bool,
    waiting: VecDeque<C>,
    first: Snapshot<Vec<C>>,
    total: usize,
    accepted: usize,
    given: Vec<(C::End, u8)>,
    announced: Option<(u32, Hash32)>,
    ghost fresh: { All
        (λ c. IsFresh (told_now C.left C.written C.ended C.Source.faults C.Sink.faults c)) waiting.items },
    ghost tied: { waiting.items ≡ drop accepted first.value.items },
    ghost counted: { accepted + deque_len waiting ≡ total },
    ghost few: { vec_len given ≤ accepted },
    ghost room: { total ≤ vec_capacity given },
    ghost place: { 255 ≤ vec_capacity address },
    ghost silent: { listens ≡ false → address.items ≡ [] },
}

impl<C: Duplex + Observed + Drop> ListLink<C>
where
    C::End: Drop,
{
    /// A link that gives these connections, in order. It has room for all that is given back.
    pub fn new(alloc: Global, conns: Vec<C>) -> Result<ListLink<C>, NoMemory>
        requires { All (λ c. IsFresh (told_now C.left C.written C.ended C.Source.faults C.Sink.faults c)) conns.items }
        ensures waiting { IfOk result (λ l. l.waiting.items ≡ conns.items) }
        ensures first { IfOk result (λ l. (l.accepted ≡ 0) × (l.listens ≡ false) × (l.given.items ≡ [])) }
        ensures plan { IfOk result (λ l. l.plan ≡ record { calls = 0; failing = []; faults = 0 }) }
    {
        let total = conns.len();
        let given = Vec::with_capacity(alloc, total)?;
        Ok(ListLink {
            plan: Plan::new(alloc),
            address: Vec::with_capacity(alloc, MOST_ADDRESS)?,
            listens: false,
            first: Snapshot::of(&conns),
            waiting: VecDeque::from_vec(conns),
            total,
            accepted: 0,
            given,
            announced: None,
        })
    }

    /// From now on these calls of `listen` and `accept` fail, counted from 1 over both.
    pub fn failing(&mut self, calls: &[u64]) -> Result<(), NoMemory>
        ensures ok { OnOk result (self.new.plan ≡ record self.old.plan { failing = calls.now }) }
        ensures err { OnErr result (self.new.plan ≡ self.old.plan) }
        ensures waiting { self.new.waiting ≡ self.old.waiting }
        ensures accepted { self.new.accepted ≡ self.old.accepted }
        ensures first { self.new.first ≡ self.old.first }
        ensures given { self.new.given ≡ self.old.given }
        ensures listens { (self.new.listens ≡ self.old.listens) × (self.new.address ≡ self.old.address) }
    {
        self.plan.set(calls)
    }

    /// What was given back, in order.
    pub fn given(&self) -> &[(C::End, u8)]
        ensures { result.now ≡ self.now.given.items }
    {
        self.given.as_slice()
    }

    /// The height and the hash of the chain's last block, as they were announced last.
    pub fn announced(&self) -> Option<(u32, Hash32)> {
        self.announced
    }
}

impl<C: Duplex + Observed + Drop> Link for ListLink<C>
where
    C::End: Drop,
{
    type Conn = C;

    ghost faults = { λ l. l.plan.faults };

    ghost addresses = { λ l. Some (listen_addresses l.listens l.address.items) };

    ghost accepted = { λ l. l.accepted };

    ghost owed = { λ l. l.accepted - vec_len l.given };

    ghost conns = { λ l. Some (map (λ c. told_now C.left C.written C.ended C.Source.faults C.Sink.faults c)
        (take l.accepted l.first.value.items)) };

    ghost given = { λ l. Some (map (λ g. record { end = C.tells g.0; how = g.1 }) l.given.items) };

    /// It fails exactly where that call is to fail, where it listens already, or where the address is too long.
    fn listen(&mut self, address: &str) -> Result<(), Failed>
        ensures ok { OnOk result ((self.old.listens ≡ false) × (self.new.listens ≡ true)
            × (self.new.address.items ≡ address.now)) }
        ensures err { OnErr result ((self.new.listens ≡ self.old.listens) × (self.new.address ≡ self.old.address)) }
        ensures kept { OnOk result (self.new.plan.faults ≡ self.old.plan.faults) }
        ensures cause { OnErr result (HasRisen self.old.plan.faults self.new.plan.faults) }
        ensures accepted { (self.new.accepted ≡ self.old.accepted) × (self.new.first ≡ self.old.first) }
        ensures given { self.new.given ≡ self.old.given }
        ensures waiting { self.new.waiting ≡ self.old.waiting }
        ensures answer { IsErr result ↔ IsTrue (is_refused self.old.plan (can_listen self.old.listens address.now)) }
        ensures after { self.new.plan ≡ after_call self.old.plan (can_listen self.old.listens address.now) }
    {
        self.plan
            .call(!self.listens && address.len() <= MOST_ADDRESS)?;
        self.address.extend_from_slice(address.as_bytes()).unwrap();
        self.listens = true;
        Ok(())
    }

    fn announce(&mut self, height: u32, tip: &Hash32) {
        self.announced = Some((height, *tip));
    }

    /// It fails exactly where that call is to fail, or where no connection is left.
    fn accept(&mut self) -> Result<C, Failed>
        ensures fresh { IfOk result (λ c. IsFresh (told_now C.left C.written C.ended C.Source.faults C.Sink.faults c)) }
        ensures ok { IfOk result (λ c. map (told_now C.left C.written C.ended C.Source.faults C.Sink.faults)
            (take self.new.accepted self.new.first.value.items)
            ≡ map (told_now C.left C.written C.ended C.Source.faults C.Sink.faults)
            (take self.old.accepted self.old.first.value.items)
            ++ told_now C.left C.written C.ended C.Source.faults C.Sink.faults c ∷ []) }
        ensures count { OnOk result (self.new.accepted ≡ self.old.accepted + 1) }
        ensures err { OnErr result ((self.new.accepted ≡ self.old.accepted) × (self.new.first ≡ self.old.first)) }
        ensures kept { OnOk result (self.new.plan.faults ≡ self.old.plan.faults) }
        ensures cause { OnErr result (HasRisen self.old.plan.faults self.new.plan.faults) }
        ensures listens { (self.new.listens ≡ self.old.listens) × (self.new.address ≡ self.old.address) }
        ensures given { self.new.given ≡ self.old.given }
        ensures answer { IsErr result ↔ IsTrue (is_refused self.old.plan (nat_lt 0 (deque_len self.old.waiting))) }
        ensures after { self.new.plan ≡ after_call self.old.plan (nat_lt 0 (deque_len self.old.waiting)) }
    {
        self.plan.call(!self.waiting.is_empty())?;
        match self.waiting.pop_front() {
            Some(conn) => {
                self.accepted += 1;
                Ok(conn)
            }
            None => unreachable!(),
        }
    }

    fn pause(&mut self) {}

    fn give_back(&mut self, end: C::End, how: u8) {
        self.given.push_reserved((end, how));
    }
}
