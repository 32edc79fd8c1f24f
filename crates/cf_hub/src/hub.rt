//! Peers over threads.
ghost use Rattle.std.specs.Prelude.{◌≡◌, ◌≢◌, ◌⊎◌, ◌<◌, ◌≤◌, ◌+◌, ◌++◌, ◌∷◌, ℕ, List, [], true, false, IfOk, IfErr, IfSome, IfNone, IsSome, IsErrOf, MatchBool, MatchOption, OnOk, OnErr, All, Some, None, map, slice_index_or, slice_set, vec_len, vec_capacity, length, take};
ghost use Rattle.std.specs.Option.{ForSome};
ghost use Rattle.crossbeam_channel.specs.Claims.{view};
ghost use Rattle.crossbeam_channel.specs.Ends.{sends_on};
ghost use Rattle.cf_bytes.specs.{HasRisen, with_more};
ghost use Rattle.cf_hub.specs.Book.{told_of, keeps_of, IsReady};
ghost use Rattle.cf_tasks.specs.{of, entry, receiver, with_got, HasGiven, HasFailed};
ghost use Rattle.cf_outside.specs.declared.entry.EntryKind.TheVariants.{Last};
ghost use Rattle.cf_hub.specs.Over.{AllGone, Heard, HaveEnded, connections, numbers_from};
ghost use Rattle.cf_wires.specs.declared.event.Delivery.TheVariants.{Ended};
ghost use Rattle.cf_wires.specs.declared.event.Event.TheVariants.{Took, Dialled, NotDialled, Sent, SendFailed, Closed};
ghost use Rattle.cf_wires.specs.{Tells as IsTold, deliveries, tell, told_finished, was_closed, HasCause};
ghost use Rattle.cf_hub.specs.LogKept.{no_script};
ghost use Rattle.cf_hub.specs.Finish.{whose, begun, numbers_of, read_numbers, Fronts, pulse_in};
ghost use Rattle.cf_hub.specs.Gives.{delivery_of, given_of, IsProper, LogGives, IsFront};
ghost use Rattle.cf_hub.specs.Lines.{Down, IsTickers, Ring, Up, Waits};
ghost use Rattle.cf_hub.specs.Writers.{texts, Adds, AreOpen, AreShut, Opens, Sends, Shuts};
ghost use Rattle.cf_hub.specs.Shown.{Shows, ShowsTicks};
ghost use Rattle.cf_hub.specs.Threads.{HandsOver, HasOpened, MayHandOver, MayMiss, Moves, Takes};
ghost use Rattle.cf_outside.specs.{is_last, is_open, Reads};

use crate::book::HubLog;
use crate::joining::{Joined, Rested, each_reads, it_ticks, join_readers, join_ticker};
use crate::making::{Lines, Lists, Parts, parts_in};
use crate::taking::{are_gone, receive, take_entry};
use crate::writers::{put_to, shut_at};
use cf_bytes::{Failed, NoMemory, PLACES, PeerNo};
use cf_conn::Source;
use cf_outside::{CHUNK, Dialer, EntryKind, Pulse, Reader, StopFlag, Ticker, Writer};
use cf_tasks::{Busy, Item, Queue, Sender, Spawner, Workers};
use cf_wires::{Delivery, Name, WireFail, Wires};
use std::alloc::{AllocError, Global};
use std::mem;
use std::sync::atomic::{AtomicBool, Ordering};
use std::sync::{Arc, Wait};
use std::thread::Threads;

// A pulse, the sender of its ticks, and the flag that stops them, until a thread has them.
#[derive(Drop)]
struct Clock<P> {
    pulse: P,
    sender: Sender<EntryKind>,
    stop: StopFlag,
    ghost unasked: { stop ≡ false },
}

/// Peers of which each has a reader in a thread of its own, and a ticker.
#[derive(Drop)]
pub struct Hub<D: Dialer, P: Pulse, R: Wait + Threads + Copy + Drop> {
    rt: R,
    alloc: Global,
    dialer: D,
    readers: Workers<Reader<D::Read, R>, R>,
    tickers: Workers<Ticker<P, R>, R>,
    stop: Arc<AtomicBool, Global>,
    clock: Option<Clock<P>>,
    ticking: Option<Busy<Ticker<P, R>, R>>,
    // The senders of the peers that were not dialled yet, the next one's last.
    spare: Vec<Sender<EntryKind>>,
    reading: Vec<Busy<Reader<D::Read, R>, R>>,
    // The sources of the readers that were joined, and the pulse.
    done: Vec<Joined<D::Read, R>>,
    rested: Option<Rested<P, R>>,
    // Whether they were joined. From the call of `finish` on nothing that comes is a delivery.
    joined: bool,
    // By the number of the peer; none where the dial failed.
    writers: Vec<Option<D::Write>>,
    queue: Queue<EntryKind>,
    // Of which peers the last entry has come; at place 0 that of the ticker.
    gone: [bool; PLACES],
    // How many dials found no thread, or came too late, and how many sends found no writer.
    missed: u64,
    book: HubLog,
    ghost waiting: { ForSome clock (λ c. Waits queue c.sender) },
    ghost ticks: { ForSome ticking (λ b. IsTickers queue b.sender) },
    ghost spares: { Down queue spare.items },
    ghost numbers: { vec_len spare + book.dials ≡ 8 },
    ghost one: { All (λ b. (sends_on b.sender.line ≡ sends_on queue.line) × (0 < b.sender.number)) reading.items },
    ghost room: { joined ≡ false → (8 ≤ vec_capacity reading) × (8 ≤ vec_capacity done) },
    ghost few: { vec_len reading ≤ book.dials },
    ghost places: { vec_len writers ≡ book.dials + 1 },
    ghost holds: { 9 ≤ vec_capacity writers },
    ghost heard: { Heard gone (view queue.seat).got },
    ghost gives: { LogGives (told_of book) (view queue.seat).got },
    ghost within: { book.taken ≤ length (given_of (view queue.seat).got) },
    ghost counts: { book.finished ≡ false → book.taken ≡ length (given_of (view queue.seat).got) },
    ghost undone: { joined ≡ false → done.items ≡ [] },
    ghost unrested: { joined ≡ false → rested ≡ None },
    ghost runs: { joined ≡ false → clock ≡ None → IsSome ticking },
    ghost owed: { joined ≡ true → clock ≡ None → IsSome rested },
    ghost stopped: { joined ≡ true → book.finished ≡ true },
    ghost over: { joined ≡ true → HaveEnded (connections writers.items) (view queue.seat).got },
    ghost fronts: { Fronts (view queue.seat).got done.items },
    ghost beats: { ForSome rested (λ r. IsFront (of 0 (view queue.seat).got) r.sent) },
    ghost unshut: { book.finished ≡ false → AreOpen D.Write.was_shut book.closed writers.items },
    ghost reading_are: { joined ≡ false → numbers_of reading.items ≡ numbers_from 0 (connections writers.items) },
    ghost done_are: { joined ≡ true → read_numbers done.items ≡ numbers_from 0 (connections writers.items) },
}

// Hands a pulse over to a thread, unless that was done. False where none takes it.
fn hand_over<P: Pulse, R: Wait + Drop + Copy>(
    rt: R,
    clock: &mut Option<Clock<P>>,
    tickers: &mut Workers<Ticker<P, R>, R>,
    ticking: &mut Option<Busy<Ticker<P, R>, R>>,
) -> bool
    requires { ForSome clock.old (λ c. (view c.sender.seat).sent ≡ []) }
    ensures tickers { HandsOver result clock.old clock.new tickers.old tickers.new }
    ensures pulse { Moves (pulse_in (λ c. c.pulse) clock.old) (pulse_in (λ c. c.pulse) clock.new)
        (pulse_in (λ t. t.pulse) ticking.old) (pulse_in (λ t. t.pulse) ticking.new) }
    ensures runs { (clock.old ≡ None → IsSome ticking.old) → clock.new ≡ None → IsSome ticking.new }
    ensures waiting { (q : Ring) → ForSome clock.old (λ c. Waits q c.sender)
        → ForSome clock.new (λ c. Waits q c.sender) }
    ensures ticks { (q : Ring) → ForSome clock.old (λ c. Waits q c.sender)
        → ForSome ticking.old (λ b. IsTickers q b.sender) → ForSome ticking.new (λ b. IsTickers q b.sender) }
{
    let Some(
        Clock {
            pulse,
            sender,
            stop,
        },
    ) = clock.take()
    else {
        return true;
    };
    let ticker = Ticker {
        rt,
        pulse,
        sender,
        stop,
    };
    match tickers.give(ticker) {
        Ok(busy) => {
            *ticking = Some(busy);
            true
        }
        Err(
            Ticker {
                pulse,
                sender,
                stop,
                ..
            },
        ) => {
            *clock = Some(Clock {
                pulse,
                sender,
                stop,
            });
            false
        }
    }
}

impl<D: Dialer, P: Pulse, R: Wait + Threads + Copy + Drop> Hub<D, P, R> {
    ghost use Rattle.cf_hub.specs.Stays.{missed_of, OnlyBegins, OnlyJoins, OnlyNotes, OnlyOpens, OnlyPasses, OnlyShuts, OnlyStarts, OnlyTakes, OnlyWrites, PassesOver};

    /// A hub that has dialled nobody. `readers` and `tickers` are the threads that wait for its tasks.
    pub fn new(
        rt: R,
        alloc: Global,
        dialer: D,
        readers: Workers<Reader<D::Read, R>, R>,
        tickers: Workers<Ticker<P, R>, R>,
        pulse: P,
    ) -> Result<Self, NoMemory>
        ensures told { IfOk result (λ h. IsTold [] (told_of h.book)) }
        ensures finished { IfOk result (λ h. (told_of h.book).finished ≡ false) }
        ensures keeps { IfOk result (λ h. keeps_of h.book ≡ false) }
        ensures dialer { IfOk result (λ h. h.dialer ≡ dialer) }
        ensures missed { IfOk result (λ h. h.missed ≡ 0) }
        ensures threads { IfOk result (λ h. (h.readers ≡ readers) × (h.tickers ≡ tickers)) }
        ensures pulse { IfOk result (λ h. pulse_in (λ c. c.pulse) h.clock ≡ Some pulse) }
        ensures idle { IfOk result (λ h. h.reading.items ≡ []) }
    {
        let parts = parts_in(alloc)?;
        let Parts {
            lines: Lines {
                queue,
                sender,
                spare,
            },
            lists: Lists {
                writers,
                reading,
                done,
            },
            stop,
            theirs,
            book,
        } = parts;
        Ok(Hub {
            rt,
            alloc,
            dialer,
            readers,
            tickers,
            stop,
            clock: Some(Clock {
                pulse,
                sender,
                stop: theirs,
            }),
            ticking: None,
            spare,
            reading,
            done,
            rested: None,
            joined: false,
            writers,
            queue,
            gone: [false; PLACES],
            missed: 0,
            book,
        })
    }

    /// What opens the connections.
    pub fn dialer(&self) -> &D
        ensures { result.now ≡ self.now.dialer }
    {
        &self.dialer
    }

    /// Whether the hub is finished, and all that it started was joined.
    pub fn is_joined(&self) -> bool
        ensures { result ≡ self.now.joined }
    {
        self.joined
    }

    /// Looks at all that was joined. What `next` gave is the first of what was received, as many as were taken: all of
    /// it until the hub is finished. Once it is, each peer whose dial went well has its place here, and a last entry of
    /// it was received, and where a ticker was started so has the pulse. What was given shows of each of them what its
    /// source held, and of the pulse what it answered from then on.
    pub fn account(&self)
        ensures log { ForSome (told_of self.now.book).log
            (λ log. deliveries log ≡ take self.now.book.taken (given_of (view self.now.queue.seat).got)) }
        ensures peers { self.now.joined ≡ true
            → read_numbers self.now.done.items ≡ numbers_from 0 (connections self.now.writers.items) }
        ensures ticker { self.now.joined ≡ true → self.now.clock ≡ None → IsSome self.now.rested }
        ensures ended { self.now.joined ≡ true
            → HaveEnded (connections self.now.writers.items) (view self.now.queue.seat).got }
        ensures sources { All (Shows D.Read.left D.Read.faults D.Read.ended
            (take self.now.book.taken (given_of (view self.now.queue.seat).got))) self.now.done.items }
        ensures ticks { ForSome self.now.rested
            (ShowsTicks P.answers (take self.now.book.taken (given_of (view self.now.queue.seat).got))) }
    {
        // What was joined says what was sent of it; the rest stands in the hub's own invariants.
        each_reads(&self.done);
        it_ticks(&self.rested);
    }

    // Hands the pulse over to a thread, unless that was done. False where none takes it.
    fn starts_ticker(&mut self) -> bool
        requires { self.old.joined ≡ false }
        ensures stays { OnlyStarts self.old self.new }
        ensures tickers { HandsOver result self.old.clock self.new.clock self.old.tickers self.new.tickers }
        ensures pulse { Moves (pulse_in (λ c. c.pulse) self.old.clock) (pulse_in (λ c. c.pulse) self.new.clock)
            (pulse_in (λ t. t.pulse) self.old.ticking) (pulse_in (λ t. t.pulse) self.new.ticking) }
    {
        hand_over(
            self.rt,
            &mut self.clock,
            &mut self.tickers,
            &mut self.ticking,
        )
    }

    // Takes the room for one entry more.
    fn make_room(&mut self) -> Result<(), NoMemory>
        ensures told { told_of self.new.book ≡ told_of self.old.book }
        ensures stays { OnlyNotes self.old self.new }
        ensures ready { OnOk result (IsReady self.new.book) }
    {
        self.book.make_room()
    }

    // Room for a copy of so many bytes, where the log is kept.
    fn copy_room(&self, most: usize) -> Result<Vec<u8>, NoMemory>
        ensures none { IfOk result (λ v. v.items ≡ []) }
        ensures room { IfOk result (λ v. keeps_of self.now.book ≡ true → most ≤ vec_capacity v) }
    {
        self.book.copy_room(self.alloc, most)
    }

    // Opens a connection by its name.
    fn open(&mut self, name: &str) -> Result<(D::Read, D::Write), Failed>
        ensures stays { OnlyOpens self.old self.new }
        ensures new { IfOk result (λ c. (D.Read.ended c.0 ≡ false) × (D.Read.faults c.0 ≡ 0) × (D.Write.faults c.1 ≡ 0)
            × (D.Write.was_shut c.1 ≡ false)) }
        ensures kept { OnOk result (D.faults self.new.dialer ≡ D.faults self.old.dialer) }
        ensures exact { D.dials self.old.dialer name.now result self.new.dialer }
        ensures clean { IfOk result (λ c. IfSome (D.Write.written c.1) (λ bytes. bytes ≡ [])) }
        ensures cause { OnErr result (HasRisen (D.faults self.old.dialer) (D.faults self.new.dialer)) }
        ensures later { D.faults self.old.dialer ≤ D.faults self.new.dialer }
    {
        self.dialer.dial(name)
    }

    // One more that came too late, or found no thread.
    fn misses(&mut self)
        ensures stays { OnlyWrites self.old self.new }
        ensures writers { self.new.writers ≡ self.old.writers }
        ensures missed { HasRisen self.old.missed self.new.missed }
        ensures later { self.old.missed ≤ self.new.missed }
    {
        self.missed = self.missed.saturating_add(1);
    }

    // The next number is passed over: its sender is given back.
    fn skip(&mut self, p: PeerNo, name: Name)
        requires ready { IsReady self.old.book }
        requires few { self.old.book.dials < 8 }
        requires next { p.0 ≡ self.old.book.dials + 1 }
        ensures over { PassesOver p name self.old self.new }
        ensures missed { self.new.missed ≡ self.old.missed }
    {
        let sender = self.spare.pop().unwrap();
        self.queue.take(sender);
        self.writers.push_reserved(None);
        self.book.note_not_dialled(p, name);
    }

    // The next number is passed over, for a cause of the hub's own.
    fn turn_down(&mut self, p: PeerNo, name: Name)
        requires ready { IsReady self.old.book }
        requires few { self.old.book.dials < 8 }
        requires next { p.0 ≡ self.old.book.dials + 1 }
        ensures over { PassesOver p name self.old self.new }
        ensures missed { HasRisen self.old.missed self.new.missed }
        ensures later { self.old.missed ≤ self.new.missed }
    {
        self.misses();
        self.skip(p, name);
    }

    // Hands a new connection's source over to a thread. The writer is kept.
    fn begin(
        &mut self,
        p: PeerNo,
        name: Name,
        source: D::Read,
        writer: D::Write,
    ) -> Result<PeerNo, Failed>
        requires ready { IsReady self.old.book }
        requires few { self.old.book.dials < 8 }
        requires next { p.0 ≡ self.old.book.dials + 1 }
        requires begins { self.old.joined ≡ false }
        requires new { D.Write.was_shut writer ≡ false }
        ensures dialled { IfOk result
            (λ q. (q ≡ p) × (told_of self.new.book ≡ tell (Dialled p name) (told_of self.old.book))) }
        ensures not_dialled { OnErr result (told_of self.new.book ≡ tell (NotDialled p name) (told_of self.old.book)) }
        ensures stays { OnlyBegins self.old self.new }
        ensures task { OnOk result
            (map begun self.new.reading.items ≡ map begun self.old.reading.items ++ (p.0, source) ∷ []) }
        ensures no_task { OnErr result (self.new.reading ≡ self.old.reading) }
        ensures ok { OnOk result ((self.new.missed ≡ self.old.missed)
            × (self.new.writers.items ≡ self.old.writers.items ++ Some writer ∷ [])
            × HasGiven self.old.readers self.new.readers) }
        ensures err { OnErr result (HasRisen self.old.missed self.new.missed
            × (self.old.missed ≤ self.new.missed) × (self.new.writers.items ≡ self.old.writers.items ++ None ∷ [])
            × HasFailed self.old.readers self.new.readers) }
    {
        let sender = self.spare.pop().unwrap();
        let reader = Reader {
            rt: self.rt,
            source,
            sender,
        };
        match self.readers.give(reader) {
            Ok(busy) => {
                self.reading.push_reserved(busy);
                self.writers.push_reserved(Some(writer));
                self.book.note_dialled(p, name);
                Ok(p)
            }
            Err(Reader { sender, .. }) => {
                self.queue.take(sender);
                self.missed = self.missed.saturating_add(1);
                self.writers.push_reserved(None);
                self.book.note_not_dialled(p, name);
                Err(Failed)
            }
        }
    }

    // Writes bytes to a peer.
    fn put_out(&mut self, p: PeerNo, bytes: &[u8]) -> Result<(), Failed>
        ensures stays { OnlyWrites self.old self.new }
        ensures missed { slice_index_or (connections self.old.writers.items) p.0 false ≡ true
            → self.new.missed ≡ self.old.missed }
        ensures ok { OnOk result ((self.new.missed ≡ self.old.missed)
            × Adds D.Write.written D.Write.was_shut p.0 bytes.now self.old.writers.items self.new.writers.items) }
        ensures err { OnErr result ((self.new.writers.items ≡ self.old.writers.items)
            ⊎ ((n : ℕ) × (n ≤ length bytes.now) × Adds D.Write.written D.Write.was_shut p.0
            (take n bytes.now) self.old.writers.items self.new.writers.items)) }
        ensures later { missed_of D.Write.faults self.old ≤ missed_of D.Write.faults self.new }
        ensures cause { OnErr result
            (HasRisen (missed_of D.Write.faults self.old) (missed_of D.Write.faults self.new)) }
    {
        if let Some(answer) = put_to(&mut self.writers, p, bytes) {
            return answer;
        }
        self.missed = self.missed.saturating_add(1);
        Err(Failed)
    }

    // Shuts the connection to a peer that was noted as closed; once the hub is finished, to any.
    fn shut(&mut self, p: PeerNo)
        requires { self.old.book.finished ≡ false → slice_index_or self.old.book.closed p.0 false ≡ true }
        ensures stays { OnlyShuts D.Write.written D.Write.faults self.old self.new }
        ensures shut { Shuts D.Write.written D.Write.was_shut p.0 self.old.writers.items self.new.writers.items }
    {
        shut_at(&mut self.writers, p);
    }

    // Shuts each connection.
    fn shut_all(&mut self)
        requires { self.old.book.finished ≡ true }
        ensures shut { AreShut D.Write.was_shut self.new.writers.items }
        ensures stays { OnlyShuts D.Write.written D.Write.faults self.old self.new }
    {
        for p in 0..9u32 {
            self.shut(PeerNo(p));
        }
    }

    // Takes the next entry, which is no delivery any more.
    fn pass_one(&mut self)
        requires finished { self.old.book.finished ≡ true }
        requires joined { self.old.joined ≡ false }
        ensures stays { OnlyPasses self.old self.new }
    {
        let _passed = receive(&self.rt, &mut self.queue, &mut self.gone);
    }

    // Whether the last entry of each peer that has a writer was noted.
    fn is_over(&self) -> bool
        ensures { result ≡ true → AllGone self.now.writers.items self.now.gone }
    {
        are_gone(&self.writers, &self.gone)
    }

    // Whether that was so, and the ticker's last entry was noted where it runs.
    fn is_drained(&self) -> bool
        ensures { result ≡ true → AllGone self.now.writers.items self.now.gone }
    {
        self.is_over() && (self.ticking.is_none() || self.gone[0])
    }

    // Receives until each last entry has come.
    fn drain(&mut self)
        requires finished { self.old.book.finished ≡ true }
        ensures stays { OnlyPasses self.old self.new }
        ensures ended { HaveEnded (connections self.new.writers.items) (view self.new.queue.seat).got }
    {
        if self.joined {
            return;
        }
        let rt = self.rt;
        for _ in rt.forever() {
            if self.is_drained() {
                return;
            }
            self.pass_one();
        }
        unreachable!()
    }

    // Waits for the ticker and each reader, and takes their senders in. The threads that wait for a task end.
    fn join_all(&mut self)
        requires finished { self.old.book.finished ≡ true }
        requires joined { self.old.joined ≡ false }
        requires ended { HaveEnded (connections self.old.writers.items) (view self.old.queue.seat).got }
        ensures stays { OnlyJoins self.old self.new }
        ensures joined { self.new.joined ≡ true }
        ensures whose { map whose self.new.done.items ≡ map begun self.old.reading.items }
        ensures rests { pulse_in (λ b. b.before) self.new.rested ≡ pulse_in (λ t. t.pulse) self.old.ticking }
    {
        let rt = self.rt;
        let held = mem::replace(&mut self.reading, Vec::new(self.alloc));
        let ticking = self.ticking.take();
        self.rested = join_ticker(&rt, &mut self.queue, ticking);
        join_readers(&rt, &mut self.queue, held, &mut self.done);
        self.readers.close(&rt);
        self.tickers.close(&rt);
        self.joined = true;
    }

    // Takes the next entry. Where it is a delivery, it is noted and given.
    fn take_one(&mut self) -> Result<Option<Delivery>, NoMemory>
        requires ready { IsReady self.old.book }
        requires running { self.old.book.finished ≡ false }
        ensures stays { OnlyTakes self.old self.new }
        ensures some { IfOk result (λ o. IfSome o (λ d. (told_of self.new.book ≡ tell (Took d) (told_of self.old.book))
            × (given_of (view self.new.queue.seat).got ≡ given_of (view self.old.queue.seat).got ++ d ∷ []))) }
        ensures none { IfOk result (λ o. IfNone o ((self.new.book ≡ self.old.book)
            × (given_of (view self.new.queue.seat).got ≡ given_of (view self.old.queue.seat).got))) }
        ensures err { OnErr result (self.new.book ≡ self.old.book) }
        ensures real { IfOk result (λ o. IfSome o (λ d. d ≢ Delivery.Ended)) }
        ensures proper { IfOk result (λ o. IfSome o (λ d. IsProper d)) }
    {
        let bytes = Vec::with_capacity(self.alloc, CHUNK)?;
        let room = self.copy_room(CHUNK)?;
        Ok(take_entry(
            &self.rt,
            &mut self.queue,
            &mut self.gone,
            &mut self.book,
            bytes,
            room,
        ))
    }

    // Notes that nothing more comes.
    fn note_end(&mut self)
        requires ready { IsReady self.old.book }
        ensures told { told_of self.new.book ≡ tell (Took Ended) (told_of self.old.book) }
        ensures stays { OnlyNotes self.old self.new }
    {
        self.book.note_end();
    }
}

// Threads that wait for readers.
fn reader_threads<
    S: Source + Drop + Send + 'static,
    R: Wait + Drop + Copy + Send + 'static,
    K: Spawner,
>(
    rt: R,
    alloc: Global,
    spawner: &mut K,
    count: usize,
) -> Result<Workers<Reader<S, R>, R>, AllocError>
    ensures cause { IfOk result (λ w. ((w.count ≡ count) × (K.refusals spawner.new ≡ K.refusals spawner.old))
        ⊎ HasRisen (K.refusals spawner.old) (K.refusals spawner.new)) }
    ensures fresh { IfOk result (λ w. w.returned ≡ 0) }
{
    Workers::new(rt, alloc, spawner, count)
}

// A thread that waits for a ticker.
fn ticker_thread<P: Pulse + Send + 'static, R: Wait + Drop + Copy + Send + 'static, K: Spawner>(
    rt: R,
    alloc: Global,
    spawner: &mut K,
) -> Result<Workers<Ticker<P, R>, R>, AllocError>
    ensures cause { IfOk result (λ w. ((w.count ≡ 1) × (K.refusals spawner.new ≡ K.refusals spawner.old))
        ⊎ HasRisen (K.refusals spawner.old) (K.refusals spawner.new)) }
    ensures fresh { IfOk result (λ w. w.returned ≡ 0) }
{
    Workers::new(rt, alloc, spawner, 1)
}

impl<D: Dialer, P: Pulse + Send + 'static, R: Wait + Threads + Copy + Drop + Send + 'static> Hub<
    D,
    P,
    R,
>
where
    D::Read: Send + 'static,
{
    /// A hub that has dialled nobody, with threads for so many peers and for its ticker. Where a start is refused, a
    /// dial will fail.
    pub fn started<K: Spawner>(
        rt: R,
        alloc: Global,
        dialer: D,
        pulse: P,
        spawner: &mut K,
        peers: usize,
    ) -> Result<Self, NoMemory>
        ensures told { IfOk result (λ h. IsTold [] (told_of h.book)) }
        ensures finished { IfOk result (λ h. (told_of h.book).finished ≡ false) }
        ensures keeps { IfOk result (λ h. keeps_of h.book ≡ false) }
        ensures dialer { IfOk result (λ h. h.dialer ≡ dialer) }
        ensures missed { IfOk result (λ h. h.missed ≡ 0) }
        ensures threads { IfOk result (λ h. ((h.readers.count ≡ peers) × (h.tickers.count ≡ 1))
            ⊎ HasRisen (K.refusals spawner.old) (K.refusals spawner.new)) }
        ensures fresh { IfOk result (λ h. (h.readers.returned ≡ 0) × (h.tickers.returned ≡ 0)) }
        ensures pulse { IfOk result (λ h. pulse_in (λ c. c.pulse) h.clock ≡ Some pulse) }
        ensures idle { IfOk result (λ h. h.reading.items ≡ []) }
    {
        let readers = reader_threads(rt, alloc, spawner, peers)?;
        let tickers = ticker_thread(rt, alloc, spawner)?;
        Hub::new(rt, alloc, dialer, readers, tickers, pulse)
    }
}

impl<D: Dialer, P: Pulse, R: Wait + Threads + Copy + Drop> Wires for Hub<D, P, R> {
    ghost use Rattle.cf_hub.specs.Stays.{KeepsOwn, KeepsThreads, faults_of};

    ghost told = { λ h. told_of h.book };

    ghost faults = { λ h. faults_of D.faults D.Write.faults h };

    ghost script = { λ h. no_script };

    ghost keeps = { λ h. keeps_of h.book };

    fn keep_log(&mut self)
        requires { IsTold [] (told_of self.old.book) }
        ensures told { IsTold [] (told_of self.new.book) }
        ensures log { IsSome (told_of self.new.book).log }
        ensures finished { (told_of self.new.book).finished ≡ (told_of self.old.book).finished }
        ensures keeps { keeps_of self.new.book ≡ true }
        ensures later { faults_of D.faults D.Write.faults self.old ≤ faults_of D.faults D.Write.faults self.new }
        ensures same { no_script ≡ no_script }
        ensures writers { self.new.writers ≡ self.old.writers }
        ensures own { KeepsOwn self.old self.new }
        ensures threads { KeepsThreads self.old self.new }
    {
        self.book.keep();
    }

    fn dial(&mut self, name: &str) -> Result<PeerNo, WireFail>
        requires { (told_of self.old.book).tally.dials < 8 }
        ensures dialled { IfOk result (λ p. (p.0 ≡ (told_of self.old.book).tally.dials + 1)
            × (told_of self.new.book ≡ tell (Dialled p name.now) (told_of self.old.book))) }
        ensures not_dialled { IsErrOf result WireFail.Failed → told_of self.new.book ≡ tell
            (NotDialled (record { 0 = (told_of self.old.book).tally.dials + 1 }) name.now) (told_of self.old.book) }
        ensures no_memory { IsErrOf result WireFail.NoMemory → told_of self.new.book ≡ told_of self.old.book }
        ensures cause { HasCause (faults_of D.faults D.Write.faults self.old)
            (faults_of D.faults D.Write.faults self.new) result }
        ensures keeps { keeps_of self.new.book ≡ keeps_of self.old.book }
        ensures same { no_script ≡ no_script }
        ensures writers { Opens D.Write.was_shut result self.old.writers.items self.new.writers.items }
        ensures missed { (self.new.missed ≡ self.old.missed) ⊎ MayMiss self.old.book.finished self.old.readers
            self.new.readers self.new.clock self.old.tickers self.new.tickers }
        ensures readers { Takes result self.old.readers self.new.readers }
        ensures tickers { MayHandOver self.old.clock self.new.clock self.old.tickers self.new.tickers }
        ensures runs { OnOk result (self.new.clock ≡ None) }
        ensures pulse { Moves (pulse_in (λ c. c.pulse) self.old.clock) (pulse_in (λ c. c.pulse) self.new.clock)
            (pulse_in (λ t. t.pulse) self.old.ticking) (pulse_in (λ t. t.pulse) self.new.ticking) }
        ensures opened { HasOpened D.dials D.Write.written result name.now self.old.dialer self.new.dialer
            (map begun self.old.reading.items)
            (map begun self.new.reading.items) self.old.writers.items self.new.writers.items }
    {
        let kept = Name::from_text(self.alloc, name)?;
        self.make_room()?;
        let p = PeerNo(self.book.dials() + 1);
        if self.book.is_finished() {
            self.turn_down(p, kept);
            return Err(WireFail::Failed);
        }
        if !self.starts_ticker() {
            self.turn_down(p, kept);
            return Err(WireFail::Failed);
        }
        match self.open(name) {
            Ok((source, writer)) => match self.begin(p, kept, source, writer) {
                Ok(p) => Ok(p),
                Err(_) => Err(WireFail::Failed),
            },
            Err(_) => {
                self.skip(p, kept);
                Err(WireFail::Failed)
            }
        }
    }

    fn send(&mut self, p: PeerNo, bytes: &[u8]) -> Result<(), WireFail>
        ensures sent { OnOk result (told_of self.new.book ≡ tell (Sent p bytes.now) (told_of self.old.book)) }
        ensures not_sent { IsErrOf result WireFail.Failed
            → told_of self.new.book ≡ tell (SendFailed p) (told_of self.old.book) }
        ensures no_memory { IsErrOf result WireFail.NoMemory → told_of self.new.book ≡ told_of self.old.book }
        ensures cause { HasCause (faults_of D.faults D.Write.faults self.old)
            (faults_of D.faults D.Write.faults self.new) result }
        ensures keeps { keeps_of self.new.book ≡ keeps_of self.old.book }
        ensures same { no_script ≡ no_script }
        ensures writes { Sends D.Write.written D.Write.was_shut result p.0 bytes.now
            self.old.writers.items self.new.writers.items }
        ensures missed { slice_index_or (connections self.old.writers.items) p.0 false ≡ true
            → self.new.missed ≡ self.old.missed }
        ensures dialer { self.new.dialer ≡ self.old.dialer }
        ensures threads { KeepsThreads self.old self.new }
    {
        self.make_room()?;
        let room = self.copy_room(bytes.len())?;
        match self.put_out(p, bytes) {
            Ok(()) => {
                self.book.note_sent(p, bytes, room);
                Ok(())
            }
            Err(_) => {
                self.book.note_failed(p);
                Err(WireFail::Failed)
            }
        }
    }

    fn close(&mut self, p: PeerNo)
        requires dialled { p.0 ≤ 8 }
        requires once { was_closed (told_of self.old.book).tally p.0 ≡ false }
        ensures closed { told_of self.new.book ≡ tell (Closed p) (told_of self.old.book) }
        ensures later { faults_of D.faults D.Write.faults self.old ≤ faults_of D.faults D.Write.faults self.new }
        ensures keeps { keeps_of self.new.book ≡ keeps_of self.old.book }
        ensures same { no_script ≡ no_script }
        ensures shuts { Shuts D.Write.written D.Write.was_shut p.0 self.old.writers.items self.new.writers.items }
        ensures own { KeepsOwn self.old self.new }
        ensures threads { KeepsThreads self.old self.new }
    {
        self.book.note_closed(p);
        self.shut(p);
    }

    fn next(&mut self) -> Result<Delivery, NoMemory>
        ensures took { IfOk result (λ d. told_of self.new.book ≡ tell (Took d) (told_of self.old.book)) }
        ensures err { OnErr result (told_of self.new.book ≡ told_of self.old.book) }
        ensures later { faults_of D.faults D.Write.faults self.old ≤ faults_of D.faults D.Write.faults self.new }
        ensures keeps { keeps_of self.new.book ≡ keeps_of self.old.book }
        ensures same { no_script ≡ no_script }
        ensures ended { (told_of self.old.book).finished ≡ true → IfOk result (λ d. d ≡ Delivery.Ended) }
        ensures last { IfOk result (λ d. d ≡ Delivery.Ended
            → HaveEnded (connections self.new.writers.items) (view self.new.queue.seat).got) }
        ensures writers { self.new.writers ≡ self.old.writers }
        ensures proper { IfOk result (λ d. IsProper d) }
        ensures gave { IfOk result (λ d. d ≢ Delivery.Ended
            → given_of (view self.new.queue.seat).got ≡ given_of (view self.old.queue.seat).got ++ d ∷ []) }
        ensures own { KeepsOwn self.old self.new }
        ensures threads { KeepsThreads self.old self.new }
    {
        self.make_room()?;
        if self.book.is_finished() {
            self.drain();
            self.note_end();
            return Ok(Delivery::Ended);
        }
        let rt = self.rt;
        for _ in rt.forever() {
            if self.is_over() {
                self.note_end();
                return Ok(Delivery::Ended);
            }
            if let Some(delivery) = self.take_one()? {
                return Ok(delivery);
            }
        }
        unreachable!()
    }

    fn finish(&mut self)
        requires { (told_of self.old.book).finished ≡ false }
        ensures told { told_of self.new.book ≡ told_finished (told_of self.old.book) }
        ensures later { faults_of D.faults D.Write.faults self.old ≤ faults_of D.faults D.Write.faults self.new }
        ensures keeps { keeps_of self.new.book ≡ keeps_of self.old.book }
        ensures same { no_script ≡ no_script }
        ensures joined { self.new.joined ≡ true }
        ensures whose { map whose self.new.done.items ≡ map begun self.old.reading.items }
        ensures rests { pulse_in (λ b. b.before) self.new.rested ≡ pulse_in (λ t. t.pulse) self.old.ticking }
        ensures shut { AreShut D.Write.was_shut self.new.writers.items }
        ensures written { texts D.Write.written self.new.writers.items ≡ texts D.Write.written self.old.writers.items }
        ensures own { KeepsOwn self.old self.new }
    {
        self.stop.store(true, Ordering::SeqCst);
        self.book.note_finished();
        self.shut_all();
        self.drain();
        self.join_all();
    }

    fn session(&self) -> Result<String, NoMemory> {
        self.book.session(self.alloc)
    }
}
