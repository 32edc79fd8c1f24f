//! What passed the wires: the log, where it is kept, and the tally.
ghost use Rattle.std.specs.Prelude.{◌≡◌, ◌≤◌, ◌<◌, ◌+◌, ◌^◌, ◌-◌, ℕ, Some, reverse, [], ◌∷◌, OnOk, OnErr, IfOk, IsSome, true, false, not, vec_len, vec_capacity, length, string_bytes, IfSome, slice_set};
ghost use Rattle.std.specs.List.{count_by};
ghost use Rattle.cf_wires.specs.declared.event.Event.TheVariants.{Dialled, NotDialled, Sent, SendFailed, Closed, Took};
ghost use Rattle.cf_wires.specs.declared.event.Delivery.TheVariants.{Got, Gone, Tick, Ended};
ghost use Rattle.cf_wires.specs.{Tells, tell, told_finished, longer, was_closed, session_text};
ghost use Rattle.cf_hub.specs.LogKept.{kept_log};

use cf_bytes::{NoMemory, PLACES, PeerNo};
use cf_wires::{Delivery, Event, Mark, Name, Piece, put_deliveries, put_dials};
use std::alloc::Global;

/// What passed the wires.
#[derive(Drop)]
pub struct HubLog {
    keeps: bool,
    log: Vec<Event>,
    marks: [Mark; PLACES],
    closed: [bool; PLACES],
    dials: u32,
    taken: u64,
    ended: u64,
    finished: bool,
    ghost unkept: { keeps ≡ false → log.items ≡ [] },
    ghost room: { vec_len log + count_by not closed ≤ vec_capacity log },
}

// Puts an entry into the log, where it is kept.
#[tactic(auto, using(crate::proofs::Books::one_longer, crate::proofs::Books::none_kept))]
fn put(log: &mut Vec<Event>, keeps: bool, e: Event)
    requires { vec_len log.old < vec_capacity log.old }
    ensures log { kept_log keeps log.new.items ≡ longer e (kept_log keeps log.old.items) }
    ensures unkept { keeps ≡ false → log.new.items ≡ log.old.items }
    ensures len { vec_len log.new ≤ vec_len log.old + 1 }
    ensures capacity { vec_capacity log.old ≤ vec_capacity log.new }
{
    if keeps {
        log.push(e).unwrap();
    }
}

// Marks a peer, if its number is one.
fn mark(marks: &mut [Mark; PLACES], p: PeerNo, m: Mark)
    ensures { marks.new ≡ slice_set marks.old p.0 m }
{
    if (p.0 as usize) < PLACES {
        marks[p.0 as usize] = m;
    }
}

// A piece of these bytes, for which there is room.
pub(crate) fn filled(room: Vec<u8>, bytes: &[u8]) -> Piece
    requires none { room.items ≡ [] }
    requires room { length bytes.now ≤ vec_capacity room }
    ensures { result ≡ bytes.now }
{
    let mut copy = room;
    copy.extend_from_slice(bytes).unwrap();
    Piece::from_vec(copy)
}

impl HubLog {
    ghost use Rattle.cf_hub.specs.Book.{told_of, keeps_of, IsReady};

    /// Nothing has passed, and the log is not kept.
    pub fn new(alloc: Global) -> Result<HubLog, NoMemory>
        ensures told { IfOk result (λ b. Tells [] (told_of b)) }
        ensures finished { IfOk result (λ b. (told_of b).finished ≡ false) }
        ensures keeps { IfOk result (λ b. keeps_of b ≡ false) }
    {
        Ok(HubLog {
            keeps: false,
            log: Vec::with_capacity(alloc, PLACES)?,
            marks: [Mark::NotYet; PLACES],
            closed: [false; PLACES],
            dials: 0,
            taken: 0,
            ended: 0,
            finished: false,
        })
    }

    /// From now on the log is kept. Nothing has passed yet.
    pub fn keep(&mut self)
        requires { Tells [] (told_of self.old) }
        ensures told { Tells [] (told_of self.new) }
        ensures log { IsSome (told_of self.new).log }
        ensures finished { (told_of self.new).finished ≡ (told_of self.old).finished }
        ensures keeps { keeps_of self.new ≡ true }
    {
        self.keeps = true;
    }

    /// How many were dialled.
    pub fn dials(&self) -> u32
        ensures { result ≡ (told_of self.now).tally.dials }
    {
        self.dials
    }

    /// Whether the wires are finished.
    pub fn is_finished(&self) -> bool
        ensures { result ≡ (told_of self.now).finished }
    {
        self.finished
    }

    /// The wires are finished from now on.
    pub fn note_finished(&mut self)
        ensures told { told_of self.new ≡ told_finished (told_of self.old) }
        ensures keeps { keeps_of self.new ≡ keeps_of self.old }
    {
        self.finished = true;
    }

    /// Takes the room for one entry more, beside the closes that may come.
    pub fn make_room(&mut self) -> Result<(), NoMemory>
        ensures told { told_of self.new ≡ told_of self.old }
        ensures keeps { keeps_of self.new ≡ keeps_of self.old }
        ensures ready { OnOk result (IsReady self.new) }
    {
        self.log.reserve(10)?;
        if self.taken == u64::MAX || self.ended == u64::MAX {
            return Err(NoMemory);
        }
        Ok(())
    }

    /// A peer was dialled.
    pub fn note_dialled(&mut self, p: PeerNo, name: Name)
        requires ready { IsReady self.old }
        requires few { (told_of self.old).tally.dials < 8 }
        ensures told { told_of self.new ≡ tell (Dialled p name) (told_of self.old) }
        ensures keeps { keeps_of self.new ≡ keeps_of self.old }
    {
        put(&mut self.log, self.keeps, Event::Dialled(p, name));
        mark(&mut self.marks, p, Mark::Dialled);
        self.dials += 1;
    }

    /// A dial failed.
    pub fn note_not_dialled(&mut self, p: PeerNo, name: Name)
        requires ready { IsReady self.old }
        requires few { (told_of self.old).tally.dials < 8 }
        ensures told { told_of self.new ≡ tell (NotDialled p name) (told_of self.old) }
        ensures keeps { keeps_of self.new ≡ keeps_of self.old }
    {
        put(&mut self.log, self.keeps, Event::NotDialled(p, name));
        mark(&mut self.marks, p, Mark::NotDialled);
        self.dials += 1;
    }

    /// Room for a copy of so many bytes, where the log is kept.
    pub fn copy_room(&self, alloc: Global, most: usize) -> Result<Vec<u8>, NoMemory>
        ensures none { IfOk result (λ v. v.items ≡ []) }
        ensures room { IfOk result (λ v. keeps_of self.now ≡ true → most ≤ vec_capacity v) }
    {
        if self.keeps {
            return Ok(Vec::with_capacity(alloc, most)?);
        }
        Ok(Vec::new(alloc))
    }

    /// Bytes were sent to a peer. Where the log is kept it keeps a copy, for which there is room.
    pub fn note_sent(&mut self, p: PeerNo, bytes: &[u8], room: Vec<u8>)
        requires ready { IsReady self.old }
        requires none { room.items ≡ [] }
        requires room { keeps_of self.old ≡ true → length bytes.now ≤ vec_capacity room }
        ensures told { told_of self.new ≡ tell (Sent p bytes.now) (told_of self.old) }
        ensures keeps { keeps_of self.new ≡ keeps_of self.old }
    {
        if self.keeps {
            let piece = filled(room, bytes);
            put(&mut self.log, self.keeps, Event::Sent(p, piece));
        }
    }

    /// A send to a peer failed.
    pub fn note_failed(&mut self, p: PeerNo)
        requires ready { IsReady self.old }
        ensures told { told_of self.new ≡ tell (SendFailed p) (told_of self.old) }
        ensures keeps { keeps_of self.new ≡ keeps_of self.old }
    {
        put(&mut self.log, self.keeps, Event::SendFailed(p));
        mark(&mut self.marks, p, Mark::SendFailed);
    }

    /// Bytes came from a peer. Where the log is kept it keeps a copy, for which there is room.
    pub fn note_got(&mut self, p: PeerNo, bytes: &[u8], room: Vec<u8>)
        requires ready { IsReady self.old }
        requires none { room.items ≡ [] }
        requires room { keeps_of self.old ≡ true → length bytes.now ≤ vec_capacity room }
        ensures told { told_of self.new ≡ tell (Took (Got p bytes.now)) (told_of self.old) }
        ensures keeps { keeps_of self.new ≡ keeps_of self.old }
    {
        if self.keeps {
            let piece = filled(room, bytes);
            put(
                &mut self.log,
                self.keeps,
                Event::Took(Delivery::Got(p, piece)),
            );
        }
        self.taken += 1;
    }

    /// A peer has gone.
    pub fn note_gone(&mut self, p: PeerNo)
        requires ready { IsReady self.old }
        ensures told { told_of self.new ≡ tell (Took (Gone p)) (told_of self.old) }
        ensures keeps { keeps_of self.new ≡ keeps_of self.old }
    {
        put(&mut self.log, self.keeps, Event::Took(Delivery::Gone(p)));
        mark(&mut self.marks, p, Mark::Gone);
        self.taken += 1;
    }

    /// Seconds have passed.
    pub fn note_tick(&mut self, seconds: u32)
        requires ready { IsReady self.old }
        ensures told { told_of self.new ≡ tell (Took (Tick seconds)) (told_of self.old) }
        ensures keeps { keeps_of self.new ≡ keeps_of self.old }
    {
        put(
            &mut self.log,
            self.keeps,
            Event::Took(Delivery::Tick(seconds)),
        );
        self.taken += 1;
    }

    /// Nothing more comes.
    pub fn note_end(&mut self)
        requires ready { IsReady self.old }
        ensures told { told_of self.new ≡ tell (Took Ended) (told_of self.old) }
        ensures keeps { keeps_of self.new ≡ keeps_of self.old }
    {
        put(&mut self.log, self.keeps, Event::Took(Delivery::Ended));
        self.ended += 1;
    }

    /// A peer was closed. The room for it was there from the start.
    pub fn note_closed(&mut self, p: PeerNo)
        requires dialled { p.0 ≤ 8 }
        requires once { was_closed (told_of self.old).tally p.0 ≡ false }
        ensures told { told_of self.new ≡ tell (Closed p) (told_of self.old) }
        ensures keeps { keeps_of self.new ≡ keeps_of self.old }
    {
        put(&mut self.log, self.keeps, Event::Closed(p));
        mark(&mut self.marks, p, Mark::Closed);
        self.closed[p.0 as usize] = true;
    }

    /// The session lines of the log, where it is kept, and else an empty text.
    pub fn session(&self, alloc: Global) -> Result<String, NoMemory>
        ensures unkept { IfOk result (λ text. keeps_of self.now ≡ false → string_bytes text ≡ []) }
        ensures kept { IfOk result (λ text. keeps_of self.now ≡ true
            → IfSome (told_of self.now).log (λ log. string_bytes text ≡ session_text log)) }
    {
        let mut text = String::new(alloc);
        if self.keeps {
            put_dials(&self.log, &mut text)?;
            put_deliveries(alloc, &self.log, &mut text)?;
        }
        Ok(text)
    }
}
