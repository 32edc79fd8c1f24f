//! What is taken from a hub's queue, and whose last entry has come.
ghost use Rattle.std.specs.Prelude.{◌≡◌, ◌≢◌, ◌≤◌, ◌++◌, ◌∷◌, [], true, false, IfSome, IfNone, slice_index_or, slice_set, vec_capacity};
ghost use Rattle.crossbeam_channel.specs.Claims.{view};
ghost use Rattle.crossbeam_channel.specs.Ends.{sends_on};
ghost use Rattle.cf_tasks.specs.{entry};
ghost use Rattle.cf_outside.specs.{is_last};
ghost use Rattle.cf_wires.specs.declared.event.Event.TheVariants.{Took};
ghost use Rattle.cf_wires.specs.{tell};
ghost use Rattle.cf_hub.specs.Book.{told_of, keeps_of, IsReady};
ghost use Rattle.cf_hub.specs.Gives.{given_of, IsProper};
ghost use Rattle.cf_hub.specs.Over.{AllGone, Heard, connections};

use crate::book::{HubLog, filled};
use cf_bytes::{PLACES, PeerNo};
use cf_outside::EntryKind;
use cf_tasks::{Item, Queue};
use cf_wires::Delivery;
use std::sync::Wait;

// Takes the next entry, and notes whose last it is.
pub(crate) fn receive<R: Wait>(
    rt: &R,
    queue: &mut Queue<EntryKind>,
    gone: &mut [bool; PLACES],
) -> Item<EntryKind>
    ensures ring { sends_on queue.new.line ≡ sends_on queue.old.line }
    ensures got { (view queue.new.seat).got ≡ (view queue.old.seat).got ++ entry result.from result.kind ∷ [] }
    ensures heard { Heard gone.old (view queue.old.seat).got → Heard gone.new (view queue.new.seat).got }
{
    let entry = queue.next(rt);
    note_last(gone, &entry);
    entry
}

// Takes the next entry. Where it is a delivery, it is noted and given.
pub(crate) fn take_entry<R: Wait>(
    rt: &R,
    queue: &mut Queue<EntryKind>,
    gone: &mut [bool; PLACES],
    book: &mut HubLog,
    bytes: Vec<u8>,
    room: Vec<u8>,
) -> Option<Delivery>
    requires ready { IsReady book.old }
    requires empty { (bytes.items ≡ []) × (room.items ≡ []) }
    requires most { 4096 ≤ vec_capacity bytes }
    requires copy { keeps_of book.old ≡ true → 4096 ≤ vec_capacity room }
    ensures ring { sends_on queue.new.line ≡ sends_on queue.old.line }
    ensures heard { Heard gone.old (view queue.old.seat).got → Heard gone.new (view queue.new.seat).got }
    ensures some { IfSome result (λ d. (told_of book.new ≡ tell (Took d) (told_of book.old))
        × (given_of (view queue.new.seat).got ≡ given_of (view queue.old.seat).got ++ d ∷ [])) }
    ensures real { IfSome result (λ d. d ≢ Delivery.Ended) }
    ensures none { IfNone result ((book.new ≡ book.old)
        × (given_of (view queue.new.seat).got ≡ given_of (view queue.old.seat).got)) }
    ensures keeps { keeps_of book.new ≡ keeps_of book.old }
    ensures proper { IfSome result (λ d. IsProper d) }
{
    let Item { from, kind } = receive(rt, queue, gone);
    let p = PeerNo(u32::from(from));
    match kind {
        EntryKind::Got(chunk) => {
            if from == 0 {
                return None;
            }
            book.note_got(p, chunk.bytes(), room);
            Some(Delivery::Got(p, filled(bytes, chunk.bytes())))
        }
        EntryKind::Tick(seconds) => {
            if from > 0 {
                return None;
            }
            let seconds = seconds.get();
            book.note_tick(seconds);
            Some(Delivery::Tick(seconds))
        }
        EntryKind::Last => {
            if from == 0 {
                return None;
            }
            book.note_gone(p);
            Some(Delivery::Gone(p))
        }
    }
}

// Notes a last entry.
fn note_last(gone: &mut [bool; PLACES], entry: &Item<EntryKind>)
    ensures last { is_last entry.now.kind ≡ true → gone.new ≡ slice_set gone.old entry.now.from true }
    ensures other { is_last entry.now.kind ≡ false → gone.new ≡ gone.old }
{
    match &entry.kind {
        EntryKind::Last => {
            if (entry.from as usize) < PLACES {
                gone[entry.from as usize] = true;
            }
        }
        EntryKind::Got(_) | EntryKind::Tick(_) => {}
    }
}

// Whether a peer has a writer.
#[tactic(auto, using(crate::proofs::Opened::there_at, crate::proofs::Opened::none_at))]
fn is_connected<W>(writers: &[Option<W>], p: usize) -> bool
    ensures { result ≡ slice_index_or (connections writers.now) p false }
{
    match writers.get(p) {
        Some(Some(_)) => true,
        Some(None) | None => false,
    }
}

// Whether the last entry of a peer was noted.
fn is_noted(gone: &[bool; PLACES], p: usize) -> bool
    ensures { result ≡ slice_index_or gone.now p false }
{
    p < gone.len() && gone[p]
}

// Whether a peer has a writer, and its last entry was not noted.
pub(crate) fn is_left<W>(writers: &[Option<W>], gone: &[bool; PLACES], p: usize) -> bool
    ensures { result ≡ false → slice_index_or (connections writers.now) p false ≡ true
        → slice_index_or gone.now p false ≡ true }
{
    is_connected(writers, p) && !is_noted(gone, p)
}

// Whether the last entry of each peer that has a writer was noted.
pub(crate) fn are_gone<W>(writers: &[Option<W>], gone: &[bool; PLACES]) -> bool
    ensures { result ≡ true → AllGone writers.now gone.now }
{
    for p in 0..writers.len() {
        if is_left(writers, gone, p) {
            return false;
        }
    }
    true
}
