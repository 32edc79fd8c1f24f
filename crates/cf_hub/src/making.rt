//! What a hub is made of.
ghost use Rattle.std.specs.Prelude.{◌≡◌, ◌≤◌, ◌∷◌, [], false, IfOk, None, vec_len, vec_capacity};
ghost use Rattle.crossbeam_channel.specs.Claims.{view};
ghost use Rattle.crossbeam_channel.specs.Ends.{sends_on};
ghost use Rattle.cf_hub.specs.Book.{told_of, keeps_of};
ghost use Rattle.cf_hub.specs.Lines.{Down, Waits};
ghost use Rattle.cf_wires.specs.{Tells as IsTold};

use crate::book::HubLog;
use cf_bytes::{MOST_PEERS, NoMemory};
use cf_outside::{EntryKind, StopFlag};
use cf_tasks::{Queue, Sender};
use std::alloc::{AllocError, Global};
use std::sync::Arc;
use std::sync::atomic::AtomicBool;

// A sender for each peer, that of the first last.
fn peer_senders(
    alloc: Global,
    queue: &mut Queue<EntryKind>,
) -> Result<Vec<Sender<EntryKind>>, AllocError>
    requires { queue.old.made ≡ 1 }
    ensures ring { sends_on queue.new.line ≡ sends_on queue.old.line }
    ensures got { (view queue.new.seat).got ≡ (view queue.old.seat).got }
    ensures len { IfOk result (λ v. vec_len v ≡ 8) }
    ensures each { IfOk result (λ v. Down queue.new v.items) }
{
    let mut up = Vec::with_capacity(alloc, 8)?;
    let mut down = Vec::with_capacity(alloc, 8)?;
    for _ in 0..8u32 {
        up.push_reserved(queue.sender()?);
    }
    while let Some(sender) = up.pop() {
        down.push_reserved(sender);
    }
    Ok(down)
}

// The queue, the ticker's sender, and those of the peers.
#[derive(Drop)]
pub(crate) struct Lines {
    pub(crate) queue: Queue<EntryKind>,
    pub(crate) sender: Sender<EntryKind>,
    pub(crate) spare: Vec<Sender<EntryKind>>,
    pub(crate) ghost waits: { Waits queue sender },
    pub(crate) ghost spares: { Down queue spare.items },
    pub(crate) ghost numbers: { vec_len spare ≡ 8 },
    pub(crate) ghost none: { (view queue.seat).got ≡ [] },
}

fn lines_in(alloc: Global) -> Result<Lines, AllocError> {
    let mut queue = Queue::new(alloc, 64)?;
    let sender = queue.sender()?;
    let spare = peer_senders(alloc, &mut queue)?;
    Ok(Lines {
        queue,
        sender,
        spare,
    })
}

// Room for the writers, of whom nobody has number 0, for the tasks that read, and for what they come to.
#[derive(Drop)]
pub(crate) struct Lists<W, B, J> {
    pub(crate) writers: Vec<Option<W>>,
    pub(crate) reading: Vec<B>,
    pub(crate) done: Vec<J>,
    pub(crate) ghost nobody: { writers.items ≡ None ∷ [] },
    pub(crate) ghost one: { vec_len writers ≡ 1 },
    pub(crate) ghost holds: { 9 ≤ vec_capacity writers },
    pub(crate) ghost unread: { reading.items ≡ [] },
    pub(crate) ghost none: { vec_len reading ≡ 0 },
    pub(crate) ghost seats: { 8 ≤ vec_capacity reading },
    pub(crate) ghost undone: { done.items ≡ [] },
    pub(crate) ghost room: { 8 ≤ vec_capacity done },
}

fn lists_in<W: Drop, B: Drop, J: Drop>(alloc: Global) -> Result<Lists<W, B, J>, AllocError> {
    let mut writers = Vec::with_capacity(alloc, MOST_PEERS + 1)?;
    let reading = Vec::with_capacity(alloc, MOST_PEERS)?;
    let done = Vec::with_capacity(alloc, MOST_PEERS)?;
    writers.push_reserved(None);
    Ok(Lists {
        writers,
        reading,
        done,
    })
}

// All of a hub for which memory has to be found.
#[derive(Drop)]
pub(crate) struct Parts<W, B, J> {
    pub(crate) lines: Lines,
    pub(crate) lists: Lists<W, B, J>,
    pub(crate) stop: Arc<AtomicBool, Global>,
    pub(crate) theirs: StopFlag,
    pub(crate) book: HubLog,
    pub(crate) ghost unasked: { theirs ≡ false },
}

pub(crate) fn parts_in<W: Drop, B: Drop, J: Drop>(alloc: Global) -> Result<Parts<W, B, J>, NoMemory>
    ensures told { IfOk result (λ s. IsTold [] (told_of s.book)) }
    ensures finished { IfOk result (λ s. (told_of s.book).finished ≡ false) }
    ensures keeps { IfOk result (λ s. keeps_of s.book ≡ false) }
{
    let stop = Arc::new(alloc, AtomicBool::new(false))?;
    let theirs = StopFlag::new(Arc::try_clone(&stop)?);
    let book = HubLog::new(alloc)?;
    let lists = lists_in(alloc)?;
    let lines = lines_in(alloc)?;
    Ok(Parts {
        lines,
        lists,
        stop,
        theirs,
        book,
    })
}
