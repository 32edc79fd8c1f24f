//! The task that reads a source and sends its pieces.
ghost use Rattle.std.specs.Prelude.{◌≡◌, ◌⊎◌, ◌++◌, ◌∷◌, [], true, false, MatchBool};
ghost use Rattle.cf_bytes.specs.{HasRisen};
ghost use Rattle.cf_outside.specs.declared.entry.EntryKind.TheVariants.{Last};
ghost use Rattle.cf_tasks.specs.{entry};
ghost use Rattle.crossbeam_channel.specs.Claims.{view};
ghost use Rattle.crossbeam_channel.specs.Ends.{sends_on};
ghost use Rattle.cf_outside.specs.Pieces.{Goes, Stops, Reads, HasStopped};

use crate::entry::{CHUNK, Chunk, EntryKind};
use cf_conn::Source;
use cf_tasks::{Sender, Task};
use std::sync::Wait;

/// Reads a source to its end, and sends each piece.
#[derive(Drop)]
pub struct Reader<S, R> {
    /// The handle by which it waits.
    pub rt: R,
    /// What is read.
    pub source: S,
    /// Where the pieces go.
    pub sender: Sender<EntryKind>,
    pub ghost fresh: { (view sender.seat).sent ≡ [] },
}

/// A source that was read, and the sender, which lists what was sent.
#[derive(Drop)]
pub struct Finished<S> {
    /// The source.
    pub source: S,
    /// The sender.
    pub sender: Sender<EntryKind>,
}

// Sends the last entry.
fn send_last<R: Wait>(rt: &R, sender: &mut Sender<EntryKind>) -> bool
    ensures ring { (sends_on sender.new.line ≡ sends_on sender.old.line) × (sender.new.number ≡ sender.old.number) }
    ensures stop { result ≡ false }
    ensures last { ((view sender.new.seat).sent ≡ (view sender.old.seat).sent ++ entry sender.old.number Last ∷ [])
        ⊎ (((view sender.new.seat).sent ≡ (view sender.old.seat).sent)
        × HasRisen sender.old.returned sender.new.returned) }
{
    let _ = sender.send(rt, EntryKind::Last);
    false
}

// Reads one piece and sends it. False where the last entry was sent, or one came back.
fn read_one<S: Source, R: Wait>(rt: &R, source: &mut S, sender: &mut Sender<EntryKind>) -> bool
    ensures ring { (sends_on sender.new.line ≡ sends_on sender.old.line) × (sender.new.number ≡ sender.old.number) }
    ensures kept { result ≡ true → sender.new.returned ≡ sender.old.returned }
    ensures step { MatchBool result (Goes S.left S.faults sender.old.number source.old (view sender.old.seat).sent
        (view sender.new.seat).sent source.new) (Stops S.left S.faults S.ended sender.old.number source.old
        (view sender.old.seat).sent sender.old.returned (view sender.new.seat).sent sender.new.returned source.new) }
{
    let mut buf = [0; CHUNK];
    match source.read(&mut buf) {
        Ok(n) => {
            if n > 0 {
                sender.send(rt, EntryKind::Got(Chunk::new(buf, n))).is_ok()
            } else {
                send_last(rt, sender)
            }
        }
        Err(_) => send_last(rt, sender),
    }
}

impl<S: Source + Drop, R: Wait + Drop> Task for Reader<S, R> {
    type Out = Finished<S>;

    ghost gives = { λ r o. (sends_on o.sender.line ≡ sends_on r.sender.line) × (o.sender.number ≡ r.sender.number)
        × Reads S.left S.faults S.ended r.source (view o.sender.seat).sent o.source
        × HasStopped r.sender.returned (view o.sender.seat).sent o.sender.returned };

    fn run(self) -> Finished<S> {
        let Reader {
            rt,
            mut source,
            mut sender,
        } = self;
        for _ in rt.forever() {
            if !read_one(&rt, &mut source, &mut sender) {
                return Finished { source, sender };
            }
        }
        unreachable!()
    }
}
