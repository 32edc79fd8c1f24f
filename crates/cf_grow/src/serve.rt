//! Serving a connection from a chain that grows.
ghost use Rattle.std.specs.Prelude.{◌≡◌, ◌≤◌, ◌++◌, IfSome, IfOk, IfErr, OnOk};
ghost use Rattle.cf_frame.specs.{IsFrame};
ghost use Rattle.cf_bytes.specs.{IsBytes};
ghost use Rattle.cf_grow.specs.Growing.{HasMomentOf, begun_in, mark_of};
ghost use Rattle.cf_grow.specs.Serving.{AnswersFrame, CountsOf, CountsSends, EndsInside, EndsOf, FindsFrame, IsServedGrowing, TakesFrames};
ghost use Rattle.cf_msg.specs.{HasSpelling, Answers, message_of as message_in};
ghost use Rattle.cf_server.specs.{Idles};

use crate::ending::Ending;
use crate::grown::{Grown, take_locked};
use crate::joins::Joins;
use crate::keeper::Keeper;
use crate::mark::{ServedMark, Tip};
use crate::sending::send_parts;
use cf_bytes::Refused;
use cf_conn::Duplex;
use cf_frame::{Frame, Framer};
use cf_msg::{Malformed, Msg, read};
use cf_server::{MOST_FRAMES, PIECE, ServeEnd};
use std::alloc::Global;
use std::sync::{Mutex, Wait};

// What a slice of bytes holds are bytes: its type says so.
fn are_bytes(bytes: &[u8])
    ensures { IsBytes bytes.now }
{}

// Reads a frame's message.
fn read_spelled(alloc: Global, frame: &Frame) -> Result<Msg, Refused<Malformed>>
    requires { IsFrame frame.now }
    ensures exact { Answers (message_in frame.now) result }
    ensures spelled { IfOk result HasSpelling }
{
    // The payload is bytes, so that what is read of it has a spelling.
    are_bytes(frame.payload.as_slice());
    read(alloc, frame)
}

// Tells the height of the block that has joined, where one has.
fn tell<J: Joins>(joins: &J, height: Option<u32>) {
    if let Some(height) = height {
        joins.joined(height);
    }
}

// Reads a frame's message, takes one step under the lock, and writes what the message is answered with once the lock is
// let go. Neither the frame nor the message is held while it is written.
fn answer_frame<R: Wait, J: Joins, K: Keeper, C: Duplex>(
    rt: &R,
    alloc: Global,
    grown: &Mutex<Grown<K>>,
    joins: &J,
    conn: &mut C,
    mark: &mut ServedMark,
    frame: Frame,
) -> Result<(), Ending>
    requires { IsFrame frame }
    ensures answers { AnswersFrame result (begun_in mark.old) mark.old.served.nonce (message_in frame)
        (mark_of mark.old) (mark_of mark.new) (C.written conn.old) (C.written conn.new) }
    ensures moment { HasMomentOf mark.old mark.new }
    ensures count { CountsSends result (C.Sink.faults conn.old) (C.Sink.faults conn.new) }
    ensures left { C.left conn.new ≡ C.left conn.old }
    ensures ended { C.ended conn.new ≡ C.ended conn.old }
    ensures read_faults { C.Source.faults conn.new ≡ C.Source.faults conn.old }
{
    let msg = match read_spelled(alloc, &frame) {
        Ok(msg) => msg,
        Err(Refused::No(fault)) => return Err(Ending::Served(ServeEnd::Malformed(fault))),
        Err(Refused::NoMemory) => return Err(Ending::Served(ServeEnd::NoMemory)),
    };
    let taken = take_locked(rt, alloc, grown, mark, frame, msg)?;
    tell(joins, taken.joined);
    send_parts(alloc, conn, taken.parts)?;
    Ok(())
}

// What is kept of a connection: the bytes that wait for the rest of their frame, what it was told, and how many frames
// may still come.
#[derive(Drop)]
struct Session {
    framer: Framer,
    mark: ServedMark,
    left: u32,
}

// Takes the next whole frame, if one waits.
fn next_frame(framer: &mut Framer) -> Result<Option<Frame>, Ending>
    ensures finds { FindsFrame result framer.old framer.new }
    ensures frame { IfOk result (λ found. IfSome found IsFrame) }
{
    match framer.next() {
        Ok(frame) => Ok(frame),
        Err(Refused::No(fault)) => Err(Ending::Served(ServeEnd::BadFrame(fault))),
        Err(Refused::NoMemory) => Err(Ending::Served(ServeEnd::NoMemory)),
    }
}

// Takes and answers the whole frames that wait.
fn take_frames<R: Wait, J: Joins, K: Keeper, C: Duplex>(
    rt: &R,
    alloc: Global,
    grown: &Mutex<Grown<K>>,
    joins: &J,
    conn: &mut C,
    session: &mut Session,
) -> Result<(), Ending>
    requires { 1 ≤ session.old.left }
    ensures takes { TakesFrames result (begun_in session.old.mark) session.old.mark.served.nonce session.old.left
        session.new.left session.old.framer session.new.framer (mark_of session.old.mark) (mark_of session.new.mark)
        (C.written conn.old) (C.written conn.new) }
    ensures moment { HasMomentOf session.old.mark session.new.mark }
    ensures idles { OnOk result (Idles session.old.left session.new.left session.old.framer session.new.framer) }
    ensures inside { IfErr result EndsInside }
    ensures count { CountsSends result (C.Sink.faults conn.old) (C.Sink.faults conn.new) }
    ensures left { C.left conn.new ≡ C.left conn.old }
    ensures ended { C.ended conn.new ≡ C.ended conn.old }
    ensures read_faults { C.Source.faults conn.new ≡ C.Source.faults conn.old }
{
    while let Some(frame) = next_frame(&mut session.framer)? {
        answer_frame(rt, alloc, grown, joins, conn, &mut session.mark, frame)?;
        session.left -= 1;
        if session.left == 0 {
            return Err(Ending::Served(ServeEnd::Tired));
        }
    }
    Ok(())
}

// Takes the next piece of the connection's bytes.
fn take_piece<R: Wait, J: Joins, K: Keeper, C: Duplex>(
    rt: &R,
    alloc: Global,
    grown: &Mutex<Grown<K>>,
    joins: &J,
    conn: &mut C,
    session: &mut Session,
    piece: &[u8],
) -> Result<(), Ending>
    requires { 1 ≤ session.old.left }
    ensures takes { TakesFrames result (begun_in session.old.mark) session.old.mark.served.nonce session.old.left
        session.new.left (session.old.framer ++ piece.now) session.new.framer (mark_of session.old.mark)
        (mark_of session.new.mark) (C.written conn.old) (C.written conn.new) }
    ensures moment { HasMomentOf session.old.mark session.new.mark }
    ensures idles { OnOk result
        (Idles session.old.left session.new.left (session.old.framer ++ piece.now) session.new.framer) }
    ensures inside { IfErr result EndsInside }
    ensures count { CountsSends result (C.Sink.faults conn.old) (C.Sink.faults conn.new) }
    ensures left { C.left conn.new ≡ C.left conn.old }
    ensures ended { C.ended conn.new ≡ C.ended conn.old }
    ensures read_faults { C.Source.faults conn.new ≡ C.Source.faults conn.old }
{
    match session.framer.feed(piece) {
        Ok(()) => take_frames(rt, alloc, grown, joins, conn, session),
        Err(_) => Err(Ending::Served(ServeEnd::NoMemory)),
    }
}

/// Serves a connection from a chain that grows and began with this tip: message by message the answer is that of a good
/// chain that has it, and on which the mark stands that the message before has left. It ends as from a chain that
/// stands still, or where the chain is another than was told or than it began with, with the hash of then and the one
/// there. Nothing is written while the lock is held. Each block that joins is told of, once the lock is let go.
pub fn serve_grown<R: Wait, J: Joins, K: Keeper, C: Duplex>(
    rt: &R,
    alloc: Global,
    grown: &Mutex<Grown<K>>,
    joins: &J,
    conn: &mut C,
    moment: i64,
    nonce: u64,
    first: Tip,
) -> Ending
    ensures served { IfSome (C.left conn.old)
        (λ bytes. IsServedGrowing (record { time = moment; tip = first }) nonce result bytes
        (C.left conn.new) (C.written conn.old) (C.written conn.new)) }
    ensures ends { EndsOf result (C.ended conn.new) (C.left conn.new) }
    ensures counts { CountsOf result (C.Source.faults conn.old) (C.Source.faults conn.new) (C.Sink.faults conn.old)
        (C.Sink.faults conn.new) }
{
    let mut session = Session {
        framer: Framer::new(alloc),
        mark: ServedMark::new(moment, nonce, first),
        left: MOST_FRAMES,
    };
    let mut piece = [0u8; PIECE];
    loop {
        let n = match conn.receive(&mut piece) {
            Ok(0) => return Ending::Served(ServeEnd::Closed),
            Ok(n) => n,
            Err(_) => return Ending::Served(ServeEnd::ReadFault),
        };
        if let Err(ending) = take_piece(rt, alloc, grown, joins, conn, &mut session, &piece[..n]) {
            return ending;
        }
    }
}
