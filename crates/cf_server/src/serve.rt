//! Serving a connection.
ghost use Rattle.std.specs.Prelude.{◌≡◌, ◌≤◌, ◌++◌, ◌||◌, [], IfOk, IfSome, IfErr, OnOk};
ghost use Rattle.cf_frame.specs.{spelling};
ghost use Rattle.cf_msg.specs.{frame_of, is_version as version_is, message_of as message_in};
ghost use Rattle.cf_chain.specs.{replies_to};
ghost use Rattle.cf_server.specs.Replies.{Adds, IsReplyOf, AreRepliesOf, message_of, messages_of};
ghost use Rattle.cf_server.specs.Serving.{IsServed, Counts, Ends, text_of};
ghost use Rattle.cf_server.specs.Turns.{AnswersFirst, owed_for};
ghost use Rattle.cf_server.specs.Taking.{Sends, CountsWrites, AnswersFrame, FindsFrame, TakesFrames, Idles, ComesInside};

use crate::answering::{Serving, answer};
use crate::frames::write_reply;
use crate::outcome::ServeEnd;
use crate::reply::{Planned, Replies, Reply};
use cf_bytes::{NoMemory, Refused};
use cf_conn::{Duplex, send_all};
use cf_frame::{Frame, Framer};
use cf_index::Index;
use cf_msg::{Msg, read};
use std::alloc::Global;

/// The most frames that are taken of one connection.
pub const MOST_FRAMES: u32 = 1_000_000;

/// The most bytes of one read.
pub const PIECE: usize = 4096;

/// How many bytes of frames wait at least before they're written. What is left is written after the last reply.
const TOGETHER: usize = 16_384;

// Puts a reply's frame at the end of the bytes that wait.
fn put_reply(
    alloc: Global,
    index: &Index,
    served: &Serving,
    reply: Reply,
    waiting: &mut Vec<u8>,
) -> Result<(), NoMemory>
    requires { IsReplyOf index.now reply }
    ensures { OnOk result
        (waiting.new.items ≡ waiting.old.items ++ spelling (frame_of (message_of served.now index.now reply))) }
{
    let frame = write_reply(alloc, index, served, reply)?;
    waiting.extend_from_slice(&frame)?;
    Ok(())
}

/// Writes the bytes that wait.
pub fn flush<C: Duplex>(conn: &mut C, waiting: &mut Vec<u8>) -> Result<(), ServeEnd>
    ensures sends { Sends result (C.written conn.old) (C.written conn.new) waiting.old.items }
    ensures none { OnOk result (waiting.new.items ≡ []) }
    ensures count { CountsWrites result (C.Sink.faults conn.old) (C.Sink.faults conn.new) }
    ensures left { C.left conn.new ≡ C.left conn.old }
    ensures ended { C.ended conn.new ≡ C.ended conn.old }
    ensures read_faults { C.Source.faults conn.new ≡ C.Source.faults conn.old }
{
    match send_all(conn, waiting) {
        Ok(()) => {
            waiting.clear();
            Ok(())
        }
        Err(_) => Err(ServeEnd::WriteFault),
    }
}

// Writes the frames of replies, one after another, many of them together.
fn send_replies<C: Duplex>(
    alloc: Global,
    index: &Index,
    conn: &mut C,
    served: &Serving,
    replies: &Planned,
) -> Result<(), ServeEnd>
    requires { AreRepliesOf index.now replies.now }
    ensures sends { Sends result (C.written conn.old) (C.written conn.new)
        (text_of (messages_of served.now index.now replies.now)) }
    ensures count { CountsWrites result (C.Sink.faults conn.old) (C.Sink.faults conn.new) }
    ensures left { C.left conn.new ≡ C.left conn.old }
    ensures ended { C.ended conn.new ≡ C.ended conn.old }
    ensures read_faults { C.Source.faults conn.new ≡ C.Source.faults conn.old }
{
    let mut waiting = Vec::new(alloc);
    for place in 0..replies.len() {
        put_reply(alloc, index, served, replies.at(place), &mut waiting)?;
        if waiting.len() >= TOGETHER {
            flush(conn, &mut waiting)?;
        }
    }
    flush(conn, &mut waiting)
}

// The replies to a message, which is let go.
fn plan_replies(
    alloc: Global,
    index: &Index,
    served: &mut Serving,
    msg: Msg,
) -> Result<Planned, NoMemory>
    ensures adds { IfOk result (λ planned. Adds served.old index.now [] planned
        (replies_to served.old.time served.old.nonce index.now served.old.seen msg)) }
    ensures seen { OnOk result (served.new ≡ record served.old { seen = version_is msg || served.old.seen }) }
{
    let mut replies = Replies::new(alloc);
    answer(index, served, &msg, &mut replies)?;
    Planned::of(alloc, replies)
}

// Reads a frame's message, and writes the replies to it. Neither is held while they are written.
fn answer_frame<C: Duplex>(
    alloc: Global,
    index: &Index,
    conn: &mut C,
    served: &mut Serving,
    frame: Frame,
) -> Result<(), ServeEnd>
    ensures answers { AnswersFrame result index.now (message_in frame) served.old served.new
        (C.written conn.old) (C.written conn.new) }
    ensures count { CountsWrites result (C.Sink.faults conn.old) (C.Sink.faults conn.new) }
    ensures left { C.left conn.new ≡ C.left conn.old }
    ensures ended { C.ended conn.new ≡ C.ended conn.old }
    ensures read_faults { C.Source.faults conn.new ≡ C.Source.faults conn.old }
{
    let msg = match read(alloc, &frame) {
        Ok(msg) => msg,
        Err(Refused::No(fault)) => return Err(ServeEnd::Malformed(fault)),
        Err(Refused::NoMemory) => return Err(ServeEnd::NoMemory),
    };
    drop(frame);
    let replies = plan_replies(alloc, index, served, msg)?;
    send_replies(alloc, index, conn, served, &replies)
}

// What is kept of a connection: the bytes that wait for the rest of their frame, what is known of the peer, and how
// many frames may still come.
#[derive(Drop)]
struct Session {
    framer: Framer,
    served: Serving,
    left: u32,
}

// Takes the next whole frame, if one waits.
fn next_frame(framer: &mut Framer) -> Result<Option<Frame>, ServeEnd>
    ensures { FindsFrame result framer.old framer.new }
{
    match framer.next() {
        Ok(frame) => Ok(frame),
        Err(Refused::No(fault)) => Err(ServeEnd::BadFrame(fault)),
        Err(Refused::NoMemory) => Err(ServeEnd::NoMemory),
    }
}

// Takes and answers the whole frames that wait.
fn take_frames<C: Duplex>(
    alloc: Global,
    index: &Index,
    conn: &mut C,
    session: &mut Session,
) -> Result<(), ServeEnd>
    requires { 1 ≤ session.old.left }
    ensures takes { TakesFrames result index.now session.old.left session.new.left session.old.framer session.new.framer
        session.old.served session.new.served (C.written conn.old) (C.written conn.new) }
    ensures idles { OnOk result (Idles session.old.left session.new.left session.old.framer session.new.framer) }
    ensures inside { IfErr result ComesInside }
    ensures count { CountsWrites result (C.Sink.faults conn.old) (C.Sink.faults conn.new) }
    ensures left { C.left conn.new ≡ C.left conn.old }
    ensures ended { C.ended conn.new ≡ C.ended conn.old }
    ensures read_faults { C.Source.faults conn.new ≡ C.Source.faults conn.old }
{
    while let Some(frame) = next_frame(&mut session.framer)? {
        answer_frame(alloc, index, conn, &mut session.served, frame)?;
        session.left -= 1;
        if session.left == 0 {
            return Err(ServeEnd::Tired);
        }
    }
    Ok(())
}

// Takes the next piece of the connection's bytes.
fn take_piece<C: Duplex>(
    alloc: Global,
    index: &Index,
    conn: &mut C,
    session: &mut Session,
    piece: &[u8],
) -> Result<(), ServeEnd>
    requires { 1 ≤ session.old.left }
    ensures takes { TakesFrames result index.now session.old.left session.new.left (session.old.framer ++ piece.now)
        session.new.framer session.old.served session.new.served (C.written conn.old) (C.written conn.new) }
    ensures idles { OnOk result
        (Idles session.old.left session.new.left (session.old.framer ++ piece.now) session.new.framer) }
    ensures inside { IfErr result ComesInside }
    ensures count { CountsWrites result (C.Sink.faults conn.old) (C.Sink.faults conn.new) }
    ensures left { C.left conn.new ≡ C.left conn.old }
    ensures ended { C.ended conn.new ≡ C.ended conn.old }
    ensures read_faults { C.Source.faults conn.new ≡ C.Source.faults conn.old }
{
    session.framer.feed(piece)?;
    take_frames(alloc, index, conn, session)
}

/// Serves a connection: reads its bytes, and writes the replies to its messages in their order, until the source of
/// bytes ends, the bytes are at fault, reading or writing fails, or 1,000,000 frames were taken. A last frame that is
/// cut off is passed over. What was read is answered before more is read.
pub fn serve_one<C: Duplex>(
    alloc: Global,
    index: &Index,
    conn: &mut C,
    moment: i64,
    nonce: u64,
) -> ServeEnd
    ensures served { IfSome (C.left conn.old) (λ bytes. IsServed moment nonce index.now result bytes (C.left conn.new)
        (C.written conn.old) (C.written conn.new)) }
    ensures in_turn { IfSome (C.left conn.old) (λ bytes. AnswersFirst C.left C.written
        (owed_for moment nonce index.now) bytes (C.written conn.old) (C.left conn.new)) }
    ensures ends { Ends result (C.ended conn.new) (C.left conn.new) }
    ensures counts { Counts result (C.Source.faults conn.old) (C.Source.faults conn.new) (C.Sink.faults conn.old)
        (C.Sink.faults conn.new) }
{
    let mut session = Session {
        framer: Framer::new(alloc),
        served: Serving::new(moment, nonce),
        left: MOST_FRAMES,
    };
    let mut piece = [0u8; PIECE];
    loop {
        let n = match conn.receive(&mut piece) {
            Ok(0) => return ServeEnd::Closed,
            Ok(n) => n,
            Err(_) => return ServeEnd::ReadFault,
        };
        if let Err(outcome) = take_piece(alloc, index, conn, &mut session, &piece[..n]) {
            return outcome;
        }
    }
}
