//! Frames from a stream that comes in pieces.
ghost use Rattle.std.specs.Prelude.{◌≡◌, ◌++◌, ◌+◌, ◌≤◌, [], length, take, drop, vec_len, OnOk, OnErr, IfOk, IfSome};
ghost use Rattle.cf_frame.specs.Reading.{Begins, Gives};
ghost use Rattle.cf_frame.specs.Lending.{HasFrame, IsEndOf, IsFilled, Lends, Takes, after_frame, lacks as lacks_of};

use crate::frame::{Frame, FrameFault, Payload, checksum};
use crate::header::read_header;
use cf_bytes::{Cut, NoMemory, Refused};
use std::alloc::Global;
use std::marker::Model;

/// How many bytes of room are kept at most once a frame was given. More is kept only for bytes that wait.
const MOST_ROOM: usize = 65_536;

/// A stream that comes in pieces. A contract sees the bytes that were fed and not yet given as frames.
#[derive(Drop)]
pub struct Framer {
    alloc: Global,
    bytes: Vec<u8>,
    // The bytes before this place were given. They are no more than those that wait.
    start: usize,
}

impl Model for Framer {
    ghost use Rattle.std.specs.Prelude.{ℕ, List, drop, vec_len, ◌+◌, ◌≤◌};

    ghost Value = { List ℕ };

    ghost view = { λ f. drop f.start f.bytes.items };

    ghost invariant = { λ f. f.start + f.start ≤ vec_len f.bytes };
}

/// A frame that is lent out of a framer's own bytes. A contract sees it as a frame.
#[derive(Drop)]
pub struct Lent<'a> {
    pub command: [u8; 12],
    pub payload: &'a [u8],
}

impl<'a> Model for Lent<'a> {
    ghost use Rattle.cf_frame.specs.declared.frame.Frame.{Frame};

    ghost Value = { Frame };

    ghost view = { λ l. record { command = l.command; payload = l.payload.now } };
}

impl Framer {
    /// A framer to which nothing was fed.
    pub fn new(alloc: Global) -> Framer
        ensures { result ≡ [] }
    {
        Framer {
            alloc,
            bytes: Vec::new(alloc),
            start: 0,
        }
    }

    /// How many bytes were fed and not yet given as frames.
    pub fn len(&self) -> usize
        ensures { result ≡ length self.now }
    {
        self.bytes[self.start..].len()
    }

    /// Takes the next piece of the stream.
    pub fn feed(&mut self, piece: &[u8]) -> Result<(), NoMemory>
        ensures ok { OnOk result (self.new ≡ self.old ++ piece.now) }
        ensures err { OnErr result (self.new ≡ self.old) }
    {
        self.bytes.extend_from_slice(piece)?;
        Ok(())
    }

    // How many bytes lack until the header stands there, or until its payload does.
    #[tactic(auto, unfolding(crate::specs::Lending::lacks))]
    fn lacks(&self) -> usize
        ensures { result ≡ lacks_of self.now }
    {
        let waits = &self.bytes[self.start..];
        let mut cut = Cut::new(waits);
        let Ok(header) = read_header(&mut cut) else {
            return 24_usize.saturating_sub(waits.len());
        };
        if header.fault().is_some() {
            return 0;
        }
        (header.len as usize).saturating_sub(cut.rest().len())
    }

    /// Takes bytes of the piece up to the end of the frame that is being read, and answers how many. It takes none
    /// exactly where the piece is empty, a whole frame waits, or the bytes that wait are at fault. Memory is taken
    /// for the bytes that came, and for none that a header promises. Where no memory is found nothing changes.
    pub fn fill(&mut self, piece: &[u8]) -> Result<usize, NoMemory>
        ensures filled { IfOk result (λ n. IsFilled self.old piece.now n) }
        ensures ok { IfOk result (λ n. self.new ≡ self.old ++ take n piece.now) }
        ensures err { OnErr result (self.new ≡ self.old) }
    {
        let held = self.bytes.len();
        let head = self.lacks().min(piece.len());
        let (first, others) = piece.split_at(head);
        self.bytes.extend_from_slice(first)?;
        let body = self.lacks().min(others.len());
        match self.bytes.extend_from_slice(&others[..body]) {
            Ok(()) => Ok(head + body),
            Err(_) => {
                self.bytes.truncate(held);
                Err(NoMemory)
            }
        }
    }

    /// The frame at the front of the bytes that wait, lent, or `None` where no whole frame stands there and they
    /// aren't at fault. Nothing is taken: until `done` the same frame is lent again. A fault is the same for good.
    pub fn next_lent(&self) -> Result<Option<Lent<'_>>, FrameFault>
        ensures exact { Lends result self.now }
        ensures waits { IfOk result (λ o. IfSome o (λ f. HasFrame self.now)) }
        ensures found { IfOk result (λ o. IfSome o (λ f. Begins self.now f (after_frame self.now))) }
    {
        let mut cut = Cut::new(&self.bytes[self.start..]);
        take_frame(&mut cut)
    }

    /// Drops the frame that was lent. A whole frame waits.
    pub fn done(&mut self)
        requires { HasFrame self.old }
        ensures { self.new ≡ after_frame self.old }
    {
        let left = behind_frame(&self.bytes[self.start..]).len();
        let given = self.bytes.len() - left;
        self.start = let_go(&mut self.bytes, given);
    }

    /// The next frame, or `None` where the bytes that wait begin with no whole frame and aren't at fault.
    /// A fault is the same for good, whatever is fed. Where no memory is found nothing changes.
    pub fn next(&mut self) -> Result<Option<Frame>, Refused<FrameFault>>
        ensures exact { Gives result self.old self.new }
        ensures found { IfOk result (λ o. IfSome o (λ f. Begins self.old f self.new)) }
    {
        let Some(lent) = self.next_lent()? else {
            return Ok(None);
        };
        let payload = Payload::from_vec(Vec::from_slice(self.alloc, lent.payload)?);
        let command = lent.command;
        self.done();
        Ok(Some(Frame { command, payload }))
    }
}

// The bytes before this place were given: the place where those that wait begin then is answered. The given ones are
// let go once they are at least as many as those that wait, so each byte is moved at most once on average, and so is the
// room that a large frame took.
fn let_go(bytes: &mut Vec<u8>, start: usize) -> usize
    requires { start ≤ vec_len bytes.old }
    ensures same { drop result bytes.new.items ≡ drop start bytes.old.items }
    ensures few { result + result ≤ vec_len bytes.new }
{
    if start >= bytes.len() - start {
        drop(bytes.drain(..start));
        bytes.shrink_to(MOST_ROOM);
        return 0;
    }
    start
}

// The frame at the front of the bytes, which is taken from them and lent.
#[tactic(auto, unfolding(crate::specs::Reading::front_of))]
fn take_frame<'a>(cut: &mut Cut<'a>) -> Result<Option<Lent<'a>>, FrameFault>
    ensures exact { Takes result cut.old cut.new }
    ensures found { IfOk result (λ o. IfSome o (λ f. Begins cut.old f cut.new)) }
{
    let Ok(header) = read_header(cut) else {
        return Ok(None);
    };
    if let Some(fault) = header.fault() {
        return Err(fault);
    }
    let Ok(payload) = cut.bytes(header.len as usize) else {
        return Ok(None);
    };
    if header.checksum != checksum(payload) {
        return Err(FrameFault::Checksum);
    }
    let command = header.command;
    Ok(Some(Lent { command, payload }))
}

// The bytes after the frame at their front, whose payload isn't hashed again.
#[tactic(auto, unfolding(crate::specs::Reading::front_of))]
fn behind_frame(bytes: &[u8]) -> &[u8]
    requires { HasFrame bytes.now }
    ensures after { result.now ≡ after_frame bytes.now }
    ensures ends { IsEndOf bytes.now result.now }
{
    let mut cut = Cut::new(bytes);
    let Ok(header) = read_header(&mut cut) else {
        return bytes;
    };
    let Ok(_) = cut.bytes(header.len as usize) else {
        return bytes;
    };
    cut.rest()
}
