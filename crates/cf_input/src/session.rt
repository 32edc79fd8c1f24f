//! Session files: the dials of a run, and then what is delivered.
ghost use Rattle.std.specs.Prelude.{◌≡◌, ◌+◌, ◌<◌, ◌≤◌, ◌^◌, true, ◌++◌, ◌∷◌, [], length, map, string_bytes, IfOk, OnOk, option_map};
ghost use Rattle.std.specs.List.{list_all};
ghost use Rattle.cf_wires.specs.{is_real};
ghost use Rattle.cf_input.specs.Lines.{GivesRead, GivesAfter};
ghost use Rattle.cf_input.specs.Name.{is_name};
ghost use Rattle.cf_bytes.specs.{most_peers};
ghost use Rattle.cf_input.specs.SessionFile.{answer_of, dial_of, peer_of, got_of, gone_of, tick_of, delivery_of, with_line, line_after, lines_in, session_of};
ghost use Rattle.cf_input.specs.Sessions.{script_in, AddsLine, AreNamed};

use crate::lines::{cut_at, read_hex};
use crate::number::{is_number, number_within};
use crate::text::is_name;
use cf_bytes::{MOST_PEERS, NoMemory, PeerNo, Refused};
use cf_wires::{Delivery, Dial, Name, Piece};
use std::alloc::Global;
use thiserror::Error;

/// The greatest number of seconds in a tick.
pub const MOST_SECONDS: u32 = 86_400;

/// Why a line can't stand in a session file.
#[derive(Clone, Copy, Debug, PartialEq, Eq, Error)]
pub enum SessionCause {
    /// The first line is no dial line, or there is no line.
    #[error("the first line is no dial line")]
    NoDial,
    /// It is a ninth dial line.
    #[error("there are too many dial lines")]
    ManyDials,
    /// A dial line stands after a delivery.
    #[error("a dial line stands after a delivery")]
    Late,
    /// The peer's number is 0, or above the number of dial lines.
    #[error("there is no such peer")]
    NoPeer,
    /// The line has another form.
    #[error("the line has no form of a session")]
    BadLine,
}

/// The first line that is refused, counted from 1.
#[derive(Clone, Copy, Debug, PartialEq, Eq, Error)]
#[error("line {place}: {cause}")]
pub struct SessionFault {
    pub cause: SessionCause,
    pub place: u32,
}

/// The dials of a run, their names as texts too, and then what is delivered.
#[derive(Drop)]
pub struct Session {
    pub names: Vec<String>,
    pub dials: Vec<Dial>,
    pub deliveries: Vec<Delivery>,
}

// Whether a dial line says that the peer answers, by its first word.
fn read_answer(word: &[u8]) -> Option<bool>
    ensures { result ≡ answer_of word.now }
{
    if word == b"dial".as_slice() {
        return Some(true);
    }
    if word == b"nodial".as_slice() {
        return Some(false);
    }
    None
}

// The name of a dial line, and whether the peer answers.
fn read_dial(line: &[u8]) -> Option<(&[u8], bool)>
    ensures { option_map (λ p. record { name = p.0.now; answered = p.1 }) result ≡ dial_of line.now }
{
    let (word, name) = cut_at(line, b' ');
    let answered = read_answer(word)?;
    if !is_name(name) {
        return None;
    }
    Some((name, answered))
}

// The number of one of so many peers.
fn read_peer(text: &[u8], dials: u32) -> Result<PeerNo, SessionCause>
    ensures { result ≡ peer_of dials text.now }
{
    if !is_number(text) {
        return Err(SessionCause::BadLine);
    }
    match number_within(text, dials) {
        Some(number) => Ok(PeerNo(number)),
        None => Err(SessionCause::NoPeer),
    }
}

fn read_got(alloc: Global, rest: &[u8], dials: u32) -> Result<Delivery, Refused<SessionCause>>
    ensures exact { GivesRead (λ d. d) (got_of dials rest.now) result }
    ensures real { IfOk result (λ d. is_real d ≡ true) }
{
    let (peer, text) = cut_at(rest, b' ');
    let Some(bytes) = read_hex(alloc, text)? else {
        return Err(Refused::No(SessionCause::BadLine));
    };
    if bytes.is_empty() {
        return Err(Refused::No(SessionCause::BadLine));
    }
    let peer = read_peer(peer, dials).map_err(Refused::No)?;
    Ok(Delivery::Got(peer, Piece::from_vec(bytes)))
}

fn read_gone(rest: &[u8], dials: u32) -> Result<Delivery, SessionCause>
    ensures exact { result ≡ gone_of dials rest.now }
    ensures real { IfOk result (λ d. is_real d ≡ true) }
{
    let peer = read_peer(rest, dials)?;
    Ok(Delivery::Gone(peer))
}

fn read_tick(rest: &[u8]) -> Result<Delivery, SessionCause>
    ensures exact { result ≡ tick_of rest.now }
    ensures real { IfOk result (λ d. is_real d ≡ true) }
{
    match number_within(rest, MOST_SECONDS) {
        Some(seconds) => Ok(Delivery::Tick(seconds)),
        None => Err(SessionCause::BadLine),
    }
}

// The delivery of a line, after so many dials.
fn read_delivery(alloc: Global, line: &[u8], dials: u32) -> Result<Delivery, Refused<SessionCause>>
    ensures exact { GivesRead (λ d. d) (delivery_of dials line.now) result }
    ensures real { IfOk result (λ d. is_real d ≡ true) }
{
    let (word, rest) = cut_at(line, b' ');
    if word == b"got".as_slice() {
        return read_got(alloc, rest, dials);
    }
    if word == b"gone".as_slice() {
        return read_gone(rest, dials).map_err(Refused::No);
    }
    if word == b"tick".as_slice() {
        return read_tick(rest).map_err(Refused::No);
    }
    Err(Refused::No(SessionCause::BadLine))
}

// The text of a name.
fn text_of(alloc: Global, name: &[u8]) -> Result<String, NoMemory>
    requires { is_name name.now ≡ true }
    ensures { IfOk result (λ text. string_bytes text ≡ name.now) }
{
    let text = str::from_utf8(name).unwrap();
    Ok(String::from_str(alloc, text)?)
}

// One dial more.
fn add_dial(
    alloc: Global,
    session: &mut Session,
    name: &[u8],
    answered: bool,
) -> Result<(), NoMemory>
    requires { is_name name.now ≡ true }
    ensures dials { OnOk result
        (session.new.dials.items ≡ session.old.dials.items ++ record { name = name.now; answered = answered } ∷ []) }
    ensures names { OnOk result
        (map string_bytes session.new.names.items ≡ map string_bytes session.old.names.items ++ name.now ∷ []) }
    ensures same { OnOk result (session.new.deliveries.items ≡ session.old.deliveries.items) }
{
    let text = text_of(alloc, name)?;
    let name = Name::from_text(alloc, text.as_str())?;
    session.names.push(text)?;
    session.dials.push(Dial { name, answered })?;
    Ok(())
}

// One line more: a dial, or a delivery.
fn take_line(alloc: Global, session: &mut Session, line: &[u8]) -> Result<(), Refused<SessionCause>>
    requires { length session.old.dials.items ≤ most_peers }
    ensures exact { GivesAfter (with_line (script_in session.old) line.now) result (script_in session.new) }
    ensures adds { OnOk result (AddsLine session.old session.new) }
{
    let dials = session.dials.len() as u32;
    if let Some((name, answered)) = read_dial(line) {
        if !session.deliveries.is_empty() {
            return Err(Refused::No(SessionCause::Late));
        }
        if dials >= MOST_PEERS as u32 {
            return Err(Refused::No(SessionCause::ManyDials));
        }
        add_dial(alloc, session, name, answered)?;
        return Ok(());
    }
    if session.dials.is_empty() {
        return Err(Refused::No(SessionCause::NoDial));
    }
    let delivery = read_delivery(alloc, line, dials)?;
    session.deliveries.push(delivery)?;
    Ok(())
}

// One line more, with its number.
fn add_line(alloc: Global, session: &mut Session, line: &[u8]) -> Result<(), Refused<SessionFault>>
    requires few { length session.old.dials.items ≤ most_peers }
    requires fits { lines_in (script_in session.old) + 1 < 2 ^ 32 }
    ensures exact { GivesAfter (line_after (script_in session.old) line.now) result (script_in session.new) }
    ensures adds { OnOk result (AddsLine session.old session.new) }
{
    let place = (session.dials.len() + session.deliveries.len()) as u32 + 1;
    match take_line(alloc, session, line) {
        Ok(()) => Ok(()),
        Err(Refused::No(cause)) => Err(Refused::No(SessionFault { cause, place })),
        Err(Refused::NoMemory) => Err(Refused::NoMemory),
    }
}

/// The session of a file of fewer than 2^32 bytes, or the first line that is refused. Lines end
/// with LF, which the last may lack. First come 1 to 8 lines `dial NAME` or `nodial NAME`, then
/// lines `got P HEX`, `gone P` or `tick SECONDS` in any number, P being the number of a dial line
/// counted from 1; numbers are decimal without leading zeros, and one space stands between the
/// parts.
pub fn read_session(alloc: Global, bytes: &[u8]) -> Result<Session, Refused<SessionFault>>
    requires { length bytes.now < 2 ^ 32 }
    ensures exact { GivesRead script_in (session_of bytes.now) result }
    ensures named { IfOk result AreNamed }
    ensures few { IfOk result (λ s. length s.dials.items ≤ most_peers) }
    ensures real { IfOk result (λ s. list_all is_real s.deliveries.items ≡ true) }
{
    let mut session = Session {
        names: Vec::new(alloc),
        dials: Vec::new(alloc),
        deliveries: Vec::new(alloc),
    };
    let mut rest = bytes;
    while !rest.is_empty() {
        let (line, after) = cut_at(rest, b'\n');
        add_line(alloc, &mut session, line)?;
        rest = after;
    }
    if session.dials.is_empty() {
        let cause = SessionCause::NoDial;
        return Err(Refused::No(SessionFault { cause, place: 1 }));
    }
    Ok(session)
}
