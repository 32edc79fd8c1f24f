//! The next bytes of a source, which can be looked at before they are taken.
ghost use Rattle.std.specs.Prelude.{◌≡◌, ◌⊎◌, ◌+◌, ◌≤◌, ◌<◌, nat_lt, true, false, [], length, drop, vec_len, OnOk, OnErr, IfOk, IfSome};
ghost use Rattle.cf_conn.specs.Source.{with_front};
ghost use Rattle.cf_conn.specs.Steps.{Steps};
ghost use Rattle.cf_conn.specs.Window.{CountsReads, IsOver, IsThere, beyond};

use crate::reading::ReadFail;
use crate::source::Source;
use std::alloc::Global;
use std::marker::Model;

/// The bytes of a source that were read and not taken, and how many may still be read. It doesn't hold the source: each
/// call that reads is lent it, so that who lends it knows afterwards what it stands on.
#[derive(Drop)]
pub struct Window {
    held: Vec<u8>,
    // The bytes before this place were taken. They are no more than those that are held.
    start: usize,
    room: usize,
}

impl Model for Window {
    ghost use Rattle.std.specs.Prelude.{drop, vec_len, ◌+◌, ◌≤◌};
    ghost use Rattle.cf_conn.specs.Window.{Pane};

    ghost Value = { Pane };

    ghost view = { λ w. record { held = drop w.start w.held.items; room = w.room } };

    ghost invariant = { λ w. w.start + w.start ≤ vec_len w.held };
}

impl Window {
    /// Nothing was read; at most so many bytes may be.
    pub fn new(alloc: Global, most: usize) -> Window
        ensures { result ≡ record { held = []; room = most } }
    {
        Window {
            held: Vec::new(alloc),
            start: 0,
            room: most,
        }
    }

    /// The bytes that were read and not taken, lent.
    pub fn held(&self) -> &[u8]
        ensures { result.now ≡ self.now.held }
    {
        &self.held[self.start..]
    }

    /// Takes so many of them.
    pub fn take(&mut self, n: usize)
        requires { n ≤ length self.old.held }
        ensures { self.new ≡ record self.old { held = drop n self.old.held } }
    {
        self.start = let_go(&mut self.held, self.start + n);
    }

    // Reads one piece more, and answers how many bytes it has: at most 65,536.
    fn more<S: Source>(&mut self, source: &mut S) -> Result<usize, ReadFail>
        ensures same { with_front self.new.held (S.left source.new) ≡ with_front self.old.held (S.left source.old) }
        ensures grown { IfOk result (λ k. length self.new.held ≡ length self.old.held + k) }
        ensures room { IfOk result (λ k. self.new.room + k ≡ self.old.room) }
        ensures end { IfOk result (λ k. 0 < self.old.room → k ≡ 0 → IfSome (S.left source.new) (λ l. l ≡ [])) }
        ensures err { OnErr result (self.new.held ≡ self.old.held) }
        ensures kept { OnErr result (self.new.room ≡ self.old.room) }
        ensures count { CountsReads result (S.faults source.old) (S.faults source.new) }
        ensures steps { S.reads source.old source.new ⊎ (source.new ≡ source.old) }
        ensures piece { IfOk result (λ k. k ≤ 65536) }
    {
        let mut piece = [0u8; 65_536];
        let most = self.room.min(piece.len());
        self.held.reserve(most)?;
        let k = source.read(&mut piece[..most])?;
        self.held.extend_from_slice(&piece[..k]).unwrap();
        self.room -= k;
        Ok(k)
    }

    /// Reads on until n bytes are held, or no more come. Nothing is taken. Of what is read, fewer than n + 65,536 bytes
    /// are held at once.
    #[tactic(auto, using(crate::proofs::Stepping::steps))]
    pub fn want<S: Source>(&mut self, source: &mut S, n: usize) -> Result<(), ReadFail>
        ensures same { with_front self.new.held (S.left source.new) ≡ with_front self.old.held (S.left source.old) }
        ensures bound { length self.new.held + self.new.room ≡ length self.old.held + self.old.room }
        ensures enough { OnOk result (IsThere n self.new (S.left source.new)) }
        ensures count { CountsReads result (S.faults source.old) (S.faults source.new) }
        ensures steps { Steps S.reads source.old source.new }
        ensures few { (length self.new.held ≤ length self.old.held) ⊎ (length self.new.held < n + 65536) }
    {
        while self.held().len() < n && self.room > 0 {
            if self.more(source)? == 0 {
                return Ok(());
            }
        }
        Ok(())
    }

    /// Whether the source gives another byte than those that count, where none of these is still to be read. The byte
    /// is lost.
    pub fn has_more<S: Source>(&self, source: &mut S) -> Result<bool, ReadFail>
        requires { IsOver self.now (S.left source.old) }
        ensures exact { IfOk result
            (λ more. IfSome (beyond self.now (S.left source.old)) (λ bytes. more ≡ nat_lt 0 (length bytes))) }
        ensures ended { IfOk result (λ more. more ≡ false → S.ended source.new ≡ true) }
        ensures count { CountsReads result (S.faults source.old) (S.faults source.new) }
        ensures step { S.reads source.old source.new }
    {
        let mut byte = [0u8; 1];
        let n = source.read(&mut byte)?;
        Ok(n > 0)
    }
}

// The bytes before this place were taken: the place where those that are held begin then is answered. The taken ones
// are let go once they are at least as many as those that are held, so each byte is moved at most once on average.
fn let_go(held: &mut Vec<u8>, start: usize) -> usize
    requires { start ≤ vec_len held.old }
    ensures same { drop result held.new.items ≡ drop start held.old.items }
    ensures few { result + result ≤ vec_len held.new }
{
    if start >= held.len() - start {
        drop(held.drain(..start));
        return 0;
    }
    start
}
