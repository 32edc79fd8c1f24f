//! The outside of a client: peers that are dialled, sent to, closed and heard.
ghost use Rattle.std.specs.Prelude.{◌≡◌, ℕ, Bool, ◌+◌, ◌<◌, ◌≤◌, List, Option, [], IfOk, OnOk, OnErr, IfSome, IsSome, IsErrOf, true, false, string_bytes};
ghost use Rattle.cf_bytes.specs.declared.peer.PeerNo.{PeerNo};
ghost use Rattle.cf_wires.specs.declared.event.Event.TheVariants.{Dialled, NotDialled, Sent, SendFailed, Closed, Took};
ghost use Rattle.cf_wires.specs.declared.wires.WireFail.TheVariants.{NoMemory as WireNoMemory};
ghost use Rattle.cf_wires.specs.Log.{Told, Tells, tell, told_finished, was_closed};
ghost use Rattle.cf_wires.specs.Session.{session_text};
ghost use Rattle.cf_wires.specs.Wires.{HasCause, Made};

use crate::event::Delivery;
use cf_bytes::{NoMemory, PeerNo};
use std::alloc::{AllocError, AllocFailed};
use thiserror::Error;

/// Why a peer was not dialled, or nothing was sent to it.
#[derive(Clone, Copy, Debug, PartialEq, Eq, Error)]
pub enum WireFail {
    /// The outside failed, and its count of faults rose.
    #[error("the connection failed")]
    Failed,
    /// No memory was found.
    #[error("no memory")]
    NoMemory,
}

impl From<NoMemory> for WireFail {
    ghost from_gives = { λ _ e. e ≡ WireNoMemory };

    fn from(_e: NoMemory) -> WireFail {
        WireFail::NoMemory
    }
}

impl From<AllocError> for WireFail {
    ghost from_gives = { λ _ e. e ≡ WireNoMemory };

    fn from(_e: AllocError) -> WireFail {
        WireFail::NoMemory
    }
}

impl<T: Drop> From<AllocFailed<T>> for WireFail {
    ghost from_gives = { λ _ e. e ≡ WireNoMemory };

    fn from(_e: AllocFailed<T>) -> WireFail {
        WireFail::NoMemory
    }
}

/// Connections to peers, which are numbered from 1 in the order in which they are dialled.
pub trait Wires {
    /// The log, where it is told, the tally, and whether they are finished.
    ghost told: { Self → Told };
    /// How often the outside has failed. The count stands still at the greatest u64.
    ghost faults: { Self → ℕ };
    /// What they are made to give, and which calls are to fail, where that is told. No call changes it.
    ghost script: { Self → Option Made };
    /// Whether they were told to keep their log.
    ghost keeps: { Self → Bool };

    /// Makes the wires keep their log, of which `session` gives the lines. It is called before the first dial, and
    /// takes no memory.
    fn keep_log(&mut self)
        requires { Tells [] (told self.old) }
        ensures told { Tells [] (told self.new) }
        ensures log { IsSome (told self.new).log }
        ensures finished { (told self.new).finished ≡ (told self.old).finished }
        ensures keeps { keeps self.new ≡ true }
        ensures later { faults self.old ≤ faults self.new }
        ensures same { script self.new ≡ script self.old };

    /// Dials the next peer. At most eight are dialled, and none once the wires are finished. Where no memory is found
    /// nothing was dialled.
    fn dial(&mut self, name: &str) -> Result<PeerNo, WireFail>
        requires room { (told self.old).tally.dials < 8 }
        requires open { (told self.old).finished ≡ false }
        ensures dialled { IfOk result (λ p. (p.0 ≡ (told self.old).tally.dials + 1)
            × (told self.new ≡ tell (Dialled p name.now) (told self.old))) }
        ensures not_dialled { IsErrOf result WireFail.Failed → told self.new
            ≡ tell (NotDialled (record { 0 = (told self.old).tally.dials + 1 }) name.now) (told self.old) }
        ensures no_memory { IsErrOf result WireFail.NoMemory → told self.new ≡ told self.old }
        ensures cause { HasCause (faults self.old) (faults self.new) result }
        ensures keeps { keeps self.new ≡ keeps self.old }
        ensures same { script self.new ≡ script self.old };

    /// Sends bytes to a peer that was dialled. Where it fails none of them may be taken as sent, and where no memory is
    /// found none was sent.
    fn send(&mut self, p: PeerNo, bytes: &[u8]) -> Result<(), WireFail>
        requires { (told self.old).finished ≡ false }
        ensures sent { OnOk result (told self.new ≡ tell (Sent p bytes.now) (told self.old)) }
        ensures not_sent { IsErrOf result WireFail.Failed → told self.new ≡ tell (SendFailed p) (told self.old) }
        ensures no_memory { IsErrOf result WireFail.NoMemory → told self.new ≡ told self.old }
        ensures cause { HasCause (faults self.old) (faults self.new) result }
        ensures keeps { keeps self.new ≡ keeps self.old }
        ensures same { script self.new ≡ script self.old };

    /// Closes the connection to a peer, which was dialled and not closed before. It takes no memory.
    fn close(&mut self, p: PeerNo)
        requires dialled { p.0 ≤ 8 }
        requires once { was_closed (told self.old).tally p.0 ≡ false }
        requires open { (told self.old).finished ≡ false }
        ensures closed { told self.new ≡ tell (Closed p) (told self.old) }
        ensures later { faults self.old ≤ faults self.new }
        ensures keeps { keeps self.new ≡ keeps self.old }
        ensures same { script self.new ≡ script self.old };

    /// Takes the next delivery, of wires that are not finished. Where no memory is found none was taken.
    fn next(&mut self) -> Result<Delivery, NoMemory>
        requires open { (told self.old).finished ≡ false }
        ensures took { IfOk result (λ d. told self.new ≡ tell (Took d) (told self.old)) }
        ensures err { OnErr result (told self.new ≡ told self.old) }
        ensures later { faults self.old ≤ faults self.new }
        ensures keeps { keeps self.new ≡ keeps self.old }
        ensures same { script self.new ≡ script self.old };

    /// Ends the connections that are left. Nothing is taken after it. It is called once, and takes no memory.
    fn finish(&mut self)
        requires { (told self.old).finished ≡ false }
        ensures told { told self.new ≡ told_finished (told self.old) }
        ensures later { faults self.old ≤ faults self.new }
        ensures keeps { keeps self.new ≡ keeps self.old }
        ensures same { script self.new ≡ script self.old };

    /// The session lines of the log that is kept, the dial lines first; an empty text where none is kept. Each line
    /// ends with LF: `dial NAME` or `nodial NAME` for each dial, and then in the log's order `got P HEX`, `gone P` and
    /// `tick SECONDS`. A failed send is told as `gone P`.
    fn session(&self) -> Result<String, NoMemory>
        ensures unkept { IfOk result (λ text. keeps self.now ≡ false → string_bytes text ≡ []) }
        ensures kept { IfOk result (λ text. keeps self.now ≡ true
            → IfSome (told self.now).log (λ log. string_bytes text ≡ session_text log)) };
}
