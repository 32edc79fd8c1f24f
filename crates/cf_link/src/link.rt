//! Where connections come from, as a trait.
ghost use Rattle.std.specs.Prelude.{◌≡◌, ℕ, ◌+◌, ◌<◌, List, Option, [], ◌∷◌, IfOk, OnOk, OnErr};
ghost use Rattle.cf_bytes.specs.{HasRisen};
ghost use Rattle.cf_conn.specs.{ConnTold};
ghost use Rattle.cf_link.specs.Links.{Given, IsFresh, longer_by, told_now};

use crate::task::Observed;
use cf_bytes::{Failed, Hash32};
use cf_conn::Duplex;

/// Where connections come from. Each one that is accepted is given back once it was served.
pub trait Link {
    /// A connection.
    type Conn: Duplex + Observed + Drop;

    /// How often it has failed. The count stands still at the greatest u64.
    ghost faults: { Self → ℕ };
    /// The addresses at which it began to listen, in order, where they are told.
    ghost addresses: { Self → Option (List (List ℕ)) };
    /// How many connections were accepted.
    ghost accepted: { Self → ℕ };
    /// How many of them were not given back yet.
    ghost owed: { Self → ℕ };
    /// What each told as it was accepted, in order, where that is told.
    ghost conns: { Self → Option (List ConnTold) };
    /// What was given back, in order, where that is told.
    ghost given: { Self → Option (List Given) };

    /// Begins to listen at an address, `HOST:PORT` over TCP.
    fn listen(&mut self, address: &str) -> Result<(), Failed>
        ensures ok { OnOk result (addresses self.new ≡ longer_by (addresses self.old) (address.now ∷ [])) }
        ensures err { OnErr result (addresses self.new ≡ addresses self.old) }
        ensures kept { OnOk result (faults self.new ≡ faults self.old) }
        ensures cause { OnErr result (HasRisen (faults self.old) (faults self.new)) }
        ensures accepted { accepted self.new ≡ accepted self.old }
        ensures owed { owed self.new ≡ owed self.old }
        ensures conns { conns self.new ≡ conns self.old }
        ensures given { given self.new ≡ given self.old };

    /// Tells whoever watches the link the height and the hash of the last block of the chain that is served from now
    /// on. In what the link tells nothing changes.
    fn announce(&mut self, height: u32, tip: &Hash32)
        ensures faults { faults self.new ≡ faults self.old }
        ensures addresses { addresses self.new ≡ addresses self.old }
        ensures accepted { accepted self.new ≡ accepted self.old }
        ensures owed { owed self.new ≡ owed self.old }
        ensures conns { conns self.new ≡ conns self.old }
        ensures given { given self.new ≡ given self.old };

    /// Waits for the next connection. Nothing has passed it yet.
    fn accept(&mut self) -> Result<Self::Conn, Failed>
        ensures fresh { IfOk result (λ c. IsFresh (told_now Self.Conn.left Self.Conn.written Self.Conn.ended
            Self.Conn.Source.faults Self.Conn.Sink.faults c)) }
        ensures ok { IfOk result (λ c. conns self.new ≡ longer_by (conns self.old) (told_now Self.Conn.left
            Self.Conn.written Self.Conn.ended Self.Conn.Source.faults Self.Conn.Sink.faults c ∷ [])) }
        ensures count { OnOk result ((accepted self.new ≡ accepted self.old + 1)
            × (owed self.new ≡ owed self.old + 1)) }
        ensures err { OnErr result ((conns self.new ≡ conns self.old) × (accepted self.new ≡ accepted self.old)
            × (owed self.new ≡ owed self.old)) }
        ensures kept { OnOk result (faults self.new ≡ faults self.old) }
        ensures cause { OnErr result (HasRisen (faults self.old) (faults self.new)) }
        ensures addresses { addresses self.new ≡ addresses self.old }
        ensures given { given self.new ≡ given self.old };

    /// Waits a moment, so that the system may get what it lacked. In what the link tells nothing changes.
    fn pause(&mut self)
        ensures faults { faults self.new ≡ faults self.old }
        ensures addresses { addresses self.new ≡ addresses self.old }
        ensures accepted { accepted self.new ≡ accepted self.old }
        ensures owed { owed self.new ≡ owed self.old }
        ensures conns { conns self.new ≡ conns self.old }
        ensures given { given self.new ≡ given self.old };

    /// Takes back what stays of a connection that was accepted, and the number of the way in which it ended.
    fn give_back(&mut self, end: <Self::Conn as Duplex>::End, how: u8)
        requires { 0 < owed self.old }
        ensures given { given self.new
            ≡ longer_by (given self.old) (record { end = Self.Conn.tells end; how = how } ∷ []) }
        ensures owed { owed self.new + 1 ≡ owed self.old }
        ensures faults { faults self.new ≡ faults self.old }
        ensures addresses { addresses self.new ≡ addresses self.old }
        ensures accepted { accepted self.new ≡ accepted self.old }
        ensures conns { conns self.new ≡ conns self.old };
}
