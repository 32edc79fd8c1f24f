//! Sending all of some bytes.
ghost use Rattle.std.specs.Prelude.{◌≡◌, ℕ, ◌≤◌, length, take, OnOk, OnErr};
ghost use Rattle.cf_bytes.specs.{HasRisen, with_more, WritesAll};

use crate::duplex::Duplex;
use cf_bytes::Failed;

/// Sends all the bytes by calls of `send`, each of which gets all that is left. It fails at the first call
/// that fails; the connection has then got the first of the bytes.
#[tactic(auto, using(cf_bytes::proofs::Sent::sends, std::proofs::lemmas::Grind::common_steps))]
pub fn send_all<C: Duplex>(conn: &mut C, bytes: &[u8]) -> Result<(), Failed>
    ensures ok { OnOk result (C.written conn.new ≡ with_more (C.written conn.old) bytes.now) }
    ensures err { OnErr result ((n : ℕ) × (n ≤ length bytes.now)
        × (C.written conn.new ≡ with_more (C.written conn.old) (take n bytes.now))) }
    ensures kept { OnOk result (C.Sink.faults conn.new ≡ C.Sink.faults conn.old) }
    ensures cause { OnErr result (HasRisen (C.Sink.faults conn.old) (C.Sink.faults conn.new)) }
    ensures left { C.left conn.new ≡ C.left conn.old }
    ensures ended { C.ended conn.new ≡ C.ended conn.old }
    ensures read_faults { C.Source.faults conn.new ≡ C.Source.faults conn.old }
    ensures exact { WritesAll C.writes bytes.now conn.old result conn.new }
{
    let mut sent = 0;
    while sent < bytes.len() {
        sent += conn.send(&bytes[sent..])?;
    }
    Ok(())
}
