//! The writers of the peers, by their numbers.
ghost use Rattle.std.specs.Prelude.{◌≡◌, ◌<◌, ◌≤◌, ℕ, List, Bool, true, false, IfNone, IfSome, OnOk, OnErr, Result, length, slice_index_or, take, vec_capacity, vec_len};
ghost use Rattle.cf_bytes.specs.{HasRisen, with_more};
ghost use Rattle.cf_hub.specs.Over.{connections};
ghost use Rattle.cf_hub.specs.Writers.{faults_in, texts, Adds, AreOpen, Shuts};

use cf_bytes::{Failed, PeerNo};
use cf_outside::Writer;

// Writes all the bytes. Where the writer fails, it has got the first of them.
#[tactic(auto, using(crate::proofs::Sent::sends, std::proofs::lemmas::Grind::common_steps))]
fn write_all<W: Writer>(writer: &mut W, bytes: &[u8]) -> Result<(), Failed>
    ensures kept { OnOk result (W.faults writer.new ≡ W.faults writer.old) }
    ensures cause { OnErr result (HasRisen (W.faults writer.old) (W.faults writer.new)) }
    ensures later { W.faults writer.old ≤ W.faults writer.new }
    ensures shut { W.was_shut writer.new ≡ W.was_shut writer.old }
    ensures ok { OnOk result (W.written writer.new ≡ with_more (W.written writer.old) bytes.now) }
    ensures err { OnErr result ((n : ℕ) × (n ≤ length bytes.now)
        × (W.written writer.new ≡ with_more (W.written writer.old) (take n bytes.now))) }
{
    let mut sent = 0;
    while sent < bytes.len() {
        sent += writer.put(&bytes[sent..])?;
    }
    Ok(())
}

/// Writes bytes to the writer of a peer. `None` where it has none.
pub(crate) fn put_to<W: Writer>(
    writers: &mut Vec<Option<W>>,
    p: PeerNo,
    bytes: &[u8],
) -> Option<Result<(), Failed>>
    ensures len { vec_len writers.new ≡ vec_len writers.old }
    ensures capacity { vec_capacity writers.new ≡ vec_capacity writers.old }
    ensures none { IfNone result ((writers.new.items ≡ writers.old.items)
        × (slice_index_or (connections writers.old.items) p.0 false ≡ false)) }
    ensures ok { IfSome result
        (λ r. OnOk r ((faults_in W.faults writers.new.items ≡ faults_in W.faults writers.old.items)
        × Adds W.written W.was_shut p.0 bytes.now writers.old.items writers.new.items)) }
    ensures err { IfSome result
        (λ r. OnErr r (HasRisen (faults_in W.faults writers.old.items) (faults_in W.faults writers.new.items) × ((n : ℕ)
        × (n ≤ length bytes.now)
        × Adds W.written W.was_shut p.0 (take n bytes.now) writers.old.items writers.new.items))) }
    ensures later { faults_in W.faults writers.old.items ≤ faults_in W.faults writers.new.items }
    ensures there { connections writers.new.items ≡ connections writers.old.items }
    ensures unshut { (closed : List Bool) → AreOpen W.was_shut closed writers.old.items
        → AreOpen W.was_shut closed writers.new.items }
{
    let at = p.0 as usize;
    if at < writers.len() {
        if let Some(writer) = &mut writers[at] {
            return Some(write_all(writer, bytes));
        }
    }
    None
}

/// Shuts the connection to a peer, where it has a writer.
pub(crate) fn shut_at<W: Writer>(writers: &mut Vec<Option<W>>, p: PeerNo)
    ensures len { vec_len writers.new ≡ vec_len writers.old }
    ensures capacity { vec_capacity writers.new ≡ vec_capacity writers.old }
    ensures shut { Shuts W.written W.was_shut p.0 writers.old.items writers.new.items }
    ensures faults { faults_in W.faults writers.new.items ≡ faults_in W.faults writers.old.items }
    ensures there { connections writers.new.items ≡ connections writers.old.items }
    ensures written { texts W.written writers.new.items ≡ texts W.written writers.old.items }
    ensures unshut { (closed : List Bool) → slice_index_or closed p.0 false ≡ true
        → AreOpen W.was_shut closed writers.old.items → AreOpen W.was_shut closed writers.new.items }
{
    let at = p.0 as usize;
    if at < writers.len() {
        if let Some(writer) = &mut writers[at] {
            writer.shut();
        }
    }
}
