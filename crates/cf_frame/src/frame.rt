//! A frame, and its spelling: magic, command, length of the payload (low byte first), the first four bytes of
//! the payload's double SHA-256, payload (Bitcoin developer reference, "Message headers").
ghost use Rattle.std.specs.Prelude.{◌≡◌, ◌≤◌, IfOk, length, true};
ghost use Rattle.cf_frame.specs.Frame.{IsFrame, checksum as checksum_of, is_command, spelling};

use cf_bytes::{Fault, Listed, MAGIC, NoMemory, double_hash};
use std::alloc::Global;
use thiserror::Error;

/// The most bytes that a payload may have.
pub(crate) const MAX_PAYLOAD: usize = 4_000_000;

/// Why no frame can be read. The header is judged once its 24 bytes are there, in this order, and the
/// checksum once the payload is.
#[derive(Clone, Copy, Debug, PartialEq, Eq, Error)]
pub enum FrameFault {
    /// Other bytes stand in the magic's place.
    #[error("a frame begins with other bytes than the magic")]
    Magic = 1,
    /// The command isn't printable characters and then NULs.
    #[error("a command isn't printable characters and then zeros")]
    Command = 2,
    /// The payload's length is above 4,000,000.
    #[error("a payload is longer than 4000000 bytes")]
    Oversize = 3,
    /// The payload has another checksum.
    #[error("a payload has another checksum")]
    Checksum = 4,
}

impl Fault for FrameFault {}

/// The bytes of a message, at most 4,000,000 where they came in a frame.
pub type Payload = Listed<u8>;

/// A message of the protocol, as its command and its bytes. The command is printable characters, filled up
/// with NULs.
#[derive(Drop, Debug)]
pub struct Frame {
    pub command: [u8; 12],
    pub payload: Payload,
}

/// The first four bytes of the payload's hash.
pub(crate) fn checksum(payload: &[u8]) -> [u8; 4]
    ensures { result ≡ checksum_of payload.now }
{
    let [a, b, c, d, ..] = double_hash(payload).0;
    [a, b, c, d]
}

/// The one spelling of a frame. The command is printable characters and then NULs, the payload has at most
/// 4,000,000 bytes.
#[tactic(auto, unfolding(crate::specs::Frame::spelling))]
pub fn encode(alloc: Global, command: &[u8; 12], payload: &[u8]) -> Result<Vec<u8>, NoMemory>
    requires command { is_command command.now ≡ true }
    requires payload { length payload.now ≤ 4000000 }
    ensures { IfOk result (λ bytes. bytes.items ≡ spelling (record { command = command.now; payload = payload.now })) }
{
    let mut out = Vec::with_capacity(alloc, 24 + payload.len())?;
    out.extend_from_slice(&MAGIC)?;
    out.extend_from_slice(command)?;
    out.extend_from_slice(&(payload.len() as u32).to_le_bytes())?;
    out.extend_from_slice(&checksum(payload))?;
    out.extend_from_slice(payload)?;
    Ok(out)
}
