//! What the bytes of one send say.
ghost use Rattle.std.specs.Prelude.{◌≡◌, IfOk};
ghost use Rattle.cf_peer.specs.{spelled};
ghost use Rattle.cf_played.specs.Hearing.{IsWholeFrame};

use cf_bytes::{NoMemory, Refused};
use cf_frame::{Frame, Framer};
use cf_msg::{Msg, read};
use std::alloc::Global;

/// The bytes of a frame before its payload.
const HEADER: usize = 24;

// The first frame of some bytes, where it is whole and no byte follows it.
fn whole_frame(alloc: Global, bytes: &[u8]) -> Result<Option<Frame>, NoMemory>
    ensures { IfOk result (λ frame. IsWholeFrame bytes.now frame) }
{
    let mut framer = Framer::new(alloc);
    framer.feed(bytes)?;
    match framer.next() {
        Ok(Some(frame)) => {
            if bytes.len() == HEADER + frame.payload.as_slice().len() {
                return Ok(Some(frame));
            }
            Ok(None)
        }
        Ok(None) => Ok(None),
        Err(Refused::No(_)) => Ok(None),
        Err(Refused::NoMemory) => Err(NoMemory),
    }
}

// The message that the bytes of one send spell, where they are one frame of a message and nothing more.
pub(crate) fn message_sent(alloc: Global, bytes: &[u8]) -> Result<Option<Msg>, NoMemory>
    ensures { IfOk result (λ m. m ≡ spelled bytes.now) }
{
    let Some(frame) = whole_frame(alloc, bytes)? else {
        return Ok(None);
    };
    match read(alloc, &frame) {
        Ok(msg) => Ok(Some(msg)),
        Err(Refused::No(_)) => Ok(None),
        Err(Refused::NoMemory) => Err(NoMemory),
    }
}
