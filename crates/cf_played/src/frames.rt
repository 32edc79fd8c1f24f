//! The frames of messages, and of the machine's replies.
ghost use Rattle.std.specs.Prelude.{◌≡◌, ◌<◌, ◌^◌, ◌++◌, IfOk, OnOk};
ghost use Rattle.cf_frame.specs.{spelling};
ghost use Rattle.cf_msg.specs.{frame_of};
ghost use Rattle.cf_peer.specs.{IsSendable};
ghost use Rattle.cf_played.specs.Frames.{IsFrameAlike, IsInRange, machine};
ghost use Rattle.cf_server.specs.{IsReplyOf, message_of};

use cf_bytes::NoMemory;
use cf_frame::encode;
use cf_index::Index;
use cf_msg::{Msg, write};
use cf_server::{Reply, Serving, write_reply};
use std::alloc::Global;

// The frame of a message.
pub(crate) fn message_frame(alloc: Global, message: &Msg) -> Result<Vec<u8>, NoMemory>
    requires { IsSendable message.now }
    ensures { IfOk result (λ bytes. bytes.items ≡ spelling (frame_of message.now)) }
{
    let frame = write(alloc, message)?;
    encode(alloc, &frame.command, frame.payload.as_slice())
}

// A number has 64 bits.
fn see_number(number: u64)
    ensures { number < 2 ^ 64 }
{
    // Its type says so.
    let _ = number;
}

// So has that of a reply.
fn see_range(reply: Reply)
    ensures { IsInRange reply }
{
    match reply {
        Reply::PongOf(number) => see_number(number),
        Reply::OwnVersion
        | Reply::OwnVerack
        | Reply::HeadersOf { .. }
        | Reply::BlockAt(_)
        | Reply::CfilterAt(_)
        | Reply::CfheadersOf { .. }
        | Reply::CfcheckptOf { .. } => (),
    }
}

// The frame of the machine's reply.
pub(crate) fn own_frame(
    alloc: Global,
    index: &Index,
    seen: bool,
    reply: Reply,
) -> Result<Vec<u8>, NoMemory>
    requires { IsReplyOf index.now reply }
    ensures exact { IfOk result
        (λ bytes. bytes.items ≡ spelling (frame_of (message_of (machine seen) index.now reply))) }
    ensures alike { IfOk result (λ bytes. IsFrameAlike (message_of (machine seen) index.now reply) bytes.items) }
{
    // An index has a good chain, and a number has 64 bits, so that the message can be sent.
    let _tip = index.tip();
    see_range(reply);
    let served = Serving {
        time: 0,
        nonce: 0,
        seen,
    };
    write_reply(alloc, index, &served, reply)
}

// Puts a frame at the end.
pub(crate) fn put_frame(text: &mut Vec<u8>, frame: Vec<u8>) -> Result<(), NoMemory>
    ensures { OnOk result (text.new.items ≡ text.old.items ++ frame.items) }
{
    text.extend_from_slice(&frame)?;
    Ok(())
}
