//! What holds of messages and their frames, whoever reads and writes them.
ghost use Rattle.std.specs.Prelude.{◌≡◌, ◌↔◌, ◌≤◌, length, Ok, Err};
ghost use Rattle.cf_frame.specs.declared.frame.Frame.{Frame};
ghost use Rattle.cf_frame.specs.{IsFrame};
ghost use Rattle.cf_bytes.specs.{IsBytes};
ghost use Rattle.cf_msg.specs.declared.msg.Msg.{Msg};
ghost use Rattle.cf_msg.specs.declared.msg.Malformed.{Malformed};
ghost use Rattle.cf_msg.specs.Message.{HasSpelling, IsWithinLimits, Spells, frame_of, payload_of};
ghost use Rattle.cf_msg.specs.Reading.{message_of};

/// A frame carries a message exactly where its command and payload spell the message, so what is written is read
/// again. A message that has a spelling of at most 4,000,000 bytes may be written, and has a frame. A frame that
/// carries none is refused at a place in its payload.
pub fn laws_of_messages()
    ensures spelled { (f : Frame) (m : Msg) → IsFrame f → IsBytes f.payload
        → (message_of f ≡ Ok m) ↔ Spells m f.command f.payload }
    ensures again { (m : Msg) → HasSpelling m → message_of (frame_of m) ≡ Ok m }
    ensures frame { (m : Msg) → HasSpelling m → length (payload_of m) ≤ 4000000 → IsFrame (frame_of m) }
    ensures limits { (m : Msg) → HasSpelling m → IsWithinLimits m }
    ensures place { (f : Frame) (e : Malformed) → message_of f ≡ Err e
        → (e.command ≡ f.command) × (e.place ≤ length f.payload) }
{}
