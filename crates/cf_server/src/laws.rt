//! What the course of a connection's bytes is, by the standard's words for streams and messages.
ghost use Rattle.std.specs.Prelude.{◌≡◌, ◌<◌, ◌++◌, ◌∷◌, ℕ, List, length, Err};
ghost use Rattle.cf_frame.specs.declared.frame.Frame.{Frame};
ghost use Rattle.cf_frame.specs.declared.frame.FrameFault.{FrameFault};
ghost use Rattle.cf_bytes.specs.{IsBytes};
ghost use Rattle.cf_frame.specs.{IsBad, IsStreamOf};
ghost use Rattle.cf_msg.specs.declared.msg.Malformed.{Malformed};
ghost use Rattle.cf_msg.specs.declared.msg.Msg.{Msg};
ghost use Rattle.cf_msg.specs.{message_of};
ghost use Rattle.cf_server.specs.Serving.{AreSpelled, Waits, IsBad as StopsBad, IsMalformed, IsFull, course, most_frames};

/// Where bytes are the frames of messages, fewer than 1,000,000, and then some in which no frame is whole, their course
/// is these messages. Then it waits, or it is bad where the last bytes are. It ends before the first frame that spells
/// no message, and after the 1,000,000th.
pub fn laws_of_courses()
    ensures waits { (bytes rest : List ℕ) (frames : List Frame) (messages : List Msg)
        → IsBytes bytes → IsStreamOf bytes frames rest
        → AreSpelled messages frames → length frames < most_frames → ((fault : FrameFault) → ¬ (IsBad rest fault))
        → course most_frames bytes ≡ record { messages = messages; stop = Waits } }
    ensures bad { (bytes rest : List ℕ) (frames : List Frame) (messages : List Msg) (fault : FrameFault)
        → IsStreamOf bytes frames rest → AreSpelled messages frames → length frames < most_frames → IsBad rest fault
        → course most_frames bytes ≡ record { messages = messages; stop = StopsBad fault } }
    ensures malformed { (bytes rest : List ℕ) (frames others : List Frame)
        (f : Frame) (messages : List Msg) (fault : Malformed) → IsStreamOf bytes (frames ++ f ∷ others) rest
        → AreSpelled messages frames → length frames < most_frames → message_of f ≡ Err fault
        → course most_frames bytes ≡ record { messages = messages; stop = IsMalformed fault } }
    ensures full { (bytes rest : List ℕ) (frames others : List Frame) (messages : List Msg)
        → IsStreamOf bytes (frames ++ others) rest → AreSpelled messages frames → length frames ≡ most_frames
        → course most_frames bytes ≡ record { messages = messages; stop = IsFull } }
{}
