//! What holds of frames and of streams, whoever reads them.
ghost use Rattle.std.specs.Prelude.{◌≡◌, ◌↔◌, ◌⊎◌, ◌++◌, ◌<◌, ◌≤◌, [], ℕ, List, length, take, Ok, Err, Some, None};
ghost use Rattle.cf_frame.specs.Lending.{IsFilled};
ghost use Rattle.cf_frame.specs.declared.frame.Frame.{Frame};
ghost use Rattle.cf_frame.specs.declared.frame.FrameFault.{FrameFault};
ghost use Rattle.cf_frame.specs.Frame.{IsFrame, spelling};
ghost use Rattle.cf_frame.specs.Reading.{Begins, front_of};
ghost use Rattle.cf_bytes.specs.{IsBytes};
ghost use Rattle.cf_frame.specs.Stream.{IsBad, IsStreamOf, from_front, no_frames, read_on, read_stream};
ghost use Rattle.cf_frame.specs.Stream.{with_frame};

/// One frame. What is spelled is read, whatever follows, and nothing else is: no spelling begins another.
/// A fault is told exactly where the bytes are bad, and stays. Bytes in which no frame is whole are few.
pub fn laws_of_frames()
    ensures again { (f : Frame) (more : List ℕ) → IsFrame f → front_of (spelling f ++ more) ≡ Ok (Some (f, more)) }
    ensures only { (bytes : List ℕ) (f : Frame) (more : List ℕ) → IsBytes bytes
        → front_of bytes ≡ Ok (Some (f, more)) → Begins bytes f more }
    ensures bad { (bytes : List ℕ) (fault : FrameFault) → IsBytes bytes
        → (front_of bytes ≡ Err fault) ↔ IsBad bytes fault }
    ensures stays { (bytes more : List ℕ) (fault : FrameFault) → front_of bytes ≡ Err fault
        → front_of (bytes ++ more) ≡ Err fault }
    ensures alone { (f g : Frame) (more : List ℕ) → IsFrame f → IsFrame g
        → spelling g ≡ spelling f ++ more → (g ≡ f) × (more ≡ []) }
    ensures few { (bytes : List ℕ) → front_of bytes ≡ Ok None → length bytes < 4000024 }
{}

/// A stream. It is read frame by frame, in whatever pieces it comes, and what is read are its only frames.
/// What waits behind them is at fault exactly where it is bad.
pub fn laws_of_streams()
    ensures step { (bytes : List ℕ) → read_stream bytes ≡ from_front read_stream bytes (front_of bytes) }
    ensures again { (f : Frame) (more : List ℕ) → IsFrame f
        → read_stream (spelling f ++ more) ≡ with_frame f (read_stream more) }
    ensures joined { (fed more : List ℕ) → read_stream (fed ++ more) ≡ read_on (read_stream fed) more }
    ensures whole { (bytes : List ℕ) → IsBytes bytes
        → IsStreamOf bytes (read_stream bytes).frames (read_stream bytes).rest }
    ensures only { (bytes : List ℕ) (frames : List Frame) (rest : List ℕ) → IsBytes bytes → IsStreamOf bytes frames rest
        → ((read_stream bytes).frames ≡ frames) × ((read_stream bytes).rest ≡ rest) }
    ensures bad { (bytes : List ℕ) (fault : FrameFault) → IsBytes bytes
        → ((read_stream bytes).fault ≡ Some fault) ↔ IsBad (read_stream bytes).rest fault }
{}

/// A piece of which bytes are taken up to the end of the frame that is being read. How many are taken is told. None are
/// exactly where the piece is empty or what waits is a whole frame or at fault, and what waits then is never more than
/// one frame. With no frame at the front the whole piece was taken. What is read of a frame at the front, or of a
/// fault, is so whatever follows.
pub fn laws_of_filling()
    ensures one { (bytes piece : List ℕ) (n m : ℕ) → IsFilled bytes piece n → IsFilled bytes piece m → n ≡ m }
    ensures none { (bytes piece : List ℕ) (n : ℕ) → IsFilled bytes piece n
        → (n ≡ 0) ↔ ((piece ≡ []) ⊎ (front_of bytes ≡ Ok None → ⊥)) }
    ensures few { (bytes piece : List ℕ) (n : ℕ) → IsFilled bytes piece n → 0 < n
        → length (bytes ++ take n piece) ≤ 4000024 }
    ensures all { (bytes piece : List ℕ) (n : ℕ) → IsFilled bytes piece n → front_of (bytes ++ take n piece) ≡ Ok None
        → take n piece ≡ piece }
    ensures leads { (bytes new more : List ℕ) (f : Frame) → front_of bytes ≡ Ok (Some (f, new))
        → read_stream (bytes ++ more) ≡ with_frame f (read_stream (new ++ more)) }
    ensures stops { (bytes more : List ℕ) (fault : FrameFault) → front_of bytes ≡ Err fault
        → read_stream (bytes ++ more) ≡ no_frames (bytes ++ more) (Some fault) }
{}
