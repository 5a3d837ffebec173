//! Laws of the encoding: what is encoded has one reading.
ghost use Rattle.std.specs.Prelude.{◌≡◌, ◌⊎◌, List, ℕ, ◌++◌, Result};
ghost use Rattle.std.specs.List.{AllByRecursion};
ghost use Rattle.client_frames.specs.Frames.{IsFrame, encode, encode_all};
ghost use Rattle.client_frames.specs.Readings.{HasReading, IsByChance};
ghost use Rattle.client_frames.specs.declared.frame.Frame.{Frame};
ghost use Rattle.client_frames.specs.declared.frame_error.FrameError.{FrameError};

/// No frame is encoded as another, and none as the beginning of another. So frames in a row have one encoding, which
/// no other frames have.
pub fn frames_are_told_apart()
    ensures one { (frame other : Frame) (rest tail : List ℕ) → IsFrame frame → IsFrame other →
        encode frame ++ rest ≡ encode other ++ tail → (frame ≡ other) × (rest ≡ tail) }
    ensures all { (frames others : List Frame) → AllByRecursion IsFrame frames →
        AllByRecursion IsFrame others → encode_all frames ≡ encode_all others → frames ≡ others }
{}

/// Bytes are read one way, but that memory may be refused and a read may fail.
pub fn bytes_have_one_reading()
    ensures { (bytes : List ℕ) (one other : Result Frame FrameError) → HasReading bytes one →
        HasReading bytes other → IsByChance one ⊎ (IsByChance other ⊎ (one ≡ other)) }
{}
