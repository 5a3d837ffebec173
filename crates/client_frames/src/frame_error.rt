//! Why no frame was read.
ghost use Rattle.std.specs.Prelude.{◌≡◌};
ghost use Rattle.client_frames.specs.declared.frame_error.FrameError.TheVariants.{NoMemory};

use std::alloc::AllocError;

/// Why no frame was read. After it nothing more is read.
#[derive(Clone, Copy, Debug, PartialEq, Eq)]
pub enum FrameError {
    /// The input ended before a frame.
    Ended,
    /// The input ended inside of a frame.
    Broken,
    /// What is there doesn't begin with the head of a frame: its word is none, its place is over 30, its count is 0 or
    /// over 65,536, a number has a leading zero, or it goes on for more than 13 bytes.
    NotFrame,
    /// Memory for the bytes of a frame was asked for and not given.
    NoMemory,
    /// A read failed.
    Unreadable,
}

impl From<AllocError> for FrameError {
    ghost from_gives = { λ _ frame_error. frame_error ≡ NoMemory };

    fn from(_error: AllocError) -> FrameError {
        FrameError::NoMemory
    }
}
