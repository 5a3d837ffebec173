//! What the broker says, as it comes.
ghost use Rattle.std.specs.Prelude.{◌≡◌, IfSome};
ghost use Rattle.client_desks.specs.Deliveries.{EncodeFrames};

use crate::desks::Desks;
use client_frames::{FrameError, read_frame};
use std::alloc::Global;
use std::io::BufRead;
use std::sync::Wait;

/// Why no further frame was read.
#[derive(Clone, Copy, Debug, PartialEq, Eq)]
pub enum FramesEnd {
    /// The input has ended.
    Ended,
    /// What came is no frame, or one that wasn't due; or the input ended within a frame, or can't be read.
    Broken,
    /// Memory was asked for and not given.
    NoMemory,
}

/// Reads frames and puts what they say on the desks. At the end all desks are told to stop.
pub fn read_frames<R: Wait, B: BufRead>(
    rt: &R,
    alloc: Global,
    desks: &Desks,
    reader: &mut B,
) -> FramesEnd
    ensures { result ≡ FramesEnd.Ended → IfSome (B.remaining reader.old) (EncodeFrames desks.now) }
{
    let end = deliver_all(rt, alloc, desks, reader);
    desks.stop(rt);
    end
}

// reads frames and puts what they say on the desks
fn deliver_all<R: Wait, B: BufRead>(
    rt: &R,
    alloc: Global,
    desks: &Desks,
    reader: &mut B,
) -> FramesEnd
    ensures { result ≡ FramesEnd.Ended → IfSome (B.remaining reader.old) (EncodeFrames desks.now) }
{
    'frames: for _ in 0..u64::MAX {
        match read_frame(alloc, reader) {
            Ok(frame) => {
                if desks.deliver(rt, alloc, frame).is_err() {
                    return FramesEnd::Broken;
                }
            }
            Err(FrameError::Ended) => return FramesEnd::Ended,
            Err(FrameError::NoMemory) => return FramesEnd::NoMemory,
            Err(FrameError::Broken | FrameError::NotFrame | FrameError::Unreadable) => {
                return FramesEnd::Broken;
            }
        }
    }
    FramesEnd::Broken
}
