//! Where frames are written.
ghost use Rattle.std.specs.Prelude.{◌≡◌, ◌↔◌, true, false, IsTrue, IfOk, OnOk, OnErr};
ghost use Rattle.std.specs.Io.KnownBytes.{Appends, Keeps};
ghost use Rattle.client_frames.specs.Frames.{encode};

use client_frames::{Frame, PIECE_BYTES, write_frame};
use std::alloc::{AllocError, Global};
use std::io::{self, ErrorKind, Write};

// the most bytes of a frame: those of the longest head, its line feed, and those that it carries
const FRAME_BYTES: usize = PIECE_BYTES + 14;

/// What is written: whole frames, up to the first that fails.
#[derive(Drop)]
pub(crate) struct FrameOutput {
    has_failed: bool,
    // a frame is put together here, so that it is written by one call
    encoded: Vec<u8>,
}

impl FrameOutput {
    /// Nothing was written.
    pub(crate) fn new(alloc: Global) -> Result<FrameOutput, AllocError>
        ensures { IfOk result (λ output. output.has_failed ≡ false) }
    {
        Ok(FrameOutput {
            has_failed: false,
            encoded: Vec::with_capacity(alloc, FRAME_BYTES)?,
        })
    }

    /// Whether a write has failed.
    pub(crate) fn has_failed(&self) -> bool
        ensures { result ≡ self.now.has_failed }
    {
        self.has_failed
    }

    /// Writes a frame. After one that failed no other is written, since a part of that one may stand there.
    pub(crate) fn write<W: Write>(&mut self, writer: &mut W, frame: &Frame) -> io::Result<()>
        ensures written { OnOk result (Appends (W.contents writer.old) (W.contents writer.new) (encode frame.now)) }
        ensures whole { OnOk result (self.old.has_failed ≡ false) }
        ensures failed { self.old.has_failed ≡ true → Keeps (W.contents writer.old) (W.contents writer.new) }
        ensures after { OnOk result (self.new.has_failed ≡ false) }
        ensures after_failure { OnErr result (self.new.has_failed ≡ true) }
    {
        if self.has_failed {
            return Err(ErrorKind::BrokenPipe.into());
        }
        let written = self.write_whole(writer, frame);
        self.has_failed = written.is_err();
        written
    }

    // writes a frame by one call, and flushes it
    fn write_whole<W: Write>(&mut self, writer: &mut W, frame: &Frame) -> io::Result<()>
        ensures { OnOk result (Appends (W.contents writer.old) (W.contents writer.new) (encode frame.now)) }
    {
        self.encoded.clear();
        write_frame(&mut self.encoded, frame)?;
        writer.write_all(&self.encoded)?;
        writer.flush()
    }
}
