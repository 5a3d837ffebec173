//! A frame, and how it is written.
ghost use Rattle.std.specs.Prelude.{OnOk};
ghost use Rattle.std.specs.Io.KnownBytes.{Appends};
ghost use Rattle.client_frames.specs.Frames.{encode};

use crate::piece::Piece;
use crate::place::ClientPlace;
use std::io;
use std::io::Write;

/// What a broker and the program say to each other.
#[derive(Drop)]
pub enum Frame {
    /// `ready`, from the program alone: its store is open.
    Ready,
    /// `open K`, from the broker alone: a client has taken the place.
    Open {
        /// The place.
        place: ClientPlace,
    },
    /// `data K N` and N bytes: from the broker what the client sent, from the program what it is answered.
    Data {
        /// The place of the client.
        place: ClientPlace,
        /// The bytes.
        piece: Piece,
    },
    /// `more K`: the last bytes for this place were taken, and more may follow.
    More {
        /// The place.
        place: ClientPlace,
    },
    /// `end K`: from the broker, that the client sends nothing more; from the program, that its session has ended and
    /// the place is free.
    End {
        /// The place.
        place: ClientPlace,
    },
    /// `gone K`, from the broker alone: the client sends nothing more and reads nothing more.
    Gone {
        /// The place.
        place: ClientPlace,
    },
}

/// Writes a frame. It takes no memory, and it doesn't flush. `Err` says that a write failed: then a part of the frame
/// may have been written.
pub fn write_frame<W: Write>(writer: &mut W, frame: &Frame) -> io::Result<()>
    ensures { OnOk result (Appends (W.contents writer.old) (W.contents writer.new)
        (encode frame.now)) }
{
    match frame {
        Frame::Ready => writer.write_all(b"ready\n"),
        Frame::Open { place } => writeln!(writer, "open {}", place.number()),
        Frame::Data { place, piece } => {
            writeln!(writer, "data {} {}", place.number(), piece.bytes().len())?;
            writer.write_all(piece.bytes())
        }
        Frame::More { place } => writeln!(writer, "more {}", place.number()),
        Frame::End { place } => writeln!(writer, "end {}", place.number()),
        Frame::Gone { place } => writeln!(writer, "gone {}", place.number()),
    }
}
