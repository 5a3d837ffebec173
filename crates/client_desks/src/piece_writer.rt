//! A writer that hands on what is written in pieces.
ghost use Rattle.std.specs.Prelude.{◌≡◌, ◌<◌, [], length, IfOk, OnOk, MatchResult};
ghost use Rattle.std.specs.Io.{WritesAtMost};
ghost use Rattle.std.specs.Io.KnownBytes.{Appends, Keeps, WriteAppends};

use crate::reply_buffer::ReplyBuffer;
use client_frames::Piece;
use std::alloc::Global;
use std::io::{self, Write};

/// What takes pieces.
pub trait PieceSink {
    ghost use Rattle.std.specs.Prelude.{List, ℕ, Option, None};

    // the bytes of the pieces that it took, one after the other, if they are known
    ghost taken: { Self → Option (List ℕ) } = { λ _. None };

    /// Takes a piece, and gives it back. At an error nothing was taken.
    fn send(&mut self, piece: Piece) -> (Piece, io::Result<()>)
        ensures piece { result.0 ≡ piece }
        ensures taken { MatchResult result.1 (λ _. Appends (taken self.old) (taken self.new) piece)
            (λ _. Keeps (taken self.old) (taken self.new)) };
}

/// A writer that gathers what is written, and hands it on in pieces of at most 65,536 bytes.
#[derive(Drop)]
pub struct PieceWriter<S> {
    /// What takes the pieces.
    pub sink: S,
    gathered: ReplyBuffer,
}

impl<S: PieceSink> PieceWriter<S> {
    ghost use Rattle.client_desks.specs.Writers.{written};

    /// A writer into this.
    pub fn over(alloc: Global, sink: S) -> PieceWriter<S>
        ensures sink { result.sink ≡ sink }
        ensures empty { written S.taken result ≡ S.taken sink }
    {
        PieceWriter {
            sink,
            gathered: ReplyBuffer::new(alloc),
        }
    }

    // hands on what was gathered
    fn hand_on(&mut self) -> io::Result<()>
        ensures bytes { Keeps (written S.taken self.old) (written S.taken self.new) }
        ensures empty { OnOk result (self.new.gathered ≡ []) }
        ensures sent { OnOk result (Keeps (written S.taken self.old) (S.taken self.new.sink)) }
    {
        let Some(piece) = self.gathered.take() else {
            return Ok(());
        };
        let (piece, sent) = self.sink.send(piece);
        match sent {
            Ok(()) => self.gathered.reuse(piece),
            Err(_) => self.gathered.put_back(piece),
        }
        sent
    }
}

impl<S: PieceSink> Write for PieceWriter<S> {
    ghost use Rattle.client_desks.specs.Writers.{written};

    ghost contents = { written S.taken };

    fn write(&mut self, buf: &[u8]) -> io::Result<usize>
        ensures bound { WritesAtMost result buf.now }
        ensures bytes { WriteAppends (written S.taken self.old) (written S.taken self.new) result buf.now }
        ensures some { IfOk result (λ count. 0 < length buf.now → 0 < count) }
    {
        if self.gathered.is_full() {
            self.hand_on()?;
        }
        let count = self.gathered.gather(buf)?;
        Ok(count)
    }

    fn flush(&mut self) -> io::Result<()>
        ensures bytes { Keeps (written S.taken self.old) (written S.taken self.new) }
        ensures sent { OnOk result (Keeps (written S.taken self.old) (S.taken self.new.sink)) }
    {
        self.hand_on()
    }
}
