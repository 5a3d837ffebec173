//! The replies to a client, as its session writes them.

use crate::desk::Desk;
use crate::piece_writer::{PieceSink, PieceWriter};
use client_frames::Piece;
use std::alloc::Global;
use std::io;
use std::sync::Wait;

/// Writes each piece as a frame, once the broker has handed on the last one.
pub struct DeskSink<'a, R> {
    rt: &'a R,
    desk: Desk<'a>,
}

impl<'a, R> Drop for DeskSink<'a, R> {
    fn drop(self) {
        let DeskSink { rt: _, desk: _ } = self;
    }
}

impl<'a, R: Wait + Print> PieceSink for DeskSink<'a, R> {
    fn send(&mut self, piece: Piece) -> (Piece, io::Result<()>) {
        self.desk.reply(self.rt, piece)
    }
}

/// The replies to a client. They are gathered up to 65,536 bytes. A flush waits until the broker has handed on the last
/// frame, and writes one. It fails with `BrokenPipe` if the client has gone, or if the broker won't take it after a stop.
pub type DeskWriter<'a, R> = PieceWriter<DeskSink<'a, R>>;

impl<'a, R: Wait + Print> PieceWriter<DeskSink<'a, R>> {
    /// The replies to the client at a desk.
    pub fn new(rt: &'a R, alloc: Global, desk: Desk<'a>) -> DeskWriter<'a, R> {
        PieceWriter::over(alloc, DeskSink { rt, desk })
    }
}
