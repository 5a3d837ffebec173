//! Bytes that come in pieces and go in lines.
ghost use Rattle.std.specs.Prelude.{◌≡◌, ◌↔◌, ◌<◌, ◌+◌, ◌++◌, ◌∷◌, [], length, drop, take, IfOk, OnOk, OnErr, IfSome, IfNone, MatchOption, IsTrue};
ghost use Rattle.std.specs.List.{Contains};
ghost use Rattle.client_frames.specs.Heads.{Lacks};
ghost use Rattle.client_desks.specs.Lines.{IsLineFeedAt, TakesFirstLine};

use std::alloc::{AllocError, Global};
use std::marker::Model;

/// The most bytes of a line, without its line feed.
pub const LINE_BYTES: usize = 4_194_304;

/// What stands first in a line buffer.
#[derive(Clone, Copy, Debug, PartialEq, Eq)]
pub enum NextLine {
    /// A whole line.
    Whole,
    /// A part of a line, or nothing.
    Part,
    /// More bytes than a line may have, without a line feed among them.
    TooLong,
}

/// Bytes that were appended in pieces and are taken in lines.
#[derive(Drop)]
pub struct LineBuffer {
    bytes: Vec<u8>,
    // how many bytes were taken
    start: usize,
    // among how many of the others there is no line feed
    searched: usize,
}

impl Model for LineBuffer {
    ghost use Rattle.std.specs.Prelude.{◌≤◌, ◌-◌, List, ℕ, length, drop, take};
    ghost use Rattle.client_frames.specs.Heads.{Lacks};

    ghost Value = { List ℕ };

    ghost view = { λ inside. drop inside.start inside.bytes.items };

    ghost invariant = { λ inside. (inside.start ≤ length inside.bytes.items)
        × (inside.searched ≤ length inside.bytes.items - inside.start)
        × Lacks 10 (take inside.searched (drop inside.start inside.bytes.items)) };
}

impl LineBuffer {
    /// No bytes.
    pub fn new(alloc: Global) -> LineBuffer
        ensures { result ≡ [] }
    {
        LineBuffer {
            bytes: Vec::new(alloc),
            start: 0,
            searched: 0,
        }
    }

    /// Whether there are no bytes.
    pub fn is_empty(&self) -> bool
        ensures { IsTrue result ↔ (self.now ≡ []) }
    {
        self.start == self.bytes.len()
    }

    /// Appends a piece.
    pub fn append(&mut self, piece: &[u8]) -> Result<(), AllocError>
        ensures appended { OnOk result (self.new ≡ self.old ++ piece.now) }
        ensures refused { OnErr result (self.new ≡ self.old) }
    {
        self.discard_taken();
        self.bytes.extend_from_slice(piece)
    }

    /// Whether there is a line feed.
    pub fn has_line_feed(&self) -> bool
        ensures { IsTrue result ↔ Contains self.now 10 }
    {
        self.line_feed().is_some()
    }

    /// Takes the first line, with its line feed, if it is whole. What `line` had before is gone.
    pub fn take_line(&mut self, line: &mut Vec<u8>) -> Result<NextLine, AllocError>
        ensures taken { IfOk result (λ next. TakesFirstLine next self.old line.new.items self.new) }
        ensures refused { OnErr result (self.new ≡ self.old) }
        ensures none { OnErr result (line.new.items ≡ []) }
    {
        line.clear();
        match self.line_feed() {
            Some(at) if at <= LINE_BYTES => {
                self.move_line(at, line)?;
                Ok(NextLine::Whole)
            }
            Some(_) => Ok(NextLine::TooLong),
            None => Ok(self.remember_part()),
        }
    }

    // moves the first line, whose line feed is there, into an empty vector
    fn move_line(&mut self, at: usize, line: &mut Vec<u8>) -> Result<(), AllocError>
        requires feed { IsLineFeedAt self.old at }
        requires empty { line.old.items ≡ [] }
        ensures moved { OnOk result (line.new.items ≡ take at self.old ++ 10 ∷ []) }
        ensures others { OnOk result (self.new ≡ drop (at + 1) self.old) }
        ensures refused { OnErr result (self.new ≡ self.old) }
        ensures none { OnErr result (line.new.items ≡ []) }
    {
        let end = self.start + at + 1;
        line.extend_from_slice(&self.bytes[self.start..end])?;
        self.start = end;
        self.searched = 0;
        Ok(())
    }

    // what bytes without a line feed are, which are not searched again
    fn remember_part(&mut self) -> NextLine
        requires { Lacks 10 self.old }
        ensures { TakesFirstLine result self.old [] self.new }
    {
        self.searched = self.bytes.len() - self.start;
        if self.searched > LINE_BYTES {
            NextLine::TooLong
        } else {
            NextLine::Part
        }
    }

    // where the first line feed is
    fn line_feed(&self) -> Option<usize>
        ensures { MatchOption result (Lacks 10 self.now) (IsLineFeedAt self.now) }
    {
        let at = first_line_feed(&self.bytes[self.start + self.searched..])?;
        Some(self.searched + at)
    }

    // moves the bytes that were not taken to the front
    fn discard_taken(&mut self)
        ensures { self.new ≡ self.old }
    {
        let rest = self.bytes.len() - self.start;
        if self.start > 0 {
            self.bytes.copy_within(self.start.., 0);
            self.bytes.truncate(rest);
            self.start = 0;
        }
    }
}

// where the first line feed of some bytes is
fn first_line_feed(bytes: &[u8]) -> Option<usize>
    ensures none { IfNone result (Lacks 10 bytes.now) }
    ensures first { IfSome result (λ at. Lacks 10 (take at bytes.now)
        × (bytes.now ≡ take at bytes.now ++ 10 ∷ drop (at + 1) bytes.now)) }
{
    bytes.iter().position(|byte| *byte == b'\n')
}
