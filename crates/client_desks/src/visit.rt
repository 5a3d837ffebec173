//! What lies on a desk while a client is there.
ghost use Rattle.std.specs.Prelude.{◌≡◌, ◌≢◌, ◌↔◌, [], None, IsTrue, IsOk, OnOk, OnErr};
ghost use Rattle.std.specs.List.{Contains};
ghost use Rattle.client_desks.specs.Lines.{IsLinePart, LineRest};
ghost use Rattle.client_desks.specs.Visits.{BeginsReply, IsInTurn, IsQuiet, StepsTo, after, bytes_left, newcomer, piece_bytes};

use crate::client_line::ClientLine;
use crate::line_buffer::{LineBuffer, NextLine};
use crate::order::InputEnd;
use client_frames::{ClientPlace, Piece};
use std::alloc::{AllocError, Global};

/// Whether a client sends more.
#[derive(Clone, Copy, Debug, PartialEq, Eq)]
pub(crate) enum Source {
    Open,
    Ended,
    Gone,
}

/// Where the last reply is.
#[derive(Clone, Copy, Debug, PartialEq, Eq)]
pub(crate) enum LastReply {
    // it was handed on, or there was none
    HandedOn,
    // the broker has it
    Out,
}

/// What the broker says of a client that is there.
#[derive(Drop)]
pub(crate) enum Said {
    Data(Piece),
    More,
    End,
    Gone,
}

/// What was said was not due.
#[derive(Clone, Copy, Debug, PartialEq, Eq)]
pub(crate) struct OutOfTurn;

/// How a session comes to its next line.
#[derive(Clone, Copy, Debug, PartialEq, Eq)]
pub(crate) enum Step {
    /// It has the line.
    Line,
    /// A piece was taken, which the broker is to be told.
    TookPiece,
    /// It has to wait.
    Wait,
    /// None follows.
    End(InputEnd),
}

/// When a reply may be written.
#[derive(Clone, Copy, Debug, PartialEq, Eq)]
pub(crate) enum ReplyTurn {
    Now,
    Later,
    Never,
}

/// What lies on a desk while a client is there.
#[derive(Drop)]
pub(crate) struct Visit {
    place: ClientPlace,
    source: Source,
    last_reply: LastReply,
    // what the client sent last, unless it was taken
    piece: Option<Piece>,
    // what was taken of it, and the session hasn't got
    lines: LineBuffer,
}

impl Visit {
    /// A client that has said nothing yet.
    pub(crate) fn new(alloc: Global, place: ClientPlace) -> Visit
        ensures { result ≡ newcomer place }
    {
        Visit {
            place,
            source: Source::Open,
            last_reply: LastReply::HandedOn,
            piece: None,
            lines: LineBuffer::new(alloc),
        }
    }

    /// Takes in what the broker says of the client at a place, if it is this one and that is due.
    pub(crate) fn hear(&mut self, place: ClientPlace, said: Said) -> Result<(), OutOfTurn>
        ensures due { IsOk result ↔ (place ≡ self.old.place) × IsInTurn self.old said }
        ensures heard { OnOk result (self.new ≡ after self.old said) }
        ensures refused { OnErr result (self.new ≡ self.old) }
    {
        if place.number() != self.place.number() {
            return Err(OutOfTurn);
        }
        match said {
            Said::Data(piece) => self.hear_data(piece),
            Said::More => self.hear_more(),
            Said::End => self.hear_end(),
            Said::Gone => self.hear_gone(),
        }
    }

    fn hear_data(&mut self, piece: Piece) -> Result<(), OutOfTurn>
        ensures due { IsOk result ↔ IsInTurn self.old (Said.Data piece) }
        ensures heard { OnOk result (self.new ≡ after self.old (Said.Data piece)) }
        ensures refused { OnErr result (self.new ≡ self.old) }
    {
        if self.source != Source::Open || self.piece.is_some() {
            return Err(OutOfTurn);
        }
        self.piece = Some(piece);
        Ok(())
    }

    fn hear_more(&mut self) -> Result<(), OutOfTurn>
        ensures due { IsOk result ↔ IsInTurn self.old Said.More }
        ensures heard { OnOk result (self.new ≡ after self.old Said.More) }
        ensures refused { OnErr result (self.new ≡ self.old) }
    {
        if self.source == Source::Gone || self.last_reply != LastReply::Out {
            return Err(OutOfTurn);
        }
        self.last_reply = LastReply::HandedOn;
        Ok(())
    }

    fn hear_end(&mut self) -> Result<(), OutOfTurn>
        ensures due { IsOk result ↔ IsInTurn self.old Said.End }
        ensures heard { OnOk result (self.new ≡ after self.old Said.End) }
        ensures refused { OnErr result (self.new ≡ self.old) }
    {
        if self.source != Source::Open {
            return Err(OutOfTurn);
        }
        self.source = Source::Ended;
        Ok(())
    }

    fn hear_gone(&mut self) -> Result<(), OutOfTurn>
        ensures due { IsOk result ↔ IsInTurn self.old Said.Gone }
        ensures heard { OnOk result (self.new ≡ after self.old Said.Gone) }
        ensures refused { OnErr result (self.new ≡ self.old) }
    {
        if self.source == Source::Gone {
            return Err(OutOfTurn);
        }
        self.source = Source::Gone;
        Ok(())
    }

    /// Whether nobody reads the replies.
    pub(crate) fn is_gone(&self) -> bool
        ensures { IsTrue result ↔ (self.now.source ≡ Source.Gone) }
    {
        self.source == Source::Gone
    }

    /// Whether there is a line feed in what the session hasn't got, so that it needn't wait for its next line.
    pub(crate) fn has_line(&self) -> bool
        ensures { IsTrue result ↔ (self.now.source ≢ Source.Gone) × Contains (bytes_left self.now) 10 }
    {
        !self.is_gone() && (self.lines.has_line_feed() || self.piece_has_line_feed())
    }

    /// Whether the client may send more, and the session has got all that it sent.
    pub(crate) fn is_quiet(&self) -> bool
        ensures { IsTrue result ↔ IsQuiet self.now }
    {
        self.source == Source::Open && self.piece.is_none() && self.lines.is_empty()
    }

    fn piece_has_line_feed(&self) -> bool
        ensures { IsTrue result ↔ Contains (piece_bytes self.now.piece) 10 }
    {
        match &self.piece {
            Some(piece) => piece.bytes().contains(&b'\n'),
            None => false,
        }
    }

    /// The next step to the next line, which `line` has then.
    pub(crate) fn step(&mut self, line: &mut ClientLine) -> Step
        ensures { StepsTo result self.old line.new self.new }
    {
        if self.is_gone() {
            return Step::End(InputEnd::Gone);
        }
        match line.take_from(self.place, &mut self.lines) {
            Ok(NextLine::Whole) => Step::Line,
            Ok(NextLine::TooLong) => Step::End(InputEnd::TooLong),
            Ok(NextLine::Part) => self.take_piece(),
            Err(AllocError) => Step::End(InputEnd::NoMemory),
        }
    }

    // takes the piece that waits, if no line is there
    fn take_piece(&mut self) -> Step
        requires reader { self.old.source ≢ Source.Gone }
        requires part { IsLinePart self.old.lines }
        ensures { (line : LineRest) → StepsTo result self.old line self.new }
    {
        let Some(piece) = &self.piece else {
            return self.wait_or_end();
        };
        if self.lines.append(piece.bytes()).is_err() {
            return Step::End(InputEnd::NoMemory);
        }
        self.piece = None;
        Step::TookPiece
    }

    // what follows if all that came was taken
    fn wait_or_end(&self) -> Step
        requires reader { self.now.source ≢ Source.Gone }
        requires part { IsLinePart self.now.lines }
        requires taken { self.now.piece ≡ None }
        ensures { (line : LineRest) → StepsTo result self.now line self.now }
    {
        match self.source {
            Source::Open => Step::Wait,
            Source::Ended if self.lines.is_empty() => Step::End(InputEnd::Ended),
            Source::Ended => Step::End(InputEnd::HalfLine),
            Source::Gone => Step::End(InputEnd::Gone),
        }
    }

    /// Whether a reply may be written. If so it is taken to be out.
    pub(crate) fn begin_reply(&mut self) -> ReplyTurn
        ensures { BeginsReply result self.old self.new }
    {
        if self.is_gone() {
            return ReplyTurn::Never;
        }
        match self.last_reply {
            LastReply::Out => ReplyTurn::Later,
            LastReply::HandedOn => {
                self.last_reply = LastReply::Out;
                ReplyTurn::Now
            }
        }
    }
}
