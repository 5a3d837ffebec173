//! A client's lines, as its session reads them.
ghost use Rattle.std.specs.Prelude.{◌≡◌, ◌<◌, length, [], None, IfOk, IsNone, IsOk, IsSome};
ghost use Rattle.std.specs.Io.{ReadsAtMost};
ghost use Rattle.std.specs.Io.KnownBytes.{ReadConsumes};

use crate::client_line::ClientLine;
use crate::desk::Desk;
use crate::order::InputEnd;
use std::alloc::Global;
use std::io::{self, Read};
use std::sync::Wait;

/// The lines of a client, as they come. A call hands out bytes of one line at most, and only of a line that has come whole.
/// At the end, which `end` tells, nothing more is handed out. What is left of a line when a session ends is lost; all
/// further lines stay on the desk.
pub struct DeskReader<'a, R> {
    rt: &'a R,
    desk: Desk<'a>,
    // what is left of the last line
    line: ClientLine,
    end: Option<InputEnd>,
    /// Whether the session may rest before its next line.
    pub may_rest: bool,
    ghost own: { line.place ≡ desk.slot.now.place },
}

impl<'a, R> Drop for DeskReader<'a, R> {
    fn drop(self) {
        let DeskReader {
            rt: _,
            desk: _,
            line: _,
            end: _,
            may_rest: _,
        } = self;
    }
}

impl<'a, R: Wait + Print> DeskReader<'a, R> {
    ghost use Rattle.client_desks.specs.Lines.{IsLine};
    ghost use Rattle.client_desks.specs.Readers.{why_ended};

    /// The lines of the client at a desk, whose session may rest.
    pub fn new(rt: &'a R, alloc: Global, desk: Desk<'a>) -> DeskReader<'a, R>
        ensures { why_ended result ≡ None }
    {
        DeskReader {
            rt,
            desk,
            line: ClientLine::new(alloc, desk.place()),
            end: None,
            may_rest: true,
        }
    }

    /// Why no further line is handed out, if that is so.
    pub fn end(&self) -> Option<InputEnd>
        ensures { result ≡ why_ended self.now }
    {
        self.end
    }

    // waits for the next line, or the end
    fn next_line(&mut self)
        ensures line { IsNone self.new.end → IsLine self.new.line.rest }
        ensures none { IsSome self.new.end → self.new.line.rest ≡ [] }
    {
        self.end = self.desk.next_line(self.rt, self.may_rest, &mut self.line);
    }
}

impl<'a, R: Wait + Print> Read for DeskReader<'a, R> {
    ghost use Rattle.client_desks.specs.Lines.{AreOfOneLine};
    ghost use Rattle.client_desks.specs.Readers.{HandsOut, line_left, why_ended};

    fn read(&mut self, buf: &mut [u8]) -> io::Result<usize>
        ensures bound { ReadsAtMost result buf.new }
        ensures bytes { ReadConsumes None None result buf.new }
        ensures reads { IsOk result }
        ensures handed_out { IfOk result (λ count. HandsOut (line_left self.old) count buf.new (line_left self.new)) }
        ensures one_line { IfOk result (λ count. AreOfOneLine count buf.new) }
        ensures end { IfOk result (λ count. count ≡ 0 → 0 < length buf.new → IsSome (why_ended self.new)) }
        ensures after_end { IsSome (why_ended self.old) → (result ≡ Ok 0) × (why_ended self.new ≡ why_ended self.old) }
    {
        if buf.is_empty() || self.end.is_some() {
            return Ok(0);
        }
        if self.line.is_handed_out() {
            self.next_line();
        }
        Ok(self.line.hand_out(buf))
    }
}
