//! The desk of one client, as its session has it.
ghost use Rattle.std.specs.Prelude.{◌≡◌, [], IfNone, OnSome};
ghost use Rattle.client_desks.specs.Desks.{place_of};
ghost use Rattle.client_desks.specs.Lines.{IsLine};

use crate::client_line::ClientLine;
use crate::desks::Desks;
use crate::order::{Arrival, Bookmark, InputEnd, NewsWait};
use crate::slot::{LineWait, Slot};
use client_frames::{ClientPlace, Frame, Piece};
use std::alloc::AllocError;
use std::io::{self, ErrorKind};
use std::sync::Wait;
use std::sync::atomic::Ordering;

/// The desk of one client.
pub struct Desk<'a> {
    desks: &'a Desks,
    slot: &'a Slot,
}

impl Clone for Desk<'_> {
    fn clone(&self) -> Result<Self, AllocError> {
        Ok(*self)
    }
}

impl Copy for Desk<'_> {}

impl<'a> Desk<'a> {
    pub(crate) fn new(desks: &'a Desks, slot: &'a Slot) -> Desk<'a>
        ensures { place_of result ≡ slot.now.place }
    {
        Desk { desks, slot }
    }

    /// The place of its client.
    pub fn place(self) -> ClientPlace
        ensures { result ≡ place_of self.entry }
    {
        self.slot.place
    }

    /// Waits until there is a client to be served, or something else to do.
    pub fn wait<R: Wait>(self, rt: &R) -> Arrival {
        let arrival = self.slot.wait(rt);
        if matches!(arrival, Arrival::Client | Arrival::Resumed { .. }) {
            self.desks.begin_work();
        }
        arrival
    }

    /// Whether a session needn't wait for its next line, or for what ends it.
    pub fn has_line<R: Wait>(self, rt: &R) -> bool {
        self.slot.has_line(rt)
    }

    /// Whether the client has gone, or the service is to stop: then no further line is carried out.
    pub fn is_over<R: Wait>(self, rt: &R) -> bool {
        self.slot.is_over(rt)
    }

    /// The session follows news from now on. It asks [`Desk::news`] after this, looks at what there is, and waits then.
    pub fn follow<R: Wait>(self, rt: &R) {
        self.slot.set_follows(true);
        self.desks.end_work(rt);
    }

    /// The session doesn't follow news any more.
    pub fn unfollow(self) {
        self.desks.begin_work();
        self.slot.set_follows(false);
    }

    /// Whether there is no session but those that follow news. After a rest or a stop was asked for, none is begun that gets a
    /// line.
    pub fn is_followed_alone(self) -> bool {
        !self.desks.is_at_work()
    }

    /// How often there were news.
    pub fn news(self) -> u64 {
        self.desks.news().load(Ordering::SeqCst)
    }

    /// Waits until there were other news than the `known` ones, if the session follows them, or until it has something else to
    /// do, whether or not there were. That another session ends is news, too. A session that `knows_end` isn't told of a rest
    /// or a stop.
    pub fn wait_for_news<R: Wait>(self, rt: &R, known: u64, knows_end: bool) -> NewsWait {
        self.slot
            .wait_for_news(rt, self.desks.news(), known, knows_end)
    }

    /// The session has ended, and the client is told so: the place is free. Nothing is told if there was no session.
    pub fn clear<R: Wait + Print>(self, rt: &R) {
        if self.slot.leave(rt) {
            let place = self.place();
            // a write that fails stops all desks, and nothing else is to be done
            let _ = self.desks.write(rt, &Frame::End { place });
            self.desks.end_work(rt);
        }
    }

    /// The session has ended at a rest, and the client stays, with all that its session hasn't got.
    pub fn park<R: Wait>(self, rt: &R, moment: u64, line: u64) {
        self.slot.park(rt, Bookmark { moment, line });
        self.desks.end_work(rt);
    }

    /// Waits for the session's next line, which `line` has then. Answers why none follows, if that is so.
    pub(crate) fn next_line<R: Wait + Print>(
        self,
        rt: &R,
        may_rest: bool,
        line: &mut ClientLine,
    ) -> Option<InputEnd>
        ensures whole { IfNone result (IsLine line.new.rest) }
        ensures none { OnSome result (line.new.rest ≡ []) }
        ensures own { line.new.place ≡ place_of self.entry }
    {
        for _ in rt.forever() {
            match self.slot.next_step(rt, may_rest, line) {
                LineWait::TookPiece => self.ask_for_more(rt),
                LineWait::End(why) => return self.without_line(line, why),
                LineWait::Line if line.place().number() == self.place().number() => return None,
                // nothing of another place is handed out
                LineWait::Line => return self.without_line(line, InputEnd::Stopped),
            }
        }
        unreachable!()
    }

    // no line follows
    fn without_line(self, line: &mut ClientLine, why: InputEnd) -> Option<InputEnd>
        ensures why { result ≡ Some why }
        ensures line { line.new ≡ record { place = place_of self.entry; rest = [] } }
    {
        line.clear(self.place());
        Some(why)
    }

    // tells the broker that a piece was taken
    fn ask_for_more<R: Wait + Print>(self, rt: &R) {
        let place = self.place();
        // a write that fails stops this desk too, which the next step tells
        let _ = self.desks.write(rt, &Frame::More { place });
    }

    /// Writes a reply once the last one was handed on, and gives the piece back.
    pub(crate) fn reply<R: Wait + Print>(self, rt: &R, piece: Piece) -> (Piece, io::Result<()>)
        ensures { result.0 ≡ piece }
    {
        if !self.slot.wait_for_reply(rt) {
            return (piece, Err(ErrorKind::BrokenPipe.into()));
        }
        let place = self.place();
        let frame = Frame::Data { place, piece };
        let written = self.desks.write(rt, &frame);
        match frame {
            Frame::Data { piece, .. } => (piece, written),
            _ => unreachable!(),
        }
    }
}
