//! The lines of a client, as its session reads them.

use crate::history_share::HistoryShare;
use client_desks::{Desk, DeskReader, Desks, InputEnd, NewsWait};
use registry_lines::number_told;
use reply_lines::ReplyLine;
use script_loop::{EndOfScript, next_line};
use std::alloc::Global;
use std::io;
use std::io::BufReader;
use std::sync::Wait;

/// Bytes that are read at once.
const READ_BYTES: usize = 4_096;

/// The lines of a client. `next_line` reads one, which `bytes` has then.
pub struct ClientLines<'a, R: Wait + Print> {
    rt: &'a R,
    desks: &'a Desks,
    desk: Desk<'a>,
    share: &'a HistoryShare,
    reader: BufReader<DeskReader<'a, R>>,
    line: Vec<u8>,
    /// The number of the next line, from 1 on.
    pub number: u64,
}

impl<'a, R: Wait + Print> Drop for ClientLines<'a, R> {
    fn drop(self) {
        let ClientLines {
            rt: _,
            desks: _,
            desk: _,
            share: _,
            reader: _,
            line: _,
            number: _,
        } = self;
    }
}

impl<'a, R: Wait + Print> ClientLines<'a, R> {
    /// The lines of the client at a desk, the next of which has this number.
    pub fn new(
        rt: &'a R,
        alloc: Global,
        desks: &'a Desks,
        desk: Desk<'a>,
        share: &'a HistoryShare,
        number: u64,
    ) -> io::Result<ClientLines<'a, R>> {
        let reader = DeskReader::new(rt, alloc, desk);
        Ok(ClientLines {
            rt,
            desks,
            desk,
            share,
            reader: BufReader::with_capacity(alloc, READ_BYTES, reader)?,
            line: Vec::new(alloc),
            number,
        })
    }

    /// Reads the next line, or answers why there is none. A session that has no open transaction may rest before it.
    pub fn next_line(&mut self, may_rest: bool) -> Result<(), EndOfScript> {
        self.reader.get_mut().may_rest = may_rest;
        next_line(&mut self.reader, &mut self.line)?;
        self.number = self.number.saturating_add(1);
        Ok(())
    }

    /// The line that was read, without the byte that ends it.
    pub fn bytes(&self) -> &[u8] {
        self.line.as_slice()
    }

    /// Whether another line can be read at once.
    pub fn has_line(&self) -> bool {
        self.desk.has_line(self.rt)
    }

    /// How many clients have a place.
    pub fn clients(&self) -> usize {
        self.desks.clients(self.rt)
    }

    /// The reply to a line told this. Those who follow are woken if it told that something is durable.
    pub fn note_reply(&self, reply: &ReplyLine) {
        let number = number_told(reply);
        if number > 0 {
            self.share.note_change(self.rt, self.desks, number);
        }
        if matches!(
            reply,
            ReplyLine::Committed { .. } | ReplyLine::Flushed { .. }
        ) {
            self.note_durable();
        }
    }

    /// Something is durable: those who follow are woken.
    pub fn note_durable(&self) {
        self.desks.tell_news(self.rt);
    }

    /// The session follows changes from now on: it is told if there are news.
    pub fn follow(&self) {
        self.desk.follow(self.rt);
    }

    /// The session follows no changes any more.
    pub fn unfollow(&self) {
        self.desk.unfollow();
    }

    /// How often there were news.
    pub fn news(&self) -> u64 {
        self.desk.news()
    }

    /// Waits until there are other news than these, or until the session has something else to do. One that knows of its end
    /// isn't told of it again.
    pub fn wait_for_news(&self, known: u64, knows_end: bool) -> NewsWait {
        self.desk.wait_for_news(self.rt, known, knows_end)
    }

    /// Whether only sessions that follow are left, once a rest or a stop was asked for: no other change is made then.
    pub fn is_followed_alone(&self) -> bool {
        self.desk.is_followed_alone()
    }

    /// Why there is no further line.
    pub fn end(&self) -> Option<InputEnd> {
        self.reader.get_ref().end()
    }
}
