//! The line of a client that its session is handed.
ghost use Rattle.std.specs.Prelude.{◌≡◌, ◌↔◌, ◌++◌, [], length, min, take, IfOk, OnErr, IsTrue};
ghost use Rattle.client_desks.specs.Lines.{AreOfOneLine, IsLineRest, TakesFirstLine};

use crate::line_buffer::{LineBuffer, NextLine};
use client_frames::ClientPlace;
use std::alloc::{AllocError, Global};
use std::marker::Model;

/// What is left of a client's line, with its line feed, and the place of the client.
#[derive(Drop)]
pub(crate) struct ClientLine {
    place: ClientPlace,
    bytes: Vec<u8>,
    // how many of them were handed out
    handed_out: usize,
}

impl Model for ClientLine {
    ghost use Rattle.std.specs.Prelude.{◌≤◌, length, drop};
    ghost use Rattle.client_desks.specs.Lines.{IsLineRest, LineRest};

    ghost Value = { LineRest };

    ghost view = { λ inside. record { place = inside.place; rest = drop inside.handed_out inside.bytes.items } };

    ghost invariant = { λ inside. (inside.handed_out ≤ length inside.bytes.items)
        × IsLineRest (drop inside.handed_out inside.bytes.items) };
}

impl ClientLine {
    /// Nothing is left of a line.
    pub(crate) fn new(alloc: Global, place: ClientPlace) -> ClientLine
        ensures { result ≡ record { place = place; rest = [] } }
    {
        ClientLine {
            place,
            bytes: Vec::new(alloc),
            handed_out: 0,
        }
    }

    /// The place of the client that sent it.
    pub(crate) fn place(&self) -> ClientPlace
        ensures { result ≡ self.now.place }
    {
        self.place
    }

    /// Whether nothing is left.
    pub(crate) fn is_handed_out(&self) -> bool
        ensures { IsTrue result ↔ (self.now.rest ≡ []) }
    {
        self.handed_out == self.bytes.len()
    }

    /// Hands out as much as there is room for. Answers how many bytes.
    pub(crate) fn hand_out(&mut self, buf: &mut [u8]) -> usize
        ensures count { result ≡ min (length self.old.rest) (length buf.old) }
        ensures bytes { self.old.rest ≡ take result buf.new ++ self.new.rest }
        ensures one_line { AreOfOneLine result buf.new }
        ensures place { self.new.place ≡ self.old.place }
    {
        let rest = &self.bytes[self.handed_out..];
        let count = rest.len().min(buf.len());
        buf[..count].copy_from_slice(&rest[..count]);
        self.handed_out += count;
        count
    }

    /// Takes the first line of what a client sent, if it is whole. Nothing else is left then.
    pub(crate) fn take_from(
        &mut self,
        place: ClientPlace,
        lines: &mut LineBuffer,
    ) -> Result<NextLine, AllocError>
        ensures taken { IfOk result (λ next. TakesFirstLine next lines.old self.new.rest lines.new) }
        ensures refused { OnErr result (lines.new ≡ lines.old) }
        ensures none { OnErr result (self.new.rest ≡ []) }
        ensures place { self.new.place ≡ place }
    {
        self.place = place;
        self.handed_out = 0;
        lines.take_line(&mut self.bytes)
    }

    /// Lets go of what is left. The next line is to come from this place.
    pub(crate) fn clear(&mut self, place: ClientPlace)
        ensures { self.new ≡ record { place = place; rest = [] } }
    {
        self.place = place;
        self.bytes.clear();
        self.handed_out = 0;
    }
}
