//! Replies that are gathered for one frame.
ghost use Rattle.std.specs.Prelude.{◌≡◌, ◌↔◌, ◌-◌, ◌<◌, ◌++◌, [], false, length, min, take, IfOk, OnErr, MatchOption, IsTrue};
ghost use Rattle.client_frames.specs.declared.piece.TheConstants.{PIECE_BYTES};

use client_frames::{PIECE_BYTES, Piece};
use std::alloc::{AllocError, Global};
use std::marker::Model;
use std::mem;

/// Replies that are gathered for one frame: at most 65,536 bytes.
#[derive(Drop)]
pub struct ReplyBuffer {
    bytes: Vec<u8>,
}

impl Model for ReplyBuffer {
    ghost use Rattle.std.specs.Prelude.{◌≤◌, List, ℕ, length};
    ghost use Rattle.client_frames.specs.declared.piece.TheConstants.{PIECE_BYTES};

    ghost Value = { List ℕ };

    ghost view = { λ inside. inside.bytes.items };

    ghost invariant = { λ inside. length inside.bytes.items ≤ PIECE_BYTES };
}

impl ReplyBuffer {
    /// No bytes.
    pub fn new(alloc: Global) -> ReplyBuffer
        ensures { result ≡ [] }
    {
        ReplyBuffer {
            bytes: Vec::new(alloc),
        }
    }

    /// Whether no byte more is taken.
    pub fn is_full(&self) -> bool
        ensures full { IsTrue result ↔ (length self.now ≡ PIECE_BYTES) }
        ensures room { result ≡ false → length self.now < PIECE_BYTES }
    {
        self.bytes.len() == PIECE_BYTES
    }

    /// Gathers as many of these bytes as there is room for. Answers how many.
    pub fn gather(&mut self, bytes: &[u8]) -> Result<usize, AllocError>
        ensures count { IfOk result (λ count. count ≡ min (length bytes.now) (PIECE_BYTES - length self.old)) }
        ensures gathered { IfOk result (λ count. self.new ≡ self.old ++ take count bytes.now) }
        ensures refused { OnErr result (self.new ≡ self.old) }
    {
        let count = bytes.len().min(PIECE_BYTES - self.bytes.len());
        self.bytes.extend_from_slice(&bytes[..count])?;
        Ok(count)
    }

    /// Takes what was gathered, or nothing if there are no bytes.
    pub fn take(&mut self) -> Option<Piece>
        ensures taken { MatchOption result (self.old ≡ []) (λ piece. piece ≡ self.old) }
        ensures left { self.new ≡ [] }
    {
        if self.bytes.is_empty() {
            return None;
        }
        let empty = Vec::new(*self.bytes.allocator());
        Some(Piece::new(mem::replace(&mut self.bytes, empty)))
    }

    /// Puts back what was taken, in the place of what is there.
    pub fn put_back(&mut self, piece: Piece)
        ensures { self.new ≡ piece }
    {
        self.bytes = piece.into_bytes();
    }

    /// Lets go of all bytes, and keeps the memory of a piece for others.
    pub fn reuse(&mut self, piece: Piece)
        ensures { self.new ≡ [] }
    {
        self.bytes = piece.into_bytes();
        self.bytes.clear();
    }
}
