//! The bytes of one frame.
ghost use Rattle.std.specs.Prelude.{◌≡◌, ◌≤◌, length};
ghost use Rattle.client_frames.specs.declared.piece.TheConstants.{PIECE_BYTES};

use std::marker::Model;

/// The most bytes of a frame, which are the most that wait for a client and direction.
pub const PIECE_BYTES: usize = 65_536;

/// The bytes of one frame: 1 to 65,536.
#[derive(Drop)]
pub struct Piece {
    bytes: Vec<u8>,
}

impl Model for Piece {
    ghost use Rattle.std.specs.Prelude.{◌≤◌, List, ℕ, length};
    ghost use Rattle.client_frames.specs.declared.piece.TheConstants.{PIECE_BYTES};

    ghost Value = { List ℕ };

    ghost view = { λ inside. inside.bytes.items };

    ghost invariant = { λ inside. (1 ≤ length inside.bytes.items) × (length inside.bytes.items ≤ PIECE_BYTES) };
}

impl Piece {
    /// These bytes, of which there are 1 to 65,536.
    pub fn new(bytes: Vec<u8>) -> Piece
        requires some { 1 ≤ length bytes.items }
        requires fits { length bytes.items ≤ PIECE_BYTES }
        ensures { result ≡ bytes.items }
    {
        Piece { bytes }
    }

    /// The bytes.
    pub fn bytes(&self) -> &[u8]
        ensures { result.now ≡ self.now }
    {
        self.bytes.as_slice()
    }

    /// The bytes, in the vector that holds them.
    pub fn into_bytes(self) -> Vec<u8>
        ensures { result.items ≡ self }
    {
        self.bytes
    }
}
