//! The frames between a broker and the program that serves its clients.
//!
//! A [`Frame`] is what the one says to the other of a client: that it came, what it sent or is answered, that it has
//! gone. [`write_frame`] writes a frame, and [`read_frame`] reads one, and no byte after it.
#![tactic(auto)]

mod frame;
mod frame_error;
mod frame_reader;
mod head;
pub mod laws;
mod piece;
mod place;

pub use frame::{Frame, write_frame};
pub use frame_error::FrameError;
pub use frame_reader::read_frame;
pub use piece::{PIECE_BYTES, Piece};
pub use place::{ClientPlace, LAST_PLACE};
