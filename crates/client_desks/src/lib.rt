//! Where what clients send waits for their sessions.
//!
//! Each client has a [`Desk`]. [`read_frames`] puts what the broker says on the desks of [`Desks`]. A session takes its
//! lines by a [`DeskReader`] and answers by a [`DeskWriter`]. [`Units`] tells which units of work are active, and where.
#![tactic(auto)]

mod client_line;
mod desk;
mod desk_reader;
mod desk_writer;
mod desks;
mod frame_output;
mod frames;
mod line_buffer;
mod order;
mod piece_writer;
mod reply_buffer;
mod slot;
mod tray;
mod unit_table;
mod units;
mod visit;

pub use desk::Desk;
pub use desk_reader::DeskReader;
pub use desk_writer::{DeskSink, DeskWriter};
pub use desks::{Desks, MOST_CLIENTS};
pub use frames::{FramesEnd, read_frames};
pub use line_buffer::{LINE_BYTES, LineBuffer, NextLine};
pub use order::{Arrival, Bookmark, InputEnd, NewsWait, Rest};
pub use piece_writer::{PieceSink, PieceWriter};
pub use reply_buffer::ReplyBuffer;
pub use unit_table::{ActiveUnit, UnitRefusal, UnitTable};
pub use units::Units;
