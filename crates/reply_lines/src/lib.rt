//! The replies to the lines of a script, how a run went, and names and data as text.
//!
//! The reply to a line is a [`ReplyLine`], which writes its text into any writer without taking memory. So an accepted
//! change is always reported. [`Status`] is how a run of the program went. [`write_name`] and [`write_data`] write a
//! name and the data of a value as replies and printed trees have them.
//!
//! What is promised: a reply has one text, and a name and data have one.
#![tactic(auto)]

mod printer;
mod reply;
mod status;

pub use printer::{write_data, write_name};
pub use reply::ReplyLine;
pub use status::Status;
