//! How far long work has come, in a line on standard error that goes away when the work is done.
//!
//! A [`ProgressLine`] shows one stage of the work after another. It writes the line anew at most ten times a second,
//! and not at all if the work is done within half a second. [`WatchedReader`] is a reader whose line shows how much of
//! it was read, and [`WatchedDisk`] a disk whose line shows how much was moved. Nothing of the work depends on the
//! line: what can't be written of it is left out.
#![tactic(auto)]

mod line;
mod watched_disk;
mod watched_reader;
mod work_stage;

pub use line::ProgressLine;
pub use watched_disk::{Moved, WatchedDisk};
pub use watched_reader::WatchedReader;
pub use work_stage::{Work, WorkStage};
