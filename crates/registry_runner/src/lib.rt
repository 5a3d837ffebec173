//! The run of a script over the store that is on a disk, through registries.
//!
//! [`run`] opens the store, reads a script line by line and writes the reply to each. Each line is a call of the
//! registry, or several. The script's thread is its one caller, and a flusher has a thread of its own beside it. Where
//! the history is folded, a new registry follows. What is written is what `script_runner` plays over an engine, byte
//! for byte, but for the lines that fold.
#![tactic(auto)]

mod disk_run;
mod gate;
mod history_use;
mod lines;
mod part_run;
mod parts;
mod run_end;

pub use disk_run::{run, run_unread};
