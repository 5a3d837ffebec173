//! The parts of the program: a script over a store.
//!
//! [`play`] reads a script line by line, and writes the reply to each line, over a store of its own on a disk in
//! memory. What it writes is stated by the grammar of `script_syntax`, the answers by the machine of `store_model`,
//! which knows no bytes. `specs/Scripts` states what a line asks of the machine, and `specs/Plays` states the text.
//!
//! The parts of a run are public, for other kinds of runs. [`begin_on`] makes the store that a script's first line asks
//! for, on a disk in memory that fails as a plan says. An [`Interpreter`] answers one line after another. The loop over
//! the lines is that of `script_loop`.
#![tactic(auto)]

mod interpreter;
mod labels;
mod operation;
mod replies;
mod runner;
mod store_setup;

pub use interpreter::Interpreter;
pub use labels::Labels;
pub use operation::{Operation, operation_of};
pub use replies::reply_of;
pub use runner::{is_refusal, play};
pub use store_setup::{begin_on, make_journal_room};
