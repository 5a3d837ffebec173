//! The lines of a script as calls of a registry.
//!
//! A [`Script`] is what a script has between two lines: its moment, its sessions, and the transactions that its labels
//! name. [`Script::answer`] puts a line to the registry, as a [`Caller`] has it, and answers the reply. Who reads the lines
//! and where the replies go is left to the crates above.
#![tactic(auto)]

mod caller;
mod labels;
mod script;
mod session_lines;
mod slots;
mod store_questions;
mod transaction_lines;

pub use caller::{Caller, number_told};
pub use script::{LineAnswer, Script};
pub use slots::Slots;
