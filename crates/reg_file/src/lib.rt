//! Registration files (.reg), such as registry editors exchange.
//!
//! [`parse`] turns the bytes of a file into its statements, up to the first fault. A [`Statement`] is what the file says:
//! the text of a path, the name, type and data of a value. Whoever carries it out judges if names may be such, and
//! finds the hive that a path begins with.
//!
//! What is promised: the statements are those that the file's lines spell by the grammar of `specs/Grammar`, in order and
//! with the numbers of their lines; a file of the grammar is parsed to its statements; and no file is two ([`laws`]).
#![tactic(auto)]

mod blanks;
mod code_page;
mod fault;
mod file;
mod header;
mod hex_number;
mod key_line;
pub mod laws;
mod line_scan;
mod lines;
mod list;
mod quote;
mod scan;
mod statement;
mod text;
mod turn;
mod value_line;

pub use fault::{Fault, FaultKind};
pub use file::{RegFile, Statements, parse};
pub use statement::{NumberedStatement, Statement};
pub use text::{Utf16Text, ValueData};
