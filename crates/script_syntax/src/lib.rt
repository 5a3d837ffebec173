//! The script language of the program: which lines there are, and how they are parsed.
//!
//! [`read_line`] parses the bytes of one line to a [`Line`], or refuses them. A line is understood whole or not at all.
//! Paths and names in it are texts of units ([`Text`]); whoever carries the line out judges if they may be names. The
//! replies to lines are `reply_lines`'.
//!
//! What is promised: bytes are parsed to a line exactly if the grammar has them as that line, and no bytes are two
//! lines ([`grammar`]).
#![tactic(auto)]

pub mod grammar;
mod lab_line;
mod lab_line_parser;
mod label;
mod line;
mod line_parser;
mod numbers;
mod requests;
mod served_line;
mod served_line_parser;
mod word_parser;
mod words;

pub use lab_line::{CrashTear, LabLine};
pub use label::{LONGEST_LABEL, Label};
pub use line::{KeyRef, Line, Request, Text};
pub use line_parser::read_line;
pub use served_line::ServedLine;
