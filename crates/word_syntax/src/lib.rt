//! Words of a line: where they are parted, and what reading one answers.
//!
//! [`first_part`] cuts bytes at their first separator. [`ParseError`] is why a word or a line was not read. What a parser
//! promises is said by `Reads` of `specs/Reads`: its answer is the value that the bytes spell, or they spell none, or
//! memory was refused.
#![tactic(auto)]

mod parse_error;
mod parts;

pub use parse_error::ParseError;
pub use parts::first_part;
