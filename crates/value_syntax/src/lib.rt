//! Values as people write them: a word for the type, such as `sz` or `dword`, and the text of the data.
//!
//! [`parse`] reads the two words of a command line, and [`write_datum`] writes a value as such words. Each value has
//! words: data that no other type word can show are `hex(T)`, with pairs of hex digits. What is written parses to the
//! same type and bytes ([`laws`]).
#![tactic(auto)]

mod characters;
mod datum;
mod hex_pairs;
pub mod laws;
mod numbers;
mod printer;
mod text_data;
mod type_word;

pub use datum::{Datum, parse, type_number};
pub use printer::write_datum;
