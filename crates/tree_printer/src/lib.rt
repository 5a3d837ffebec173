//! The text of a registry tree: a line for its hive, a line for each key, and after it one for each of its values.
//!
//! [`write_tree`] writes it into any writer, a key at a time, in the order of paths: it is a sink of `key_walk`. It takes
//! no memory, so what was begun is written to its end if the writer takes it. It keeps nothing of the text: whoever calls it hands in a writer
//! with a buffer.
#![tactic(auto)]

mod key_path;
mod keys;
mod values;

pub use key_path::{write_key_path, write_path};
pub use keys::write_tree;
