//! The dump of a hive's file: the registry tree that it holds, as text, or why it holds none.
//!
//! [`dump`] reads a hive's primary file as `hive_file_reader` does, as hive 0, and writes the text of its tree or the
//! refusal's line. Nothing is written before the whole tree is in memory.
//!
//! What is promised: if every write succeeds, what was written is the text of the tree that the file holds, or of a
//! refusal that is true of it. A refusal, but for want of memory, comes only if the file holds no hive
//! ([`hive_file_reader::laws`]).
#![tactic(auto)]

mod output;

pub use output::{DumpError, dump};
