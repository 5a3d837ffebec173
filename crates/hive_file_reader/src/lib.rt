//! Reading a hive's file by itself: the image or the tree that it holds, or why it holds none.
//!
//! [`read_image`] reads the base block and the bins data of a primary file, and no more. It judges them as those of a
//! clean hive, without a log. [`read_hive`] also loads the tree that they encode, and drops them before it gives the
//! tree. [`read_parts`] gives the first sector, and bins data that may not tile. [`load_file`] loads a file's bytes that
//! are in memory, and keeps the bins data; [`load_file_any_weight`] does so of a tree of any weight. [`read_file`] reads as many bytes of a file as it needs. The bins data are
//! read in chunks. Room for them grows by a chunk, or by a quarter of the bytes that are there: nothing is allocated by a
//! number of the file before that many bytes are there.
//!
//! What is promised: the block and the bins data are the file's, and the tree is the one that it holds. A refusal is
//! true of the file, or is want of memory. A refusal, but for want of memory, comes only if the file holds no hive
//! ([`laws`]). A reader that fails is reported apart.
#![tactic(auto)]

mod bytes;
mod file;
mod head;
mod hive;
pub mod laws;
mod parts;

pub use file::{FileHive, load_file, load_file_any_weight, read_file};
pub use hive::{ReadError, read_hive, read_image};
pub use parts::{FileParts, read_parts};
