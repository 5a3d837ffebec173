//! A hive's two files as they are found, and as they are made.
//!
//! A hive lies in a primary file and a log. [`find`] reads them as an opening does. Of a clean primary file it reads
//! the base block and the bins data, and nothing of the log. Of an unclean one it reads those that the log repairs.
//! Both files are read in chunks of at most 65,536 bytes. Nothing is allocated by a number before that many bytes are
//! known to be there. Which tree the bins data encode doesn't matter here.
//!
//! [`make`] makes both anew, of a base block and bins data.
#![tactic(auto)]

mod contents;
mod creation;
mod files;
mod reader;

pub use crate::contents::HiveContents;
pub use crate::creation::{make, sector};
pub use crate::files::{BINS_AT, log_number, primary_number};
pub use crate::reader::find;
