//! The log of a flush: the dirty pages of a hive, written before the primary file is (regf format, old
//! transaction log, "DIRT").
//!
//! [`write_steps`] gives the one encoding of a log in chunks, without keeping it whole. [`read`]
//! takes the logs that are whole and no others. [`DirtLog::apply_to`] repairs the bins data of a
//! primary file. A log is read only if the primary file isn't clean.
#![tactic(auto)]

mod file_contents;
pub mod laws;
mod pages;
mod prefixes;
mod reader;
mod repair;
mod steps;

pub use reader::{DirtLog, read};
pub use steps::{CHUNK_BYTES, LogSteps, write_steps};
