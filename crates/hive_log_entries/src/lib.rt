//! The entries of a transaction log of Windows 8.1 and later (regf format, new transaction log, "HvLE").
//!
//! [`read_entry`] answers which entry stands at a place of a log, or why there is none. [`entries`] reads those of a
//! whole log, from the first on. The bytes of an entry
//! stay in the log.
#![tactic(auto)]

mod entry;
mod entry_end;
mod entry_tests;
pub mod laws;
mod log_reader;
mod pages;

pub use entry::{LogEntry, read_entry};
pub use entry_end::{EntryEnd, LogEnd};
pub use log_reader::{FIRST_ENTRY_AT, LogEntries, entries};
pub use pages::PageReference;
