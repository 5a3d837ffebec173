//! A check of a hive's file: the fields of its base block, what it has, and whether it is whole or where it isn't.
//!
//! [`check_hive`] reads a hive's primary file and prints a report for a person: the base block's fields, clean or not;
//! cells and free bytes; keys, values and weight; and `whole`, or the first fault with its place in the file and what to
//! do. Beside the file's bytes it takes memory for a key at a time, so the tree may have any weight.
//!
//! What is promised: the report is true of the file ([`check_hive`]), and it ends with `whole` only if the file is a
//! clean hive of a tree within the limits. If it ends otherwise, but for want of memory, the file is none ([`laws`]).
#![tactic(auto)]

mod advice;
mod block_report;
mod block_text;
mod cell_counts;
mod check;
mod finding;
mod finding_text;
mod key_counts;
pub mod laws;

pub use block_report::{BlockReport, is_log};
pub use cell_counts::{CellCounts, TileFault};
pub use check::{CheckError, check_hive, write_report};
pub use finding::{Finding, HiveReport, report_of};
pub use finding_text::{write_reason, write_unread};
pub use key_counts::KeyCounts;
