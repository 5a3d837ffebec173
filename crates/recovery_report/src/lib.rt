//! A recovery of a hive that wasn't closed cleanly, and its report.
//!
//! [`recover`] tells what came of a hive's file and its logs: a new file's bytes, whether they are those of a whole hive, or why
//! there are none. [`write_steps`] prints what was found of the hive and of each log, and what was applied. [`write_ending`]
//! prints the last line, and [`write_result`] what a check prints of the result. Files are in memory.
#![tactic(auto)]

mod judgement;
mod outcome;
mod report;
mod report_text;

pub use judgement::{RecoveredFile, RecoveryOutcome, Wholeness};
pub use outcome::PagesRun;
pub use report::{LogReport, PagesReport, Recovery, recover};
pub use report_text::{write_ending, write_result, write_steps};
