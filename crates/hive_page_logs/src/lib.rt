//! Logs of Windows 8 and before (regf format, old transaction log, "DIRT"), and the hives that they recover.
//!
//! [`read_pages`] reads a log: the pages of one write. [`newest_fitting`] chooses one by its time and its number.
//! [`recover_by_pages`] makes the file that has its pages. Files and logs are in memory.
#![tactic(auto)]

mod choice;
mod fault_text;
mod page_log;
mod recovered;

pub use choice::newest_fitting;
pub use page_log::{PageFault, PageLog, WholePageLog, read_pages};
pub use recovered::recover_by_pages;
