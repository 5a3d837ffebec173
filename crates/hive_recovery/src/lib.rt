//! Recovery of a hive that wasn't closed cleanly, from transaction logs of Windows 8.1 and later.
//!
//! [`read_log`] reads a log. [`plan`] chooses the entries that are applied, by numbers alone, within [`RecoveryLimits`]. [`carry_out`] makes the file
//! that has them. Files and logs are in memory.
#![tactic(auto)]

mod bins;
mod carrying;
pub mod laws;
mod limits;
mod log;
mod planning;
mod report;
mod sector;
mod sequence;

pub use bins::recovered_bins;
pub use carrying::{carry_out, file_of_parts};
pub use limits::{Reach, RecoveryLimits};
pub use log::{Log, LogHead, read_log};
pub use planning::{RecoveryPlan, plan};
pub use report::{EntryNumbers, LogEnding};
pub use sector::recovered as recovered_sector;
pub use sequence::{LogRun, is_below, missing_number, next_number};
