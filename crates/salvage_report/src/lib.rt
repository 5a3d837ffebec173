//! Prints what is left of a damaged hive's file: keys and values as an export prints them, and a line for each loss.
//!
//! [`DamagedHive::opened`] mends a file's bytes. [`print_reg`], [`print_json`] and [`print_tsv`] print its keys. Of a whole hive
//! they print just what an export does, and tell nothing.
#![tactic(auto)]

mod damaged_hive;
mod forms;
mod loss_text;
mod paths;
mod printer;
mod seeker;
mod totals;

pub use crate::damaged_hive::{DamagedHive, HiveState};
pub use crate::forms::{ReportError, is_found, print_json, print_reg, print_tsv};
pub use crate::loss_text::{write_gap, write_notes, write_totals};
pub use crate::printer::{PrintError, SalvagePrinter};
pub use crate::totals::Totals;
