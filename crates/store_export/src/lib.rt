//! Prints the keys and values of a store or of a hive's file: as a registration file, as lines of JSON, or as lines of
//! fields between tabs.
//!
//! [`export_store`] prints the trees that an opening of a store finds, and writes nothing to its disk. [`export_hive`]
//! prints a clean hive's file key by key, whatever it weighs. Either prints all, or one key with all below it. What a
//! file has beside that key and beside the way to it may be damaged. If something is refused, its line alone is printed.
#![tactic(auto)]

mod hive;
mod hive_part;
mod lines;
mod part;
mod report;
mod request;
mod store;
mod trees;

pub use hive::export_hive;
pub use reg_export::Encoding;
pub use report::ExportError;
pub use request::{ExportRequest, Form, Selection};
pub use store::export_store;
