//! A check of a store: what an opening finds on its disk, as a report for a person.
//!
//! [`check_store`] opens a store as a run does, and writes nothing to its disk. It prints the store's id and number, how
//! many hives it has, how much of the journal's room is used, what each hive's file lacks, and `whole`; or why the store
//! isn't opened, and what to do.
#![tactic(auto)]

mod advice;
mod check;
mod hive_lines;
mod store_lines;

pub use check::check_store;
