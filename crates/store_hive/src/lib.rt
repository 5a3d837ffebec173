//! The tree of one hive of a store, as its files recover it, without the other hives.
//!
//! [`named_tree`] answers the tree of a hive that calls name, and [`outcome_tree`] that of the outcomes of commits. The
//! journal and the hive's own two files are synced and read, and no other file is. So a read of one hive costs what the
//! journal and this hive cost, whatever other hives the store has, and damage of another hive isn't seen. What is
//! answered is the tree that an opening of the whole store recovers at the hive's place
//! ([`laws::as_the_store_recovers`]).
#![tactic(auto)]

mod discard;
mod held_tree;
mod hive_replay;
mod journal_scan;
pub mod laws;
mod led_tree;
mod recovered_tree;
mod replay_changes;

pub use recovered_tree::{named_tree, outcome_tree};
