//! Making and opening a store: the number and the trees that its files recover.
//!
//! [`create`] makes a store of some trees, at number 0, and [`create_from`] one of the hives in some files. Either
//! store has one hive more, for the outcomes of commits; [`create_layout_1`] makes one without.
//!
//! The journal and the hives are each read by themselves. Together they recover one number and one tree for each hive:
//! the tree in its files, with the changes of the journal above the hive's own number. [`open`] answers them, and
//! refuses files only if they recover nothing. Hives that were being written when the power went are repaired after
//! that, one device call a step. Whatever a crash leaves meanwhile recovers the same.
#![tactic(auto)]

mod creation;
mod discard;
mod found;
pub mod laws;
mod numbers;
mod opened;
mod reader;
mod recovery_result;
mod repair_steps;
mod replay;
mod replay_changes;
mod retained_changes;
mod store_opening;
mod store_read;
mod trees;

pub use creation::{create, create_at, create_from, create_layout_1};
pub use found::RecoveredStore;
pub use opened::{Opened, open};
pub use retained_changes::RetainedChanges;
pub use trees::named_trees;
