//! What an opening found of a store.

use crate::retained_changes::RetainedChanges;
use commit_journal::{Journal, LastChangePerHive};
use hive_flush::HiveFile;
use reg_tree::Trees;

/// What an opening found of a store: its journal and hives, and what they recover together.
#[derive(Drop)]
pub struct RecoveredStore {
    /// The journal as it was opened, with nothing under way.
    pub journal: Journal,
    /// The hives in their order, with nothing under way.
    pub hives: Vec<HiveFile>,
    /// The trees that are recovered.
    pub trees: Trees,
    /// The number that is recovered.
    pub number: u64,
    /// Of the changes that the journal decodes to, those that some hive lacks.
    pub opened: RetainedChanges,
    /// The number before the first of all these changes, or the recovered number if there is none.
    pub base: u64,
    /// For each hive the last of all changes of the journal that names it.
    pub last_changes: LastChangePerHive,
}
