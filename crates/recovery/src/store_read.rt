//! What an opening has read of a store.

use crate::replay::Replay;
use commit_journal::Journal;
use hive_flush::HiveFile;

/// What an opening has read of a store: its hives, its journal, and what the journal's changes make of the hives.
#[derive(Drop)]
pub(crate) struct StoreRead {
    /// The journal.
    pub journal: Journal,
    /// The hives in their order.
    pub hives: Vec<HiveFile>,
    /// The hives' trees, with the changes replayed.
    pub replay: Replay,
}
