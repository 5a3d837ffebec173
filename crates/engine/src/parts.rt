//! The parts of an engine.
ghost use Rattle.std.specs.Prelude.{◌≡◌, ◌≤◌};
ghost use Rattle.engine.specs.Parts.{IsSound};

use crate::earlier_changes::EarlierChanges;
use commit_journal::{Journal, LastChangePerHive};
use hive_flush::HiveFile;
use recovery::RetainedChanges;
use std::alloc::Global;
use transactions::Store;

/// The parts of an engine.
#[derive(Drop)]
pub(crate) struct Parts<D> {
    /// The allocator.
    pub alloc: Global,
    /// The disk: file 0 is the journal's, and the hives' files follow.
    pub disk: D,
    /// The journal.
    pub journal: Journal,
    /// The hives, in their order.
    pub hives: Vec<HiveFile>,
    /// What answers each event that makes no step.
    pub store: Store,
    /// The changes before the store's history, numbered from `base` + 1 on. Contracts alone know them.
    pub earlier: EarlierChanges,
    /// The number before the first of these changes.
    pub base: u64,
    /// Those of these changes that are retained.
    pub opened: RetainedChanges,
    /// For each hive the last durable change that names it.
    pub last_changes: LastChangePerHive,
}

impl<D> Parts<D> {
    /// How many hives calls may name.
    pub fn hives(&self) -> u8
        requires sound { IsSound self.now }
        ensures named { result ≡ self.now.store.machine.bounds.hives }
        ensures some { 1 ≤ result }
    {
        self.journal.hives()
    }

    /// The disk alone.
    pub fn into_disk(self) -> D
        ensures { result ≡ self.disk }
    {
        self.disk
    }
}
