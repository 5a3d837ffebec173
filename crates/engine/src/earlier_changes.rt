//! The changes before an engine's history. Contracts alone know them, and they take no memory.
ghost use Rattle.std.specs.Prelude.{◌≡◌, ◌++◌};
ghost use Rattle.commit_journal.specs.Journals.{changes_of};

use commit_journal::Journal;
use std::snapshot::Snapshot;
use transactions::Store;

/// The changes before an engine's history, those of the last fold outermost.
#[derive(Drop)]
pub(crate) enum EarlierChanges {
    /// Those that a journal decoded to as the store was opened.
    Decoded(Snapshot<Journal>),
    /// The earlier ones, and behind them all that a store accepted until its history was folded.
    Folded(Snapshot<EarlierChanges>, Snapshot<Store>),
}

impl EarlierChanges {
    ghost use Rattle.engine.specs.EarlierChanges.{changes_before};

    /// Those that a journal decodes to.
    pub fn of(journal: &Journal) -> EarlierChanges
        ensures { changes_before result ≡ changes_of journal.now }
    {
        EarlierChanges::Decoded(Snapshot::of(journal))
    }

    /// These, and behind them all of a store's history.
    pub fn with(&self, store: &Store) -> EarlierChanges
        ensures { changes_before result ≡ changes_before self.now ++ store.now.machine.accepted }
    {
        EarlierChanges::Folded(Snapshot::of(self), Snapshot::of(store))
    }
}
