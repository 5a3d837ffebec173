//! The commits of a history. Contracts alone know them, and they take no memory.
ghost use Rattle.std.specs.Prelude.{◌≡◌, ◌++◌, ◌∷◌, []};
ghost use Rattle.commit_outcomes.specs.Units.{unit_name};

use std::snapshot::Snapshot;
use uuid::Uuid;

/// The commits of a history, the last one outermost.
#[derive(Drop)]
pub(crate) enum CommitLog {
    /// None.
    Nothing,
    /// One more: its number, and its unit of work.
    Then(Snapshot<CommitLog>, Snapshot<u64>, Snapshot<Uuid>),
}

impl CommitLog {
    ghost use Rattle.transactions.specs.CommitLogs.{commits_in};

    /// These, and one more.
    pub fn with(&self, number: u64, unit: &Uuid) -> CommitLog
        ensures { commits_in result ≡ commits_in self.now ++ (number, unit_name unit.now) ∷ [] }
    {
        CommitLog::Then(
            Snapshot::of(self),
            Snapshot::of(&number),
            Snapshot::of(unit),
        )
    }
}
