//! The elements that a journal was handed or has read. Only contracts read them, and they take no
//! memory.
ghost use Rattle.std.specs.Prelude.{◌≡◌, ◌++◌, ◌∷◌, []};

use change_codec::EncodedChange;
use std::snapshot::Snapshot;

/// The elements that a journal was handed or has read, the last one outermost.
#[derive(Drop)]
pub(crate) enum GhostLog {
    /// None.
    Nothing,
    /// One more.
    Then(Snapshot<GhostLog>, Snapshot<EncodedChange>),
    /// The same.
    Same(Snapshot<GhostLog>),
}

impl GhostLog {
    ghost use Rattle.commit_journal.specs.GhostLog.{logged_changes, logged_elements};
    ghost use Rattle.change_codec.specs.ModelChanges.{timed_element, timed_elements};

    /// One more.
    pub fn then(&mut self, element: &EncodedChange)
        ensures ghost_log { logged_elements self.new ≡ logged_elements self.old ++ timed_element element.now ∷ [] }
        ensures changes { logged_changes self.new ≡ logged_changes self.old ++ element.now ∷ [] }
    {
        *self = GhostLog::Then(Snapshot::of(self), Snapshot::of(element));
    }

    /// These elements and one more.
    pub fn with(&self, element: &EncodedChange) -> GhostLog
        ensures changes { logged_changes result ≡ logged_changes self.now ++ element.now ∷ [] }
    {
        GhostLog::Then(Snapshot::of(self), Snapshot::of(element))
    }

    /// The same elements.
    pub fn same(&self) -> GhostLog
        ensures ghost_log { logged_elements result ≡ logged_elements self.now }
        ensures changes { logged_changes result ≡ logged_changes self.now }
    {
        GhostLog::Same(Snapshot::of(self))
    }

    /// All of these, in their order.
    pub fn then_all(&mut self, elements: &[EncodedChange])
        ensures { logged_elements self.new ≡ logged_elements self.old ++ timed_elements elements.now }
    {
        for element in elements {
            self.then(element);
        }
    }
}
