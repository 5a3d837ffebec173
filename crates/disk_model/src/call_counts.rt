//! How many calls of a disk there were.
ghost use Rattle.std.specs.Prelude.{◌≡◌, true};
ghost use Rattle.disk_model.specs.Plan.{no_calls, counted};

/// One call.
#[derive(Clone, Copy)]
pub(crate) struct MadeCall {
    /// It is a write, a cut or a sync.
    pub is_change: bool,
    /// It has failed.
    pub has_failed: bool,
}

/// How many calls of a disk there were, up to the greatest number of 64 bits.
#[derive(Clone, Copy, PartialEq)]
pub struct CallCounts {
    /// All calls.
    pub calls: u64,
    /// The writes, cuts and syncs, also those that failed.
    pub changes: u64,
    /// The calls that failed.
    pub failures: u64,
}

impl CallCounts {
    /// Before the first call.
    pub fn none() -> CallCounts
        ensures { result ≡ no_calls }
    {
        CallCounts {
            calls: 0,
            changes: 0,
            failures: 0,
        }
    }

    /// Whether each is as many as the other's.
    pub(crate) fn is(self, other: CallCounts) -> bool
        ensures { result ≡ true → self ≡ other }
    {
        self == other
    }

    /// With one call more.
    pub(crate) fn with(self, made: MadeCall) -> CallCounts
        ensures { result ≡ counted self made }
    {
        CallCounts {
            calls: self.calls.saturating_add(1),
            changes: self.changes.saturating_add(u64::from(made.is_change)),
            failures: self.failures.saturating_add(u64::from(made.has_failed)),
        }
    }
}
