//! The history of a store: how long it may be, which of its changes are retained in memory, and its fold.
ghost use Rattle.std.specs.Prelude.{◌≡◌, ◌≤◌, ◌-◌, drop, length, max};
ghost use Rattle.std.specs.List.{AllByRecursion};
ghost use Rattle.store_model.specs.Machine.{folded, last_number, with_history};
ghost use Rattle.transactions.specs.Histories.{IsShort};

use super::Store;
use crate::commit_log::CommitLog;
use change_codec::EncodedChange;
use std::snapshot::Snapshot;

impl Store {
    /// How many changes the history may have.
    pub fn history_limit(&self) -> u64
        ensures { result ≡ self.now.machine.bounds.changes }
    {
        self.bounds.changes
    }

    /// How many changes the history has: those accepted since the opening or the last fold.
    pub fn history_len(&self) -> u64
        ensures { result ≡ length self.now.machine.accepted }
    {
        self.history.len() as u64
    }

    /// Sets how many changes the history may have: not fewer than it has.
    pub fn limit_history(&mut self, limit: u64)
        requires there { length self.old.machine.accepted ≤ limit }
        ensures machine { self.new.machine ≡ with_history limit self.old.machine }
        ensures retained { self.new.retained ≡ self.old.retained }
    {
        self.bounds.changes = limit;
    }

    /// The accepted changes with numbers above this one, none of which was discarded.
    pub fn above(&self, number: u64) -> &[EncodedChange]
        requires retained { self.now.retained ≤ number }
        requires there { number ≤ last_number self.now.machine }
        ensures changes { result.now
            ≡ drop (number - self.now.machine.before) self.now.machine.accepted }
        ensures short { AllByRecursion IsShort result.now }
    {
        self.history.after((number - self.before) as usize)
    }

    /// The number above which changes are retained in memory.
    pub fn retained(&self) -> u64
        ensures { result ≡ self.now.retained }
    {
        self.table.number() - self.history.retained() as u64
    }

    /// Discards the changes up to this number: they are no longer retained.
    pub fn discard_flushed(&mut self, number: u64)
        requires there { number ≤ last_number self.old.machine }
        ensures machine { self.new.machine ≡ self.old.machine }
        ensures retained { self.new.retained ≡ max self.old.retained number }
    {
        self.history
            .discard_flushed(number.saturating_sub(self.before) as usize);
    }

    /// Folds the history, if each accepted change is durable: the trees of now are those of the opening from then on,
    /// and no change was accepted since. Hands out the changes that were retained, in their order. Takes no memory.
    pub fn fold(&mut self) -> Vec<EncodedChange>
        requires all_durable { last_number self.old.machine ≤ self.old.machine.durable }
        ensures machine { self.new.machine ≡ folded self.old.machine }
        ensures retained { self.new.retained ≡ last_number self.old.machine }
        ensures changes { result.items ≡ drop (self.old.retained - self.old.machine.before)
            self.old.machine.accepted }
    {
        let recent = self.history.clear(self.alloc);
        self.opened = Snapshot::of(self.table.trees());
        self.before = self.table.number();
        self.commits = CommitLog::Nothing;
        recent
    }
}
