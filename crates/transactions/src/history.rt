//! The changes that were accepted since a store was opened, or its history was folded.
ghost use Rattle.std.specs.Prelude.{◌≡◌, ◌<◌, ◌≤◌, ◌+◌, ◌-◌, ◌++◌, ◌∷◌, [], length, drop, max, OnOk};
ghost use Rattle.std.specs.List.{AllByRecursion};
ghost use Rattle.transactions.specs.Histories.{IsShort};

use change_codec::EncodedChange;
use std::alloc::{AllocError, Global};
use std::marker::Model;
use std::mem;
use std::snapshot::Snapshot;

/// The changes that were accepted, in their order. Contracts know all of them. Retained in memory are the last ones,
/// down to those that were discarded.
pub(crate) struct ChangeHistory {
    all: Vec<Snapshot<EncodedChange>>,
    recent: Vec<EncodedChange>,
}

impl Drop for ChangeHistory {
    // one drop for all that own a history, whose proofs see no more of it than that
    fn drop(self) {
        let ChangeHistory { all: _, recent: _ } = self;
    }
}

impl Model for ChangeHistory {
    ghost use Rattle.std.specs.Prelude.{◌-◌, length, min, vec_capacity};
    ghost use Rattle.transactions.specs.Histories.{Changes, changes_code, values_of, AreLastOfAll};

    ghost Value = { Changes };

    ghost coded = { changes_code };

    ghost view = { λ inside. record {
      changes = values_of inside.all.items;
      discard_flushed = length inside.all.items - length inside.recent.items;
      spare =
          min (vec_capacity inside.all - length inside.all.items)
          (vec_capacity inside.recent - length inside.recent.items);
    } };

    ghost invariant = { λ inside. AreLastOfAll inside.all.items inside.recent.items };
}

impl ChangeHistory {
    /// No change.
    pub fn new(alloc: Global) -> ChangeHistory
        ensures changes { result.changes ≡ [] }
        ensures retained { result.discard_flushed ≡ 0 }
    {
        ChangeHistory {
            all: Vec::new(alloc),
            recent: Vec::new(alloc),
        }
    }

    /// How many changes there are.
    pub fn len(&self) -> usize
        ensures all { result ≡ length self.now.changes }
        ensures retained { self.now.discard_flushed ≤ result }
    {
        self.all.len()
    }

    /// How many changes are retained in memory.
    pub fn retained(&self) -> usize
        ensures { result + self.now.discard_flushed ≡ length self.now.changes }
    {
        self.recent.len()
    }

    /// Reserves space for one change more.
    pub fn reserve(&mut self) -> Result<(), AllocError>
        ensures changes { self.new.changes ≡ self.old.changes }
        ensures retained { self.new.discard_flushed ≡ self.old.discard_flushed }
        ensures spare { OnOk result (0 < self.new.spare) }
    {
        self.all.reserve(1)?;
        self.recent.reserve(1)
    }

    /// Adds one change, for which space is reserved.
    pub fn push_reserved(&mut self, change: EncodedChange)
        requires spare { 0 < self.old.spare }
        requires short { IsShort change }
        ensures changes { self.new.changes ≡ self.old.changes ++ change ∷ [] }
        ensures retained { self.new.discard_flushed ≡ self.old.discard_flushed }
    {
        self.all.push_reserved(Snapshot::of(&change));
        self.recent.push_reserved(change);
    }

    /// The changes after the first `count`, none of which was discarded.
    pub fn after(&self, count: usize) -> &[EncodedChange]
        requires retained { self.now.discard_flushed ≤ count }
        requires there { count ≤ length self.now.changes }
        ensures changes { result.now ≡ drop count self.now.changes }
        ensures short { AllByRecursion IsShort result.now }
    {
        let discard_flushed = self.all.len() - self.recent.len();
        &self.recent[count - discard_flushed..]
    }

    /// Discards the first `count` changes, as far as they were not discarded before.
    pub fn discard_flushed(&mut self, count: usize)
        requires there { count ≤ length self.old.changes }
        ensures changes { self.new.changes ≡ self.old.changes }
        ensures retained { self.new.discard_flushed ≡ max self.old.discard_flushed count }
    {
        let gone = count.saturating_sub(self.all.len() - self.recent.len());
        let left = self.recent.len() - gone;
        self.recent.rotate_left(gone);
        self.recent.truncate(left);
    }

    /// Drops all changes, and hands out those that are retained. Takes no memory.
    pub fn clear(&mut self, alloc: Global) -> Vec<EncodedChange>
        ensures changes { self.new.changes ≡ [] }
        ensures retained { self.new.discard_flushed ≡ 0 }
        ensures recent { result.items ≡ drop self.old.discard_flushed self.old.changes }
    {
        self.all = Vec::new(alloc);
        mem::replace(&mut self.recent, Vec::new(alloc))
    }
}
