//! Changes with their numbers.
ghost use Rattle.std.specs.Prelude.{◌≡◌, ◌+◌, ◌++◌, ◌∷◌, ◌≤◌, [], ℕ, drop, length, OnOk};

use change_codec::EncodedChange;
use std::alloc::{AllocError, Global};

/// Changes with their numbers, in an order. An engine holds those that some hive lacked as the store was opened, or as
/// its history was folded.
#[derive(Drop)]
pub struct RetainedChanges {
    /// The numbers, in that order.
    numbers: Vec<u64>,
    /// The changes, as many.
    changes: Vec<EncodedChange>,
    ghost many: { length numbers.items ≡ length changes.items },
}

impl RetainedChanges {
    ghost use Rattle.commit_journal.specs.Numbered.{changes_in, numbered};
    ghost use Rattle.recovery.specs.Retained.{AreAscending, HasRoom, IsPlaceAbove, above_number, count_lacked, numbered_changes};

    /// No changes.
    pub fn new(alloc: Global) -> RetainedChanges
        ensures { numbered_changes result ≡ [] }
    {
        RetainedChanges {
            numbers: Vec::new(alloc),
            changes: Vec::new(alloc),
        }
    }

    /// Makes room for this many more.
    pub fn reserve(&mut self, count: usize) -> Result<(), AllocError>
        ensures room { OnOk result (HasRoom count self.new) }
        ensures same { numbered_changes self.new ≡ numbered_changes self.old }
    {
        self.numbers.reserve(count)?;
        self.changes.reserve(count)
    }

    /// Puts a change with its number behind the others. Takes no memory.
    pub fn push_reserved(&mut self, number: u64, change: EncodedChange)
        requires { HasRoom 1 self.old }
        ensures changes { numbered_changes self.new ≡ numbered_changes self.old ++ (number, change) ∷ [] }
        ensures room { (more : ℕ) → HasRoom (more + 1) self.old → HasRoom more self.new }
    {
        self.numbers.push_reserved(number);
        self.changes.push_reserved(change);
    }

    /// Puts changes with consecutive numbers behind the others; the first one has the number after this. Takes no
    /// memory.
    pub fn append_reserved(&mut self, number: u64, changes: Vec<EncodedChange>)
        requires room { HasRoom (length changes.items) self.old }
        requires numbers { number + length changes.items ≤ u64.MAX }
        ensures { numbered_changes self.new
            ≡ numbered_changes self.old ++ numbered number changes.items }
    {
        let mut last = number;
        for change in changes {
            last += 1;
            self.push_reserved(last, change);
        }
    }

    /// The changes with numbers above this, if the numbers ascend.
    pub fn above(&self, number: u64) -> &[EncodedChange]
        ensures { AreAscending (numbered_changes self.now) →
            result.now ≡ changes_in (above_number number (numbered_changes self.now)) }
    {
        let place = self.place_above(number);
        &self.changes[place..]
    }

    /// Keeps only the changes with numbers above this, if the numbers ascend. The others are dropped.
    pub fn discard_to(&mut self, number: u64)
        ensures { AreAscending (numbered_changes self.old) → numbered_changes self.new
            ≡ above_number number (numbered_changes self.old) }
    {
        let place = self.place_above(number);
        discard_first(&mut self.numbers, place);
        discard_first(&mut self.changes, place);
    }

    /// How many of the changes a hive lacks that has this number.
    pub fn count_lacked(&self, hive: u8, number: u64) -> usize
        ensures { result ≡ count_lacked hive number (numbered_changes self.now) }
    {
        let mut count = 0;
        for (place, change) in self.changes.iter().enumerate() {
            if self.numbers[place] > number && change.is_on(hive) {
                count += 1;
            }
        }
        count
    }

    // the place of the first change with a number above this, if the numbers ascend
    fn place_above(&self, number: u64) -> usize
        ensures bound { result ≤ length self.now.numbers.items }
        ensures place { AreAscending (numbered_changes self.now) →
            IsPlaceAbove number self.now.numbers.items result }
    {
        self.numbers.partition_point(|at| *at <= number)
    }
}

// drops the first `count` items
fn discard_first<T: Drop>(items: &mut Vec<T>, count: usize)
    requires { count ≤ length items.old.items }
    ensures { items.new.items ≡ drop count items.old.items }
{
    let rest = items.len() - count;
    items.rotate_left(count);
    items.truncate(rest);
}
