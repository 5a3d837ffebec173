//! For each hive the last change that names it.
ghost use Rattle.std.specs.Prelude.{◌≡◌, ◌+◌, ◌<◌, ◌^◌, ◌∷◌, [], ℕ, if◌then◌else◌, IfOk, length, replicate, slice_get};
ghost use Rattle.std.specs.Option.{option_map};
ghost use Rattle.commit_journal.specs.LastChangePerHive.{HasCounted, names};

use change_codec::EncodedChange;
use std::alloc::{AllocError, Global};

/// For each hive the number of the last counted change that has an operation on it, or 0 if there is none.
#[derive(Drop)]
pub struct LastChangePerHive {
    /// The numbers, in the hives' order.
    pub last: Vec<u64>,
}

impl LastChangePerHive {
    /// Of `hives` hives, none of which a change names.
    pub fn new(alloc: Global, hives: usize) -> Result<LastChangePerHive, AllocError>
        ensures { IfOk result (λ last_changes. last_changes.last.items ≡ replicate hives 0) }
    {
        let last = vec![in alloc; 0; hives]?;
        Ok(LastChangePerHive { last })
    }

    /// Sets the number of each hive that an operation of the change is on.
    pub fn count_one(&mut self, change: &EncodedChange, number: u64)
        ensures named { (i : ℕ) → slice_get self.new.last.items i ≡
            option_map (λ m. if names i change.now.ops then number else m) (slice_get self.old.last.items i) }
        ensures many { length self.new.last.items ≡ length self.old.last.items }
        ensures counts { (below : ℕ) → number ≡ below + 1 →
            HasCounted self.old.last.items below (change.now ∷ []) self.new.last.items }
    {
        name(&mut self.last, change, number);
    }

    /// Counts changes in. The first of them has the number `below + 1`.
    pub fn count_in(&mut self, below: u64, changes: &[EncodedChange])
        requires numbers { below + length changes.now < 2 ^ 64 }
        ensures { HasCounted self.old.last.items below changes.now self.new.last.items }
    {
        let mut number = below;
        for change in changes {
            number += 1;
            name(&mut self.last, change, number);
        }
    }
}

// sets the number of each hive that an operation of the change is on
fn name(last: &mut [u64], change: &EncodedChange, number: u64)
    ensures named { (i : ℕ) → slice_get last.new i ≡
        option_map (λ m. if names i change.now.ops then number else m) (slice_get last.old i) }
    ensures many { length last.new ≡ length last.old }
{
    let mut hives = change.hives();
    while let Some(hive) = hives.next() {
        let place = usize::from(hive);
        if place < last.len() {
            last[place] = number;
        }
    }
}
