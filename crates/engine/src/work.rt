//! What an engine has to do: which of its steps aren't idle. No question takes memory.
ghost use Rattle.std.specs.Prelude.{◌≡◌, ◌↔◌, ℕ, ◌<◌, ◌≤◌, ◌-◌, drop, false, true, length, map, IfErr, IfNone, IfOk, IfSome};
ghost use Rattle.store_model.specs.Machine.{last_number};
ghost use Rattle.engine.specs.Discards.{AreRetainedAfter};
ghost use Rattle.engine.specs.EarlierChanges.{changes_before};
ghost use Rattle.engine_invariant.specs.Idle.{HiveIsFlushed};
ghost use Rattle.engine_invariant.specs.Prefixes.{view_of};
ghost use Rattle.engine_invariant.specs.Progress.{HasPending};
ghost use Rattle.engine.specs.Parts.{IsSound};
ghost use Rattle.engine.specs.Work.{AreFlushed, IsNextAround};

use crate::parts::Parts;
use change_codec::EncodedChange;

impl<D> Parts<D> {
    /// Whether some accepted change isn't durable yet.
    pub fn has_pending(&self) -> bool
        ensures { (result ≡ true) ↔ HasPending self.now.store.machine }
    {
        self.store.durable() < self.store.last_number()
    }

    /// The next hive that has something to flush, after `after` and around.
    pub fn hive_with_work(&self, after: u8) -> Option<u8>
        requires sound { IsSound self.now }
        ensures some { IfSome result (λ hive. IsNextAround self.now.store.machine self.now.base
            (changes_before self.now.earlier) (map view_of self.now.hives.items) after hive) }
        ensures none { IfNone result (AreFlushed self.now.store.machine self.now.base
            (changes_before self.now.earlier) (map view_of self.now.hives.items)
            0 (length (map view_of self.now.hives.items))) }
    {
        let count = self.journal.all_hives();
        let next = place_behind(after, count);
        match self.first_with_work(next, count) {
            Some(hive) => Some(hive),
            None => self.first_with_work(0, next),
        }
    }

    /// The accepted changes after a number; or, if some of them are no longer retained, the number after which they are.
    pub fn changes_after(&self, number: u64) -> Result<&[EncodedChange], u64>
        requires sound { IsSound self.now }
        requires there { number ≤ last_number self.now.store.machine }
        ensures kept { IfOk result (λ changes. (self.now.store.machine.before ≤ number)
            × (changes.now ≡ drop (number - self.now.store.machine.before) self.now.store.machine.accepted)) }
        ensures gone { IfErr result (AreRetainedAfter self.now.store.machine self.now.base
            (changes_before self.now.earlier) (map view_of self.now.hives.items) number) }
    {
        let retained = self.store.retained();
        if number < retained {
            return Err(retained);
        }
        Ok(self.store.above(number))
    }

    // the first hive from `from` to before `to` that has something to flush
    fn first_with_work(&self, from: u8, to: u8) -> Option<u8>
        requires sound { IsSound self.now }
        requires there { to ≤ length self.now.hives.items }
        ensures some { IfSome result (λ hive. (from ≤ hive) × (hive < to)
            × ¬ (HiveIsFlushed self.now.store.machine self.now.base
            (changes_before self.now.earlier) (map view_of self.now.hives.items) hive)
            × AreFlushed self.now.store.machine self.now.base (changes_before self.now.earlier)
            (map view_of self.now.hives.items) from hive) }
        ensures none { IfNone result (AreFlushed self.now.store.machine self.now.base
            (changes_before self.now.earlier) (map view_of self.now.hives.items) from to) }
    {
        for hive in from..to {
            if self.has_work(usize::from(hive)) {
                return Some(hive);
            }
        }
        None
    }

    // whether a step of a hive's flush has something to do
    fn has_work(&self, place: usize) -> bool
        requires sound { IsSound self.now }
        requires there { place < length self.now.hives.items }
        ensures { (result ≡ false) ↔ HiveIsFlushed self.now.store.machine self.now.base
            (changes_before self.now.earlier) (map view_of self.now.hives.items) place }
    {
        if !self.hives[place].is_at_rest() {
            return true;
        }
        self.hives[place].applied() < self.last_changes.last[place]
    }
}

// the index after `after`, or `count` at the end
fn place_behind(after: u8, count: u8) -> u8
    ensures within { result ≤ count }
    ensures behind { (j : ℕ) → j < count → after < j → result ≤ j }
    ensures before { (j : ℕ) → j < result → j ≤ after }
    ensures from { (j : ℕ) → j < count → result ≤ j → after < j }
{
    if after < count { after + 1 } else { count }
}
