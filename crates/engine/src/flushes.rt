//! The flush of one hive.
ghost use Rattle.std.specs.Prelude.{◌≡◌, ◌↔◌, ◌<◌, ◌≤◌, ℕ, false, length, map, slice_get, None, Some, IfErr, Ok, OnOk};
ghost use Rattle.refusals.specs.declared.refusal.Refusal.TheVariants.{NoMemory};
ghost use Rattle.disk_model.specs.FileState.{FileState};
ghost use Rattle.hive_flush.specs.HiveStates.{file_choice, memory_of};
ghost use Rattle.hive_flush.specs.declared.hive.HiveFile.{HiveFile};
ghost use Rattle.engine.specs.EarlierChanges.{changes_before};
ghost use Rattle.engine_invariant.specs.Answers.{reply_to};
ghost use Rattle.engine_invariant.specs.Idle.{HasAll, HiveIsFlushed};
ghost use Rattle.engine_invariant.specs.Prefixes.{AreOnDisk, view_of};
ghost use Rattle.engine_invariant.specs.Progress.{FlushesOn, IsNotRefused, flush_of};
ghost use Rattle.disk_model.specs.declared.progress.Progress.TheVariants as Progress;
ghost use Rattle.engine.specs.RetainedChanges.{HaveUpTo};
ghost use Rattle.engine.specs.Events.{StepAdvances, PartsStep};
ghost use Rattle.engine.specs.Parts.{IsSound};
ghost use Rattle.store_model.specs.declared.event.Event.TheVariants as Event;

use crate::parts::Parts;
use disk_model::{Disk, Progress};
use hive_flush::HiveFile;
use refusals::Refusal;

impl<D: Disk> Parts<D> {
    /// A step of a hive's flush: the next call of the flush that is under way, or the first of a flush of what the hive
    /// lacks.
    pub fn flusher_step(&mut self, hive: u8) -> Result<Progress, Refusal>
        requires sound { IsSound self.old }
        ensures continues { PartsStep D.state_at D.clock D.failures D.faithful
            (Event.FlusherStep hive) (reply_to result) self.old self.new }
        ensures advances { StepAdvances (Event.FlusherStep hive) (reply_to result) self.old self.new }
        ensures idle { self.old.store.machine.faulted ≡ false → (result ≡ Ok Progress.Idle) ↔
            HiveIsFlushed self.old.store.machine self.old.base (changes_before self.old.earlier)
            (map view_of self.old.hives.items) hive }
    {
        self.check_not_faulted()?;
        let place = usize::from(hive);
        if place >= self.hives.len() {
            return Err(Refusal::NotFound);
        }
        if self.hives[place].is_at_rest() {
            return self.begin_flush(place);
        }
        self.flush(place)
    }

    // the first step of a flush of a hive at rest, if its files lack a durable change
    fn begin_flush(&mut self, place: usize) -> Result<Progress, Refusal>
        requires sound { IsSound self.old }
        requires works { self.old.store.machine.faulted ≡ false }
        requires there { place < length self.old.hives.items }
        requires rest { (hive : HiveFile) → slice_get self.old.hives.items place ≡ Some hive →
            (file_choice hive).next ≡ None }
        ensures continues { PartsStep D.state_at D.clock D.failures D.faithful
            (Event.FlusherStep place) (reply_to result) self.old self.new }
        ensures advances { StepAdvances (Event.FlusherStep place) (reply_to result) self.old self.new }
        ensures idle { (hive : HiveFile) → slice_get self.old.hives.items place ≡ Some hive →
            (result ≡ Ok Progress.Idle) ↔ HasAll self.old.store.machine self.old.base
            (changes_before self.old.earlier) place (view_of hive) }
    {
        if self.hives[place].applied() >= self.last_changes.last[place] {
            return Ok(Progress::Idle);
        }
        self.absorb(place)?;
        self.flush(place)
    }

    // a hive at rest absorbs into memory the durable changes that it lacks
    fn absorb(&mut self, place: usize) -> Result<(), Refusal>
        requires sound { IsSound self.old }
        requires works { self.old.store.machine.faulted ≡ false }
        requires there { place < length self.old.hives.items }
        requires rest { (hive : HiveFile) → slice_get self.old.hives.items place ≡ Some hive →
            (file_choice hive).next ≡ None }
        ensures sound { IsSound self.new }
        ensures on_disk { (state : ℕ → FileState) →
            AreOnDisk self.old.journal self.old.hives.items state →
            AreOnDisk self.new.journal self.new.hives.items state }
        ensures rest { self.new ≡ record self.old { hives = self.new.hives } }
        ensures many { length self.new.hives.items ≡ length self.old.hives.items }
        ensures others { (i : ℕ) → ¬ (i ≡ place) →
            slice_get self.new.hives.items i ≡ slice_get self.old.hives.items i }
        ensures taken { (was is : HiveFile) →
            slice_get self.old.hives.items place ≡ Some was →
            slice_get self.new.hives.items place ≡ Some is → (file_choice is ≡ file_choice was)
            × OnOk result ((memory_of is).1 ≡ self.old.store.machine.durable) }
        ensures refused { IfErr result (λ why. why ≡ NoMemory) }
    {
        engine_invariant::laws::hive_steps_keep();
        let durable = self.store.durable();
        let retained = self.store.retained();
        let number = self.hives[place].number();
        let from = number.max(retained);
        let opened = self.opened.above(number);
        let accepted = &self.store.above(from)[..(durable - from) as usize];
        self.hives[place].absorb(self.alloc, opened, accepted, durable)
    }

    // one step of a hive's flush; after the last one the changes that no hive lacks any more are discarded
    fn flush(&mut self, place: usize) -> Result<Progress, Refusal>
        requires sound { IsSound self.old }
        requires works { self.old.store.machine.faulted ≡ false }
        requires there { place < length self.old.hives.items }
        ensures continues { PartsStep D.state_at D.clock D.failures D.faithful
            (Event.FlusherStep place) (reply_to result) self.old self.new }
        ensures flushes { (was is : HiveFile) →
            slice_get self.old.hives.items place ≡ Some was →
            slice_get self.new.hives.items place ≡ Some is → IsNotRefused (reply_to result) →
            FlushesOn (memory_of was).1 (reply_to result) (view_of was) (view_of is)
            (flush_of was) (flush_of is) }
        ensures not_idle { ¬ (result ≡ Ok Progress.Idle) }
    {
        match self.flush_call(place) {
            Ok(Progress::Done) => {
                self.discard_flushed();
                Ok(Progress::Done)
            }
            come => come,
        }
    }

    // one call of a hive's flush
    fn flush_call(&mut self, place: usize) -> Result<Progress, Refusal>
        requires sound { IsSound self.old }
        requires works { self.old.store.machine.faulted ≡ false }
        requires there { place < length self.old.hives.items }
        ensures continues { PartsStep D.state_at D.clock D.failures D.faithful
            (Event.FlusherStep place) (reply_to result) self.old self.new }
        ensures flushes { (was is : HiveFile) →
            slice_get self.old.hives.items place ≡ Some was →
            slice_get self.new.hives.items place ≡ Some is → IsNotRefused (reply_to result) →
            FlushesOn (memory_of was).1 (reply_to result) (view_of was) (view_of is)
            (flush_of was) (flush_of is) }
        ensures not_idle { ¬ (result ≡ Ok Progress.Idle) }
    {
        engine_invariant::laws::hive_steps_keep();
        let come = self.hives[place].step(&mut self.disk);
        self.note_fault(come);
        come
    }

    /// Discards the durable changes that no hive lacks.
    pub fn discard_flushed(&mut self)
        requires sound { IsSound self.old }
        ensures sound { IsSound self.new }
        ensures machine { self.new.store.machine ≡ self.old.store.machine }
        ensures rest { self.new ≡ record self.old {
          store = self.new.store;
          opened = self.new.opened;
        } }
    {
        let durable = self.store.durable();
        let held = flushed_by_all(&self.hives, &self.last_changes.last, durable);
        self.store.discard_flushed(held);
        self.opened.discard_to(held);
    }
}

// the greatest number up to which, by the hives' numbers, no hive can lack a durable change
fn flushed_by_all(hives: &[HiveFile], last: &[u64], durable: u64) -> u64
    requires many { length last.now ≡ length hives.now }
    ensures high { result ≤ durable }
    ensures held { HaveUpTo result last.now hives.now }
{
    let mut held = durable;
    for (place, hive) in hives.iter().enumerate() {
        if hive.number() < last[place] {
            held = held.min(hive.number());
        }
    }
    held
}
