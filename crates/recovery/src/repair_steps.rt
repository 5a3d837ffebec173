//! The repair of a store's hives, one device call a step.
ghost use Rattle.std.specs.Prelude.{◌≡◌, ◌⊎◌, ◌<◌, ℕ, Ok, Err, IfErr, None, OnOk, Some, length, map, slice_get};
ghost use Rattle.refusals.specs.declared.refusal.Refusal.TheVariants.{DiskFault, Faulted};
ghost use Rattle.disk_model.specs.declared.progress.Progress.TheVariants as Progress;
ghost use Rattle.disk_model.specs.Call.{OneCall, HasFailed};
ghost use Rattle.hive_flush.specs.HiveStates.{HiveIsRepaired};
ghost use Rattle.hive_flush.specs.declared.hive.HiveFile.{HiveFile};
ghost use Rattle.engine_invariant.specs.Prefixes.{AnyFile, AreOnDisk, view_of};
ghost use Rattle.recovery.specs.Invariant.{AllWork, AreWhole, InvariantHolds};
ghost use Rattle.recovery.specs.Repairs.{repairs_left};

use crate::found::RecoveredStore;
use disk_model::{Disk, Progress};
use refusals::Refusal;

impl RecoveredStore {
    /// The first hive that is to be repaired.
    pub(crate) fn unrepaired(&self) -> Option<usize>
        ensures none { result ≡ None → AreWhole self.now.hives.items }
        ensures some { (place : ℕ) → result ≡ Some place → (place < length self.now.hives.items)
            × ((hive : HiveFile) → slice_get self.now.hives.items place ≡ Some hive → ¬ (HiveIsRepaired hive)) }
    {
        self.hives.iter().position(|hive| !hive.is_whole())
    }

    /// How far the repair has come after a step that was made: done, or more are needed.
    pub(crate) fn repaired(&self) -> Progress
        ensures done { result ≡ Progress.Done → AreWhole self.now.hives.items }
        ensures more { ¬ (result ≡ Progress.Idle) }
        ensures follows { result ≡ Progress.More → ¬ (AreWhole self.now.hives.items) }
    {
        match self.unrepaired() {
            Some(_) => Progress::More,
            None => Progress::Done,
        }
    }

    /// One step of the repair of a hive: at most one device call. What is recovered stays the same.
    ///
    /// Takes no memory. Refused with `DiskFault` if the device failed in the call.
    pub(crate) fn repair<D: Disk>(
        &mut self,
        disk: &mut D,
        place: usize,
    ) -> Result<Progress, Refusal>
        requires kept { InvariantHolds self.old }
        requires works { AllWork self.old.hives.items }
        requires there { place < length self.old.hives.items }
        ensures kept { InvariantHolds self.new }
        ensures works { OnOk result (AllWork self.new.hives.items) }
        ensures rest { self.new ≡ record self.old { hives = self.new.hives } }
        ensures same { map view_of self.new.hives.items ≡ map view_of self.old.hives.items }
        ensures on_disk { D.faithful disk.new →
            AreOnDisk self.old.journal self.old.hives.items (D.state_at disk.old (D.clock disk.old)) →
            AreOnDisk self.new.journal self.new.hives.items (D.state_at disk.new (D.clock disk.new)) }
        ensures fewer { OnOk result ((hive : HiveFile) →
            slice_get self.old.hives.items place ≡ Some hive → ¬ (HiveIsRepaired hive) →
            repairs_left self.new.hives.items < repairs_left self.old.hives.items) }
        ensures refused { IfErr result (λ why. why ≡ DiskFault) }
        ensures call { OneCall AnyFile (D.state_at disk.old) (D.state_at disk.new)
            (D.clock disk.old) (D.clock disk.new) }
        ensures failures { HasFailed result (D.failures disk.old) (D.failures disk.new) }
        ensures faithful { D.faithful disk.new → D.faithful disk.old }
    {
        self.hives[place].repair_step(disk)
    }
}
