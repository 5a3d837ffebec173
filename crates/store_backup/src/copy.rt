//! A store as of a number, written to a disk.
ghost use Rattle.std.specs.Prelude.{◌≡◌, ◌⊎◌, ◌<◌, ◌≤◌, ℕ, List, length, IfErr, OnOk};
ghost use Rattle.refusals.specs.declared.limits.TheConstants.{GREATEST_NUMBER};
ghost use Rattle.refusals.specs.declared.refusal.Refusal.TheVariants.{DiskFault};
ghost use Rattle.disk_model.specs.Crash.{LeavesHonest};
ghost use Rattle.engine_invariant.specs.Prefixes.{IsPrimaryOf};
ghost use Rattle.recovery.specs.Created.{IsNoCopy, RecoversTrees};
ghost use Rattle.recovery.specs.Recovered.{seen_in};
ghost use Rattle.store_backup.specs.Copies.{store_in};

use disk_model::Disk;
use ktm_calls::StoreSnapshot;
use recovery::create_at;
use refusals::Refusal;
use std::alloc::Global;

/// Makes the files of a store of a snapshot, whatever they contained. All files are synced, and the journal's comes last: a
/// copy that is made where no store was is found only once it is whole.
///
/// Refused as [`create_at`] is: if the device isn't the reason, nothing has changed.
pub fn write_copy<D: Disk>(
    alloc: Global,
    disk: &mut D,
    snapshot: &StoreSnapshot,
) -> Result<(), Refusal>
    requires limit { snapshot.now.number ≤ GREATEST_NUMBER }
    ensures recovers { OnOk result (D.faithful disk.new →
        RecoversTrees (store_in snapshot.now) snapshot.now.number snapshot.now.trees
        (D.state_at disk.new (D.clock disk.new))) }
    ensures shows { OnOk result (D.faithful disk.new →
        LeavesHonest (IsPrimaryOf (length snapshot.now.trees))
        (D.state_at disk.new (D.clock disk.new))
        (seen_in (D.state_at disk.new (D.clock disk.new)))) }
    ensures refused { IfErr result (λ why.
        ((why ≡ DiskFault) × (D.failures disk.old < D.failures disk.new))
        ⊎ (IsNoCopy snapshot.now.layout snapshot.now.hives snapshot.now.number snapshot.now.trees why
        × (disk.new ≡ disk.old))) }
    ensures faithful { D.faithful disk.new → D.faithful disk.old }
{
    let Ok(named) = u8::try_from(snapshot.hives) else {
        return Err(Refusal::Unsupported);
    };
    create_at(
        alloc,
        disk,
        snapshot.id,
        snapshot.layout,
        named,
        &snapshot.trees,
        snapshot.number,
    )
}
