//! Reading the hives of a store, one after another.
ghost use Rattle.std.specs.Prelude.{◌≡◌, ℕ, ◌<◌, ◌≤◌, length, IfOk, IfErr, OnOk};
ghost use Rattle.disk_model.specs.Call.{Extends};
ghost use Rattle.disk_model.specs.FileState.{FileState};
ghost use Rattle.disk_model.specs.StoreFiles.{journal_file};
ghost use Rattle.disk_model.specs.ReadOnly.{OnlySyncs};
ghost use Rattle.hive_files.specs.Frames.{RefusalHasCause};
ghost use Rattle.recovery.specs.Reading.{AreOpened, IsNoHive};
ghost use Rattle.recovery.specs.Recovered.{seen_in};
ghost use Rattle.recovery.specs.Repairs.{most_repairs, repairs_left};

use disk_model::Disk;
use hive_flush::HiveFile;
use refusals::Refusal;
use std::alloc::Global;
use uuid::Uuid;

/// The `count` hives of a store, in their order.
///
/// Refused if [`HiveFile::open`] refuses one of them, with the same refusal.
pub(crate) fn open_hives<D: Disk>(
    alloc: Global,
    disk: &mut D,
    store: Uuid,
    count: u8,
) -> Result<Vec<HiveFile>, Refusal>
    ensures many { IfOk result (λ hives. length hives.items ≡ count) }
    ensures opened { IfOk result (λ hives. AreOpened (D.faithful disk.new) store
        (D.state_at disk.old (D.clock disk.old)) (D.state_at disk.new (D.clock disk.new))
        hives.items) }
    ensures few { IfOk result (λ hives. D.faithful disk.new → repairs_left hives.items
        ≤ most_repairs (seen_in (D.state_at disk.old (D.clock disk.old))) count) }
    ensures fails { IfErr result (RefusalHasCause (D.failures disk.old < D.failures disk.new)
        (IsNoHive (D.faithful disk.new) store count (D.state_at disk.old (D.clock disk.old)))) }
    ensures synced { D.faithful disk.new → OnlySyncs (D.state_at disk.old) (D.state_at disk.new)
        (D.clock disk.old) (D.clock disk.new) }
    ensures time { Extends (D.state_at disk.old) (D.state_at disk.new) (D.clock disk.old)
        (D.clock disk.new) }
    ensures failures { D.failures disk.old ≤ D.failures disk.new }
    ensures faithful { D.faithful disk.new → D.faithful disk.old }
{
    let mut hives = Vec::with_capacity(alloc, usize::from(count))?;
    for place in 0..count {
        let hive = HiveFile::open(alloc, disk, place, store)?;
        hives.push_reserved(hive);
    }
    Ok(hives)
}
