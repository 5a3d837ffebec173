//! What the files of a store recover, as they are read.
ghost use Rattle.std.specs.Prelude.{◌≡◌, ℕ, ◌<◌, ◌≤◌, List, Some, length, slice_get, false, true, IfOk, IfErr};
ghost use Rattle.disk_model.specs.Call.{Extends};
ghost use Rattle.disk_model.specs.FileState.{FileState};
ghost use Rattle.disk_model.specs.ReadOnly.{OnlySyncs};
ghost use Rattle.disk_model.specs.StoreFiles.{IsJournal, journal_file};
ghost use Rattle.commit_journal.specs.Journals.{changes_of, choice_of, store_of};
ghost use Rattle.commit_journal.specs.Store.{IsStore, IsNoJournal, all_hives, hives_in};
ghost use Rattle.commit_journal.specs.Numbered.{numbered};
ghost use Rattle.commit_journal.specs.Scans.{JournalBegins, ScanFails};
ghost use Rattle.hive_flush.specs.Decoders.{RefusalNamesHive};
ghost use Rattle.hive_flush.specs.declared.hive.HiveFile.{HiveFile};
ghost use Rattle.engine_invariant.specs.Prefixes.{AreOnDisk, JournalDecodesTo};
ghost use Rattle.hive_files.specs.Frames.{RefusalHasCause};
ghost use Rattle.recovery.specs.Invariant.{AllWork, InvariantHolds};
ghost use Rattle.recovery.specs.Reading.{AreReplayed, IsOnlyStore, IsOpened, IsScanned};
ghost use Rattle.recovery.specs.Recovered.{IsNoStore, IsRecovered, seen_in};
ghost use Rattle.recovery.specs.Repairs.{most_repairs, repairs_left};

use crate::discard::Discard;
use crate::found::RecoveredStore;
use crate::reader::open_hives;
use crate::recovery_result::recovered;
use crate::replay::Replay;
use crate::store_read::StoreRead;
use commit_journal::{ElementSink, Journal, StoreHeader};
use disk_model::Disk;
use hive_flush::HiveFile;
use refusals::Refusal;
use std::alloc::Global;

/// What the files of a store recover.
///
/// Refused if something is wrong with the files; with `DiskFault` if the device failed; and with `NoMemory`. The sync
/// of each file is the only effect on it.
pub(crate) fn find<D: Disk>(alloc: Global, disk: &mut D) -> Result<RecoveredStore, Refusal>
    ensures kept { IfOk result InvariantHolds }
    ensures works { IfOk result (λ found. AllWork found.hives.items) }
    ensures few { IfOk result (λ found. D.faithful disk.new → repairs_left found.hives.items
        ≤ most_repairs (seen_in (D.state_at disk.old (D.clock disk.old)))
        (all_hives (store_of found.journal))) }
    ensures recovered { IfOk result (λ found. D.faithful disk.new →
        IsRecovered (seen_in (D.state_at disk.old (D.clock disk.old)))
        (store_of found.journal) found.number found.trees) }
    ensures decodes { IfOk result (λ found. D.faithful disk.new →
        JournalDecodesTo (store_of found.journal)
        (seen_in (D.state_at disk.old (D.clock disk.old)) journal_file)
        (choice_of found.journal).now) }
    ensures on_disk { IfOk result (λ found. D.faithful disk.new →
        AreOnDisk found.journal found.hives.items (D.state_at disk.new (D.clock disk.new))) }
    ensures fails { IfErr result (RefusalHasCause (D.failures disk.old < D.failures disk.new)
        (IsNoStore (D.faithful disk.new) (seen_in (D.state_at disk.old (D.clock disk.old))))) }
    ensures synced { D.faithful disk.new → OnlySyncs (D.state_at disk.old) (D.state_at disk.new)
        (D.clock disk.old) (D.clock disk.new) }
    ensures time { Extends (D.state_at disk.old) (D.state_at disk.new) (D.clock disk.old)
        (D.clock disk.new) }
    ensures failures { D.failures disk.old ≤ D.failures disk.new }
    ensures faithful { D.faithful disk.new → D.faithful disk.old }
{
    let owner = Journal::owner(alloc, disk)?;
    let read = read_store(alloc, disk, &owner)?;
    let found = recovered(alloc, read)?;
    Ok(found)
}

// The hives of a store and its journal, whose changes are replayed on them. So the hives are read first. But if one of them
// has no tree, that is reported only if the journal is whole.
fn read_store<D: Disk>(
    alloc: Global,
    disk: &mut D,
    owner: &StoreHeader,
) -> Result<StoreRead, Refusal>
    requires store { IsStore (record { id = owner.now.id; hives = owner.now.hives; layout = owner.now.layout }) }
    requires only { D.faithful disk.old →
        IsOnlyStore (D.state_at disk.old (D.clock disk.old) journal_file).seen
        (record { id = owner.now.id; hives = owner.now.hives; layout = owner.now.layout }) }
    ensures scanned { IfOk result (λ it. IsScanned (D.faithful disk.new)
        (record { id = owner.now.id; hives = owner.now.hives; layout = owner.now.layout })
        (D.state_at disk.old (D.clock disk.old)) (D.state_at disk.new (D.clock disk.new)) it.journal) }
    ensures replayed { IfOk result (λ it. AreReplayed it.journal it.hives.items it.replay) }
    ensures many { IfOk result (λ it. length it.hives.items ≡ hives_in owner.now.layout owner.now.hives) }
    ensures opened { IfOk result (λ it. (i : ℕ) (hive : HiveFile) → slice_get it.hives.items i ≡ Some hive →
        IsOpened (D.faithful disk.new) owner.now.id (D.state_at disk.old (D.clock disk.old)) (D.state_at disk.new (D.clock disk.new)) i hive) }
    ensures few { IfOk result (λ it. D.faithful disk.new → repairs_left it.hives.items
        ≤ most_repairs (seen_in (D.state_at disk.old (D.clock disk.old)))
        (hives_in owner.now.layout owner.now.hives)) }
    ensures fails { IfErr result (RefusalHasCause (D.failures disk.old < D.failures disk.new)
        (IsNoStore (D.faithful disk.new) (seen_in (D.state_at disk.old (D.clock disk.old))))) }
    ensures synced { D.faithful disk.new → OnlySyncs (D.state_at disk.old) (D.state_at disk.new)
        (D.clock disk.old) (D.clock disk.new) }
    ensures time { Extends (D.state_at disk.old) (D.state_at disk.new) (D.clock disk.old)
        (D.clock disk.new) }
    ensures failures { D.failures disk.old ≤ D.failures disk.new }
    ensures faithful { D.faithful disk.new → D.faithful disk.old }
{
    let count = owner.layout.all_hives(owner.hives);
    match open_hives(alloc, disk, owner.id, count) {
        Ok(hives) => {
            let mut replay = Replay::new(alloc, &hives, count)?;
            match scan_store(alloc, disk, owner, &mut replay) {
                Ok(journal) => Ok(StoreRead {
                    journal,
                    hives,
                    replay,
                }),
                Err(why) => Err(why),
            }
        }
        Err(why) => {
            if is_hive_refusal(why) {
                let journal = scan_store(alloc, disk, owner, &mut Discard)?;
                discard(journal);
            }
            Err(why)
        }
    }
}

// hands the changes of the journal to a sink; it is the journal of the store that the header named before
fn scan_store<D: Disk, S: ElementSink>(
    alloc: Global,
    disk: &mut D,
    owner: &StoreHeader,
    sink: &mut S,
) -> Result<Journal, Refusal>
    requires store { IsStore (record { id = owner.now.id; hives = owner.now.hives; layout = owner.now.layout }) }
    requires only { D.faithful disk.old →
        IsOnlyStore (D.state_at disk.old (D.clock disk.old) journal_file).seen
        (record { id = owner.now.id; hives = owner.now.hives; layout = owner.now.layout }) }
    ensures scanned { IfOk result (IsScanned (D.faithful disk.new)
        (record { id = owner.now.id; hives = owner.now.hives; layout = owner.now.layout })
        (D.state_at disk.old (D.clock disk.old)) (D.state_at disk.new (D.clock disk.new))) }
    ensures took { IfOk result (λ journal. S.Took sink.old sink.new
        (numbered (choice_of journal).now.below (changes_of journal))) }
    ensures fails { IfErr result (ScanFails (S.Took sink.old sink.new) (S.Denies sink.new)
        (λ changes. D.faithful disk.new →
        JournalBegins (D.state_at disk.old (D.clock disk.old) journal_file).seen changes)
        (D.failures disk.old < D.failures disk.new)
        (D.faithful disk.new → IsNoJournal (D.state_at disk.old (D.clock disk.old) journal_file).seen)) }
    ensures synced { D.faithful disk.new → OnlySyncs (D.state_at disk.old) (D.state_at disk.new)
        (D.clock disk.old) (D.clock disk.new) }
    ensures others { (f : ℕ) → ¬ (IsJournal f) →
        D.state_at disk.new (D.clock disk.new) f ≡ D.state_at disk.old (D.clock disk.old) f }
    ensures time { Extends (D.state_at disk.old) (D.state_at disk.new) (D.clock disk.old)
        (D.clock disk.new) }
    ensures failures { D.failures disk.old ≤ D.failures disk.new }
    ensures faithful { D.faithful disk.new → D.faithful disk.old }
{
    let journal = match Journal::scan(alloc, disk, sink) {
        Ok(journal) => journal,
        Err(why) => return Err(why),
    };
    if !is_of(&journal, owner) {
        return Err(Refusal::JournalDamaged);
    }
    Ok(journal)
}

// whether a journal is of the store that a header names
fn is_of(journal: &Journal, owner: &StoreHeader) -> bool
    ensures same { result ≡ true → store_of journal.now
        ≡ record { id = owner.now.id; hives = owner.now.hives; layout = owner.now.layout } }
    ensures other { result ≡ false → ¬ (store_of journal.now
        ≡ record { id = owner.now.id; hives = owner.now.hives; layout = owner.now.layout }) }
{
    journal.id() == owner.id && journal.hives() == owner.hives && journal.layout() == owner.layout
}

// whether a refusal names a hive of a store
fn is_hive_refusal(why: Refusal) -> bool
    ensures { result ≡ false → (i : ℕ) → ¬ (RefusalNamesHive i why) }
{
    matches!(why, Refusal::HiveDamaged { .. } | Refusal::Unsupported)
}

// drops a journal: the proofs of its callers see no more of that
fn discard(_journal: Journal) {}
