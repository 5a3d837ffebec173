//! The scan of the journal of a store that its header named before.
ghost use Rattle.std.specs.Prelude.{◌≡◌, ℕ, ◌<◌, ◌≤◌, false, true, IfErr, IfOk, OnOk};
ghost use Rattle.refusals.specs.declared.refusal.Refusal.TheVariants.{JournalDamaged};
ghost use Rattle.crash_model.specs.Promises.{Content};
ghost use Rattle.change_codec.specs.ModelChanges.{TimedOp};
ghost use Rattle.disk_model.specs.Call.{Extends};
ghost use Rattle.disk_model.specs.ReadOnly.{OnlySyncs};
ghost use Rattle.disk_model.specs.StoreFiles.{IsJournal, journal_file};
ghost use Rattle.commit_journal.specs.Journals.{changes_of, choice_of, store_of};
ghost use Rattle.commit_journal.specs.Numbered.{numbered};
ghost use Rattle.commit_journal.specs.Scans.{JournalBegins, ScanFails};
ghost use Rattle.commit_journal.specs.Store.{IsNoJournal, IsStore};
ghost use Rattle.hive_files.specs.Frames.{RefusalHasCause};
ghost use Rattle.engine_invariant.specs.Prefixes.{JournalDecodesTo};
ghost use Rattle.recovery.specs.Reading.{IsOnlyStore, IsScanned};
ghost use Rattle.store_hive.specs.LedTrees.{named_by};

use crate::discard::Discard;
use commit_journal::{ElementSink, Journal, StoreHeader};
use disk_model::Disk;
use refusals::Refusal;
use std::alloc::Global;

/// Hands the changes of the journal to a sink: it is the journal of the store that the header named before.
///
/// Refused as [`Journal::scan`] is.
pub(crate) fn scan_store<D: Disk, S: ElementSink>(
    alloc: Global,
    disk: &mut D,
    owner: &StoreHeader,
    sink: &mut S,
) -> Result<Journal, Refusal>
    requires store { IsStore (named_by owner.now) }
    requires only { D.faithful disk.old →
        IsOnlyStore (D.state_at disk.old (D.clock disk.old) journal_file).seen (named_by owner.now) }
    ensures scanned { IfOk result (IsScanned (D.faithful disk.new) (named_by owner.now)
        (D.state_at disk.old (D.clock disk.old)) (D.state_at disk.new (D.clock disk.new))) }
    ensures took { IfOk result (λ journal. S.Took sink.old sink.new
        (numbered (choice_of journal).now.below (changes_of journal))) }
    ensures fails { IfErr result (ScanFails (S.Took sink.old sink.new) (S.Denies sink.new)
        (λ changes. D.faithful disk.new →
        JournalBegins (D.state_at disk.old (D.clock disk.old) journal_file).seen changes)
        (D.failures disk.old < D.failures disk.new)
        (D.faithful disk.new → IsNoJournal (D.state_at disk.old (D.clock disk.old) journal_file).seen)) }
    ensures synced { D.faithful disk.new → OnlySyncs (D.state_at disk.old) (D.state_at disk.new)
        (D.clock disk.old) (D.clock disk.new) }
    ensures others { (f : ℕ) → ¬ (IsJournal f) →
        D.state_at disk.new (D.clock disk.new) f ≡ D.state_at disk.old (D.clock disk.old) f }
    ensures time { Extends (D.state_at disk.old) (D.state_at disk.new) (D.clock disk.old)
        (D.clock disk.new) }
    ensures failures { D.failures disk.old ≤ D.failures disk.new }
    ensures faithful { D.faithful disk.new → D.faithful disk.old }
{
    let journal = match Journal::scan(alloc, disk, sink) {
        Ok(journal) => journal,
        Err(why) => return Err(why),
    };
    if !is_of(&journal, owner) {
        return Err(Refusal::JournalDamaged);
    }
    Ok(journal)
}

/// Judges the journal, which is to be that of the store that the header named before. Its changes are dropped.
///
/// Refused as [`Journal::scan`] is.
pub(crate) fn judge_journal<D: Disk>(
    alloc: Global,
    disk: &mut D,
    owner: &StoreHeader,
) -> Result<(), Refusal>
    requires store { IsStore (named_by owner.now) }
    requires only { D.faithful disk.old →
        IsOnlyStore (D.state_at disk.old (D.clock disk.old) journal_file).seen (named_by owner.now) }
    ensures whole { OnOk result ((s : Content TimedOp) × (D.faithful disk.new →
        JournalDecodesTo (named_by owner.now) (D.state_at disk.old (D.clock disk.old) journal_file).seen s)) }
    ensures fails { IfErr result (RefusalHasCause (D.failures disk.old < D.failures disk.new)
        (λ why. (why ≡ JournalDamaged) × (D.faithful disk.new →
        IsNoJournal (D.state_at disk.old (D.clock disk.old) journal_file).seen))) }
    ensures synced { D.faithful disk.new → OnlySyncs (D.state_at disk.old) (D.state_at disk.new)
        (D.clock disk.old) (D.clock disk.new) }
    ensures failures { D.failures disk.old ≤ D.failures disk.new }
    ensures faithful { D.faithful disk.new → D.faithful disk.old }
{
    match scan_store(alloc, disk, owner, &mut Discard) {
        Ok(journal) => {
            discard(journal);
            Ok(())
        }
        Err(why) => Err(why),
    }
}

// whether a journal is of the store that a header names
fn is_of(journal: &Journal, owner: &StoreHeader) -> bool
    ensures same { result ≡ true → store_of journal.now ≡ named_by owner.now }
    ensures other { result ≡ false → ¬ (store_of journal.now ≡ named_by owner.now) }
{
    journal.id() == owner.id && journal.hives() == owner.hives && journal.layout() == owner.layout
}

// drops a journal: the proofs of its callers see no more of that
fn discard(_journal: Journal) {}
