//! The scan of a journal's file: its changes go to a sink, one after another.
ghost use Rattle.std.specs.Prelude.{◌≡◌, ◌+◌, ◌<◌, ◌≤◌, [], ℕ, List, length, take, None, Some, IfOk, IfErr, OnOk};
ghost use Rattle.std.specs.List.{AllByRecursion};
ghost use Rattle.crash_model.specs.Promises.{Content, settled, top};
ghost use Rattle.refusals.specs.declared.limits.TheConstants.{GREATEST_NUMBER};
ghost use Rattle.disk_model.specs.FileState.{at_rest};
ghost use Rattle.disk_model.specs.Call.{Extends};
ghost use Rattle.disk_model.specs.StoreFiles.{IsJournal};
ghost use Rattle.disk_model.specs.ReadOnly.{OnlyReads, OnlySyncs};
ghost use Rattle.change_codec.specs.Encoding.{Fits};
ghost use Rattle.change_codec.specs.ModelChanges.{TimedOp, timed_elements};
ghost use Rattle.commit_journal.specs.Encoding.{decoded};
ghost use Rattle.commit_journal.specs.Store.{IsStore, IsNoJournal, Store, all_hives, header_bytes, encodings};
ghost use Rattle.commit_journal.specs.Numbered.{numbered};
ghost use Rattle.commit_journal.specs.OnDisk.{is_on};
ghost use Rattle.commit_journal.specs.Journals.{journal_view, changes_of, choice_of, store_of, encodings_of};
ghost use Rattle.commit_journal.specs.Reading.{FromBuffer, ReaderIsSound, IsReading, NumbersAgree, TakesOn, taken_by};
ghost use Rattle.commit_journal.specs.ReadBuffers.{journal_bytes_at, rest_of, FailsBy};
ghost use Rattle.commit_journal.specs.Scans.{JournalBegins, ScanFails, StopsReading};
ghost use Rattle.commit_journal.specs.declared.reader.NextField.TheVariants as next;

use crate::buffer::ReadBuffer;
use crate::journal::Journal;
use crate::layout::HEADER_BYTES;
use crate::reader::Reader;
use crate::sink::ElementSink;
use crate::store_layout::Layout;
use crate::{device, header};
use change_codec::EncodedChange;
use disk_model::Disk;
use refusals::Refusal;
use std::alloc::Global;
use uuid::Uuid;

/// An opened journal, and its changes.
#[derive(Drop)]
pub struct OpenedJournal {
    /// The journal.
    pub journal: Journal,
    /// The changes that it decodes to, in order, numbered without a gap from `journal.base() + 1` on.
    pub elements: Vec<EncodedChange>,
}

/// The store of a journal, by the journal's header.
#[derive(Drop)]
pub struct StoreHeader {
    /// The id of the store.
    pub id: Uuid,
    /// How many hives calls name.
    pub hives: u8,
    /// Its layout.
    pub layout: Layout,
}

// the sink of an opening: all changes
#[derive(Drop)]
pub(crate) struct ChangeList {
    changes: Vec<EncodedChange>,
}

impl ChangeList {
    // no change
    fn new(alloc: Global) -> ChangeList
        ensures { result.changes.items ≡ [] }
    {
        ChangeList {
            changes: Vec::new(alloc),
        }
    }
}

impl ElementSink for ChangeList {
    ghost use Rattle.std.specs.Prelude.{◌≡◌};
    ghost use Rattle.refusals.specs.declared.refusal.Refusal.TheVariants.{NoMemory};
    ghost use Rattle.commit_journal.specs.ChangeLists.{Appends};
    ghost use Rattle.commit_journal.specs.ChangeListLaws.{appends_none, appends_more};

    ghost Took = { λ before after changes. Appends before after changes };

    ghost Denies = { λ list change why. why ≡ NoMemory };

    fn take(&mut self, _number: u64, change: EncodedChange) -> Result<(), Refusal> {
        self.changes.push(change)?;
        Ok(())
    }

    ghost took_none = { λ list. appends_none list };

    ghost took_more = { λ before between after front rest one two.
        appends_more before between after front rest one two };
}

impl Journal {
    /// The store of the journal. Its header alone is read.
    ///
    /// Refused with `JournalDamaged` only if the bytes are no store's journal, with `DiskFault` only if the device
    /// failed, and with `NoMemory`. No file changes.
    pub fn owner<D: Disk>(alloc: Global, disk: &mut D) -> Result<StoreHeader, Refusal>
        ensures store { IfOk result (λ owner. IsStore (record { id = owner.id; hives = owner.hives; layout = owner.layout })) }
        ensures header { IfOk result (λ owner. D.faithful disk.new →
            take 64 (journal_bytes_at (D.state_at disk.old) (D.clock disk.old))
            ≡ header_bytes (record { id = owner.id; hives = owner.hives; layout = owner.layout })) }
        ensures only { IfOk result (λ owner. D.faithful disk.new → (store : Store) (s : Content TimedOp) →
            IsStore store → decoded (encodings store) (journal_bytes_at (D.state_at disk.old) (D.clock disk.old)) ≡ Some s →
            store ≡ record { id = owner.id; hives = owner.hives; layout = owner.layout }) }
        ensures fails { IfErr result (FailsBy (D.failures disk.old < D.failures disk.new)
            (D.faithful disk.new →
            IsNoJournal (journal_bytes_at (D.state_at disk.old) (D.clock disk.old)))) }
        ensures no_change { OnlyReads (D.state_at disk.old) (D.state_at disk.new) (D.clock disk.old)
            (D.clock disk.new) }
        ensures failures { D.failures disk.old ≤ D.failures disk.new }
        ensures faithful { D.faithful disk.new → D.faithful disk.old }
    {
        let end = device::len(disk)?;
        let mut buffer = ReadBuffer::new(alloc, end)?;
        match buffer.fill(alloc, disk, HEADER_BYTES) {
            Ok(()) => {}
            Err(why) => return Err(why),
        }
        header::decode(alloc, buffer.bytes())
    }

    /// Opens the journal of a store: answers all changes that its file decodes to, with the journal that continues from
    /// there. It is a [`scan`](Journal::scan) into a list.
    ///
    /// Refused with `JournalDamaged` only if the bytes are no store's journal (such bytes are never opened), with
    /// `DiskFault` only if the device failed, and with `NoMemory`. The sync is the only effect on files.
    pub fn open<D: Disk>(alloc: Global, disk: &mut D) -> Result<OpenedJournal, Refusal>
        ensures store { IfOk result (λ opened. IsStore (store_of opened.journal)) }
        ensures choice { IfOk result (λ opened. choice_of opened.journal ≡ settled (record {
          below = (choice_of opened.journal).now.below;
          elements = timed_elements opened.elements.items;
        })) }
        ensures elements { IfOk result (λ opened. opened.elements.items ≡ changes_of opened.journal) }
        ensures fit { IfOk result (λ opened.
            AllByRecursion (Fits (all_hives (store_of opened.journal))) opened.elements.items) }
        ensures numbers { IfOk result (λ opened.
            top 0 (choice_of opened.journal).now ≤ GREATEST_NUMBER) }
        ensures decodes { IfOk result (λ opened. D.faithful disk.new →
            decoded (encodings_of opened.journal) (journal_bytes_at (D.state_at disk.old) (D.clock disk.old))
            ≡ Some (choice_of opened.journal).now) }
        ensures on { IfOk result (λ opened. D.faithful disk.new →
            is_on (encodings_of opened.journal) (journal_view opened.journal)
            (D.state_at disk.new (D.clock disk.new) 0)) }
        ensures fails { IfErr result (FailsBy (D.failures disk.old < D.failures disk.new)
            (D.faithful disk.new → IsNoJournal (journal_bytes_at (D.state_at disk.old) (D.clock disk.old)))) }
        ensures synced { D.faithful disk.new → OnlySyncs (D.state_at disk.old) (D.state_at disk.new)
            (D.clock disk.old) (D.clock disk.new) }
        ensures others { (f : ℕ) → ¬ (IsJournal f) →
            D.state_at disk.new (D.clock disk.new) f ≡ D.state_at disk.old (D.clock disk.old) f }
        ensures time { Extends (D.state_at disk.old) (D.state_at disk.new) (D.clock disk.old)
            (D.clock disk.new) }
        ensures failures { D.failures disk.old ≤ D.failures disk.new }
        ensures faithful { D.faithful disk.new → D.faithful disk.old }
    {
        let mut list = ChangeList::new(alloc);
        match Journal::scan(alloc, disk, &mut list) {
            Ok(journal) => Ok(OpenedJournal {
                journal,
                elements: list.changes,
            }),
            Err(why) => Err(why),
        }
    }

    /// Hands the changes of a store's journal to a sink, one after another, each with its number, and answers the
    /// journal that continues after them.
    ///
    /// The file is synced, and then read in chunks of at most 65,536 bytes, from its beginning to the first gate that
    /// isn't open. No more of it is in memory than one chunk and the change at hand. A length in the file leads to an
    /// allocation only once the file is known to have that many bytes.
    ///
    /// Refused with `JournalDamaged` only if the bytes are no store's journal (such bytes are never opened), with
    /// `DiskFault` only if the device failed, with `NoMemory`, and with what the sink answers if it doesn't take a
    /// change: no other is handed to it then. If a scan is refused, the sink has taken the first changes of the
    /// journal, or none. The sync is the only effect on files.
    pub fn scan<D: Disk, S: ElementSink>(
        alloc: Global,
        disk: &mut D,
        sink: &mut S,
    ) -> Result<Journal, Refusal>
        ensures store { IfOk result (λ journal. IsStore (store_of journal)) }
        ensures choice { IfOk result (λ journal. choice_of journal ≡ settled (record {
          below = (choice_of journal).now.below;
          elements = timed_elements (changes_of journal);
        })) }
        ensures took { IfOk result (λ journal. S.Took sink.old sink.new
            (numbered (choice_of journal).now.below (changes_of journal))) }
        ensures fit { IfOk result (λ journal. AllByRecursion (Fits (all_hives (store_of journal))) (changes_of journal)) }
        ensures numbers { IfOk result (λ journal. top 0 (choice_of journal).now ≤ GREATEST_NUMBER) }
        ensures decodes { IfOk result (λ journal. D.faithful disk.new →
            decoded (encodings_of journal) (journal_bytes_at (D.state_at disk.old) (D.clock disk.old))
            ≡ Some (choice_of journal).now) }
        ensures on { IfOk result (λ journal. D.faithful disk.new →
            is_on (encodings_of journal) (journal_view journal) (D.state_at disk.new (D.clock disk.new) 0)) }
        ensures fails { IfErr result (ScanFails (S.Took sink.old sink.new) (S.Denies sink.new)
            (λ changes. D.faithful disk.new → JournalBegins (journal_bytes_at (D.state_at disk.old) (D.clock disk.old)) changes)
            (D.failures disk.old < D.failures disk.new)
            (D.faithful disk.new → IsNoJournal (journal_bytes_at (D.state_at disk.old) (D.clock disk.old)))) }
        ensures synced { D.faithful disk.new → OnlySyncs (D.state_at disk.old) (D.state_at disk.new)
            (D.clock disk.old) (D.clock disk.new) }
        ensures others { (f : ℕ) → ¬ (IsJournal f) →
            D.state_at disk.new (D.clock disk.new) f ≡ D.state_at disk.old (D.clock disk.old) f }
        ensures time { Extends (D.state_at disk.old) (D.state_at disk.new) (D.clock disk.old)
            (D.clock disk.new) }
        ensures failures { D.failures disk.old ≤ D.failures disk.new }
        ensures faithful { D.faithful disk.new → D.faithful disk.old }
    {
        let Ok(()) = device::sync(disk) else {
            return Err(Refusal::DiskFault);
        };
        scan_at_rest(alloc, disk, sink)
    }
}

/// Hands to a sink what the journal's file, which is at rest, decodes to.
fn scan_at_rest<D: Disk, S: ElementSink>(
    alloc: Global,
    disk: &mut D,
    sink: &mut S,
) -> Result<Journal, Refusal>
    ensures store { IfOk result (λ journal. IsStore (store_of journal)) }
    ensures choice { IfOk result (λ journal. choice_of journal ≡ settled (record {
      below = (choice_of journal).now.below;
      elements = timed_elements (changes_of journal);
    })) }
    ensures took { IfOk result (λ journal. S.Took sink.old sink.new
        (numbered (choice_of journal).now.below (changes_of journal))) }
    ensures fit { IfOk result (λ journal. AllByRecursion (Fits (all_hives (store_of journal))) (changes_of journal)) }
    ensures numbers { IfOk result (λ journal. top 0 (choice_of journal).now ≤ GREATEST_NUMBER) }
    ensures decodes { IfOk result (λ journal. D.faithful disk.new →
        decoded (encodings_of journal) (journal_bytes_at (D.state_at disk.old) (D.clock disk.old))
        ≡ Some (choice_of journal).now) }
    ensures on { IfOk result (λ journal. D.faithful disk.new →
        is_on (encodings_of journal) (journal_view journal) (at_rest (journal_bytes_at (D.state_at disk.old) (D.clock disk.old)))) }
    ensures fails { IfErr result (ScanFails (S.Took sink.old sink.new) (S.Denies sink.new)
        (λ changes. D.faithful disk.new → JournalBegins (journal_bytes_at (D.state_at disk.old) (D.clock disk.old)) changes)
        (D.failures disk.old < D.failures disk.new)
        (D.faithful disk.new → IsNoJournal (journal_bytes_at (D.state_at disk.old) (D.clock disk.old)))) }
    ensures no_change { OnlyReads (D.state_at disk.old) (D.state_at disk.new) (D.clock disk.old)
        (D.clock disk.new) }
    ensures failures { D.failures disk.old ≤ D.failures disk.new }
    ensures faithful { D.faithful disk.new → D.faithful disk.old }
{
    let Ok(end) = device::len(disk) else {
        return Err(Refusal::DiskFault);
    };
    let Ok(mut buffer) = ReadBuffer::new(alloc, end) else {
        return Err(Refusal::NoMemory);
    };
    match buffer.fill(alloc, disk, HEADER_BYTES) {
        Ok(()) => {}
        Err(why) => return Err(why),
    }
    let store = match header::decode(alloc, buffer.bytes()) {
        Ok(store) => store,
        Err(why) => return Err(why),
    };
    buffer.skip(HEADER_BYTES);
    let mut reader = Reader::new(alloc, store.layout.all_hives(store.hives));
    match read_to_end(alloc, disk, &mut buffer, &mut reader, sink) {
        Ok(()) => {}
        Err(why) => return Err(why),
    }
    Ok(Journal::found(alloc, store, reader.on_device))
}

/// Reads to the end of what counts.
fn read_to_end<D: Disk, S: ElementSink>(
    alloc: Global,
    disk: &mut D,
    buffer: &mut ReadBuffer,
    reader: &mut Reader,
    sink: &mut S,
) -> Result<(), Refusal>
    requires keeps { ReaderIsSound reader.old }
    requires tied { NumbersAgree reader.old }
    ensures done { OnOk result (reader.new.next ≡ next.Done) }
    ensures keeps { OnOk result (ReaderIsSound reader.new) }
    ensures tied { OnOk result (NumbersAgree reader.new) }
    ensures hives { reader.new.hives ≡ reader.old.hives }
    ensures takes { TakesOn S.Took sink.old sink.new reader.old reader.new }
    ensures reads { OnOk result (D.faithful disk.new →
        buffer.old.end_of_file ≡ length (journal_bytes_at (D.state_at disk.old) (D.clock disk.old)) →
        (header : List ℕ) → IsReading header (journal_bytes_at (D.state_at disk.old) (D.clock disk.old)) reader.old
        (rest_of (journal_bytes_at (D.state_at disk.old) (D.clock disk.old)) buffer.old) →
        IsReading header (journal_bytes_at (D.state_at disk.old) (D.clock disk.old)) reader.new
        (rest_of (journal_bytes_at (D.state_at disk.old) (D.clock disk.old)) buffer.new)) }
    ensures fails { IfErr result (StopsReading (S.Denies sink.new) (FromBuffer (D.faithful disk.new) (journal_bytes_at (D.state_at disk.old) (D.clock disk.old)) buffer.old reader.old)
        (D.failures disk.old < D.failures disk.new) (taken_by reader.new)) }
    ensures no_change { OnlyReads (D.state_at disk.old) (D.state_at disk.new) (D.clock disk.old)
        (D.clock disk.new) }
    ensures failures { D.failures disk.old ≤ D.failures disk.new }
    ensures faithful { D.faithful disk.new → D.faithful disk.old }
{
    'reading: while !reader.is_done() {
        match buffer.fill(alloc, disk, reader.wants()) {
            Ok(()) => {}
            Err(why) => return Err(why),
        }
        match reader.take(sink, buffer.bytes(), buffer.left()) {
            Ok(taken) => buffer.skip(taken),
            Err(why) => return Err(why),
        }
    }
    Ok(())
}
