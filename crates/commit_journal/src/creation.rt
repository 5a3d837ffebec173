//! Making a journal: its encoding in memory first, and then its writing.
ghost use Rattle.std.specs.Prelude.{◌≡◌, ◌⊎◌, ◌<◌, ◌≤◌, ℕ, length, IfErr, IfOk};
ghost use Rattle.crash_model.specs.Promises.{nothing, settled};
ghost use Rattle.refusals.specs.declared.limits.TheConstants.{MOST_HIVES};
ghost use Rattle.refusals.specs.declared.refusal.Refusal.TheVariants.{NoMemory, DiskFault};
ghost use Rattle.disk_model.specs.Call.{CountsFailure, Extends};
ghost use Rattle.disk_model.specs.FileState.{at_rest};
ghost use Rattle.disk_model.specs.StoreFiles.{IsJournal};
ghost use Rattle.commit_journal.specs.Journals.{choice_of, store_of, encodings_of, journal_view};
ghost use Rattle.commit_journal.specs.OnDisk.{is_on};
ghost use Rattle.commit_journal.specs.Store.{created_bytes};

use crate::extent::Extent;
use crate::journal::Journal;
use crate::layout::CLOSED_GATE;
use crate::scan::StoreHeader;
use crate::store_layout::Layout;
use crate::{device, header};
use disk_model::{Disk, Failed};
use refusals::Refusal;
use std::alloc::{AllocError, Global};
use uuid::Uuid;

/// The empty journal of a store that is to be made, in memory.
#[derive(Drop)]
pub struct JournalImage {
    pub(crate) alloc: Global,
    pub(crate) id: Uuid,
    pub(crate) hives: u8,
    pub(crate) layout: Layout,
    pub(crate) encoding: Vec<u8>,
    ghost size: { length id ≡ 16 },
    ghost few: { hives ≤ MOST_HIVES },
    ghost whole: { encoding.items ≡ created_bytes (record { id = id; hives = hives; layout = layout }) },
}

impl JournalImage {
    /// The empty journal of a store with this id and layout, in which calls name 1 to 16 hives.
    pub fn of(
        alloc: Global,
        id: Uuid,
        hives: u8,
        layout: Layout,
    ) -> Result<JournalImage, AllocError>
        requires size { length id ≡ 16 }
        requires hives { (1 ≤ hives) × (hives ≤ MOST_HIVES) }
        ensures id { IfOk result (λ image. image.id ≡ id) }
        ensures hives { IfOk result (λ image. image.hives ≡ hives) }
        ensures layout { IfOk result (λ image. image.layout ≡ layout) }
    {
        let mut encoding = header::encode(alloc, id, hives, layout)?;
        encoding.push(CLOSED_GATE)?;
        Ok(JournalImage {
            alloc,
            id,
            hives,
            layout,
            encoding,
        })
    }

    /// Makes the journal's file, whatever it contained: afterwards it contains the journal and nothing else, and is
    /// synced.
    ///
    /// Takes no memory. Fails if the device failed in a call, which was the last one. Nothing is promised of the file's
    /// bytes then.
    pub fn write<D: Disk>(self, disk: &mut D) -> Result<Journal, Failed>
        ensures empty { IfOk result (λ journal. choice_of journal ≡ settled nothing) }
        ensures store { IfOk result (λ journal.
            store_of journal ≡ record { id = self.id; hives = self.hives; layout = self.layout }) }
        ensures on { IfOk result (λ journal. D.faithful disk.new →
            is_on (encodings_of journal) (journal_view journal) (D.state_at disk.new (D.clock disk.new) 0)) }
        ensures file { IfOk result (λ journal. D.faithful disk.new →
            D.state_at disk.new (D.clock disk.new) 0 ≡ at_rest (created_bytes (store_of journal))) }
        ensures failures { CountsFailure result (D.failures disk.old) (D.failures disk.new) }
        ensures others { (f : ℕ) → ¬ (IsJournal f) →
            D.state_at disk.new (D.clock disk.new) f ≡ D.state_at disk.old (D.clock disk.old) f }
        ensures time { Extends (D.state_at disk.old) (D.state_at disk.new) (D.clock disk.old)
            (D.clock disk.new) }
        ensures faithful { D.faithful disk.new → D.faithful disk.old }
    {
        device::clear(disk)?;
        device::write(disk, 0, &self.encoding)?;
        device::sync(disk)?;
        let store = StoreHeader {
            id: self.id,
            hives: self.hives,
            layout: self.layout,
        };
        let nothing = Extent::nothing();
        Ok(Journal::found(self.alloc, store, nothing))
    }
}

impl Journal {
    /// Makes the empty journal of a store, whatever the file contained. Afterwards the journal is durable, and the file
    /// contains nothing else.
    ///
    /// Refused with `NoMemory` before any device call, and with `DiskFault` if the device failed. After `DiskFault`
    /// nothing is promised of the file's bytes.
    pub fn create<D: Disk>(
        alloc: Global,
        disk: &mut D,
        id: Uuid,
        hives: u8,
        layout: Layout,
    ) -> Result<Journal, Refusal>
        requires size { length id ≡ 16 }
        requires hives { (1 ≤ hives) × (hives ≤ MOST_HIVES) }
        ensures empty { IfOk result (λ journal. choice_of journal ≡ settled nothing) }
        ensures store { IfOk result (λ journal.
            store_of journal ≡ record { id = id; hives = hives; layout = layout }) }
        ensures on { IfOk result (λ journal. D.faithful disk.new →
            is_on (encodings_of journal) (journal_view journal) (D.state_at disk.new (D.clock disk.new) 0)) }
        ensures file { IfOk result (λ journal. D.faithful disk.new →
            D.state_at disk.new (D.clock disk.new) 0 ≡ at_rest (created_bytes (store_of journal))) }
        ensures fails { IfErr result (λ why. ((why ≡ NoMemory) × (disk.new ≡ disk.old))
            ⊎ ((why ≡ DiskFault) × (D.failures disk.old < D.failures disk.new))) }
        ensures others { (f : ℕ) → ¬ (IsJournal f) →
            D.state_at disk.new (D.clock disk.new) f ≡ D.state_at disk.old (D.clock disk.old) f }
        ensures time { Extends (D.state_at disk.old) (D.state_at disk.new) (D.clock disk.old)
            (D.clock disk.new) }
        ensures faithful { D.faithful disk.new → D.faithful disk.old }
    {
        let image = JournalImage::of(alloc, id, hives, layout)?;
        Ok(image.write(disk)?)
    }
}
