//! A journal on file 0 of a disk, and the steps of its batches and trims.
ghost use Rattle.std.specs.Prelude.{[], ◌≡◌, ◌⊎◌, ◌↔◌, ◌+◌, ◌-◌, ◌<◌, ◌≤◌, ℕ, List, length, take, false, true, Some, None, Ok, Err, IfOk, IfErr, OnOk};
ghost use Rattle.crash_model.specs.Promises.{nothing, settled, top, JournalSays, TrimSays};
ghost use Rattle.crash_model.specs.Changes as law;
ghost use Rattle.disk_model.specs.Call.{OneCall, HasFailed, Extends};
ghost use Rattle.disk_model.specs.StoreFiles.{IsJournal};
ghost use Rattle.refusals.specs.declared.refusal.Refusal.TheVariants.{Faulted, NoMemory, DiskFault};
ghost use Rattle.refusals.specs.declared.limits.TheConstants.{MOST_HIVES};
ghost use Rattle.change_codec.specs.ModelChanges.{TimedOp, timed_elements};
ghost use Rattle.crash_model.specs.StepAnswers.{Says};
ghost use Rattle.commit_journal.specs.OnDisk.{is_on, with_elements, view_at};
ghost use Rattle.commit_journal.specs.GhostLog.{logged_changes, logged_elements};
ghost use Rattle.commit_journal.specs.OnDisk as phase;
ghost use Rattle.commit_journal.specs.Store.{all_hives, encodings, room_of};
ghost use Rattle.commit_journal.specs.Handed.{IsHanded, IsLongestPrefix};

use crate::extent::Extent;
use crate::layout::{CLOSED_GATE, FIRST_GATE, OPEN_GATE};
use crate::scan::StoreHeader;
use crate::store_layout::Layout;
use crate::{body, device};
use change_codec::EncodedChange;
use disk_model::{Disk, Progress};
use refusals::Refusal;
use std::alloc::Global;
use std::mem;
use std::snapshot::Snapshot;
use uuid::Uuid;

/// What will be durable once a batch is done: it has an element.
#[derive(Drop)]
struct Batch {
    ahead: Extent,
    ghost some: { 0 < length (logged_elements ahead.ghost_log) },
}

/// How far a batch or a trim has come.
#[derive(Drop)]
enum Phase {
    /// Nothing is under way.
    AtRest,
    /// A batch's body and the next gate are written.
    BodyWritten(Batch),
    /// They are synced.
    BodySynced(Batch),
    /// The batch's gate is opened.
    GateWritten(Batch),
    /// The first gate is closed, by a trim.
    TrimWritten,
    /// The device has failed. Contracts alone know what was under way.
    Broken(Snapshot<Extent>),
}

/// The journal of a store, on file 0 of a disk.
///
/// A step makes at most one device call. A batch takes four calls: its body and the next gate, a sync, the gate before
/// the body, a sync. A trim takes two: the first gate, a sync. No batch begins while a trim is under way, and no trim
/// while a batch is. After a device call failed, each step is refused with `Faulted` and makes no call.
#[derive(Drop)]
pub struct Journal {
    alloc: Global,
    id: Uuid,
    hives: u8,
    layout: Layout,
    on_device: Extent,
    phase: Phase,
    ghost few: { hives ≤ MOST_HIVES },
}

impl Journal {
    ghost use Rattle.commit_journal.specs.Journals.{content_of, changes_of, view_in_phase, journal_view, choice_of, store_of, encodings_of, IsReady, BeginsLongest, IsTrimming, IsBroken, steps_left, MakesProgress};

    /// The journal of the content of a file that is at rest.
    pub(crate) fn found(alloc: Global, store: StoreHeader, on_device: Extent) -> Journal
        requires few { store.hives ≤ MOST_HIVES }
        ensures store { store_of result ≡ record { id = store.id; hives = store.hives; layout = store.layout } }
        ensures value { journal_view result ≡ view_at (content_of on_device) nothing on_device.gate on_device.gate
            phase.Phase.AtRest }
        ensures changes { changes_of result ≡ logged_changes on_device.ghost_log }
    {
        Journal {
            alloc,
            id: store.id,
            hives: store.hives,
            layout: store.layout,
            on_device,
            phase: Phase::AtRest,
        }
    }

    /// The id of the store.
    pub fn id(&self) -> Uuid
        ensures { result ≡ (store_of self.now).id }
    {
        self.id
    }

    /// The number of hives in the header: those that calls name.
    pub fn hives(&self) -> u8
        ensures { result ≡ (store_of self.now).hives }
    {
        self.hives
    }

    /// The layout of the store.
    pub fn layout(&self) -> Layout
        ensures { result ≡ (store_of self.now).layout }
    {
        self.layout
    }

    /// How many hives the store has: those that calls name, and in the layout with outcomes one more. Elements may have
    /// operations on all of them.
    pub fn all_hives(&self) -> u8
        ensures { result ≡ all_hives (store_of self.now) }
    {
        self.layout.all_hives(self.hives)
    }

    /// The used room in bytes: 65, and 17 and its length for each element journaled since the last finished trim.
    pub fn used(&self) -> u64
        ensures { result ≡ 65 + room_of (choice_of self.now).now.elements }
    {
        self.on_device.used
    }

    /// The number of the last durable element, or 0 if there is none.
    pub fn last_number(&self) -> u64
        ensures { result ≡ top 0 (choice_of self.now).now }
    {
        self.on_device.last
    }

    /// The number before that of the first durable element, or 0 if there is none.
    pub fn base(&self) -> u64
        ensures { result ≡ (choice_of self.now).now.below }
    {
        self.on_device.below
    }

    /// A batch or a trim is under way, or was when the device failed.
    pub fn is_halfway(&self) -> bool
        ensures { (result ≡ false) ↔ ((choice_of self.now).next ≡ None) }
    {
        !self.is_at_rest()
    }

    /// A trim is under way.
    pub fn is_trimming(&self) -> bool
        ensures trims { (result ≡ true) ↔ IsTrimming self.now }
        ensures nothing { result ≡ true → (choice_of self.now).next ≡ Some nothing }
    {
        matches!(self.phase, Phase::TrimWritten)
    }

    fn is_at_rest(&self) -> bool
        ensures quiet { (result ≡ true) ↔ (self.now.phase ≡ Phase.AtRest) }
        ensures none { (result ≡ true) ↔ ((choice_of self.now).next ≡ None) }
    {
        matches!(self.phase, Phase::AtRest)
    }

    /// One step. If nothing is under way, it makes the first call of a batch of as many of the elements as fit.
    /// Otherwise it makes the next call of the batch or the trim. `first` is the number of the first element handed in.
    /// Elements are read only when a batch begins.
    ///
    /// Refused with `NoMemory` before anything is begun, and with `DiskFault` if the device failed in the call. Refused
    /// with `Faulted` exactly if the device had failed in an earlier call.
    pub fn step<D: Disk>(
        &mut self,
        disk: &mut D,
        first: u64,
        handed: &[EncodedChange],
    ) -> Result<Progress, Refusal>
        requires handed { (choice_of self.old).next ≡ None →
            IsHanded (all_hives (store_of self.old)) (65 + room_of (choice_of self.old).now.elements) first handed.now (choice_of self.old).now }
        ensures says { Says (JournalSays first (timed_elements handed.now)) result
            (choice_of self.old) (choice_of self.new) }
        ensures longest { (result ≡ Ok Progress.More) → (choice_of self.old).next ≡ None →
            BeginsLongest first handed.now (choice_of self.old) (choice_of self.new) }
        ensures faulted { (result ≡ Err Faulted) ↔ IsBroken self.old }
        ensures broken { IsBroken self.new ↔ (IsBroken self.old ⊎ (result ≡ Err DiskFault)) }
        ensures idle { (choice_of self.old).next ≡ None → length handed.now ≡ 0 →
            result ≡ Ok Progress.Idle }
        ensures no_change { (result ≡ Err Faulted) ⊎ ((result ≡ Err NoMemory)
            ⊎ (result ≡ Ok Progress.Idle)) → disk.new ≡ disk.old }
        ensures on { D.faithful disk.new → is_on (encodings_of self.old) (journal_view self.old)
            (D.state_at disk.old (D.clock disk.old) 0) →
            is_on (encodings_of self.old) (journal_view self.new) (D.state_at disk.new (D.clock disk.new) 0) }
        ensures nearer { OnOk result ((0 < length handed.now) ⊎ ¬ ((choice_of self.old).next ≡ None) →
            MakesProgress self.old self.new) }
        ensures ends { IsTrimming self.old → OnOk result (result ≡ Ok Progress.Done) }
        ensures same { store_of self.new ≡ store_of self.old }
        ensures call { OneCall IsJournal (D.state_at disk.old) (D.state_at disk.new)
            (D.clock disk.old) (D.clock disk.new) }
        ensures failures { HasFailed result (D.failures disk.old) (D.failures disk.new) }
        ensures faithful { D.faithful disk.new → D.faithful disk.old }
    {
        if !self.is_at_rest() {
            return self.go_on(disk);
        }
        if handed.is_empty() {
            return Ok(Progress::Idle);
        }
        self.begin_batch(disk, first, handed)
    }

    /// One step of a trim. If nothing is under way, it closes the first gate. Otherwise it makes the trim's second
    /// call. The caller makes sure that the elements may be discarded, and that there is one.
    ///
    /// It takes no memory. Refused with `DiskFault` and `Faulted` if [`step`](Journal::step) would be.
    pub fn trim_step<D: Disk>(&mut self, disk: &mut D) -> Result<Progress, Refusal>
        requires some { (choice_of self.old).next ≡ None →
            0 < length (choice_of self.old).now.elements }
        requires trims { ((choice_of self.old).next ≡ None)
            ⊎ ((choice_of self.old).next ≡ Some nothing) }
        ensures says { Says TrimSays result (choice_of self.old) (choice_of self.new) }
        ensures begins { (result ≡ Ok Progress.More) → IsTrimming self.new }
        ensures ends { IsTrimming self.old → OnOk result (result ≡ Ok Progress.Done) }
        ensures faulted { (result ≡ Err Faulted) ↔ IsBroken self.old }
        ensures broken { IsBroken self.new ↔ (IsBroken self.old ⊎ (result ≡ Err DiskFault)) }
        ensures no_change { (result ≡ Err Faulted) → disk.new ≡ disk.old }
        ensures on { D.faithful disk.new → is_on (encodings_of self.old) (journal_view self.old)
            (D.state_at disk.old (D.clock disk.old) 0) →
            is_on (encodings_of self.old) (journal_view self.new) (D.state_at disk.new (D.clock disk.new) 0) }
        ensures same { store_of self.new ≡ store_of self.old }
        ensures call { OneCall IsJournal (D.state_at disk.old) (D.state_at disk.new)
            (D.clock disk.old) (D.clock disk.new) }
        ensures failures { HasFailed result (D.failures disk.old) (D.failures disk.new) }
        ensures faithful { D.faithful disk.new → D.faithful disk.old }
    {
        if self.is_at_rest() {
            self.begin_trim(disk)
        } else {
            self.go_on(disk)
        }
    }

    /// The second call of a batch: its body is synced.
    fn sync_body<D: Disk>(&mut self, disk: &mut D, batch: Batch) -> Result<Progress, Refusal>
        ensures says { (first : ℕ) (handed : List (law.Element TimedOp)) →
            Says (JournalSays first handed) result (view_in_phase self.old.on_device (Phase.BodyWritten batch)).choice (choice_of self.new) }
        ensures on { D.faithful disk.new → is_on (encodings_of self.old)
            (view_in_phase self.old.on_device (Phase.BodyWritten batch))
            (D.state_at disk.old (D.clock disk.old) 0) →
            is_on (encodings_of self.old) (journal_view self.new) (D.state_at disk.new (D.clock disk.new) 0) }
        ensures nearer { OnOk result (steps_left self.new ≡ 2) }
        ensures same { store_of self.new ≡ store_of self.old }
        ensures unbroken { ¬ (result ≡ Err Faulted) }
        ensures breaks { IsBroken self.new ↔ (result ≡ Err DiskFault) }
        ensures call { OneCall IsJournal (D.state_at disk.old) (D.state_at disk.new)
            (D.clock disk.old) (D.clock disk.new) }
        ensures failures { HasFailed result (D.failures disk.old) (D.failures disk.new) }
        ensures faithful { D.faithful disk.new → D.faithful disk.old }
    {
        match device::sync(disk) {
            Ok(()) => {
                self.phase = Phase::BodySynced(batch);
                Ok(Progress::More)
            }
            Err(_) => {
                self.phase = Phase::Broken(Snapshot::of(&batch.ahead));
                Err(Refusal::DiskFault)
            }
        }
    }

    /// The third call of a batch: the gate before its body is opened.
    fn open_gate<D: Disk>(&mut self, disk: &mut D, batch: Batch) -> Result<Progress, Refusal>
        ensures says { (first : ℕ) (handed : List (law.Element TimedOp)) →
            Says (JournalSays first handed) result (view_in_phase self.old.on_device (Phase.BodySynced batch)).choice (choice_of self.new) }
        ensures on { D.faithful disk.new → is_on (encodings_of self.old)
            (view_in_phase self.old.on_device (Phase.BodySynced batch))
            (D.state_at disk.old (D.clock disk.old) 0) →
            is_on (encodings_of self.old) (journal_view self.new) (D.state_at disk.new (D.clock disk.new) 0) }
        ensures nearer { OnOk result (steps_left self.new ≡ 1) }
        ensures same { store_of self.new ≡ store_of self.old }
        ensures unbroken { ¬ (result ≡ Err Faulted) }
        ensures breaks { IsBroken self.new ↔ (result ≡ Err DiskFault) }
        ensures call { OneCall IsJournal (D.state_at disk.old) (D.state_at disk.new)
            (D.clock disk.old) (D.clock disk.new) }
        ensures failures { HasFailed result (D.failures disk.old) (D.failures disk.new) }
        ensures faithful { D.faithful disk.new → D.faithful disk.old }
    {
        match device::write(disk, self.on_device.gate, &[OPEN_GATE]) {
            Ok(()) => {
                self.phase = Phase::GateWritten(batch);
                Ok(Progress::More)
            }
            Err(_) => {
                self.phase = Phase::Broken(Snapshot::of(&batch.ahead));
                Err(Refusal::DiskFault)
            }
        }
    }

    /// The last call of a batch: its gate is synced, and the batch is durable.
    fn sync_gate<D: Disk>(&mut self, disk: &mut D, batch: Batch) -> Result<Progress, Refusal>
        ensures says { (first : ℕ) (handed : List (law.Element TimedOp)) →
            Says (JournalSays first handed) result (view_in_phase self.old.on_device (Phase.GateWritten batch)).choice (choice_of self.new) }
        ensures on { D.faithful disk.new → is_on (encodings_of self.old)
            (view_in_phase self.old.on_device (Phase.GateWritten batch))
            (D.state_at disk.old (D.clock disk.old) 0) →
            is_on (encodings_of self.old) (journal_view self.new) (D.state_at disk.new (D.clock disk.new) 0) }
        ensures on_device { OnOk result (choice_of self.new ≡ settled (content_of batch.ahead)) }
        ensures same { store_of self.new ≡ store_of self.old }
        ensures unbroken { ¬ (result ≡ Err Faulted) }
        ensures breaks { IsBroken self.new ↔ (result ≡ Err DiskFault) }
        ensures call { OneCall IsJournal (D.state_at disk.old) (D.state_at disk.new)
            (D.clock disk.old) (D.clock disk.new) }
        ensures failures { HasFailed result (D.failures disk.old) (D.failures disk.new) }
        ensures faithful { D.faithful disk.new → D.faithful disk.old }
    {
        match device::sync(disk) {
            Ok(()) => {
                let Batch { ahead } = batch;
                self.on_device = ahead;
                self.phase = Phase::AtRest;
                Ok(Progress::Done)
            }
            Err(_) => {
                self.phase = Phase::Broken(Snapshot::of(&batch.ahead));
                Err(Refusal::DiskFault)
            }
        }
    }

    /// The last call of a trim: the file decodes to no element.
    fn sync_trim<D: Disk>(&mut self, disk: &mut D) -> Result<Progress, Refusal>
        ensures says { (first : ℕ) (handed : List (law.Element TimedOp)) →
            Says (JournalSays first handed) result (view_in_phase self.old.on_device Phase.TrimWritten).choice (choice_of self.new) }
        ensures trims { Says TrimSays result (view_in_phase self.old.on_device Phase.TrimWritten).choice
            (choice_of self.new) }
        ensures on { D.faithful disk.new → is_on (encodings_of self.old)
            (view_in_phase self.old.on_device Phase.TrimWritten)
            (D.state_at disk.old (D.clock disk.old) 0) →
            is_on (encodings_of self.old) (journal_view self.new) (D.state_at disk.new (D.clock disk.new) 0) }
        ensures nearer { OnOk result (steps_left self.new ≡ 4) }
        ensures ends { OnOk result (result ≡ Ok Progress.Done) }
        ensures same { store_of self.new ≡ store_of self.old }
        ensures unbroken { ¬ (result ≡ Err Faulted) }
        ensures breaks { IsBroken self.new ↔ (result ≡ Err DiskFault) }
        ensures call { OneCall IsJournal (D.state_at disk.old) (D.state_at disk.new)
            (D.clock disk.old) (D.clock disk.new) }
        ensures failures { HasFailed result (D.failures disk.old) (D.failures disk.new) }
        ensures faithful { D.faithful disk.new → D.faithful disk.old }
    {
        let nothing = Extent::nothing();
        match device::sync(disk) {
            Ok(()) => {
                self.on_device = nothing;
                self.phase = Phase::AtRest;
                Ok(Progress::Done)
            }
            Err(_) => {
                self.phase = Phase::Broken(Snapshot::of(&nothing));
                Err(Refusal::DiskFault)
            }
        }
    }

    /// The first call of a trim: the first gate is closed.
    fn begin_trim<D: Disk>(&mut self, disk: &mut D) -> Result<Progress, Refusal>
        requires quiet { self.old.phase ≡ Phase.AtRest }
        requires some { 0 < length (content_of self.old.on_device).elements }
        ensures says { Says TrimSays result (choice_of self.old) (choice_of self.new) }
        ensures on { D.faithful disk.new → is_on (encodings_of self.old) (journal_view self.old)
            (D.state_at disk.old (D.clock disk.old) 0) →
            is_on (encodings_of self.old) (journal_view self.new) (D.state_at disk.new (D.clock disk.new) 0) }
        ensures begins { OnOk result (IsTrimming self.new) }
        ensures same { store_of self.new ≡ store_of self.old }
        ensures unbroken { ¬ (result ≡ Err Faulted) }
        ensures breaks { IsBroken self.new ↔ (result ≡ Err DiskFault) }
        ensures call { OneCall IsJournal (D.state_at disk.old) (D.state_at disk.new)
            (D.clock disk.old) (D.clock disk.new) }
        ensures failures { HasFailed result (D.failures disk.old) (D.failures disk.new) }
        ensures faithful { D.faithful disk.new → D.faithful disk.old }
    {
        match device::write(disk, FIRST_GATE, &[CLOSED_GATE]) {
            Ok(()) => {
                self.phase = Phase::TrimWritten;
                Ok(Progress::More)
            }
            Err(_) => {
                let nothing = Extent::nothing();
                self.phase = Phase::Broken(Snapshot::of(&nothing));
                Err(Refusal::DiskFault)
            }
        }
    }

    /// The body of a batch of as many elements as fit, with the next gate after it, and what will be durable with it.
    fn prepare(&self, first: u64, handed: &[EncodedChange]) -> Result<(Vec<u8>, Batch), Refusal>
        requires some { 0 < length handed.now }
        requires handed { IsHanded (all_hives (store_of self.now)) self.now.on_device.used first handed.now
            (content_of self.now.on_device) }
        ensures ready { IfOk result (λ made. IsReady
            (encodings_of self.now) self.now.on_device first handed.now made.0.items made.1.ahead) }
        ensures memory { IfErr result (λ why. why ≡ NoMemory) }
    {
        let prefix = body::longest_prefix(handed);
        let chosen = &handed[..prefix.count];
        let mut bytes = body::encode(self.alloc, first, chosen, prefix.size)?;
        bytes.push(CLOSED_GATE)?;
        let ahead = self.on_device.with_elements(first, prefix.size, chosen);
        Ok((bytes, Batch { ahead }))
    }

    /// The first call of a batch: its body and the next gate are written after the gate that isn't open.
    fn begin_batch<D: Disk>(
        &mut self,
        disk: &mut D,
        first: u64,
        handed: &[EncodedChange],
    ) -> Result<Progress, Refusal>
        requires quiet { self.old.phase ≡ Phase.AtRest }
        requires some { 0 < length handed.now }
        requires handed { IsHanded (all_hives (store_of self.old)) self.old.on_device.used first handed.now
            (content_of self.old.on_device) }
        ensures says { Says (JournalSays first (timed_elements handed.now)) result
            (choice_of self.old) (choice_of self.new) }
        ensures longest { (result ≡ Ok Progress.More) →
            BeginsLongest first handed.now (choice_of self.old) (choice_of self.new) }
        ensures no_change { (result ≡ Err NoMemory) ⊎ (result ≡ Ok Progress.Idle) →
            disk.new ≡ disk.old }
        ensures on { D.faithful disk.new → is_on (encodings_of self.old) (journal_view self.old)
            (D.state_at disk.old (D.clock disk.old) 0) →
            is_on (encodings_of self.old) (journal_view self.new) (D.state_at disk.new (D.clock disk.new) 0) }
        ensures nearer { OnOk result (steps_left self.new ≡ 3) }
        ensures same { store_of self.new ≡ store_of self.old }
        ensures unbroken { ¬ (result ≡ Err Faulted) }
        ensures breaks { IsBroken self.new ↔ (result ≡ Err DiskFault) }
        ensures call { OneCall IsJournal (D.state_at disk.old) (D.state_at disk.new)
            (D.clock disk.old) (D.clock disk.new) }
        ensures failures { HasFailed result (D.failures disk.old) (D.failures disk.new) }
        ensures faithful { D.faithful disk.new → D.faithful disk.old }
    {
        let (bytes, batch) = self.prepare(first, handed)?;
        match device::write(disk, self.on_device.gate + 1, &bytes) {
            Ok(()) => {
                self.phase = Phase::BodyWritten(batch);
                Ok(Progress::More)
            }
            Err(_) => {
                self.phase = Phase::Broken(Snapshot::of(&batch.ahead));
                Err(Refusal::DiskFault)
            }
        }
    }

    /// The next call of what is under way. After a failure no call is made.
    fn go_on<D: Disk>(&mut self, disk: &mut D) -> Result<Progress, Refusal>
        requires halfway { ¬ (self.old.phase ≡ Phase.AtRest) }
        ensures says { (first : ℕ) (handed : List (law.Element TimedOp)) →
            Says (JournalSays first handed) result (choice_of self.old) (choice_of self.new) }
        ensures trims { (choice_of self.old).next ≡ Some nothing →
            Says TrimSays result (choice_of self.old) (choice_of self.new) }
        ensures faulted { (result ≡ Err Faulted) ↔ IsBroken self.old }
        ensures broken { IsBroken self.new ↔ (IsBroken self.old ⊎ (result ≡ Err DiskFault)) }
        ensures no_change { (result ≡ Err Faulted) → disk.new ≡ disk.old }
        ensures on { D.faithful disk.new → is_on (encodings_of self.old) (journal_view self.old)
            (D.state_at disk.old (D.clock disk.old) 0) →
            is_on (encodings_of self.old) (journal_view self.new) (D.state_at disk.new (D.clock disk.new) 0) }
        ensures nearer { OnOk result (MakesProgress self.old self.new) }
        ensures ends { IsTrimming self.old → OnOk result (result ≡ Ok Progress.Done) }
        ensures same { store_of self.new ≡ store_of self.old }
        ensures call { OneCall IsJournal (D.state_at disk.old) (D.state_at disk.new)
            (D.clock disk.old) (D.clock disk.new) }
        ensures failures { HasFailed result (D.failures disk.old) (D.failures disk.new) }
        ensures faithful { D.faithful disk.new → D.faithful disk.old }
    {
        match mem::replace(&mut self.phase, Phase::AtRest) {
            Phase::AtRest => Ok(Progress::Idle),
            Phase::BodyWritten(batch) => self.sync_body(disk, batch),
            Phase::BodySynced(batch) => self.open_gate(disk, batch),
            Phase::GateWritten(batch) => self.sync_gate(disk, batch),
            Phase::TrimWritten => self.sync_trim(disk),
            Phase::Broken(ahead) => {
                self.phase = Phase::Broken(ahead);
                Err(Refusal::Faulted)
            }
        }
    }
}
