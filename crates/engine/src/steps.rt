//! The steps of an engine: a batch of the journal, a trim, a flush of a hive.
ghost use Rattle.std.specs.Prelude.{◌≡◌, ◌↔◌, ◌-◌, ◌<◌, ◌≤◌, ℕ, false, true, length, map, slice_get, take, IfErr, IfOk, Ok, OnOk, Some};
ghost use Rattle.refusals.specs.declared.refusal.Refusal.TheVariants.{Faulted, NoMemory};
ghost use Rattle.crash_model.specs.Promises.{top};
ghost use Rattle.store_model.specs.Machine.{last_number, pending};
ghost use Rattle.store_model.specs.Steps.{Step, is_request, may_accept};
ghost use Rattle.store_model.specs.declared.event.Reply.TheVariants as reply;
ghost use Rattle.transactions.specs.Prepared.{Predicts, IsPrepared, AcceptsJust, change_to_accept};
ghost use Rattle.engine.specs.EarlierChanges.{changes_before};
ghost use Rattle.commit_journal.specs.Journals.{choice_of};
ghost use Rattle.hive_flush.specs.HiveStates.{file_choice};
ghost use Rattle.disk_model.specs.declared.progress.Progress.TheVariants as Progress;
ghost use Rattle.hive_flush.specs.declared.hive.HiveFile.{HiveFile};
ghost use Rattle.engine_invariant.specs.Answers.{MayTrim, after_flush, reply_to};
ghost use Rattle.engine_invariant.specs.Idle.{IdlesExactly, JournalIsIdle, IsTrimmed};
ghost use Rattle.engine_invariant.specs.Prefixes.{view_of};
ghost use Rattle.engine.specs.Events.{StepAdvances, PartsStep};
ghost use Rattle.commit_journal.specs.LastChangePerHive.{HasCounted};
ghost use Rattle.engine.specs.Parts.{IsSound, after_mark_durable};

use crate::parts::Parts;
use disk_model::{Disk, Progress};
use hive_flush::HiveFile;
use refusals::Refusal;
use std::alloc::AllocError;
use store_model::{Event, Reply};
use transactions::Prepared;

impl<D: Disk> Parts<D> {
    /// Any event: a step of the machine, with at most one device call.
    pub fn event(&mut self, event: Event) -> Reply
        requires sound { IsSound self.old }
        ensures continues { PartsStep D.state_at D.clock D.failures D.faithful
            event result self.old self.new }
        ensures advances { StepAdvances event result self.old self.new }
        ensures idle { self.old.store.machine.faulted ≡ false → IdlesExactly event result
            self.old.store.machine self.old.base (changes_before self.old.earlier)
            (choice_of self.old.journal) (map view_of self.old.hives.items) }
    {
        match event {
            Event::JournalStep => reply_of_step(self.journal_step()),
            Event::FlusherStep { hive } => reply_of_step(self.flusher_step(hive)),
            Event::TrimStep => reply_of_step(self.trim_step()),
            Event::Fold => self.fold(),
            request => self.store_event(request),
        }
    }

    // an event that neither makes a step nor folds the history
    fn store_event(&mut self, event: Event) -> Reply
        requires is_request { is_request event ≡ true }
        requires sound { IsSound self.old }
        ensures continues { PartsStep D.state_at D.clock D.failures D.faithful
            event result self.old self.new }
        ensures advances { StepAdvances event result self.old self.new }
        ensures idle { IdlesExactly event result
            self.old.store.machine self.old.base (changes_before self.old.earlier)
            (choice_of self.old.journal) (map view_of self.old.hives.items) }
    {
        engine_invariant::laws::events_keep();
        store_model::laws::only_steps_fail();
        store_model::laws::only_steps_make_durable();
        self.store.event(event)
    }

    /// Prepares an event that may accept a change: all that it grows is made.
    pub fn prepare(&mut self, event: Event) -> Result<Prepared, AllocError>
        requires sound { IsSound self.old }
        requires accepts { may_accept event ≡ true }
        ensures prepared { IfOk result (λ prepared. (prepared.event.value ≡ event)
            × IsPrepared self.new.store prepared) }
        ensures predicted { IfOk result (λ prepared.
            Predicts self.new.store.machine event (change_to_accept prepared)) }
        ensures sound { IsSound self.new }
        ensures machine { self.new.store.machine ≡ self.old.store.machine }
        ensures rest { self.new ≡ record self.old { store = self.new.store } }
    {
        self.store.prepare(event)
    }

    /// Finishes an event that was prepared: it accepts a change, or changes nothing that lasts.
    pub fn finish(&mut self, prepared: Prepared) -> Reply
        requires sound { IsSound self.old }
        requires prepared { IsPrepared self.old.store prepared }
        ensures step { Step self.old.store.machine prepared.event.value result self.new.store.machine }
        ensures shown { AcceptsJust (change_to_accept prepared) self.old.store.machine self.new.store.machine }
        ensures never_no_memory { ¬ (result ≡ reply.Refused NoMemory) }
        ensures sound { IsSound self.new }
        ensures rest { self.new ≡ record self.old { store = self.new.store } }
    {
        engine_invariant::laws::events_keep();
        store_model::laws::only_steps_make_durable();
        self.store.finish(prepared)
    }

    /// Refuses each step once the device has failed.
    pub fn check_not_faulted(&self) -> Result<(), Refusal>
        ensures works { OnOk result (self.now.store.machine.faulted ≡ false) }
        ensures faulted { IfErr result (λ why.
            (self.now.store.machine.faulted ≡ true) × (why ≡ Faulted)) }
    {
        if self.store.is_faulted() {
            return Err(Refusal::Faulted);
        }
        Ok(())
    }

    // a step of the journal: the next call of what is under way, or the first of a batch of what is pending
    fn journal_step(&mut self) -> Result<Progress, Refusal>
        requires sound { IsSound self.old }
        ensures continues { PartsStep D.state_at D.clock D.failures D.faithful
            Event.JournalStep (reply_to result) self.old self.new }
        ensures advances { StepAdvances Event.JournalStep (reply_to result) self.old self.new }
        ensures idle { self.old.store.machine.faulted ≡ false →
            (result ≡ Ok Progress.Idle) ↔ JournalIsIdle self.old.store.machine
            (choice_of self.old.journal) }
    {
        self.check_not_faulted()?;
        engine_invariant::laws::pending_may_be_handed();
        engine_invariant::laws::journal_steps_keep();
        engine_invariant::laws::ended_steps_effects();
        engine_invariant::laws::receipts_are_durable();
        let durable = self.store.durable();
        let used = self.journal.used();
        let pending = self.store.above(durable);
        let come = self.journal.step(&mut self.disk, durable + 1, pending);
        self.mark_durable(come, used);
        come
    }

    // a step of a trim: its second call, or its first if the hives have all that the journal decodes to
    fn trim_step(&mut self) -> Result<Progress, Refusal>
        requires sound { IsSound self.old }
        ensures continues { PartsStep D.state_at D.clock D.failures D.faithful
            Event.TrimStep (reply_to result) self.old self.new }
        ensures advances { StepAdvances Event.TrimStep (reply_to result) self.old self.new }
        ensures idle { self.old.store.machine.faulted ≡ false → (result ≡ Ok Progress.Idle) ↔
            IsTrimmed self.old.store.machine self.old.base (changes_before self.old.earlier)
            (choice_of self.old.journal) (map view_of self.old.hives.items) }
    {
        self.check_not_faulted()?;
        engine_invariant::laws::journal_steps_keep();
        engine_invariant::laws::ended_steps_effects();
        engine_invariant::laws::receipts_are_durable();
        if !self.may_trim() {
            return Ok(Progress::Idle);
        }
        let used = self.journal.used();
        let come = self.journal.trim_step(&mut self.disk);
        self.mark_durable(come, used);
        come
    }

    /// Whether a step of a trim may be made.
    pub fn may_trim(&self) -> bool
        requires sound { IsSound self.now }
        requires works { self.now.store.machine.faulted ≡ false }
        ensures yes { result ≡ true → MayTrim self.now.store.machine self.now.base
            (changes_before self.now.earlier) (choice_of self.now.journal)
            (map view_of self.now.hives.items) }
        ensures no { result ≡ false → IsTrimmed self.now.store.machine self.now.base
            (changes_before self.now.earlier) (choice_of self.now.journal)
            (map view_of self.now.hives.items) }
    {
        if self.journal.is_trimming() {
            return true;
        }
        if self.journal.is_halfway() || self.journal.last_number() == 0 {
            return false;
        }
        all_have(&self.hives, &self.last_changes.last)
    }

    // applies the result of a step of the journal or of a trim, before which the journal had used `used` bytes of room
    fn mark_durable(&mut self, come: Result<Progress, Refusal>, used: u64)
        requires works { self.old.store.machine.faulted ≡ false }
        requires room { used ≤ self.old.store.machine.room }
        requires known { come ≡ Ok Progress.Done →
            top self.old.store.machine.durable (choice_of self.old.journal).now
            ≤ last_number self.old.store.machine }
        requires opened { self.old.store.machine.before ≤ self.old.store.machine.durable }
        requires retained { self.old.store.retained ≤ self.old.store.machine.durable }
        ensures machine { self.new.store.machine
            ≡ after_mark_durable self.old.store.machine (choice_of self.old.journal).now used come }
        ensures rest { self.new ≡ record self.old {
          store = self.new.store;
          last_changes = self.new.last_changes;
        } }
        ensures retained { self.new.store.retained ≡ self.old.store.retained }
        ensures last_changes { HasCounted self.old.last_changes.last.items self.old.store.machine.durable
            (take (self.new.store.machine.durable - self.old.store.machine.durable)
            (pending self.old.store.machine)) self.new.last_changes.last.items }
    {
        match come {
            Ok(Progress::Done) => {
                self.store.free(used.saturating_sub(self.journal.used()));
                let durable = self.store.durable();
                let last = self.journal.last_number();
                if last > 0 {
                    let count = last.saturating_sub(durable) as usize;
                    let settled = &self.store.above(durable)[..count];
                    self.last_changes.count_in(durable, settled);
                    self.store.mark_durable(last);
                }
            }
            _ => self.note_fault(come),
        }
    }

    /// Applies the result of a step that makes nothing durable: if the device failed in it, the store is faulted.
    pub fn note_fault(&mut self, come: Result<Progress, Refusal>)
        requires works { self.old.store.machine.faulted ≡ false }
        ensures machine { self.new.store.machine ≡ after_flush self.old.store.machine come }
        ensures rest { self.new ≡ record self.old { store = self.new.store } }
        ensures retained { self.new.store.retained ≡ self.old.store.retained }
    {
        if let Err(Refusal::DiskFault) = come {
            self.store.fail();
        }
    }
}

// whether each hive's files have the last change that names it
fn all_have(hives: &[HiveFile], last: &[u64]) -> bool
    requires many { length last.now ≡ length hives.now }
    ensures all { result ≡ true → (i m : ℕ) (hive : HiveFile) → slice_get hives.now i ≡ Some hive →
        slice_get last.now i ≡ Some m → m ≤ (file_choice hive).now.1 }
    ensures some { result ≡ false → (i : ℕ) × (m : ℕ) × (hive : HiveFile) ×
        (slice_get hives.now i ≡ Some hive) × (slice_get last.now i ≡ Some m) ×
        ((file_choice hive).now.1 < m) }
{
    for (place, hive) in hives.iter().enumerate() {
        if hive.applied() < last[place] {
            return false;
        }
    }
    true
}

// the reply to a step: how far it has come, or why it was refused
fn reply_of_step(come: Result<Progress, Refusal>) -> Reply
    ensures { result ≡ reply_to come }
{
    match come {
        Ok(progress) => Reply::Stepped { progress },
        Err(refusal) => Reply::Refused { refusal },
    }
}
