//! Holds of those who wait for a change to be durable, and of the flusher.
//!
//! One of those who wait makes the steps of the journal for all, one a hold; the others sleep meanwhile. What is
//! accepted during a batch is the next batch. Nobody depends on the flusher.
ghost use Rattle.std.specs.Prelude.{◌≡◌, ◌+◌, ◌≤◌, ℕ, true, length, IfNone, IfOk, IfSome, OnErr};
ghost use Rattle.refusals.specs.declared.refusal.Refusal.{Refusal as AnyRefusal};
ghost use Rattle.store_model.specs.declared.event.Reply.TheVariants.{Refused};
ghost use Rattle.ktm_calls.specs.Moments.{SeesSteps, Sight as AnySight};
ghost use Rattle.ktm_calls.specs.Room.{EndsRefused, MayBeStuck};
ghost use Rattle.ktm_calls.specs.Waiting.{EndsCheckpoint, EndsWait, HasNoWork, IsOfAll, IsTurn, IsWork, SteppedOrFailed, is_step_kind};

use crate::asker::Asker;
use crate::event_kind::EventKind;
use crate::locked::{Locked, Told};
use crate::receipt::{Receipt, Stopped};
use disk_model::Progress;
use histories::{Permission, Start};
use refusals::Refusal;
use std::sync::Wait;
use store_engine::StoreEngine;
use store_model::{Event, Reply};

/// What one who waits does next.
#[derive(Clone, Copy)]
pub enum WaitMode {
    /// It asks whether its change is durable.
    Ask,
    /// It makes the steps of the journal, for all that wait.
    Lead,
    /// It sleeps while another makes them, and then asks.
    Sleep,
}

/// What one who waits does if there is no memory for a step of the journal.
#[derive(Clone, Copy)]
pub enum MemoryPolicy {
    /// It makes the step again.
    Retry,
    /// It waits no more.
    GiveUp,
}

/// What became of a hold of one who waits.
#[derive(Drop)]
pub enum WaitResult<O: Start> {
    /// It goes on with another hold.
    Again(WaitMode),
    /// The change is durable.
    Done(Receipt<O>),
    /// The event was refused.
    Refused(Told),
    /// There was no memory for a step of the journal.
    NoMemory,
}

/// What became of a hold of a checkpoint.
#[derive(Drop)]
pub enum CheckpointResult<O: Start> {
    /// A step was made, or refused.
    Step(Told),
    /// There was no memory.
    NoMemory,
    /// There is nothing to do: all that was accepted is durable.
    Done(Receipt<O>),
}

/// What became of a hold of the flusher.
#[derive(Drop)]
pub enum TurnResult {
    /// A step was made, or refused.
    Step(Told),
    /// There was no memory.
    NoMemory,
    /// There is nothing to do.
    Wait,
    /// There is nothing to do any more.
    Stopped(Stopped),
}

impl<E: StoreEngine, O: Start> Locked<E, O> {
    /// What one does first that waits for the change of this number.
    pub(crate) fn first_mode(&mut self, number: u64) -> WaitMode
        ensures same { self.new ≡ self.old }
    {
        if number <= self.durable() {
            return WaitMode::Ask;
        }
        if self.take_lead() {
            WaitMode::Lead
        } else {
            WaitMode::Sleep
        }
    }

    /// One hold of one who waits for the change of this number: one event. `leads` tells whether it makes the steps for
    /// all. One that gives up for want of memory leads no more.
    pub(crate) fn wait_hold<R: Wait>(
        &mut self,
        rt: &R,
        mine: &mut Asker<O>,
        number: u64,
        mode: WaitMode,
        leads: bool,
        policy: MemoryPolicy,
    ) -> WaitResult<O>
        ensures seen { SeesSteps O.sole mine.old mine.new }
        ensures ends { EndsWait O.sole O.start O.trees O.number O.hives number mine.old mine.new result }
        ensures call { (E.state self.new.engine).clock ≤ (E.state self.old.engine).clock + 1 }
    {
        match mode {
            WaitMode::Ask | WaitMode::Sleep => self.ask(rt, mine, number, leads),
            WaitMode::Lead => self.lead(rt, mine, number, policy),
        }
    }

    // the question whether the change is durable
    fn ask<R: Wait>(
        &mut self,
        rt: &R,
        mine: &mut Asker<O>,
        number: u64,
        leads: bool,
    ) -> WaitResult<O>
        ensures seen { SeesSteps O.sole mine.old mine.new }
        ensures ends { EndsWait O.sole O.start O.trees O.number O.hives number mine.old mine.new result }
        ensures call { (E.state self.new.engine).clock ≤ (E.state self.old.engine).clock + 1 }
    {
        let Ok(told) = self.serve(rt, mine, Event::Acked { number }) else {
            return WaitResult::Again(WaitMode::Ask);
        };
        match told.reply() {
            Reply::Receipt { number: durable } => {
                let receipt = Receipt::of(self, mine.sight_again(), *durable);
                if leads {
                    self.leave_lead();
                }
                WaitResult::Done(receipt)
            }
            Reply::NotYet => {
                if leads || self.take_lead() {
                    return WaitResult::Again(WaitMode::Lead);
                }
                WaitResult::Again(WaitMode::Sleep)
            }
            _ => {
                if leads {
                    self.leave_lead();
                }
                WaitResult::Refused(told)
            }
        }
    }

    // a step of the journal, for all that wait
    fn lead<R: Wait>(
        &mut self,
        rt: &R,
        mine: &mut Asker<O>,
        number: u64,
        policy: MemoryPolicy,
    ) -> WaitResult<O>
        ensures seen { SeesSteps O.sole mine.old mine.new }
        ensures ends { EndsWait O.sole O.start O.trees O.number O.hives number mine.old mine.new result }
        ensures call { (E.state self.new.engine).clock ≤ (E.state self.old.engine).clock + 1 }
    {
        let Ok(told) = self.serve(rt, mine, Event::JournalStep) else {
            return self.lacks_memory(policy);
        };
        match told.reply() {
            Reply::Stepped {
                progress: Progress::More,
            } => WaitResult::Again(WaitMode::Lead),
            Reply::Stepped { progress: _ } => WaitResult::Again(WaitMode::Ask),
            _ => {
                self.leave_lead();
                WaitResult::Refused(told)
            }
        }
    }

    // there was no memory for a step of the journal
    fn lacks_memory(&mut self, policy: MemoryPolicy) -> WaitResult<O>
        ensures same { self.new ≡ self.old }
        ensures ends { (number : ℕ) (was is : AnySight) → EndsWait O.sole O.start O.trees O.number O.hives number was is result }
    {
        match policy {
            MemoryPolicy::Retry => WaitResult::Again(WaitMode::Lead),
            MemoryPolicy::GiveUp => {
                self.leave_lead();
                WaitResult::NoMemory
            }
        }
    }

    // what the flusher does next, if anything
    fn next_work(&self) -> Option<Event>
        ensures some { IfSome result (IsWork (E.state self.now.engine).machine) }
        ensures none { IfNone result (HasNoWork (E.state self.now.engine)) }
    {
        let engine = self.engine();
        engine.stays_within();
        if engine.has_pending() {
            return Some(Event::JournalStep);
        }
        if let Some(hive) = engine.hive_with_work(self.last_flushed()) {
            return Some(Event::FlusherStep { hive });
        }
        if engine.may_trim() {
            return Some(Event::TrimStep);
        }
        None
    }

    // the hives take turns: the next flush is of a hive after the one whose flush has ended
    fn note_flush(&mut self, told: &Told)
        ensures same { self.new ≡ self.old }
    {
        if let Reply::Stepped {
            progress: Progress::More,
        } = told.reply()
        {
            return;
        }
        if let EventKind::FlusherStep { hive } = told.kind() {
            self.set_last_flushed(hive);
        }
    }

    /// One hold of the flusher: one event, or none if there is nothing to do.
    pub(crate) fn turn<R: Wait>(&mut self, rt: &R) -> TurnResult
        ensures turns { IsTurn O.history O.start (E.state self.new.engine) result }
        ensures stuck { MayBeStuck O.start self.new.history result }
        ensures call { (E.state self.new.engine).clock ≤ (E.state self.old.engine).clock + 1 }
    {
        self.keeps_history(); // for the prover
        let Some(event) = self.next_work() else {
            if self.is_stopped() {
                return TurnResult::Stopped(Stopped::of(self));
            }
            return TurnResult::Wait;
        };
        match self.step(rt, event) {
            Ok(told) => TurnResult::Step(told),
            Err(_) => TurnResult::NoMemory,
        }
    }

    /// One hold of a checkpoint: one event of the flusher, or a receipt if there is nothing to do.
    pub(crate) fn checkpoint<R: Wait>(&mut self, rt: &R) -> CheckpointResult<O>
        ensures ends { EndsCheckpoint O.start O.number result }
        ensures call { (E.state self.new.engine).clock ≤ (E.state self.old.engine).clock + 1 }
    {
        let Some(event) = self.next_work() else {
            return CheckpointResult::Done(self.receipt_of_all());
        };
        match self.step(rt, event) {
            Ok(told) => CheckpointResult::Step(told),
            Err(_) => CheckpointResult::NoMemory,
        }
    }

    // one event of the flusher, which is noted if it ends a flush
    fn step<R: Wait>(&mut self, rt: &R, event: Event) -> Result<Told, Refusal>
        requires work { IsWork (E.state self.old.engine).machine event }
        ensures made { IfOk result (λ t. (is_step_kind t.kind ≡ true) × SteppedOrFailed t.reply) }
        ensures refused { IfOk result (λ t. (why : AnyRefusal) → t.reply ≡ Refused why → EndsRefused self.new.history) }
        ensures lacked { OnErr result (EndsRefused self.new.history) }
        ensures call { (E.state self.new.engine).clock ≤ (E.state self.old.engine).clock + 1 }
    {
        let told = self.hold(rt, event, &mut Permission::none())?;
        self.note_flush(&told);
        Ok(told)
    }

    // the receipt of the last change, if nothing is left to do
    fn receipt_of_all(&self) -> Receipt<O>
        requires idle { HasNoWork (E.state self.now.engine) }
        ensures { IsOfAll O.start O.number result }
    {
        self.is_of_registry();
        self.keeps_history(); // for the prover
        Receipt::of(self, self.sight(), self.durable())
    }
}
