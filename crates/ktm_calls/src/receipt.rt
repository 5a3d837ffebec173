//! Receipts: of changes that are durable, and of a flusher that has nothing left to do.
ghost use Rattle.std.specs.Prelude.{◌≡◌, ◌≤◌, ◌+◌, true, length};
ghost use Rattle.histories.specs.Histories.{IsHistory, end_of};
ghost use Rattle.ktm_calls.specs.Waiting.{HasNoWork, IsDone};

use crate::locked::Locked;
use crate::sight::Sight;
use histories::{EventCount, SeenEvents, Start};
use std::marker::Model;
use std::sync::Wait;
use store_engine::StoreEngine;

/// That the change of a number is durable, and with it each earlier one. It carries the list of changes and the history as
/// they were then, and for how many events its committer had asked: a session that learns it has seen them.
pub struct Receipt<O: Start> {
    number: u64,
    seen: Sight<O>,
}

impl<O: Start> Drop for Receipt<O> {
    // one drop for all that own one, whose proofs see no more of it than that
    fn drop(self) {
        let Receipt { number: _, seen: _ } = self;
    }
}

impl<O: Start> Model for Receipt<O> {
    ghost use Rattle.std.specs.Prelude.{◌≡◌, ◌≤◌, ◌+◌, length};
    ghost use Rattle.histories.specs.Histories.{end_of};
    ghost use Rattle.ktm_calls.specs.Moments.{NumberedSight, numbered_code};

    ghost Value = { NumberedSight };

    ghost coded = { numbered_code };

    ghost view = { λ r. record { number = r.number; seen = r.seen } };

    ghost invariant = { λ r. record {
      within : r.number ≤ O.number + length r.seen.list;
      durable : r.number ≤ (end_of O.start r.seen.history).machine.durable;
    } };
}

impl<O: Start> Receipt<O> {
    /// A receipt of a number that is durable, for one who has seen all that is seen under the lock: its one maker.
    pub fn of<E: StoreEngine>(locked: &Locked<E, O>, seen: Sight<O>, number: u64) -> Receipt<O>
        requires durable { number ≤ (E.state locked.now.engine).machine.durable }
        requires list { seen.list ≡ (E.state locked.now.engine).machine.accepted }
        requires history { seen.history ≡ locked.now.history }
        ensures { result ≡ record { number = number; seen = seen } }
    {
        locked.is_of_registry(); // for the prover
        locked.keeps_history(); // for the prover
        Receipt { number, seen }
    }

    /// The number; 0 for a transaction without operations.
    pub fn number(&self) -> u64
        ensures number { result ≡ self.now.number }
        ensures within { self.now.number ≤ O.number + length self.now.seen.list }
        ensures durable { self.now.number ≤ (end_of O.start self.now.seen.history).machine.durable }
    {
        self.number
    }

    /// What it carries: what was seen as it was made.
    pub fn sight(&self) -> &Sight<O>
        ensures { result.now ≡ self.now.seen }
    {
        &self.seen
    }

    // that its change is durable in a history that has all that was seen
    pub(crate) fn stays_durable<R: Wait>(&self, rt: &R, events: &EventCount)
        requires book { events.now.book ≡ O.history }
        requires run { IsHistory O.start events.now.log }
        ensures { self.now.number ≤ (end_of O.start events.now.log).machine.durable }
    {
        let mut all = self.seen.events.again();
        events.show(rt, &mut all);
    }
}

/// That the flusher was told to stop, and that nothing is left to do: all that was accepted is durable, and each hive has
/// it. It carries the history as it was then.
pub struct Stopped {
    number: u64,
    seen: SeenEvents,
}

impl Drop for Stopped {
    // one drop for all that own one, whose proofs see no more of it than that
    fn drop(self) {
        let Stopped { number: _, seen: _ } = self;
    }
}

impl Model for Stopped {
    ghost use Rattle.ktm_calls.specs.Moments.{FlusherEnd, flusher_end_code};

    ghost Value = { FlusherEnd };

    ghost coded = { flusher_end_code };

    ghost view = { λ s. record { number = s.number; seen = s.seen } };
}

impl Stopped {
    /// That it is so: its one maker.
    pub fn of<E: StoreEngine, O: Start>(locked: &Locked<E, O>) -> Stopped
        requires told { locked.now.stopped ≡ true }
        requires idle { HasNoWork (E.state locked.now.engine) }
        ensures { IsDone O.history O.start result }
    {
        locked.keeps_history(); // for the prover
        Stopped {
            number: locked.durable(),
            seen: locked.events(),
        }
    }

    /// The number up to which all is durable.
    pub fn number(&self) -> u64
        ensures { result ≡ self.now.number }
    {
        self.number
    }

    /// The history as it was then.
    pub fn events(&self) -> &SeenEvents
        ensures { result.now ≡ self.now.seen }
    {
        &self.seen
    }
}
