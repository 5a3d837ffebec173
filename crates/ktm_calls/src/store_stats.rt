//! How full a store is, for those who run it.
ghost use Rattle.std.specs.Prelude.{◌≡◌};
ghost use Rattle.ktm_calls.specs.Moments.{SeesMore};
ghost use Rattle.ktm_calls.specs.Snapshots.{IsStatsOf};

use crate::asker::Asker;
use crate::locked::Locked;
use histories::Start;
use std::sync::Wait;
use store_engine::StoreEngine;

/// How full a store is at a moment, and who waits.
#[derive(Clone, Copy, Debug, PartialEq, Eq)]
pub struct StoreStats {
    /// The number of the last change.
    pub number: u64,
    /// The number of the last durable change.
    pub durable: u64,
    /// How many bytes of the journal's room are used.
    pub room: u64,
    /// How many threads wait until a change is durable. No promise speaks of it: they come and go without the lock.
    pub waiting: u64,
}

impl<E: StoreEngine, O: Start> Locked<E, O> {
    /// How full the store is after all that was accepted, which one who asks has seen then. So many wait.
    pub(crate) fn stats<R: Wait>(&self, rt: &R, mine: &mut Asker<O>, waiting: u64) -> StoreStats
        ensures seen { SeesMore mine.old mine.new }
        ensures asked { mine.new.asked ≡ mine.old.asked }
        ensures stats { IsStatsOf O.start O.number mine.new result }
    {
        self.inform(rt, mine);
        self.keeps_history(); // for the prover
        let engine = self.engine();
        StoreStats {
            number: engine.last_number(),
            durable: engine.durable(),
            room: engine.room(),
            waiting,
        }
    }
}
