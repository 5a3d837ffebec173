//! How much of the journal's room is used.
ghost use Rattle.ktm_calls.specs.Waiting.{IsUsedRoom};

use crate::locked::Locked;
use histories::{SeenEvents, Start};
use store_engine::StoreEngine;

/// How much of the journal's room was used at a moment, with the history up to it.
#[derive(Drop)]
pub struct UsedRoom {
    /// The bytes.
    pub bytes: u64,
    /// The history up to that moment. It has no bytes.
    pub seen: SeenEvents,
}

impl<E: StoreEngine, O: Start> Locked<E, O> {
    /// How much of the journal's room is used.
    pub(crate) fn used_room(&self) -> UsedRoom
        ensures { IsUsedRoom O.history O.start result }
    {
        self.keeps_history(); // for the prover
        UsedRoom {
            bytes: self.engine().room(),
            seen: self.events(),
        }
    }
}
