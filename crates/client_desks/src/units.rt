//! The units of work that are active, for threads.

use crate::unit_table::{UnitRefusal, UnitTable};
use client_frames::ClientPlace;
use std::alloc::Global;
use std::sync::{Mutex, MutexGuard, Wait};
use uuid::Uuid;

/// The units of work that are active, and the place of each.
#[derive(Drop)]
pub struct Units {
    lock: Mutex<UnitTable>,
}

impl Units {
    /// No unit is active.
    pub fn new(alloc: Global) -> Units {
        Units {
            lock: Mutex::new(UnitTable::new(alloc)),
        }
    }

    /// A place enters a unit, unless another place has it. It may enter one several times, and has to leave it as often.
    pub fn enter<R: Wait>(
        &self,
        rt: &R,
        place: ClientPlace,
        unit: Uuid,
    ) -> Result<(), UnitRefusal> {
        let mut guard = self.lock.lock(rt);
        let entered = (&mut *guard).enter(place, unit);
        let _ = MutexGuard::unlock(guard);
        entered
    }

    /// A place leaves a unit once.
    pub fn leave<R: Wait>(&self, rt: &R, place: ClientPlace, unit: Uuid) {
        let mut guard = self.lock.lock(rt);
        (&mut *guard).leave(place, unit);
        let _ = MutexGuard::unlock(guard);
    }

    /// A place leaves all units that it has.
    pub fn leave_all<R: Wait>(&self, rt: &R, place: ClientPlace) {
        let mut guard = self.lock.lock(rt);
        (&mut *guard).leave_all(place);
        let _ = MutexGuard::unlock(guard);
    }
}
