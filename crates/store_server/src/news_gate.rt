//! The flusher's steps, as news for those who follow.

use client_desks::Desks;
use disk_model::Progress;
use flusher::Gate;
use shared_store::BusyGate;
use std::sync::Wait;

/// Sets the flusher's pace as [`BusyGate`] does, and wakes those who follow after each of its steps: one may have made changes
/// durable that no session made so.
pub struct NewsGate<'a, R: Wait> {
    rt: &'a R,
    desks: &'a Desks,
}

impl<'a, R: Wait> NewsGate<'a, R> {
    /// The gate of a service's flusher.
    pub fn new(rt: &'a R, desks: &'a Desks) -> NewsGate<'a, R> {
        NewsGate { rt, desks }
    }
}

impl<'a, R: Wait> Drop for NewsGate<'a, R> {
    fn drop(self) {
        let NewsGate { rt: _, desks: _ } = self;
    }
}

impl<'a, R: Wait> Gate for NewsGate<'a, R> {
    fn room(&self) -> u64 {
        BusyGate.room()
    }

    fn room_after(&self, used: u64) -> u64 {
        BusyGate.room_after(used)
    }

    fn after_step(&self, _progress: Progress) {
        self.desks.tell_news(self.rt);
    }
}
