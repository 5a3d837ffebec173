//! When a disk in memory is to fail, ordered from outside while it is used.
ghost use Rattle.std.specs.Prelude.{◌≡◌, ◌+◌, ◌-◌, ◌≤◌, ◌^◌, min, true};
ghost use Rattle.disk_model.specs.Plan.{fate_of, no_points};

use crate::call_counts::CallCounts;
use std::sync::atomic::{AtomicU64, Ordering};

/// What becomes of one call.
#[derive(Clone, Copy)]
pub(crate) enum Fate {
    Succeeds,
    /// It is done, and reported as failed.
    Stops,
    /// It is not done.
    Fails,
}

/// Which calls of a disk are to be hit, by their numbers. The first is 1, and 0 is none.
#[derive(Clone, Copy, PartialEq)]
pub struct FailurePoints {
    /// Which of the writes, cuts and syncs stops the disk.
    pub stop_on: u64,
    /// Which of all calls fails alone.
    pub fail_on: u64,
}

impl FailurePoints {
    /// No call is to be hit.
    pub fn none() -> FailurePoints
        ensures { result ≡ no_points }
    {
        FailurePoints {
            stop_on: 0,
            fail_on: 0,
        }
    }

    /// The disk is to stop at the `k`-th write, cut or sync after those that are counted.
    pub fn stop_at(self, counted: CallCounts, k: u64) -> FailurePoints
        ensures { result ≡ record self { stop_on = min (counted.changes + k) (2 ^ 64 - 1) } }
    {
        FailurePoints {
            stop_on: counted.changes.saturating_add(k),
            fail_on: self.fail_on,
        }
    }

    /// The `k`-th call after those that are counted is to fail alone.
    pub fn fail_at(self, counted: CallCounts, k: u64) -> FailurePoints
        ensures { result ≡ record self { fail_on = min (counted.calls + k) (2 ^ 64 - 1) } }
    {
        FailurePoints {
            stop_on: self.stop_on,
            fail_on: counted.calls.saturating_add(k),
        }
    }

    /// Whether the same calls are to be hit.
    pub(crate) fn is(self, other: FailurePoints) -> bool
        ensures { result ≡ true → self ≡ other }
    {
        self == other
    }

    /// What becomes of the next call after those that are counted.
    pub(crate) fn fate(self, counted: CallCounts, is_change: bool) -> Fate
        ensures { result ≡ fate_of self counted is_change }
    {
        let change = counted.changes.saturating_add(1);
        if counted.calls.saturating_add(1) == self.fail_on {
            return Fate::Fails;
        }
        if self.stop_on == 0 || change < self.stop_on {
            return Fate::Succeeds;
        }
        if change > self.stop_on {
            return Fate::Fails;
        }
        if is_change {
            Fate::Stops
        } else {
            Fate::Succeeds
        }
    }
}

/// Orders to a [`MemDisk`](crate::MemDisk) to fail. It is shared with the disk, which takes the orders at its next
/// call. One disk at a time uses a plan.
#[derive(Drop)]
pub struct Plan {
    // how many orders and periods there were
    given: AtomicU64,
    // the order that no call has taken yet; 0 is none
    stop: AtomicU64,
    fail: AtomicU64,
}

impl Plan {
    /// No call fails.
    pub const fn new() -> Plan {
        Plan {
            given: AtomicU64::new(0),
            stop: AtomicU64::new(0),
            fail: AtomicU64::new(0),
        }
    }

    /// The `k`-th write, cut or sync from now on fails, and so does every call after it, reads too. The `k`-th is done
    /// if it is a write or a cut; a sync isn't. It replaces an earlier stop.
    pub fn stop_at(&self, k: u64)
        requires { 1 ≤ k }
    {
        self.stop.store(k, Ordering::SeqCst);
        self.begin_period();
    }

    /// The `k`-th call of any kind from now on fails, alone, and does nothing. It replaces an earlier one.
    pub fn fail_at(&self, k: u64)
        requires { 1 ≤ k }
    {
        self.fail.store(k, Ordering::SeqCst);
        self.begin_period();
    }

    /// With the next call a period begins, of which [`MemDisk::has_gone`](crate::MemDisk::has_gone) can tell.
    pub fn begin_period(&self) {
        self.given.fetch_add(1, Ordering::SeqCst);
    }

    /// How many orders and periods there were.
    pub(crate) fn given(&self) -> u64 {
        self.given.load(Ordering::SeqCst)
    }

    /// The points with the orders that no call had taken yet, after the calls that are counted.
    pub(crate) fn take(&self, points: FailurePoints, counted: CallCounts) -> FailurePoints {
        let mut points = points;
        let stop = self.stop.swap(0, Ordering::SeqCst);
        if stop > 0 {
            points = points.stop_at(counted, stop);
        }
        let fail = self.fail.swap(0, Ordering::SeqCst);
        if fail > 0 {
            points = points.fail_at(counted, fail);
        }
        points
    }
}
