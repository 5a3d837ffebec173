//! When the device of a laboratory's disk fails.
ghost use Rattle.std.specs.Prelude.{◌≡◌, true, IfOk};
ghost use Rattle.disk_model.specs.MemDisks.{counts_of};
ghost use Rattle.disk_model.specs.Plan.{no_points};
ghost use Rattle.crash_lab.specs.Devices.{HasJustBegun, number_after};

use disk_model::{CallCounts, FailurePoints, MemDisk, Plan};
use std::alloc::{AllocError, Global};
use std::sync::Arc;

/// The plan by which a disk's device fails, and which of its calls the script has asked it to hit.
#[derive(Drop)]
pub(crate) struct Device {
    plan: Arc<Plan>,
    points: FailurePoints,
}

impl Device {
    /// A device of which nothing was asked. Refused only for lack of memory.
    pub(crate) fn new(alloc: Global) -> Result<Device, AllocError>
        ensures { IfOk result (λ device. device.points ≡ no_points) }
    {
        Ok(Device {
            plan: Arc::new(alloc, Plan::new())?,
            points: FailurePoints::none(),
        })
    }

    /// Its plan, for the disk.
    pub(crate) fn plan(&self) -> Result<Arc<Plan>, AllocError> {
        self.plan.clone()
    }

    /// Which calls it is to hit.
    pub(crate) fn points(&self) -> FailurePoints
        ensures { result ≡ self.now.points }
    {
        self.points
    }

    /// A line begins, whose calls are looked at after it.
    pub(crate) fn begin_line(&self) {
        self.plan.begin_period();
    }

    /// Stops at a write, cut or sync after those that are counted; no further call succeeds.
    pub(crate) fn stop_at(&mut self, counted: CallCounts, call: u64)
        ensures { self.new.points
            ≡ record self.old.points { stop_on = number_after counted.changes call } }
    {
        let call = call.max(1);
        self.plan.stop_at(call);
        self.points = self.points.stop_at(counted, call);
    }

    /// Fails in a call after those that are counted, alone.
    pub(crate) fn fail_at(&mut self, counted: CallCounts, call: u64)
        ensures { self.new.points
            ≡ record self.old.points { fail_on = number_after counted.calls call } }
    {
        let call = call.max(1);
        self.plan.fail_at(call);
        self.points = self.points.fail_at(counted, call);
    }
}

/// Whether a disk of whose device nothing was asked has made all its calls so, and none of them failed. If memory was
/// there, it has.
pub(crate) fn has_just_begun(disk: &MemDisk) -> bool
    ensures { result ≡ true → HasJustBegun (counts_of disk.now) }
{
    disk.counts().failures == 0 && disk.has_gone(FailurePoints::none(), CallCounts::none())
}
