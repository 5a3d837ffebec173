//! What opens after a loss of power.
ghost use Rattle.std.specs.Prelude.{◌≡◌, ◌≢◌, IfOk, IfErr};
ghost use Rattle.refusals.specs.declared.refusal.Refusal.TheVariants.{DiskFault, NoMemory};
ghost use Rattle.disk_model.specs.MemDisks.{counts_of};
ghost use Rattle.disk_model.specs.Plan.{no_points};
ghost use Rattle.crash_lab.specs.Devices.{HasJustBegun};
ghost use Rattle.crash_lab.specs.LabStates.{files_of};
ghost use Rattle.crash_lab.specs.Crashes.{IsLeftBy, MayNotReopen, OpensAfterCrash};

use crate::device::{Device, has_just_begun};
use disk_model::{MemDisk, Tear};
use engine::Engine;
use refusals::Refusal;
use script_loop::HistoryLimit;
use script_runner::make_journal_room;
use std::alloc::{AllocError, Global};
use store_driver::open_store;

/// A store that was opened after a loss of power.
#[derive(Drop)]
pub(crate) struct Reopened {
    /// The store, with session 0 open.
    pub engine: Engine<MemDisk>,
    /// The number of its last change.
    pub number: u64,
    /// Its disk's device, of which nothing was asked.
    pub device: Device,
}

/// The store that opens if the power goes now, and what was not synced is torn by this tear. Its history has this limit.
/// The disk itself stays as it is.
///
/// Refused for lack of memory, and with a refusal of the files only if those that are left recover nothing.
pub(crate) fn open_after_crash(
    alloc: Global,
    disk: &MemDisk,
    tear: Tear,
    limit: HistoryLimit,
) -> Result<Reopened, Refusal>
    ensures opens { IfOk result (λ it.
        OpensAfterCrash tear (files_of disk.now) limit it.number it.engine.machine) }
    ensures device { IfOk result (λ it. it.device.points ≡ no_points) }
    ensures calls { IfOk result (λ it. HasJustBegun (counts_of it.engine.disk)) }
    ensures refused { IfErr result (MayNotReopen tear (files_of disk.now)) }
{
    let device = Device::new(alloc)?;
    let left = disk_after_crash(alloc, disk, tear, &device)?;
    match open_store(alloc, left) {
        Ok((engine, number)) => {
            let mut engine = engine;
            engine.limit_history(limit.changes());
            if !has_just_begun(engine.disk()) {
                return Err(Refusal::NoMemory);
            }
            Ok(Reopened {
                engine,
                number,
                device,
            })
        }
        Err((why, _)) => Err(opening_refusal(why)),
    }
}

// why nothing opens: a device of which nothing was asked fails only if it finds no memory
fn opening_refusal(why: Refusal) -> Refusal
    ensures memory { why ≡ DiskFault → result ≡ NoMemory }
    ensures same { (why ≢ DiskFault) → result ≡ why }
{
    if why == Refusal::DiskFault {
        return Refusal::NoMemory;
    }
    why
}

// the disk that is left, with room for the journal
fn disk_after_crash(
    alloc: Global,
    disk: &MemDisk,
    tear: Tear,
    device: &Device,
) -> Result<MemDisk, AllocError>
    ensures { IfOk result (λ left. IsLeftBy tear (files_of disk.now) (files_of left)) }
{
    let mut left = disk.crashed(tear, device.plan()?)?;
    make_journal_room(&mut left)?;
    Ok(left)
}
