//! What opens after a power cut, and whether that may be.
ghost use Rattle.std.specs.Prelude.{◌≡◌, ◌≢◌, ℕ, List, IfOk};
ghost use Rattle.refusals.specs.declared.refusal.Refusal.TheVariants.{NoMemory};
ghost use Rattle.disk_model.specs.declared.tear.Tear.TheVariants.{Old, New, Torn};
ghost use Rattle.crash_sweep.specs.Findings.{CrashGivesFinding, FilesRecoverNumber, FindingIsRight};

use crate::history::TreeHistory;
use crate::watched_disk::FileChange;
use disk_model::{Disk, MemDisk, Plan, Tear};
use refusals::Refusal;
use reg_tree::Trees;
use std::alloc::{AllocError, Global};
use std::sync::Arc;
use store_driver::open_store;

/// The bounds of the number that opens, both included.
#[derive(Clone, Copy, Debug, PartialEq, Eq)]
pub(crate) struct NumberRange {
    /// The last change that was acknowledged before the cut.
    pub low: u64,
    /// The last change that was accepted before the cut.
    pub high: u64,
}

/// What opens after a cut.
#[derive(Clone, Copy, Debug, PartialEq, Eq)]
pub(crate) enum Finding {
    /// A number within the bounds, with the trees after that change.
    Within {
        /// The number.
        number: u64,
    },
    /// A number that is not within the bounds.
    Outside {
        /// The number.
        number: u64,
    },
    /// A number within the bounds, with other trees than those after that change.
    OtherTrees {
        /// The number.
        number: u64,
    },
    /// Nothing opens.
    Nothing {
        /// Why.
        refusal: Refusal,
    },
}

impl Finding {
    /// Whether it is what has to open.
    pub(crate) fn is_within(&self) -> bool {
        matches!(self, Finding::Within { .. })
    }
}

/// What opens after a cut with each tear.
#[derive(Clone, Copy, Debug, PartialEq, Eq)]
pub(crate) struct TearFindings {
    /// With what was synced last.
    pub old: Finding,
    /// With all that was written.
    pub new: Finding,
    /// With the last byte torn of each write since the sync.
    pub torn: Finding,
}

impl TearFindings {
    /// The findings, in the order of a row.
    pub(crate) fn each(&self) -> [Finding; 3] {
        [self.old, self.new, self.torn]
    }
}

/// One cut of the power: after which device call, what opens with each tear, and the bounds.
#[derive(Clone, Copy, Debug, PartialEq, Eq)]
pub(crate) struct SweepRow {
    /// What the call did.
    pub change: FileChange,
    /// What opens.
    pub found: TearFindings,
    /// The bounds of the numbers that open.
    pub bounds: NumberRange,
}

/// What opens of a disk after a cut with each tear. Refused only for lack of memory.
pub(crate) fn findings_per_tear(
    alloc: Global,
    disk: &MemDisk,
    history: &TreeHistory,
    bounds: NumberRange,
) -> Result<TearFindings, AllocError>
    ensures old { IfOk result (λ found. CrashGivesFinding Old bounds
        (⟦<MemDisk as Disk>⟧.state_at disk.now (⟦<MemDisk as Disk>⟧.clock disk.now)) found.old) }
    ensures new { IfOk result (λ found. CrashGivesFinding New bounds
        (⟦<MemDisk as Disk>⟧.state_at disk.now (⟦<MemDisk as Disk>⟧.clock disk.now)) found.new) }
    ensures torn { IfOk result (λ found. CrashGivesFinding Torn bounds
        (⟦<MemDisk as Disk>⟧.state_at disk.now (⟦<MemDisk as Disk>⟧.clock disk.now)) found.torn) }
{
    Ok(TearFindings {
        old: opening_behind(alloc, disk, Tear::Old, history, bounds)?,
        new: opening_behind(alloc, disk, Tear::New, history, bounds)?,
        torn: opening_behind(alloc, disk, Tear::Torn, history, bounds)?,
    })
}

// what opens after a cut with this tear
fn opening_behind(
    alloc: Global,
    disk: &MemDisk,
    tear: Tear,
    history: &TreeHistory,
    bounds: NumberRange,
) -> Result<Finding, AllocError>
    ensures { IfOk result (CrashGivesFinding tear bounds
        (⟦<MemDisk as Disk>⟧.state_at disk.now (⟦<MemDisk as Disk>⟧.clock disk.now))) }
{
    let left = disk.crashed(tear, Arc::new(alloc, Plan::new())?)?;
    match open_store(alloc, left) {
        Ok((engine, number)) => Ok(finding_of(number, engine.trees(), history, bounds)),
        Err((why, _)) => nothing_for(why),
    }
}

// what is found if files recover this number and these trees
fn finding_of(number: u64, trees: &Trees, history: &TreeHistory, bounds: NumberRange) -> Finding
    ensures { (files : ℕ → List ℕ) → FilesRecoverNumber files number → FindingIsRight bounds files result }
{
    if number < bounds.low {
        return Finding::Outside { number };
    }
    if number > bounds.high {
        return Finding::Outside { number };
    }
    if history.has(number, trees) {
        Finding::Within { number }
    } else {
        Finding::OtherTrees { number }
    }
}

// what is found if nothing opens; lack of memory is an error
fn nothing_for(refusal: Refusal) -> Result<Finding, AllocError>
    ensures { IfOk result (λ finding.
        (finding ≡ Finding.Nothing refusal) × (refusal ≢ NoMemory)) }
{
    if refusal == Refusal::NoMemory {
        return Err(AllocError);
    }
    Ok(Finding::Nothing { refusal })
}
