//! Files in memory, as a disk. It fails as a plan says, and if it finds no memory.
ghost use Rattle.std.specs.Prelude.{◌≡◌, ℕ, ◌≤◌, true, false, [], length, IfOk, OnOk, OnErr, IsErr};
ghost use Rattle.disk_model.specs.FileState.{Writes, MayWrite, Cuts, MayCut, Syncs, at_rest, Leaves};
ghost use Rattle.disk_model.specs.Sector.{IsHonest};
ghost use Rattle.disk_model.specs.Tear.{IsCrashOf, WritesWholeSectors};
ghost use Rattle.disk_model.specs.Call.{Passes, KeepsOthers, CountsFailure, ReadGives};
ghost use Rattle.disk_model.specs.MemFile.{state_of, FileHasRoom};
ghost use Rattle.disk_model.specs.MemDisk.{CountsCalls, IsCount};
ghost use Rattle.disk_model.specs.Plan.{GoesByPlan, no_calls, counted, made_call};
ghost use Rattle.std.specs.List.{AllWithin};

use crate::call_counts::{CallCounts, MadeCall};
use crate::course::Course;
use crate::history::DiskHistory;
use crate::mem_file::MemFile;
use crate::plan::{FailurePoints, Fate, Plan};
use crate::{Disk, Failed, Tear};
use std::alloc::{AllocError, Global};
use std::snapshot::Snapshot;
use std::sync::Arc;

/// The files that a disk in memory keeps have numbers below this. Others read as empty, and a write or a cut of one
/// fails.
pub const FILES: u32 = 64;

/// A failed write or cut of it is done if the plan stops the disk there. Any other failed call does nothing.
#[derive(Drop)]
pub struct MemDisk {
    files: Vec<MemFile>,
    past: DiskHistory,
    plan: Arc<Plan>,
    course: Course,
    ghost counted: { CountsCalls past course.counts },
}

impl MemDisk {
    ghost use Rattle.disk_model.specs.Room.{IsRoomy};
    ghost use Rattle.disk_model.specs.MemDisks.{counts_of};

    /// A disk whose files were never written. `plan` may be changed while the disk is used.
    pub fn new(alloc: Global, plan: Arc<Plan>) -> MemDisk
        ensures files { (k f : ℕ) → ⟦<MemDisk as Disk>⟧.state_at result k f ≡ at_rest [] }
        ensures clock { ⟦<MemDisk as Disk>⟧.clock result ≡ 0 }
        ensures failures { ⟦<MemDisk as Disk>⟧.failures result ≡ 0 }
        ensures counts { counts_of result ≡ no_calls }
    {
        MemDisk {
            files: Vec::new(alloc),
            past: DiskHistory::Begun,
            plan,
            course: Course::new(),
        }
    }

    /// Takes memory ahead for the files with numbers below `files`. Then none of the next `calls` calls on such a file
    /// takes any, if none of these files gets more than `bytes` bytes longer. What other files would need is not taken.
    /// A refused call may have taken some of it.
    pub fn room(&mut self, files: u32, bytes: usize, calls: usize) -> Result<(), AllocError>
        requires { files ≤ FILES }
        ensures room { OnOk result (IsRoomy files bytes calls self.new) }
        ensures files { (k f : ℕ) →
            ⟦<MemDisk as Disk>⟧.state_at self.new k f ≡ ⟦<MemDisk as Disk>⟧.state_at self.old k f }
        ensures clock { ⟦<MemDisk as Disk>⟧.clock self.new ≡ ⟦<MemDisk as Disk>⟧.clock self.old }
        ensures failures { ⟦<MemDisk as Disk>⟧.failures self.new
            ≡ ⟦<MemDisk as Disk>⟧.failures self.old }
        ensures counts { counts_of self.new ≡ counts_of self.old }
    {
        make_up_to(&mut self.files, files as usize)?;
        reserve(&mut self.files, files as usize, bytes, calls)
    }

    /// The disk after a crash now, as `tear` says. What is left counts as synced. `plan` is the new disk's plan; this
    /// one stays.
    pub fn crashed(&self, tear: Tear, plan: Arc<Plan>) -> Result<MemDisk, AllocError>
        ensures left { IfOk result (λ disk. (f : ℕ) → IsCrashOf tear
            (⟦<MemDisk as Disk>⟧.state_at self.now (⟦<MemDisk as Disk>⟧.clock self.now) f)
            (⟦<MemDisk as Disk>⟧.state_at disk 0 f)) }
        ensures honest { IfOk result (λ disk. (f : ℕ) →
            WritesWholeSectors (⟦<MemDisk as Disk>⟧.state_at self.now
            (⟦<MemDisk as Disk>⟧.clock self.now) f) →
            IsHonest (⟦<MemDisk as Disk>⟧.state_at self.now (⟦<MemDisk as Disk>⟧.clock self.now) f)
            (⟦<MemDisk as Disk>⟧.state_at disk 0 f).seen) }
        ensures allowed { IfOk result (λ disk. (f : ℕ) → Leaves
            (⟦<MemDisk as Disk>⟧.state_at self.now (⟦<MemDisk as Disk>⟧.clock self.now) f)
            (⟦<MemDisk as Disk>⟧.state_at disk 0 f).seen) }
        ensures clock { IfOk result (λ disk. ⟦<MemDisk as Disk>⟧.clock disk ≡ 0) }
        ensures failures { IfOk result (λ disk. ⟦<MemDisk as Disk>⟧.failures disk ≡ 0) }
        ensures counts { IfOk result (λ disk. counts_of disk ≡ no_calls) }
    {
        Ok(MemDisk {
            files: files_after(&self.files, tear)?,
            past: DiskHistory::Begun,
            plan,
            course: Course::new(),
        })
    }

    /// How many calls were made.
    pub fn counts(&self) -> CallCounts
        ensures counts { result ≡ counts_of self.now }
        ensures calls { IsCount (⟦<MemDisk as Disk>⟧.clock self.now) result.calls }
        ensures failures { IsCount (⟦<MemDisk as Disk>⟧.failures self.now) result.failures }
    {
        self.course.counts
    }

    /// Whether all calls since then are known to have gone by these points: there were none, or they are those of the
    /// present period of the plan.
    pub fn has_gone(&self, by: FailurePoints, since: CallCounts) -> bool
        ensures { result ≡ true → GoesByPlan by since (counts_of self.now) }
    {
        self.course.has_gone(by, since)
    }
}

fn files_after(files: &Vec<MemFile>, tear: Tear) -> Result<Vec<MemFile>, AllocError>
    ensures { IfOk result (λ after. (f : ℕ) → IsCrashOf tear
        (state_of files.now.items f) (state_of after.items f)) }
{
    let alloc = *files.allocator();
    let mut after = Vec::new(alloc);
    for file in files {
        after.push(file.crashed(alloc, tear)?)?;
    }
    Ok(after)
}

// At least `count` files are there then, and the state of each is as before.
#[tactic(auto, using(crate::proofs::Files::state_of_push))]
fn make_up_to(files: &mut Vec<MemFile>, count: usize) -> Result<(), AllocError>
    ensures made { OnOk result (count ≤ length files.new.items) }
    ensures same { (f : ℕ) → state_of files.new.items f ≡ state_of files.old.items f }
{
    let alloc = *files.allocator();
    for _made in files.len()..count {
        files.push(MemFile::new(alloc))?;
    }
    Ok(())
}

/// Takes the memory that each of the first `count` files needs to get `bytes` bytes longer in `calls` calls.
fn reserve(
    files: &mut Vec<MemFile>,
    count: usize,
    bytes: usize,
    calls: usize,
) -> Result<(), AllocError>
    requires { count ≤ length files.old.items }
    ensures same { (f : ℕ) → state_of files.new.items f ≡ state_of files.old.items f }
    ensures as_many { length files.new.items ≡ length files.old.items }
    ensures room { OnOk result (AllWithin (FileHasRoom bytes calls) files.new.items 0 count) }
{
    for number in 0..count {
        files[number].reserve(bytes, calls)?;
    }
    Ok(())
}

#[tactic(auto, using(crate::proofs::Files::one_changed))]
fn write(files: &mut Vec<MemFile>, file: u32, offset: u64, bytes: &[u8]) -> Result<(), Failed>
    ensures done { OnOk result (Writes offset bytes.now
        (state_of files.old.items file) (state_of files.new.items file)) }
    ensures failed { OnErr result (state_of files.new.items file ≡ state_of files.old.items file) }
    ensures others { KeepsOthers file (state_of files.old.items) (state_of files.new.items) }
{
    if file >= FILES {
        return Err(Failed);
    }
    let number = file as usize;
    make_up_to(files, number + 1)?;
    files[number].write(offset, bytes)?;
    Ok(())
}

/// The write at which the disk stops.
fn write_and_fail(
    files: &mut Vec<MemFile>,
    file: u32,
    offset: u64,
    bytes: &[u8],
) -> Result<(), Failed>
    ensures fails { IsErr result }
    ensures written { MayWrite offset bytes.now
        (state_of files.old.items file) (state_of files.new.items file) }
    ensures others { KeepsOthers file (state_of files.old.items) (state_of files.new.items) }
{
    let _ = write(files, file, offset, bytes);
    Err(Failed)
}

#[tactic(auto, using(crate::proofs::Files::one_changed))]
fn cut(files: &mut Vec<MemFile>, file: u32, len: u64) -> Result<(), Failed>
    ensures done { OnOk result (Cuts len
        (state_of files.old.items file) (state_of files.new.items file)) }
    ensures failed { OnErr result (state_of files.new.items file ≡ state_of files.old.items file) }
    ensures others { KeepsOthers file (state_of files.old.items) (state_of files.new.items) }
{
    if file >= FILES {
        return Err(Failed);
    }
    let number = file as usize;
    make_up_to(files, number + 1)?;
    files[number].cut(len)?;
    Ok(())
}

/// The cut at which the disk stops.
fn cut_and_fail(files: &mut Vec<MemFile>, file: u32, len: u64) -> Result<(), Failed>
    ensures fails { IsErr result }
    ensures cut { MayCut len (state_of files.old.items file) (state_of files.new.items file) }
    ensures others { KeepsOthers file (state_of files.old.items) (state_of files.new.items) }
{
    let _ = cut(files, file, len);
    Err(Failed)
}

#[tactic(auto, using(crate::proofs::Files::one_changed))]
fn sync(files: &mut Vec<MemFile>, file: u32) -> Result<(), Failed>
    ensures done { OnOk result (Syncs (state_of files.old.items file)
        (state_of files.new.items file)) }
    ensures failed { OnErr result (state_of files.new.items file ≡ state_of files.old.items file) }
    ensures others { KeepsOthers file (state_of files.old.items) (state_of files.new.items) }
{
    let number = file as usize;
    if number < files.len() {
        files[number].sync()?;
    }
    Ok(())
}

impl Disk for MemDisk {
    ghost use Rattle.disk_model.specs.MemDisk.{states, failed_calls, earlier};
    ghost use Rattle.disk_model.specs.MemSound.{sound-states};
    ghost use Rattle.disk_model.specs.MemDisks.{states_of, clock_of, failures_of, file_now, counts_of};

    // The trait's clauses, with what this disk is in place of the members; and each call is counted.
    ghost state_at = { λ d. states d.past d.files.items };

    ghost clock = { λ d. length (earlier d.past) };

    ghost failures = { λ d. failed_calls d.past };

    ghost faithful = { λ _. Unit {0} };

    ghost sound = { λ d k f _ _. sound-states d.past d.files.items k f };

    #[tactic(auto, using(crate::proofs::Moments::one_moment))]
    fn len(&mut self, file: u32) -> Result<u64, Failed>
        ensures len { IfOk result (λ n. n ≡ length (file_now self.old file).seen) }
        ensures same { (f : ℕ) → file_now self.new f ≡ file_now self.old f }
        ensures time { Passes (states_of self.old) (states_of self.new) (clock_of self.old)
            (clock_of self.new) }
        ensures failures { CountsFailure result (failures_of self.old) (failures_of self.new) }
        ensures counted { counts_of self.new ≡ counted (counts_of self.old) (made_call false result) }
    {
        let before = Snapshot::of(&self.files);
        let result = match self.course.next(&self.plan, false) {
            Fate::Succeeds => Ok(bytes_of(&self.files, file).len() as u64),
            Fate::Stops | Fate::Fails => Err(Failed),
        };
        self.past.then(before, result.is_err());
        self.course.end(MadeCall {
            is_change: false,
            has_failed: result.is_err(),
        });
        result
    }

    #[tactic(auto, using(crate::proofs::Moments::one_moment))]
    fn read(&mut self, file: u32, offset: u64, buffer: &mut [u8]) -> Result<usize, Failed>
        ensures count { IfOk result (λ n. n ≤ length buffer.old) }
        ensures read { IfOk result
            (ReadGives offset (file_now self.old file).seen buffer.old buffer.new) }
        ensures same { (f : ℕ) → file_now self.new f ≡ file_now self.old f }
        ensures time { Passes (states_of self.old) (states_of self.new) (clock_of self.old)
            (clock_of self.new) }
        ensures failures { CountsFailure result (failures_of self.old) (failures_of self.new) }
        ensures counted { counts_of self.new ≡ counted (counts_of self.old) (made_call false result) }
    {
        let before = Snapshot::of(&self.files);
        let result = match self.course.next(&self.plan, false) {
            Fate::Succeeds => Ok(read(bytes_of(&self.files, file), offset, buffer)),
            Fate::Stops | Fate::Fails => Err(Failed),
        };
        self.past.then(before, result.is_err());
        self.course.end(MadeCall {
            is_change: false,
            has_failed: result.is_err(),
        });
        result
    }

    #[tactic(auto, using(crate::proofs::Moments::one_moment))]
    fn write_at(&mut self, file: u32, offset: u64, bytes: &[u8]) -> Result<(), Failed>
        ensures written { OnOk result (Writes offset bytes.now
            (file_now self.old file) (file_now self.new file)) }
        ensures failed { OnErr result (MayWrite offset bytes.now
            (file_now self.old file) (file_now self.new file)) }
        ensures others { KeepsOthers file (file_now self.old) (file_now self.new) }
        ensures time { Passes (states_of self.old) (states_of self.new) (clock_of self.old)
            (clock_of self.new) }
        ensures failures { CountsFailure result (failures_of self.old) (failures_of self.new) }
        ensures counted { counts_of self.new ≡ counted (counts_of self.old) (made_call true result) }
    {
        let before = Snapshot::of(&self.files);
        let result = match self.course.next(&self.plan, true) {
            Fate::Succeeds => write(&mut self.files, file, offset, bytes),
            Fate::Stops => write_and_fail(&mut self.files, file, offset, bytes),
            Fate::Fails => Err(Failed),
        };
        self.past.then(before, result.is_err());
        self.course.end(MadeCall {
            is_change: true,
            has_failed: result.is_err(),
        });
        result
    }

    #[tactic(auto, using(crate::proofs::Moments::one_moment))]
    fn cut(&mut self, file: u32, len: u64) -> Result<(), Failed>
        ensures cut { OnOk result (Cuts len (file_now self.old file) (file_now self.new file)) }
        ensures failed { OnErr result (MayCut len (file_now self.old file) (file_now self.new file)) }
        ensures others { KeepsOthers file (file_now self.old) (file_now self.new) }
        ensures time { Passes (states_of self.old) (states_of self.new) (clock_of self.old)
            (clock_of self.new) }
        ensures failures { CountsFailure result (failures_of self.old) (failures_of self.new) }
        ensures counted { counts_of self.new ≡ counted (counts_of self.old) (made_call true result) }
    {
        let before = Snapshot::of(&self.files);
        let result = match self.course.next(&self.plan, true) {
            Fate::Succeeds => cut(&mut self.files, file, len),
            Fate::Stops => cut_and_fail(&mut self.files, file, len),
            Fate::Fails => Err(Failed),
        };
        self.past.then(before, result.is_err());
        self.course.end(MadeCall {
            is_change: true,
            has_failed: result.is_err(),
        });
        result
    }

    #[tactic(auto, using(crate::proofs::Moments::one_moment))]
    fn sync(&mut self, file: u32) -> Result<(), Failed>
        ensures synced { OnOk result (Syncs (file_now self.old file) (file_now self.new file)) }
        ensures failed { OnErr result (file_now self.new file ≡ file_now self.old file) }
        ensures others { KeepsOthers file (file_now self.old) (file_now self.new) }
        ensures time { Passes (states_of self.old) (states_of self.new) (clock_of self.old)
            (clock_of self.new) }
        ensures failures { CountsFailure result (failures_of self.old) (failures_of self.new) }
        ensures counted { counts_of self.new ≡ counted (counts_of self.old) (made_call true result) }
    {
        let before = Snapshot::of(&self.files);
        let result = match self.course.next(&self.plan, true) {
            Fate::Succeeds => sync(&mut self.files, file),
            Fate::Stops | Fate::Fails => Err(Failed),
        };
        self.past.then(before, result.is_err());
        self.course.end(MadeCall {
            is_change: true,
            has_failed: result.is_err(),
        });
        result
    }
}

/// What a read gives of a file; nothing of one that was never written.
fn bytes_of(files: &Vec<MemFile>, file: u32) -> &[u8]
    ensures { result.now ≡ (state_of files.now.items file).seen }
{
    match files.get(file as usize) {
        Some(file) => &file.seen,
        None => &[],
    }
}

fn read(seen: &[u8], offset: u64, buffer: &mut [u8]) -> usize
    ensures count { result ≤ length buffer.old }
    ensures bytes { ReadGives offset seen.now buffer.old buffer.new result }
{
    let offset = offset as usize;
    if offset >= seen.len() {
        return 0;
    }
    let count = buffer.len().min(seen.len() - offset);
    buffer[..count].copy_from_slice(&seen[offset..offset + count]);
    count
}
