//! The steps of a hive's flush and repair.
ghost use Rattle.std.specs.Prelude.{◌≡◌, ◌↔◌, ◌⊎◌, ◌<◌, ◌≤◌, ◌+◌, ◌*◌, ℕ, length, true, false, Ok, Err, IfErr, IsTrue, OnOk, Some, None};
ghost use Rattle.crash_model.specs.Promises.{HiveSays};
ghost use Rattle.crash_model.specs.StepAnswers.{Says};
ghost use Rattle.disk_model.specs.declared.progress.Progress.TheVariants as Progress;
ghost use Rattle.reg_tree.specs.Maps.{TreeMap};
ghost use Rattle.refusals.specs.declared.refusal.Refusal.TheVariants.{DiskFault, Faulted};
ghost use Rattle.disk_model.specs.Call.{OneCall, HasFailed};
ghost use Rattle.disk_model.specs.StoreFiles.{IsFileOfHive};
ghost use Rattle.hive_files.specs.Chunks.{KeepsWritesShort};
ghost use Rattle.hive_flush_model.specs.StoredTrees.{TreeDecoder, tree_under};
ghost use Rattle.hive_flush_model.specs.Plans.{PlanFitsImage};
ghost use Rattle.hive_writer.specs.WriterSteps.{plan_of};
ghost use Rattle.hive_writer.specs.declared.stage.FlushStage.TheVariants as stage;
ghost use Rattle.hive_flush.specs.HiveStates.{FilesFollowHive, IsBroken, HiveIsRepaired, MemoryIsDurable, dirty_pages, file_choice, memory_of, hive_number, repairs_left, steps_left, store_of};
ghost use Rattle.hive_flush.specs.Times.{time_of};

use crate::flush_plan::{next_block, plan_fits};
use crate::hive::HiveFile;
use disk_model::{Disk, Progress};
use hive_writer::{FlushStage, Purpose};
use refusals::Refusal;
use reg_tree::Tree;
use std::snapshot::Snapshot;

impl HiveFile {
    /// The tree in memory.
    pub fn tree(&self) -> &Tree
        ensures { result.now ≡ (memory_of self.now).0 }
    {
        &self.tree
    }

    /// The number of the last change that the tree in memory has.
    pub fn number(&self) -> u64
        ensures { result ≡ (memory_of self.now).1 }
    {
        self.writer.block.applied.0
    }

    /// The number of the last change that is surely durable in the files.
    pub fn applied(&self) -> u64
        ensures { result ≡ (file_choice self.now).now.1 }
    {
        self.writer.base.applied.0
    }

    /// How many pages the next flush writes, or the repair that is left.
    pub fn dirty_pages(&self) -> usize
        ensures { result ≡ dirty_pages self.now }
    {
        self.pages.count()
    }

    /// One step of a flush of what is in memory: at most one device call. It begins a flush if none is on its way. It
    /// answers `More` if other steps follow, and `Done` if it was the last one: then what was in memory is durable. A
    /// flush that begins with `p` dirty pages is done within `2 * p + 7` steps, if none is refused. A write takes at
    /// most 65,536 bytes.
    ///
    /// Takes no memory. Refused with `DiskFault` if the device failed in the call. Refused with `Faulted` exactly if it
    /// had failed in an earlier one: nothing is done then.
    pub fn step<D: Disk>(&mut self, disk: &mut D) -> Result<Progress, Refusal>
        requires whole { HiveIsRepaired self.old }
        ensures on { D.faithful disk.new → FilesFollowHive self.old self.new
            (D.state_at disk.old (D.clock disk.old)) (D.state_at disk.new (D.clock disk.new)) }
        ensures says { Says (HiveSays (memory_of self.old)) result (file_choice self.old) (file_choice
            self.new) }
        ensures memory { memory_of self.new ≡ memory_of self.old }
        ensures time { time_of self.new ≡ time_of self.old }
        ensures place { hive_number self.new ≡ hive_number self.old }
        ensures store { store_of self.new ≡ store_of self.old }
        ensures whole { HiveIsRepaired self.new }
        ensures few { (file_choice self.old).next ≡ None →
            steps_left self.old ≤ 2 * dirty_pages self.old + 7 }
        ensures falls { result ≡ Ok Progress.More → steps_left self.new < steps_left self.old }
        ensures left { result ≡ Ok Progress.More → 0 < steps_left self.new }
        ensures pages { result ≡ Ok Progress.More → dirty_pages self.new ≡ dirty_pages self.old }
        ensures refused { IfErr result (λ why. (why ≡ DiskFault) ⊎ (why ≡ Faulted)) }
        ensures faulted { (result ≡ Err Faulted) ↔ IsBroken self.old }
        ensures broken { IsBroken self.new ↔ (IsBroken self.old ⊎ (result ≡ Err DiskFault)) }
        ensures no_change { IsBroken self.old → (self.new ≡ self.old) × (disk.new ≡ disk.old) }
        ensures call { OneCall (IsFileOfHive (hive_number self.old)) (D.state_at disk.old) (D.state_at
            disk.new) (D.clock disk.old) (D.clock disk.new) }
        ensures chunks { D.faithful disk.new → KeepsWritesShort (D.state_at disk.old)
            (D.state_at disk.new) (D.clock disk.old) (D.clock disk.new) }
        ensures failures { HasFailed result (D.failures disk.old) (D.failures disk.new) }
        ensures faithful { D.faithful disk.new → D.faithful disk.old }
    {
        let image = self.image.bytes();
        plan_fits(&self.writer, image, &self.pages); // for the prover
        match self.writer.step::<D, Tree>(disk, image, &self.pages) {
            Ok(Progress::Done) => {
                self.mark_durable();
                Ok(Progress::Done)
            }
            Ok(Progress::More) => Ok(Progress::More),
            Ok(Progress::Idle) => unreachable!(),
            Err(why) => Err(why),
        }
    }

    /// Whether no repair is left.
    pub fn is_whole(&self) -> bool
        ensures { IsTrue result ↔ HiveIsRepaired self.now }
    {
        !matches!(
            self.writer.stage,
            FlushStage::WritingPages(Purpose::Repair, _)
                | FlushStage::PagesSynced(Purpose::Repair)
                | FlushStage::HeaderWritten(Purpose::Repair)
        )
    }

    /// Whether a flush is on its way.
    pub fn is_halfway(&self) -> bool
        ensures { (result ≡ false) ↔ ((file_choice self.now).next ≡ None) }
    {
        match self.writer.stage {
            FlushStage::AtRest => false,
            FlushStage::WritingLog(_) | FlushStage::LogSynced | FlushStage::PrimaryMarkedDirty =>
                true,
            FlushStage::WritingPages(purpose, _)
            | FlushStage::PagesSynced(purpose)
            | FlushStage::HeaderWritten(purpose) => { matches!(purpose, Purpose::Flush) }
        }
    }

    /// Whether nothing is on its way and no repair is left: changes may be absorbed.
    pub fn is_at_rest(&self) -> bool
        ensures rest { result ≡ true → (file_choice self.now).next ≡ None }
        ensures whole { result ≡ true → HiveIsRepaired self.now }
        ensures not_idle { HiveIsRepaired self.now → (file_choice self.now).next ≡ None → result ≡ true }
    {
        matches!(self.writer.stage, FlushStage::AtRest)
    }

    /// One step of the repair of a hive that was opened unclean: at most one device call. It answers `More` if other
    /// steps follow, `Done` if it was the last one, and `Idle` if none is left. What the files hold stays the same
    /// throughout.
    ///
    /// Takes no memory. Refused as [`step`](HiveFile::step) is.
    pub fn repair_step<D: Disk>(&mut self, disk: &mut D) -> Result<Progress, Refusal>
        ensures on { D.faithful disk.new → FilesFollowHive self.old self.new
            (D.state_at disk.old (D.clock disk.old)) (D.state_at disk.new (D.clock disk.new)) }
        ensures files { file_choice self.new ≡ file_choice self.old }
        ensures memory { memory_of self.new ≡ memory_of self.old }
        ensures time { time_of self.new ≡ time_of self.old }
        ensures place { hive_number self.new ≡ hive_number self.old }
        ensures store { store_of self.new ≡ store_of self.old }
        ensures whole { (result ≡ Ok Progress.Done) → HiveIsRepaired self.new }
        ensures idle { (result ≡ Ok Progress.Idle) → HiveIsRepaired self.old }
        ensures falls { result ≡ Ok Progress.More → steps_left self.new < steps_left self.old }
        ensures left { result ≡ Ok Progress.More → 0 < steps_left self.new }
        ensures repairs { OnOk result (¬ (HiveIsRepaired self.old) →
            repairs_left self.new < repairs_left self.old) }
        ensures ready { HiveIsRepaired self.old → (self.new ≡ self.old) × (disk.new ≡ disk.old) }
        ensures refused { IfErr result (λ why. (why ≡ DiskFault) ⊎ (why ≡ Faulted)) }
        ensures faulted { (result ≡ Err Faulted) ↔ IsBroken self.old }
        ensures broken { IsBroken self.new ↔ (IsBroken self.old ⊎ (result ≡ Err DiskFault)) }
        ensures no_change { IsBroken self.old → (self.new ≡ self.old) × (disk.new ≡ disk.old) }
        ensures call { OneCall (IsFileOfHive (hive_number self.old)) (D.state_at disk.old) (D.state_at
            disk.new) (D.clock disk.old) (D.clock disk.new) }
        ensures chunks { D.faithful disk.new → KeepsWritesShort (D.state_at disk.old)
            (D.state_at disk.new) (D.clock disk.old) (D.clock disk.new) }
        ensures failures { HasFailed result (D.failures disk.old) (D.failures disk.new) }
        ensures faithful { D.faithful disk.new → D.faithful disk.old }
    {
        if self.writer.failed {
            return Err(Refusal::Faulted);
        }
        if self.is_whole() {
            return Ok(Progress::Idle);
        }
        let image = self.image.bytes();
        match self.writer.repair_step::<D, Tree>(disk, image, &self.pages) {
            Ok(Progress::Done) => {
                self.mark_durable();
                Ok(Progress::Done)
            }
            Ok(Progress::More) => Ok(Progress::More),
            Ok(Progress::Idle) => unreachable!(),
            Err(why) => Err(why),
        }
    }

    // what was in memory is durable: no page differs, and the next flush is planned
    fn mark_durable(&mut self)
        requires quiet { self.old.writer.stage ≡ stage.AtRest }
        ensures settled { MemoryIsDurable self.old self.new }
        ensures fits { (stands : TreeDecoder TreeMap) (memory : TreeMap × ℕ) →
            tree_under stands self.new.writer.block self.new.image.bytes ≡ Some memory.0 →
            self.new.writer.block.applied.0 ≡ memory.1 →
            PlanFitsImage stands memory self.new.image.bytes self.new.pages
            (plan_of self.new.writer self.new.image.bytes self.new.pages) }
    {
        self.held = Snapshot::of(&self.tree);
        self.pages.clear();
        let block = self.writer.block;
        self.writer.plan(next_block(
            &block,
            block.root,
            block.bins_size,
            block.last_written,
            block.applied.0,
        ));
        plan_fits(&self.writer, self.image.bytes(), &self.pages); // for the prover
    }
}
