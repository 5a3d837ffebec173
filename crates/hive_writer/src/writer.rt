//! The writer of a hive's two files.
ghost use Rattle.std.specs.Prelude.{◌≡◌, ◌↔◌, ◌⊎◌, ◌^◌, ◌<◌, ℕ, false, length, Ok, Err, IfOk, IfErr, IsTrue};
ghost use Rattle.disk_model.specs.Call.{OneCall, HasFailed, CountsFailure};
ghost use Rattle.disk_model.specs.StoreFiles.{IsFileOfHive};
ghost use Rattle.crash_model.specs.StepAnswers.{Says};
ghost use Rattle.hive_files.specs.Chunks.{KeepsWritesShort};
ghost use Rattle.hive_flush_model.specs.StoredTrees.{TreeDecoder};
ghost use Rattle.hive_flush_model.specs.Plans.{FlushPlan};
ghost use Rattle.hive_writer.specs.WriterSteps.{BeginsAt, PlanEndsWith, CallsDecrease, IsFlushing, IsNext, IsWritingFor, KeepsBlocks, CallLeadsTo, StepKeepsMatch, StepEndsAs, calls_left, choice_at, durable_after, plan_of};
ghost use Rattle.hive_writer.specs.declared.stage.FlushStage.TheVariants as stage;
ghost use Rattle.hive_writer.specs.declared.stage.Purpose.TheVariants as purpose;
ghost use Rattle.crash_model.specs.Promises.{HiveSays};
ghost use Rattle.disk_model.specs.declared.progress.Progress.TheVariants as Progress;
ghost use Rattle.refusals.specs.declared.refusal.Refusal.TheVariants.{DiskFault, Faulted};

use crate::stage::{FlushStage, Purpose};
use base_block::BaseBlock;
use dirty_vector::DirtyVector;
use disk_model::{Disk, Failed, Progress};
use refusals::Refusal;

/// How far a flush or a repair of one hive is, and what it writes beside pages. Plain data: whoever owns it changes it
/// through the calls below alone.
#[derive(Drop)]
pub struct HiveWriter {
    /// The hive's number in its store.
    pub hive: u8,
    /// The primary file's base block, as its last sync left it.
    pub base: BaseBlock,
    /// The base block as it will be.
    pub block: BaseBlock,
    /// How far it is.
    pub stage: FlushStage,
    /// Whether the device failed in a step: nothing more is done then.
    pub failed: bool,
}

impl HiveWriter {
    /// Of a clean primary file with this base block.
    pub fn of_clean(hive: u8, base: BaseBlock) -> HiveWriter
        ensures { result ≡ record {
          hive = hive;
          base = base;
          block = base;
          stage = stage.AtRest;
          failed = false;
        } }
    {
        let block = base;
        HiveWriter {
            hive,
            base,
            block,
            stage: FlushStage::AtRest,
            failed: false,
        }
    }

    /// Of an unclean primary file. The base block that it will have is its log's, as the block of a primary file.
    pub fn of_unclean(hive: u8, block: BaseBlock) -> HiveWriter
        ensures { result ≡ record {
          hive = hive;
          base = block;
          block = block;
          stage = stage.WritingPages purpose.Repair 0;
          failed = false;
        } }
    {
        let base = block;
        HiveWriter {
            hive,
            base,
            block,
            stage: FlushStage::WritingPages(Purpose::Repair, 0),
            failed: false,
        }
    }

    /// Says which base block the next flush ends with.
    pub fn plan(&mut self, block: BaseBlock)
        requires { self.old.stage ≡ stage.AtRest }
        ensures { self.new ≡ record self.old { block = block } }
    {
        self.block = block;
    }

    /// One step of a flush, which begins if the hive is quiet. The image and its dirty pages are the same from the
    /// first step to the last. A write takes at most 65,536 bytes.
    ///
    /// Takes no memory. Refused with `DiskFault` if the device failed in the call. Refused with `Faulted` exactly if it
    /// had failed in an earlier one: nothing is done then.
    pub fn step<D: Disk, T>(
        &mut self,
        disk: &mut D,
        image: &[u8],
        pages: &DirtyVector,
    ) -> Result<Progress, Refusal>
        requires size { length image.now ≡ pages.now.bins_size }
        requires short { length (plan_of self.old image.now pages.now).encoding < 2 ^ 32 }
        requires flushing { IsFlushing self.old.stage }
        ensures on { D.faithful disk.new → (decode : TreeDecoder T) →
            StepKeepsMatch decode (plan_of self.old image.now pages.now) image.now pages.now result
            self.old self.new
            (D.state_at disk.old (D.clock disk.old)) (D.state_at disk.new (D.clock disk.new)) }
        ensures says { (now memory : T × ℕ) → Says (HiveSays memory) result
            (choice_at self.old.stage now memory)
            (choice_at self.new.stage (durable_after result now memory) memory) }
        ensures flushing { IsFlushing self.new.stage }
        ensures done { result ≡ Ok Progress.Done → self.new.stage ≡ stage.AtRest }
        ensures falls { result ≡ Ok Progress.More →
            calls_left (length (plan_of self.old image.now pages.now).encoding) pages.now self.new.stage
            < calls_left (length (plan_of self.old image.now pages.now).encoding) pages.now
            self.old.stage }
        ensures keeps { KeepsBlocks self.old self.new result }
        ensures refused { IfErr result (λ why. (why ≡ DiskFault) ⊎ (why ≡ Faulted)) }
        ensures faulted { (result ≡ Err Faulted) ↔ IsTrue self.old.failed }
        ensures broken { IsTrue self.new.failed ↔
            (IsTrue self.old.failed ⊎ (result ≡ Err DiskFault)) }
        ensures no_change { IsTrue self.old.failed → (self.new ≡ self.old) × (disk.new ≡ disk.old) }
        ensures call { OneCall (IsFileOfHive self.old.hive) (D.state_at disk.old) (D.state_at disk.new)
            (D.clock disk.old) (D.clock disk.new) }
        ensures chunks { D.faithful disk.new → KeepsWritesShort (D.state_at disk.old)
            (D.state_at disk.new) (D.clock disk.old) (D.clock disk.new) }
        ensures failures { HasFailed result (D.failures disk.old) (D.failures disk.new) }
        ensures faithful { D.faithful disk.new → D.faithful disk.old }
    {
        if self.failed {
            return Err(Refusal::Faulted);
        }
        self.begin();
        let called = self.flush::<D, T>(disk, image, pages);
        self.finish_call(called)
    }

    /// One step of a repair, with the image as the log repairs it and the pages that the log marks. A write takes at
    /// most 65,536 bytes.
    ///
    /// Takes no memory. Refused as [`step`](HiveWriter::step) is.
    pub fn repair_step<D: Disk, T>(
        &mut self,
        disk: &mut D,
        image: &[u8],
        pages: &DirtyVector,
    ) -> Result<Progress, Refusal>
        requires size { length image.now ≡ pages.now.bins_size }
        requires repairing { IsWritingFor purpose.Repair self.old.stage }
        ensures on { D.faithful disk.new → (decode : TreeDecoder T) (plan : FlushPlan) →
            PlanEndsWith self.old.block plan →
            StepKeepsMatch decode plan image.now pages.now result self.old self.new
            (D.state_at disk.old (D.clock disk.old)) (D.state_at disk.new (D.clock disk.new)) }
        ensures holds { (now memory : T × ℕ) →
            choice_at self.new.stage (durable_after result now memory) memory
            ≡ choice_at self.old.stage now memory }
        ensures repairing { (result ≡ Ok Progress.Done → ⊥) →
            IsWritingFor purpose.Repair self.new.stage }
        ensures done { result ≡ Ok Progress.Done → self.new.stage ≡ stage.AtRest }
        ensures not_idle { result ≡ Ok Progress.Idle → ⊥ }
        ensures falls { (total : ℕ) → result ≡ Ok Progress.More →
            calls_left total pages.now self.new.stage < calls_left total pages.now self.old.stage }
        ensures keeps { KeepsBlocks self.old self.new result }
        ensures refused { IfErr result (λ why. (why ≡ DiskFault) ⊎ (why ≡ Faulted)) }
        ensures faulted { (result ≡ Err Faulted) ↔ IsTrue self.old.failed }
        ensures broken { IsTrue self.new.failed ↔
            (IsTrue self.old.failed ⊎ (result ≡ Err DiskFault)) }
        ensures no_change { IsTrue self.old.failed → (self.new ≡ self.old) × (disk.new ≡ disk.old) }
        ensures call { OneCall (IsFileOfHive self.old.hive) (D.state_at disk.old) (D.state_at disk.new)
            (D.clock disk.old) (D.clock disk.new) }
        ensures chunks { D.faithful disk.new → KeepsWritesShort (D.state_at disk.old)
            (D.state_at disk.new) (D.clock disk.old) (D.clock disk.new) }
        ensures failures { HasFailed result (D.failures disk.old) (D.failures disk.new) }
        ensures faithful { D.faithful disk.new → D.faithful disk.old }
    {
        if self.failed {
            return Err(Refusal::Faulted);
        }
        let called = self.write_repair::<D, T>(disk, image, pages);
        self.finish_call(called)
    }

    // if the hive is quiet, the log is what is written first
    fn begin(&mut self)
        ensures begins { BeginsAt self.old.stage self.old self.new }
        ensures flushing { IsFlushing self.old.stage → IsFlushing self.new.stage }
        ensures not_idle { self.new.stage ≡ stage.AtRest → ⊥ }
    {
        if let FlushStage::AtRest = self.stage {
            self.stage = FlushStage::WritingLog(0);
        }
    }

    // the next call of a flush
    fn flush<D: Disk, T>(
        &self,
        disk: &mut D,
        image: &[u8],
        pages: &DirtyVector,
    ) -> Result<FlushStage, Failed>
        requires size { length image.now ≡ pages.now.bins_size }
        requires short { length (plan_of self.now image.now pages.now).encoding < 2 ^ 32 }
        requires flushing { IsFlushing self.now.stage }
        requires begun { self.now.stage ≡ stage.AtRest → ⊥ }
        ensures leads { D.faithful disk.new → (decode : TreeDecoder T) →
            CallLeadsTo decode (plan_of self.now image.now pages.now) image.now pages.now self.now.hive
            self.now.stage result
            (D.state_at disk.old (D.clock disk.old)) (D.state_at disk.new (D.clock disk.new)) }
        ensures next { IfOk result (IsNext self.now.stage) }
        ensures falls { IfOk result (CallsDecrease (length
            (plan_of self.now image.now pages.now).encoding) pages.now self.now.stage) }
        ensures call { OneCall (IsFileOfHive self.now.hive) (D.state_at disk.old) (D.state_at disk.new)
            (D.clock disk.old) (D.clock disk.new) }
        ensures chunks { D.faithful disk.new → KeepsWritesShort (D.state_at disk.old)
            (D.state_at disk.new) (D.clock disk.old) (D.clock disk.new) }
        ensures failures { CountsFailure result (D.failures disk.old) (D.failures disk.new) }
        ensures faithful { D.faithful disk.new → D.faithful disk.old }
    {
        match self.stage {
            FlushStage::WritingLog(index) => self.write_log::<D, T>(disk, index, image, pages),
            FlushStage::LogSynced => self.mark_primary_dirty::<D, T>(disk),
            FlushStage::PrimaryMarkedDirty => self.sync_dirty_mark::<D, T>(disk),
            _ => self.write_repair::<D, T>(disk, image, pages),
        }
    }

    // the next call on the pages or the last sector, of a flush or a repair
    fn write_repair<D: Disk, T>(
        &self,
        disk: &mut D,
        image: &[u8],
        pages: &DirtyVector,
    ) -> Result<FlushStage, Failed>
        requires size { length image.now ≡ pages.now.bins_size }
        requires writing { (IsWritingFor purpose.Flush self.now.stage)
            ⊎ (IsWritingFor purpose.Repair self.now.stage) }
        ensures leads { D.faithful disk.new → (decode : TreeDecoder T) (plan : FlushPlan) →
            PlanEndsWith self.now.block plan →
            CallLeadsTo decode plan image.now pages.now self.now.hive self.now.stage result
            (D.state_at disk.old (D.clock disk.old)) (D.state_at disk.new (D.clock disk.new)) }
        ensures next { IfOk result (IsNext self.now.stage) }
        ensures falls { (total : ℕ) → IfOk result (CallsDecrease total pages.now self.now.stage) }
        ensures call { OneCall (IsFileOfHive self.now.hive) (D.state_at disk.old) (D.state_at disk.new)
            (D.clock disk.old) (D.clock disk.new) }
        ensures chunks { D.faithful disk.new → KeepsWritesShort (D.state_at disk.old)
            (D.state_at disk.new) (D.clock disk.old) (D.clock disk.new) }
        ensures failures { CountsFailure result (D.failures disk.old) (D.failures disk.new) }
        ensures faithful { D.faithful disk.new → D.faithful disk.old }
    {
        match self.stage {
            FlushStage::WritingPages(purpose, from) => match pages.next_run(from) {
                Some(run) => self.write_pages::<D, T>(disk, purpose, from, run, image, pages),
                None => self.sync_pages::<D, T>(disk, purpose, from),
            },
            FlushStage::PagesSynced(purpose) => self.write_header::<D, T>(disk, purpose),
            FlushStage::HeaderWritten(purpose) => self.sync_header::<D, T>(disk, purpose),
            FlushStage::AtRest
            | FlushStage::WritingLog(_)
            | FlushStage::LogSynced
            | FlushStage::PrimaryMarkedDirty => unreachable!(),
        }
    }

    // applies the result of a call
    fn finish_call(&mut self, called: Result<FlushStage, Failed>) -> Result<Progress, Refusal>
        ensures { StepEndsAs called result self.old self.new }
    {
        match called {
            Ok(FlushStage::AtRest) => {
                self.stage = FlushStage::AtRest;
                self.base = self.block;
                Ok(Progress::Done)
            }
            Ok(next) => {
                self.stage = next;
                Ok(Progress::More)
            }
            Err(_) => {
                self.failed = true;
                Err(Refusal::DiskFault)
            }
        }
    }
}
