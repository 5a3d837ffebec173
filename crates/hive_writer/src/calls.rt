//! The calls, one a function: each makes its call and answers the stage that it leads to.
ghost use Rattle.std.specs.Prelude.{◌≡◌, ◌⊎◌, ℕ, ◌+◌, ◌*◌, ◌-◌, ◌^◌, ◌<◌, ◌≤◌, List, take, drop, min, length, IfOk};
ghost use Rattle.disk_model.specs.Call.{OneCall, CountsFailure};
ghost use Rattle.disk_model.specs.StoreFiles.{IsFileOfHive};
ghost use Rattle.dirty_vector.specs.Pages.{Pages, NoneFrom, IsFirstRun};
ghost use Rattle.hive_files.specs.Chunks.{KeepsWritesShort};
ghost use Rattle.hive_flush_model.specs.StoredTrees.{TreeDecoder};
ghost use Rattle.hive_flush_model.specs.Plans.{FlushPlan};
ghost use Rattle.hive_writer.specs.WriterSteps.{PlanEndsWith, CallsDecrease, CallLeadsTo, plan_of};
ghost use Rattle.hive_writer.specs.declared.stage.Purpose.TheVariants as purpose;
ghost use Rattle.hive_writer.specs.declared.stage.FlushStage.TheVariants as stage;

use crate::device::{HiveFileKind, sync_file, write_file};
use crate::stage::{FlushStage, Purpose};
use crate::writer::HiveWriter;
use dirt_log::{CHUNK_BYTES, write_steps};
use dirty_vector::{DirtyVector, PAGE_BYTES};
use disk_model::{Disk, Failed};
use hive_files::BINS_AT;
use std::ops::Range;

// as many pages as one write takes
const MOST_PAGES: usize = CHUNK_BYTES / PAGE_BYTES;

impl HiveWriter {
    // a chunk of the log, given that there is one
    pub(crate) fn write_log_chunk<D: Disk, T>(
        &self,
        disk: &mut D,
        index: u32,
        image: &[u8],
        pages: &DirtyVector,
        chunk: &[u8],
    ) -> Result<FlushStage, Failed>
        requires short { length (plan_of self.now image.now pages.now).encoding < 2 ^ 32 }
        requires some { 0 < length chunk.now }
        requires chunk { chunk.now ≡ take CHUNK_BYTES (drop (CHUNK_BYTES * index)
            (plan_of self.now image.now pages.now).encoding) }
        ensures leads { D.faithful disk.new → (decode : TreeDecoder T) →
            CallLeadsTo decode (plan_of self.now image.now pages.now) image.now pages.now self.now.hive
            (stage.WritingLog index) result
            (D.state_at disk.old (D.clock disk.old)) (D.state_at disk.new (D.clock disk.new)) }
        ensures next { IfOk result (λ next. next ≡ stage.WritingLog (index + 1)) }
        ensures falls { IfOk result (CallsDecrease (length
            (plan_of self.now image.now pages.now).encoding) pages.now (stage.WritingLog index)) }
        ensures call { OneCall (IsFileOfHive self.now.hive) (D.state_at disk.old) (D.state_at disk.new)
            (D.clock disk.old) (D.clock disk.new) }
        ensures chunks { D.faithful disk.new → KeepsWritesShort (D.state_at disk.old)
            (D.state_at disk.new) (D.clock disk.old) (D.clock disk.new) }
        ensures failures { CountsFailure result (D.failures disk.old) (D.failures disk.new) }
        ensures faithful { D.faithful disk.new → D.faithful disk.old }
    {
        let offset = CHUNK_BYTES as u64 * u64::from(index);
        match write_file(disk, self.hive, HiveFileKind::Log, offset, chunk) {
            Ok(()) => Ok(FlushStage::WritingLog(index + 1)),
            Err(failed) => Err(failed),
        }
    }

    // the sync of the log, after its last chunk: if no page is dirty, the last sector is next
    pub(crate) fn sync_log<D: Disk, T>(
        &self,
        disk: &mut D,
        index: u32,
        pages: &DirtyVector,
    ) -> Result<FlushStage, Failed>
        ensures leads { D.faithful disk.new → (decode : TreeDecoder T) (image : List ℕ) →
            length image ≡ pages.now.bins_size →
            length (plan_of self.now image pages.now).encoding ≤ CHUNK_BYTES * index →
            CallLeadsTo decode (plan_of self.now image pages.now) image pages.now self.now.hive
            (stage.WritingLog index) result
            (D.state_at disk.old (D.clock disk.old)) (D.state_at disk.new (D.clock disk.new)) }
        ensures next { IfOk result (λ next. (next ≡ stage.LogSynced) ⊎
            (next ≡ stage.PagesSynced purpose.Flush)) }
        ensures falls { (total : ℕ) →
            IfOk result (CallsDecrease total pages.now (stage.WritingLog index)) }
        ensures call { OneCall (IsFileOfHive self.now.hive) (D.state_at disk.old) (D.state_at disk.new)
            (D.clock disk.old) (D.clock disk.new) }
        ensures chunks { D.faithful disk.new → KeepsWritesShort (D.state_at disk.old)
            (D.state_at disk.new) (D.clock disk.old) (D.clock disk.new) }
        ensures failures { CountsFailure result (D.failures disk.old) (D.failures disk.new) }
        ensures faithful { D.faithful disk.new → D.faithful disk.old }
    {
        match sync_file(disk, self.hive, HiveFileKind::Log) {
            Ok(()) if pages.count() == 0 => Ok(FlushStage::PagesSynced(Purpose::Flush)),
            Ok(()) => Ok(FlushStage::LogSynced),
            Err(failed) => Err(failed),
        }
    }

    // the next chunk of the log, or its sync
    pub(crate) fn write_log<D: Disk, T>(
        &self,
        disk: &mut D,
        index: u32,
        image: &[u8],
        pages: &DirtyVector,
    ) -> Result<FlushStage, Failed>
        requires size { length image.now ≡ pages.now.bins_size }
        requires short { length (plan_of self.now image.now pages.now).encoding < 2 ^ 32 }
        ensures leads { D.faithful disk.new → (decode : TreeDecoder T) →
            CallLeadsTo decode (plan_of self.now image.now pages.now) image.now pages.now self.now.hive
            (stage.WritingLog index) result
            (D.state_at disk.old (D.clock disk.old)) (D.state_at disk.new (D.clock disk.new)) }
        ensures next { IfOk result (λ next. (next ≡ stage.WritingLog (index + 1)) ⊎
            ((next ≡ stage.LogSynced) ⊎ (next ≡ stage.PagesSynced purpose.Flush))) }
        ensures falls { IfOk result (CallsDecrease (length
            (plan_of self.now image.now pages.now).encoding) pages.now (stage.WritingLog index)) }
        ensures call { OneCall (IsFileOfHive self.now.hive) (D.state_at disk.old) (D.state_at disk.new)
            (D.clock disk.old) (D.clock disk.new) }
        ensures chunks { D.faithful disk.new → KeepsWritesShort (D.state_at disk.old)
            (D.state_at disk.new) (D.clock disk.old) (D.clock disk.new) }
        ensures failures { CountsFailure result (D.failures disk.old) (D.failures disk.new) }
        ensures faithful { D.faithful disk.new → D.faithful disk.old }
    {
        let mut buffer = [0; CHUNK_BYTES];
        let count = write_steps(image, pages, &self.block).chunk(index, &mut buffer);
        if count == 0 {
            self.sync_log::<D, T>(disk, index, pages)
        } else {
            self.write_log_chunk::<D, T>(disk, index, image, pages, &buffer[..count])
        }
    }

    // the first sector with the raised number
    pub(crate) fn mark_primary_dirty<D: Disk, T>(&self, disk: &mut D) -> Result<FlushStage, Failed>
        ensures leads { D.faithful disk.new →
            (decode : TreeDecoder T) (image : List ℕ) (pages : Pages) →
            CallLeadsTo decode (plan_of self.now image pages) image pages self.now.hive
            stage.LogSynced result
            (D.state_at disk.old (D.clock disk.old)) (D.state_at disk.new (D.clock disk.new)) }
        ensures next { IfOk result (λ next. next ≡ stage.PrimaryMarkedDirty) }
        ensures falls { (total : ℕ) (pages : Pages) → IfOk result (CallsDecrease total pages stage.LogSynced) }
        ensures call { OneCall (IsFileOfHive self.now.hive) (D.state_at disk.old) (D.state_at disk.new)
            (D.clock disk.old) (D.clock disk.new) }
        ensures chunks { D.faithful disk.new → KeepsWritesShort (D.state_at disk.old)
            (D.state_at disk.new) (D.clock disk.old) (D.clock disk.new) }
        ensures failures { CountsFailure result (D.failures disk.old) (D.failures disk.new) }
        ensures faithful { D.faithful disk.new → D.faithful disk.old }
    {
        let mut raised = self.base;
        raised.primary = raised.secondary.next();
        match write_file(disk, self.hive, HiveFileKind::Primary, 0, &raised.write()) {
            Ok(()) => Ok(FlushStage::PrimaryMarkedDirty),
            Err(failed) => Err(failed),
        }
    }

    // its sync: from here on the log decides
    pub(crate) fn sync_dirty_mark<D: Disk, T>(&self, disk: &mut D) -> Result<FlushStage, Failed>
        ensures leads { D.faithful disk.new →
            (decode : TreeDecoder T) (image : List ℕ) (pages : Pages) →
            CallLeadsTo decode (plan_of self.now image pages) image pages self.now.hive
            stage.PrimaryMarkedDirty result
            (D.state_at disk.old (D.clock disk.old)) (D.state_at disk.new (D.clock disk.new)) }
        ensures next { IfOk result (λ next. next ≡ stage.WritingPages purpose.Flush 0) }
        ensures falls { (total : ℕ) (pages : Pages) → IfOk result (CallsDecrease total pages stage.PrimaryMarkedDirty) }
        ensures call { OneCall (IsFileOfHive self.now.hive) (D.state_at disk.old) (D.state_at disk.new)
            (D.clock disk.old) (D.clock disk.new) }
        ensures chunks { D.faithful disk.new → KeepsWritesShort (D.state_at disk.old)
            (D.state_at disk.new) (D.clock disk.old) (D.clock disk.new) }
        ensures failures { CountsFailure result (D.failures disk.old) (D.failures disk.new) }
        ensures faithful { D.faithful disk.new → D.faithful disk.old }
    {
        match sync_file(disk, self.hive, HiveFileKind::Primary) {
            Ok(()) => Ok(FlushStage::WritingPages(Purpose::Flush, 0)),
            Err(failed) => Err(failed),
        }
    }

    // a run of dirty pages, or as much of it as one write takes
    pub(crate) fn write_pages<D: Disk, T>(
        &self,
        disk: &mut D,
        purpose: Purpose,
        from: usize,
        run: Range<usize>,
        image: &[u8],
        pages: &DirtyVector,
    ) -> Result<FlushStage, Failed>
        requires size { length image.now ≡ pages.now.bins_size }
        requires run { IsFirstRun pages.now from run.start run.end }
        ensures leads { D.faithful disk.new → (decode : TreeDecoder T) (plan : FlushPlan) →
            PlanEndsWith self.now.block plan →
            CallLeadsTo decode plan image.now pages.now self.now.hive
            (stage.WritingPages purpose from) result
            (D.state_at disk.old (D.clock disk.old)) (D.state_at disk.new (D.clock disk.new)) }
        ensures next { IfOk result (λ next. next ≡ stage.WritingPages purpose (run.start +
            min MOST_PAGES (run.end - run.start))) }
        ensures falls { (total : ℕ) → IfOk result (CallsDecrease total pages.now
            (stage.WritingPages purpose from)) }
        ensures call { OneCall (IsFileOfHive self.now.hive) (D.state_at disk.old) (D.state_at disk.new)
            (D.clock disk.old) (D.clock disk.new) }
        ensures chunks { D.faithful disk.new → KeepsWritesShort (D.state_at disk.old)
            (D.state_at disk.new) (D.clock disk.old) (D.clock disk.new) }
        ensures failures { CountsFailure result (D.failures disk.old) (D.failures disk.new) }
        ensures faithful { D.faithful disk.new → D.faithful disk.old }
    {
        let end = run.start + MOST_PAGES.min(run.end - run.start);
        let (first, last) = (PAGE_BYTES * run.start, PAGE_BYTES * end);
        let (at, bytes) = (BINS_AT + first as u64, &image[first..last]);
        match write_file(disk, self.hive, HiveFileKind::Primary, at, bytes) {
            Ok(()) => Ok(FlushStage::WritingPages(purpose, end)),
            Err(failed) => Err(failed),
        }
    }

    // the sync after the last page
    pub(crate) fn sync_pages<D: Disk, T>(
        &self,
        disk: &mut D,
        purpose: Purpose,
        from: usize,
    ) -> Result<FlushStage, Failed>
        ensures leads { D.faithful disk.new →
            (decode : TreeDecoder T) (plan : FlushPlan) (image : List ℕ) (pages : Pages) →
            PlanEndsWith self.now.block plan → NoneFrom pages from →
            CallLeadsTo decode plan image pages self.now.hive
            (stage.WritingPages purpose from) result
            (D.state_at disk.old (D.clock disk.old)) (D.state_at disk.new (D.clock disk.new)) }
        ensures next { IfOk result (λ next. next ≡ stage.PagesSynced purpose) }
        ensures falls { (total : ℕ) (pages : Pages) →
            IfOk result (CallsDecrease total pages (stage.WritingPages purpose from)) }
        ensures call { OneCall (IsFileOfHive self.now.hive) (D.state_at disk.old) (D.state_at disk.new)
            (D.clock disk.old) (D.clock disk.new) }
        ensures chunks { D.faithful disk.new → KeepsWritesShort (D.state_at disk.old)
            (D.state_at disk.new) (D.clock disk.old) (D.clock disk.new) }
        ensures failures { CountsFailure result (D.failures disk.old) (D.failures disk.new) }
        ensures faithful { D.faithful disk.new → D.faithful disk.old }
    {
        match sync_file(disk, self.hive, HiveFileKind::Primary) {
            Ok(()) => Ok(FlushStage::PagesSynced(purpose)),
            Err(failed) => Err(failed),
        }
    }

    // the first sector as it will be
    pub(crate) fn write_header<D: Disk, T>(
        &self,
        disk: &mut D,
        purpose: Purpose,
    ) -> Result<FlushStage, Failed>
        ensures leads { D.faithful disk.new →
            (decode : TreeDecoder T) (plan : FlushPlan) (image : List ℕ) (pages : Pages) →
            PlanEndsWith self.now.block plan →
            CallLeadsTo decode plan image pages self.now.hive
            (stage.PagesSynced purpose) result
            (D.state_at disk.old (D.clock disk.old)) (D.state_at disk.new (D.clock disk.new)) }
        ensures next { IfOk result (λ next. next ≡ stage.HeaderWritten purpose) }
        ensures falls { (total : ℕ) (pages : Pages) →
            IfOk result (CallsDecrease total pages (stage.PagesSynced purpose)) }
        ensures call { OneCall (IsFileOfHive self.now.hive) (D.state_at disk.old) (D.state_at disk.new)
            (D.clock disk.old) (D.clock disk.new) }
        ensures chunks { D.faithful disk.new → KeepsWritesShort (D.state_at disk.old)
            (D.state_at disk.new) (D.clock disk.old) (D.clock disk.new) }
        ensures failures { CountsFailure result (D.failures disk.old) (D.failures disk.new) }
        ensures faithful { D.faithful disk.new → D.faithful disk.old }
    {
        match write_file(
            disk,
            self.hive,
            HiveFileKind::Primary,
            0,
            &self.block.write(),
        ) {
            Ok(()) => Ok(FlushStage::HeaderWritten(purpose)),
            Err(failed) => Err(failed),
        }
    }

    // its sync: what was in memory is durable
    pub(crate) fn sync_header<D: Disk, T>(
        &self,
        disk: &mut D,
        purpose: Purpose,
    ) -> Result<FlushStage, Failed>
        ensures leads { D.faithful disk.new →
            (decode : TreeDecoder T) (plan : FlushPlan) (image : List ℕ) (pages : Pages) →
            PlanEndsWith self.now.block plan →
            CallLeadsTo decode plan image pages self.now.hive
            (stage.HeaderWritten purpose) result
            (D.state_at disk.old (D.clock disk.old)) (D.state_at disk.new (D.clock disk.new)) }
        ensures next { IfOk result (λ next. next ≡ stage.AtRest) }
        ensures call { OneCall (IsFileOfHive self.now.hive) (D.state_at disk.old) (D.state_at disk.new)
            (D.clock disk.old) (D.clock disk.new) }
        ensures chunks { D.faithful disk.new → KeepsWritesShort (D.state_at disk.old)
            (D.state_at disk.new) (D.clock disk.old) (D.clock disk.new) }
        ensures failures { CountsFailure result (D.failures disk.old) (D.failures disk.new) }
        ensures faithful { D.faithful disk.new → D.faithful disk.old }
    {
        match sync_file(disk, self.hive, HiveFileKind::Primary) {
            Ok(()) => Ok(FlushStage::AtRest),
            Err(failed) => Err(failed),
        }
    }
}
