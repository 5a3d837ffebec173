//! The laws. Throughout `decode` is any rule that gives the tree, if any, of bins data, a root and a minor version.
ghost use Rattle.std.specs.Prelude.{◌≡◌, ◌↔◌, ◌+◌, ◌≤◌, ◌<◌, ◌^◌, ℕ, true, false, List, length, take, drop, Some, IsTrue};
ghost use Rattle.crash_model.specs.Promises.{HiveOn};
ghost use Rattle.crash_model.specs.Files.{HoldsBy};
ghost use Rattle.disk_model.specs.FileState.{FileState, Leaves, IsSound, Writes, MayWrite, Syncs, at_rest};
ghost use Rattle.disk_model.specs.Sector.{IsHonest, HasRightSum};
ghost use Rattle.base_block.specs.declared.block.BaseBlock.{BaseBlock};
ghost use Rattle.base_block.specs.Layout.{block_at};
ghost use Rattle.dirty_vector.specs.Pages.{Pages};
ghost use Rattle.dirt_log.specs.FileContents.{is_clean_file};
ghost use Rattle.dirt_log.specs.LogEncoding.{pages_from};
ghost use Rattle.dirt_log.specs.WholeLog.{
  LogIsWhole,
  IsCovered,
  IsLoggable,
  LogDecodesTo,
  block_as_read,
  block_of,
  pages_in,
  page_bytes_in,
  repaired,
};
ghost use Rattle.hive_flush_model.specs.Decisions.{held};
ghost use Rattle.hive_flush_model.specs.StoredTrees.{TreeDecoder, tree_under, FilesHoldTree};
ghost use Rattle.dirty_vector.specs.Changes.{ChangesAreMarked};
ghost use Rattle.hive_flush_model.specs.Plans.{marked_block, FlushPlan, PlanFitsImage, IsBehind, AreClean, AreDirty};
ghost use Rattle.hive_flush_model.specs.Phases.{
  Purpose,
  Purpose.Flush,
  Hive,
  FlushState,
  FlushPhase,
  FlushPhase.AtRest,
  FlushPhase.WritingLog,
  FlushPhase.LogSynced,
  FlushPhase.PrimaryMarkedDirty,
  FlushPhase.WritingPages,
  FlushPhase.PagesSynced,
  FlushPhase.HeaderWritten,
  choice,
};
ghost use Rattle.hive_flush_model.specs.States.{HasLog, PrimaryIsSyncedIn, is_on, files_match_phase};

/// Two files hold at most one tree and number, which the function `held` gives.
pub fn at_most_one_tree<T>()
    ensures one { (decode : TreeDecoder T) (p l : List ℕ) (x y : T × ℕ) →
        FilesHoldTree decode p l x → FilesHoldTree decode p l y → x ≡ y }
    ensures decided { (decode : TreeDecoder T) (p l : List ℕ) (x : T × ℕ) →
        FilesHoldTree decode p l x ↔ (held decode p l ≡ Some x) }
{}

/// A law of each phase of a flush and of a repair. Whatever a crash may leave of both files, with an honest first
/// sector of the primary file, holds what the hive's choice leaves. The function `held` says the same.
pub fn crash_leaves_choice<T>()
    ensures related { (decode : TreeDecoder T) (hive : Hive T) (p l : FileState) →
        is_on decode hive p l →
        HiveOn (FilesHoldTree decode) (choice hive) (λ c. Leaves p c × IsHonest p c) (Leaves l) }
    ensures decided { (decode : TreeDecoder T) (hive : Hive T) (p l : FileState) →
        is_on decode hive p l →
        HiveOn (HoldsBy (held decode)) (choice hive) (λ c. Leaves p c × IsHonest p c) (Leaves l) }
{}

/// What a read gives of the primary file has an honest first sector in each phase, as long as no write of that sector
/// has failed.
pub fn reads_are_honest<T>()
    ensures { (decode : TreeDecoder T) (work : FlushState T) (phase : FlushPhase) (p l : FileState) →
        IsSound p → files_match_phase decode work phase p l → PrimaryIsSyncedIn phase p → IsHonest p p.seen }
{}

/// Steps without a device call: a flush and a repair begin, and a quiet hive absorbs.
pub fn without_calls<T>()
    ensures begins { (decode : TreeDecoder T) (work : FlushState T) (p l : FileState) →
        PlanFitsImage decode work.memory work.image work.pages work.plan →
        files_match_phase decode work AtRest p l → files_match_phase decode work (WritingLog 0) p l }
    ensures repair { (decode : TreeDecoder T) (work : FlushState T) (p l : FileState) (purpose : Purpose) →
        PlanFitsImage decode work.memory work.image work.pages work.plan → p ≡ at_rest p.synced →
        is_clean_file p.synced ≡ false → 512 ≤ length p.synced →
        IsBehind work.image work.pages p.synced → HasLog work.plan.encoding l →
        files_match_phase decode work (WritingPages purpose 0) p l }
    ensures absorb { (decode : TreeDecoder T) (work : FlushState T) (memory : T × ℕ) (image : List ℕ)
        (pages : Pages) (p l : FileState) → ChangesAreMarked work.image work.pages image pages →
        files_match_phase decode work AtRest p l →
        files_match_phase decode (record work { memory = memory; image = image; pages = pages }) AtRest p l }
{}

/// The calls on the log: a chunk is written after the last one, and the whole encoding is synced. If no page is dirty,
/// the last sector is next: the log repairs a torn one, and nothing else is to be written.
pub fn log_calls<T>()
    ensures written { (decode : TreeDecoder T) (work : FlushState T) (n : ℕ) (chunk : List ℕ)
        (p l new : FileState) → files_match_phase decode work (WritingLog n) p l →
        n + length chunk ≤ length work.plan.encoding →
        chunk ≡ take (length chunk) (drop n work.plan.encoding) →
        Writes n chunk l new → files_match_phase decode work (WritingLog (n + length chunk)) p new }
    ensures failed { (decode : TreeDecoder T) (work : FlushState T) (n : ℕ) (chunk : List ℕ)
        (p l new : FileState) → files_match_phase decode work (WritingLog n) p l →
        MayWrite n chunk l new → files_match_phase decode work (WritingLog n) p new }
    ensures synced { (decode : TreeDecoder T) (work : FlushState T) (p l new : FileState) →
        files_match_phase decode work (WritingLog (length work.plan.encoding)) p l →
        Syncs l new → files_match_phase decode work LogSynced p new }
    ensures unchanged { (decode : TreeDecoder T) (work : FlushState T) (p l new : FileState) →
        files_match_phase decode work (WritingLog (length work.plan.encoding)) p l →
        AreClean work.pages 0 (length work.image) →
        Syncs l new → files_match_phase decode work (PagesSynced Flush) p new }
{}

/// The calls on the first sector with the raised primary number. From its sync on the log decides.
pub fn marking_calls<T>()
    ensures written { (decode : TreeDecoder T) (work : FlushState T) (p l new : FileState) →
        IsSound p → files_match_phase decode work LogSynced p l →
        Writes 0 work.plan.raised p new → files_match_phase decode work PrimaryMarkedDirty new l }
    ensures failed { (decode : TreeDecoder T) (work : FlushState T) (p l new : FileState) →
        IsSound p → files_match_phase decode work LogSynced p l →
        MayWrite 0 work.plan.raised p new → files_match_phase decode work LogSynced new l }
    ensures synced { (decode : TreeDecoder T) (work : FlushState T) (p l new : FileState)
        (purpose : Purpose) →
        IsSound p → files_match_phase decode work PrimaryMarkedDirty p l →
        Syncs p new → files_match_phase decode work (WritingPages purpose 0) new l }
{}

/// The calls on the pages: each write is of dirty pages alone, with clean ones alone left out before it.
pub fn page_calls<T>()
    ensures written { (decode : TreeDecoder T) (work : FlushState T) (n from count : ℕ) (p l new : FileState)
        (purpose : Purpose) → IsSound p → files_match_phase decode work (WritingPages purpose n) p l → n ≤ from →
        from + count ≤ length work.image → AreClean work.pages n from →
        AreDirty work.pages from (from + count) →
        Writes (4096 + from) (take count (drop from work.image)) p new →
        files_match_phase decode work (WritingPages purpose (from + count)) new l }
    ensures failed { (decode : TreeDecoder T) (work : FlushState T) (n from count : ℕ) (p l new : FileState)
        (purpose : Purpose) → files_match_phase decode work (WritingPages purpose n) p l → n ≤ from →
        AreDirty work.pages from (from + count) →
        MayWrite (4096 + from) (take count (drop from work.image)) p new →
        files_match_phase decode work (WritingPages purpose n) new l }
    ensures synced { (decode : TreeDecoder T) (work : FlushState T) (n : ℕ) (p l new : FileState)
        (purpose : Purpose) → IsSound p → files_match_phase decode work (WritingPages purpose n) p l →
        AreClean work.pages n (length work.image) → Syncs p new →
        files_match_phase decode work (PagesSynced purpose) new l }
{}

/// The calls on the last first sector. After its sync what was in memory is durable, and no page differs.
pub fn header_calls<T>()
    ensures written { (decode : TreeDecoder T) (work : FlushState T) (p l new : FileState)
        (purpose : Purpose) →
        IsSound p → files_match_phase decode work (PagesSynced purpose) p l →
        Writes 0 work.plan.final p new → files_match_phase decode work (HeaderWritten purpose) new l }
    ensures failed { (decode : TreeDecoder T) (work : FlushState T) (p l new : FileState)
        (purpose : Purpose) →
        IsSound p → files_match_phase decode work (PagesSynced purpose) p l →
        MayWrite 0 work.plan.final p new → files_match_phase decode work (PagesSynced purpose) new l }
    ensures synced { (decode : TreeDecoder T) (work : FlushState T) (pages : Pages) (p l new : FileState)
        (purpose : Purpose) → IsSound p → files_match_phase decode work (HeaderWritten purpose) p l →
        pages.bins_size ≡ length work.image → Syncs p new →
        files_match_phase decode (record work { now = work.memory; pages = pages }) AtRest new l }
{}

/// Plans can be made. A plan of a flush comes from what writing sectors and the log ensures. The raised number, which
/// may wrap, never is the one below it. A plan of a repair comes from a whole log that covers an unclean primary file.
pub fn plans<T>()
    ensures flush { (decode : TreeDecoder T) (memory : T × ℕ) (image : List ℕ) (pages : Pages)
        (old : BaseBlock) (plan : FlushPlan) → length image ≡ pages.bins_size →
        IsLoggable plan.block pages → plan.block.file_type.0 ≡ 0 →
        tree_under decode plan.block image ≡ Some memory.0 → plan.block.applied.0 ≡ memory.1 →
        old.secondary.0 < 2 ^ 32 → length plan.raised ≡ 512 →
        block_at plan.raised
        ≡ record (marked_block old) { sum_is_right = true } →
        length plan.final ≡ 512 → block_at plan.final ≡ record plan.block { sum_is_right = true } →
        LogDecodesTo plan.encoding (block_as_read plan.block) pages (pages_from image pages 0) →
        PlanFitsImage decode memory image pages plan }
    ensures repair { (decode : TreeDecoder T) (memory : T × ℕ) (old : BaseBlock)
        (primary log raised final : List ℕ) → LogIsWhole log →
        IsCovered (length (drop 4096 primary)) (pages_in log) →
        tree_under decode (block_of log) (repaired (drop 4096 primary) (pages_in log)
        (page_bytes_in log))
        ≡ Some memory.0 → (block_of log).applied.0 ≡ memory.1 →
        old.secondary.0 < 2 ^ 32 → length raised ≡ 512 →
        block_at raised
        ≡ record (marked_block old) { sum_is_right = true } →
        length final ≡ 512 →
        block_at final
        ≡ record (block_of log) { file_type = record { 0 = 0 }; sum_is_right = true } →
        PlanFitsImage decode memory (repaired (drop 4096 primary) (pages_in log) (page_bytes_in log))
        (pages_in log) (record {
          block = record (block_of log) { file_type = record { 0 = 0 } };
          raised = raised;
          final = final;
          encoding = log;
        })
        × IsBehind (repaired (drop 4096 primary) (pages_in log) (page_bytes_in log)) (pages_in log)
        primary }
{}

/// A law, of all lists of numbers that are at least 512 long, be they bytes or not.
///
/// - `same`: the sum is right as the disk says it exactly if the base block that is read has `sum_is_right`.
/// - `front`: the same of the first 512, which is what honesty of a whole file is about.
pub fn right_sums_agree()
    ensures same { (sector : List ℕ) → 512 ≤ length sector →
        HasRightSum sector ↔ IsTrue (block_at sector).sum_is_right }
    ensures front { (file : List ℕ) → 512 ≤ length file →
        HasRightSum (take 512 file) ↔ IsTrue (block_at file).sum_is_right }
{}
