//! What is found in a hive's two files.
ghost use Rattle.std.specs.Prelude.{◌≡◌, ◌+◌, ◌<◌, ◌≤◌, ℕ, List, length, take, drop, true, false, IfOk, IfErr, IfSome, IfNone};
ghost use Rattle.base_block.specs.Judgements.{IsLog, IsPrimary};
ghost use Rattle.base_block.specs.Layout.{is_clean_block};
ghost use Rattle.dirt_log.specs.WholeLog.{LogIsWhole, block_of, not_whole};
ghost use Rattle.dirty_vector.specs.Pages.{clean_pages};
ghost use Rattle.disk_model.specs.Call.{Extends};
ghost use Rattle.disk_model.specs.FileState.{at_rest};
ghost use Rattle.disk_model.specs.StoreFiles.{IsFileOfHive, primary_file, log_file};
ghost use Rattle.disk_model.specs.ReadOnly.{OnlyReads, OnlySyncs};
ghost use Rattle.hive_files.specs.Contents.{PrimaryHasNone, LogContains, FilesContain, DecodesLog, LogCoversPrimary, HasBinsData, ShortFileRefused, RefusesFiles, IsHiveRefusal};
ghost use Rattle.hive_files.specs.Frames.{RefusalHasCause};
ghost use Rattle.hive_files.specs.Chunks.{calls_by_log, calls_of_part, calls_to_find};
ghost use Rattle.refusals.specs.Answers.{RefusedFor};

use crate::contents::HiveContents;
use crate::files::{BINS_AT, SECTOR_BYTES, log_number, primary_number, read_part};
use base_block::{BaseBlock, FileType};
use dirt_log::DirtLog;
use dirty_vector::DirtyVector;
use disk_model::Disk;
use refusals::limits::MOST_BINS_BYTES;
use refusals::{Cause, Refusal};
use std::alloc::Global;

/// The most bins data, of which a log has each page.
const MOST_PAGE_BYTES: u64 = MOST_BINS_BYTES as u64;

/// The sectors of the longest log's letters and bitmap: 4 bytes, and a bit for each 512 bytes of bins data.
const MOST_BITMAP_SECTORS: u64 = (4 + MOST_PAGE_BYTES / 4_096 + SECTOR_BYTES - 1) / SECTOR_BYTES;

/// The bytes of the longest log that is whole: its first sector, letters and bitmap, in whole sectors, and each page.
const MOST_LOG_BYTES: u64 = SECTOR_BYTES + MOST_BITMAP_SECTORS * SECTOR_BYTES + MOST_PAGE_BYTES;

const _: () = prove!(MOST_LOG_BYTES == 67_126_272);

/// Finds what is in use in a hive's two files. The primary file is synced first. So is the log, unless the primary file
/// is clean: then the log isn't looked at. Both are read in chunks of 65,536 bytes, in as few calls as that takes.
///
/// Refused with `DiskFault` if the device failed, and with `NoMemory`. Refused with a cause of hive 0, `Unsupported` or
/// `TooLarge` only if nothing that may be used is in the files. A clean primary file is refused for its base block, or
/// with `Truncated` if it is shorter than its bins data. An unclean one is refused with `BadLog` if its log isn't whole
/// or lacks a page that is needed. It is refused with `Truncated` if it has no first sector. The reported cause is true
/// of the bytes. No file changes but by its sync.
pub fn find<D: Disk>(alloc: Global, disk: &mut D, hive: u8) -> Result<HiveContents, Refusal>
    ensures found { IfOk result (λ found. D.faithful disk.new → FilesContain
        (D.state_at disk.old (D.clock disk.old) (primary_file hive)).seen
        (D.state_at disk.old (D.clock disk.old) (log_file hive)).seen found) }
    // A file that is read takes one call for its length, and one for each 65,536 bytes.
    ensures calls { IfOk result (λ found. D.faithful disk.new → D.clock disk.new
        ≡ D.clock disk.old + calls_to_find
        (D.state_at disk.old (D.clock disk.old) (primary_file hive)).seen
        (D.state_at disk.old (D.clock disk.old) (log_file hive)).seen found) }
    ensures rest { IfOk result (λ found. D.faithful disk.new →
        D.state_at disk.new (D.clock disk.new) (primary_file hive)
        ≡ at_rest (D.state_at disk.old (D.clock disk.old) (primary_file hive)).seen) }
    ensures log_rest { IfOk result (λ found. D.faithful disk.new → found.is_clean ≡ false →
        D.state_at disk.new (D.clock disk.new) (log_file hive)
        ≡ at_rest (D.state_at disk.old (D.clock disk.old) (log_file hive)).seen) }
    ensures fails { IfErr result (RefusalHasCause (D.failures disk.old < D.failures disk.new)
        (RefusesFiles (D.faithful disk.new)
        (D.state_at disk.old (D.clock disk.old) (primary_file hive)).seen
        (D.state_at disk.old (D.clock disk.old) (log_file hive)).seen)) }
    ensures synced { D.faithful disk.new → OnlySyncs (D.state_at disk.old) (D.state_at disk.new)
        (D.clock disk.old) (D.clock disk.new) }
    ensures others { (f : ℕ) → ¬ (IsFileOfHive hive f) →
        D.state_at disk.new (D.clock disk.new) f ≡ D.state_at disk.old (D.clock disk.old) f }
    ensures time { Extends (D.state_at disk.old) (D.state_at disk.new) (D.clock disk.old)
        (D.clock disk.new) }
    ensures failures { D.failures disk.old ≤ D.failures disk.new }
    ensures faithful { D.faithful disk.new → D.faithful disk.old }
{
    let primary = primary_number(hive);
    disk.sync(primary)?;
    let sector = match read_part(alloc, disk, primary, 0, SECTOR_BYTES) {
        Ok(sector) => sector,
        Err(why) => return Err(why),
    };
    match block_in(&sector) {
        None => Err(short_refused(alloc, disk, hive)),
        Some(block) => {
            if block.is_clean() {
                find_own(alloc, disk, primary, block)
            } else {
                find_repaired(alloc, disk, hive)
            }
        }
    }
}

// the block of a first sector, if there is one
fn block_in(sector: &[u8]) -> Option<BaseBlock>
    ensures some { IfSome result (λ block. (block ≡ block_of sector.now) × (512 ≤ length sector.now)) }
    ensures none { IfNone result (length sector.now < 512) }
{
    BaseBlock::read_first(sector)
}

// what a clean primary file holds, whose block this is
fn find_own<D: Disk>(
    alloc: Global,
    disk: &mut D,
    file: u32,
    block: BaseBlock,
) -> Result<HiveContents, Refusal>
    requires clean { is_clean_block block ≡ true }
    ensures judged { IfOk result (λ found. IsPrimary block) }
    ensures found { IfOk result (λ found. (found.block ≡ block)
        × (found.pages ≡ clean_pages block.bins_size) × (found.is_clean ≡ true)) }
    ensures bins { IfOk result (λ found. D.faithful disk.new → HasBinsData
        (D.state_at disk.old (D.clock disk.old) file).seen block.bins_size found.bins.items) }
    ensures calls { IfOk result (λ found. D.clock disk.new
        ≡ D.clock disk.old + calls_of_part block.bins_size) }
    ensures fails { IfErr result (RefusalHasCause (D.failures disk.old < D.failures disk.new)
        (λ why. IsHiveRefusal why × (D.faithful disk.new → PrimaryHasNone block
        (D.state_at disk.old (D.clock disk.old) file).seen why))) }
    ensures reads { OnlyReads (D.state_at disk.old) (D.state_at disk.new) (D.clock disk.old)
        (D.clock disk.new) }
    ensures failures { D.failures disk.old ≤ D.failures disk.new }
    ensures faithful { D.faithful disk.new → D.faithful disk.old }
{
    match block.judge_primary() {
        Ok(()) => {}
        Err(why) => return Err(why),
    }
    let size = block.bins_size as usize;
    let bins = match read_part(alloc, disk, file, BINS_AT, size as u64) {
        Ok(bins) => bins,
        Err(why) => return Err(why),
    };
    if bins.len() < size {
        return Err(Refusal::from(Cause::Truncated));
    }
    let pages = match DirtyVector::new(alloc, size) {
        Ok(pages) => pages,
        Err(why) => return Err(why),
    };
    Ok(HiveContents {
        block,
        bins,
        pages,
        is_clean: true,
    })
}

// why an unclean primary file without a first sector is refused: for its log, or else since it ends too early
fn short_refused<D: Disk>(alloc: Global, disk: &mut D, hive: u8) -> Refusal
    ensures fails { RefusalHasCause (D.failures disk.old < D.failures disk.new)
        (λ why. IsHiveRefusal why × (D.faithful disk.new → ShortFileRefused
        (D.state_at disk.old (D.clock disk.old) (primary_file hive)).seen
        (D.state_at disk.old (D.clock disk.old) (log_file hive)).seen why)) result }
    ensures synced { D.faithful disk.new → OnlySyncs (D.state_at disk.old) (D.state_at disk.new)
        (D.clock disk.old) (D.clock disk.new) }
    ensures others { (f : ℕ) → ¬ (f ≡ log_file hive) →
        D.state_at disk.new (D.clock disk.new) f ≡ D.state_at disk.old (D.clock disk.old) f }
    ensures time { Extends (D.state_at disk.old) (D.state_at disk.new) (D.clock disk.old)
        (D.clock disk.new) }
    ensures failures { D.failures disk.old ≤ D.failures disk.new }
    ensures faithful { D.faithful disk.new → D.faithful disk.old }
{
    match find_repaired(alloc, disk, hive) {
        Ok(_) => Refusal::from(Cause::Truncated),
        Err(why) => why,
    }
}

// what an unclean primary file holds by its log, which is synced first
fn find_repaired<D: Disk>(alloc: Global, disk: &mut D, hive: u8) -> Result<HiveContents, Refusal>
    ensures found { IfOk result (λ found. D.faithful disk.new → LogContains
        (D.state_at disk.old (D.clock disk.old) (primary_file hive)).seen
        (D.state_at disk.old (D.clock disk.old) (log_file hive)).seen found) }
    ensures clean { IfOk result (λ found. found.is_clean ≡ false) }
    ensures calls { IfOk result (λ found. D.faithful disk.new → D.clock disk.new
        ≡ D.clock disk.old + (1 + calls_by_log
        (D.state_at disk.old (D.clock disk.old) (primary_file hive)).seen
        (D.state_at disk.old (D.clock disk.old) (log_file hive)).seen found.block.bins_size)) }
    ensures rest { IfOk result (λ found. D.faithful disk.new →
        D.state_at disk.new (D.clock disk.new) (log_file hive)
        ≡ at_rest (D.state_at disk.old (D.clock disk.old) (log_file hive)).seen) }
    ensures fails { IfErr result (RefusalHasCause (D.failures disk.old < D.failures disk.new)
        (λ why. (why ≡ not_whole) × (D.faithful disk.new → LogCoversPrimary
        (D.state_at disk.old (D.clock disk.old) (primary_file hive)).seen
        (D.state_at disk.old (D.clock disk.old) (log_file hive)).seen → ⊥))) }
    ensures synced { D.faithful disk.new → OnlySyncs (D.state_at disk.old) (D.state_at disk.new)
        (D.clock disk.old) (D.clock disk.new) }
    ensures others { (f : ℕ) → ¬ (f ≡ log_file hive) →
        D.state_at disk.new (D.clock disk.new) f ≡ D.state_at disk.old (D.clock disk.old) f }
    ensures time { Extends (D.state_at disk.old) (D.state_at disk.new) (D.clock disk.old)
        (D.clock disk.new) }
    ensures failures { D.failures disk.old ≤ D.failures disk.new }
    ensures faithful { D.faithful disk.new → D.faithful disk.old }
{
    disk.sync(log_number(hive))?;
    read_repaired(alloc, disk, hive)
}

// the same if the log is synced
fn read_repaired<D: Disk>(alloc: Global, disk: &mut D, hive: u8) -> Result<HiveContents, Refusal>
    ensures found { IfOk result (λ found. D.faithful disk.new → LogContains
        (D.state_at disk.old (D.clock disk.old) (primary_file hive)).seen
        (D.state_at disk.old (D.clock disk.old) (log_file hive)).seen found) }
    ensures clean { IfOk result (λ found. found.is_clean ≡ false) }
    ensures calls { IfOk result (λ found. D.faithful disk.new → D.clock disk.new
        ≡ D.clock disk.old + calls_by_log
        (D.state_at disk.old (D.clock disk.old) (primary_file hive)).seen
        (D.state_at disk.old (D.clock disk.old) (log_file hive)).seen found.block.bins_size) }
    ensures fails { IfErr result (RefusalHasCause (D.failures disk.old < D.failures disk.new)
        (λ why. (why ≡ not_whole) × (D.faithful disk.new → LogCoversPrimary
        (D.state_at disk.old (D.clock disk.old) (primary_file hive)).seen
        (D.state_at disk.old (D.clock disk.old) (log_file hive)).seen → ⊥))) }
    ensures reads { OnlyReads (D.state_at disk.old) (D.state_at disk.new) (D.clock disk.old)
        (D.clock disk.new) }
    ensures failures { D.failures disk.old ≤ D.failures disk.new }
    ensures faithful { D.faithful disk.new → D.faithful disk.old }
{
    let encoding = match read_part(alloc, disk, log_number(hive), 0, MOST_LOG_BYTES) {
        Ok(encoding) => encoding,
        Err(why) => return Err(why),
    };
    let log = match read_log(alloc, &encoding) {
        Ok(log) => log,
        Err(why) => return Err(why),
    };
    let size = log.vector.bins_size() as u64;
    let bins = match read_part(alloc, disk, primary_number(hive), BINS_AT, size) {
        Ok(bins) => bins,
        Err(why) => return Err(why),
    };
    repaired(log, bins)
}

// the log whose longest front this is
fn read_log(alloc: Global, encoding: &[u8]) -> Result<DirtLog<'_>, Refusal>
    ensures used { IfOk result (λ log. IsLog log.base
        × (log.base.bins_size ≡ log.vector.bins_size)) }
    ensures log { IfOk result (λ log. (file : List ℕ) → encoding.now ≡ take MOST_LOG_BYTES file →
        DecodesLog file log) }
    ensures refused { IfErr result (RefusedFor not_whole ((file : List ℕ) →
        encoding.now ≡ take MOST_LOG_BYTES file → LogIsWhole file → ⊥)) }
{
    dirt_log::laws::log_prefix_decides();
    match dirt_log::read(alloc, encoding) {
        Ok(log) => Ok(log),
        Err(why) => Err(why),
    }
}

// bins data as a log repairs them
fn repaired(log: DirtLog<'_>, bins: Vec<u8>) -> Result<HiveContents, Refusal>
    requires used { IsLog log.base × (log.base.bins_size ≡ log.vector.bins_size) }
    ensures size { IfOk result (λ found. found.block.bins_size ≡ log.entry.vector.bins_size) }
    ensures found { IfOk result (λ found. (primary file : List ℕ) → DecodesLog file log.entry →
        bins.items ≡ take log.entry.vector.bins_size (drop 4096 primary) →
        LogContains primary file found) }
    ensures clean { IfOk result (λ found. found.is_clean ≡ false) }
    ensures fails { IfErr result (RefusedFor not_whole ((primary file : List ℕ) →
        DecodesLog file log.entry →
        bins.items ≡ take log.entry.vector.bins_size (drop 4096 primary) →
        LogCoversPrimary primary file → ⊥)) }
{
    dirt_log::laws::repair_prefix_decides();
    let mut bins = bins;
    match log.apply_to(&mut bins) {
        Ok(()) => {}
        Err(why) => return Err(why),
    }
    let DirtLog {
        base,
        vector,
        pages: _,
    } = log;
    Ok(HiveContents {
        block: BaseBlock {
            file_type: FileType::PRIMARY,
            ..base
        },
        bins,
        pages: vector,
        is_clean: false,
    })
}
