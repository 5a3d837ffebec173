//! What the first sector of a hive's file says.
ghost use Rattle.std.specs.Prelude.{◌≡◌, take};
ghost use Rattle.base_block.specs.Sums.{sum_of};
ghost use Rattle.hive_check.specs.Blocks.{block_in_sector, is_log_block, is_log_type, sector_report};

use base_block::{BaseBlock, FileType, Signature, sum};
use hive_records::u32_at;

/// The type of a log of entries, as Windows 8.1 and later write it.
const ENTRIES_LOG: FileType = FileType(6);

const _: () = prove!(ENTRIES_LOG.0 == 6);

/// The offset of the sum, and the bytes that are summed.
const SUM_AT: usize = 508;

const _: () = prove!(SUM_AT == 508);

/// The fields of a hive's base block, with the sum that stands in it and the right one.
#[derive(Clone, Copy)]
pub struct BlockReport {
    /// The fields.
    pub block: BaseBlock,
    /// The sum that stands in the block.
    pub sum: u32,
    /// The sum that is right.
    pub right_sum: u32,
}

/// The report of a file's first sector. None if there is no such sector, or if the file is no hive by its signature.
pub fn block_report(sector: &Option<[u8; 512]>) -> Option<BlockReport>
    ensures { result ≡ block_in_sector sector.now }
{
    let Some(sector) = sector else {
        return None;
    };
    let report = sector_report(sector);
    if report.block.signature == Signature::REGF {
        Some(report)
    } else {
        None
    }
}

/// Whether a block is a log's by its type, if there is one.
pub(crate) fn is_of_log(report: &Option<BlockReport>) -> bool
    ensures { result ≡ is_log_block report.now }
{
    match report {
        Some(report) => is_log(&report.block),
        None => false,
    }
}

/// Whether a block is a log's by its type: 1 or 2, or 6 of a log of Windows 8.1 and later.
pub fn is_log(block: &BaseBlock) -> bool
    ensures { result ≡ is_log_type block.now }
{
    block.file_type == FileType::LOG
        || block.file_type == FileType::OTHER_LOG
        || block.file_type == ENTRIES_LOG
}

fn sector_report(sector: &[u8; 512]) -> BlockReport
    ensures { result ≡ sector_report sector.now }
{
    BlockReport {
        block: BaseBlock::read(sector),
        sum: u32_at(sector, SUM_AT),
        right_sum: right_sum(sector),
    }
}

// the sum of the bytes before a sector's sum
fn right_sum(sector: &[u8; 512]) -> u32
    ensures { result ≡ sum_of (take 508 sector.now) }
{
    let mut summed = [0; SUM_AT];
    summed.copy_from_slice(&sector[..SUM_AT]);
    sum(&summed)
}
