//! The file that a log of pages makes of a hive's.
ghost use Rattle.std.specs.Prelude.{◌≡◌, ◌≤◌, true, IfOk, IfErr, length, drop};
ghost use Rattle.base_block.specs.Layout.{is_clean_block};
ghost use Rattle.refusals.specs.Answers.{RefusedFor};
ghost use Rattle.dirt_log.specs.WholeLog.{IsCovered, block_of, not_whole, repaired};
ghost use Rattle.hive_page_logs.specs.PageLogs.{whole_seen};
ghost use Rattle.hive_page_logs.specs.RecoveredPages.{IsRecoveredByPages, IsRefusedByPages};

use crate::page_log::WholePageLog;
use base_block::SequenceNumber;
use hive_recovery::{file_of_parts, recovered_sector};
use refusals::{Cause, Refusal};
use std::alloc::Global;

/// The bytes that a file has before its bins data.
const HEAD_BYTES: usize = 4096;

const _: () = prove!(HEAD_BYTES == 4096);

/// All bytes of the file of a hive that a log of pages recovers. It is clean, with a number as both its sequence numbers.
///
/// Refused with `HiveDamaged` of hive 0: `Truncated` if the file has fewer than 4,096 bytes; `BadLog` if a page of the bins
/// data is neither the log's nor whole in the file. Otherwise refused for want of memory alone.
pub fn recover_by_pages(
    alloc: Global,
    file: &[u8],
    log: &WholePageLog<'_>,
    number: SequenceNumber,
) -> Result<Vec<u8>, Refusal>
    ensures ok { IfOk result (λ out. IsRecoveredByPages file.now (whole_seen log.now) number.0 out.items) }
    ensures clean { IfOk result (λ out. is_clean_block (block_of out.items) ≡ true) }
    ensures numbered { IfOk result (λ out. (block_of out.items).primary ≡ number) }
    ensures refused { IfErr result (IsRefusedByPages file.now (whole_seen log.now)) }
{
    if file.len() < HEAD_BYTES {
        return Err(Refusal::from(Cause::Truncated));
    }
    let bins = match repaired_bins(alloc, bins_in(file), log) {
        Ok(bins) => bins,
        Err(why) => return Err(why),
    };
    let sector = recovered_sector(&log.sector, number, log.dirt.base.bins_size);
    Ok(file_of_parts(alloc, &sector, &file[512..HEAD_BYTES], &bins)?)
}

// the bytes from the bins data on
fn bins_in(file: &[u8]) -> &[u8]
    requires { 4096 ≤ length file.now }
    ensures { result.now ≡ drop 4096 file.now }
{
    &file[HEAD_BYTES..]
}

// the bins data with the log's pages
fn repaired_bins(alloc: Global, own: &[u8], log: &WholePageLog<'_>) -> Result<Vec<u8>, Refusal>
    ensures covered { IfOk result (λ bins. IsCovered (length own.now) log.now.dirt.vector) }
    ensures ok { IfOk result (λ bins. bins.items ≡ repaired own.now log.now.dirt.vector log.now.dirt.pages.now) }
    ensures refused { IfErr result (RefusedFor not_whole (IsCovered (length own.now) log.now.dirt.vector → ⊥)) }
{
    let mut bins = own.to_vec(alloc)?;
    match log.dirt.apply_to(&mut bins) {
        Ok(()) => Ok(bins),
        Err(why) => Err(why),
    }
}
