//! The base block of a file that is read as a hive.
ghost use Rattle.std.specs.Prelude.{◌≡◌, ◌≤◌, ◌<◌, length, List, ℕ, MatchResult};
ghost use Rattle.base_block.specs.Judgements.{IsPrimary};
ghost use Rattle.dirt_log.specs.WholeLog.{block_of};
ghost use Rattle.hive_file_reader.specs.Hives.{IsFilePrefix, FileHasBlock, FileLacksBins};

use base_block::{BaseBlock, Signature};
use refusals::{Cause, Refusal};

/// The bytes that a base block takes in a file; the bins data begin after them.
pub(crate) const HEAD_BYTES: usize = 4_096;

const _: () = prove!(HEAD_BYTES == 4_096);

/// The base block of a file that begins with these bytes, or that is these bytes if they are fewer than 4,096.
///
/// Refused with `HiveDamaged` of hive 0 and a cause. `Truncated` if there is no first sector or the block's bytes are
/// cut off. `BadBase` if the signature isn't `regf`, clean or not, since that is no hive. `NotClean` if the sum is
/// wrong or the two numbers differ. Otherwise refused as [`BaseBlock::judge_primary`] refuses it.
pub(crate) fn judged(head: &[u8]) -> Result<BaseBlock, Refusal>
    ensures { (file : List ℕ) → IsFilePrefix head.now file → MatchResult result
        (λ block. FileHasBlock file block × (4096 ≤ length head.now)) (FileLacksBins file) }
{
    let Some(block) = BaseBlock::read_first(head) else {
        return Err(Refusal::from(Cause::Truncated));
    };
    if block.signature != Signature::REGF {
        return Err(Refusal::from(Cause::BadBase));
    }
    if !block.is_clean() {
        return Err(Refusal::from(Cause::NotClean));
    }
    match block.judge_primary() {
        Ok(()) => {}
        Err(why) => return Err(why),
    }
    if head.len() < HEAD_BYTES {
        return Err(Refusal::from(Cause::Truncated));
    }
    Ok(block)
}
