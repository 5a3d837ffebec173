//! Reading a log.

ghost use Rattle.refusals.specs.declared.limits.TheConstants.{MOST_BINS_BYTES};
ghost use Rattle.std.specs.Prelude.{◌≡◌, ◌≤◌, ◌+◌, ◌*◌, ◌/◌, ◌↔◌, IsTrue, IfOk, IfErr, take, drop, length, codes};
ghost use Rattle.refusals.specs.Answers.{RefusedFor};
ghost use Rattle.base_block.specs.Judgements.{IsLog};
ghost use Rattle.dirty_vector.specs.Pages.{dirty_count};
ghost use Rattle.dirt_log.specs.LogEncoding.{bitmap_end};
ghost use Rattle.dirt_log.specs.WholeLog.{not_whole, LogIsWhole, HasBitmap, HasPages, block_of, pages_in, page_bytes_in};

use crate::pages::{BITMAP_AT, BYTES_PER_BITMAP_BYTE, LETTERS, LETTERS_AT, pages_start};
use base_block::BaseBlock;
use dirty_vector::{DirtyVector, PAGE_BYTES};
use refusals::{Cause, Refusal};
use std::alloc::Global;

/// A log that is whole: its base block, the pages that it marks, and their bytes in rising order.
#[derive(Drop)]
pub struct DirtLog<'a> {
    /// The base block, which is of the type of a log.
    pub base: BaseBlock,
    /// The pages that the log marks.
    pub vector: DirtyVector,
    /// The bytes of the marked pages, in rising order.
    pub pages: &'a [u8],
    pub ghost enough: { 512 * dirty_count vector ≤ length pages.now },
}

/// Reads a log. Refused with `HiveDamaged` of hive 0 and the cause `BadLog` if it isn't whole. Then
/// its block's sum, signature, versions, format, type or bins size is wrong, or its numbers differ.
/// Or the letters `DIRT` aren't there, or bytes are missing. Otherwise refused only for want of
/// memory. What follows the last page is unread.
pub fn read(alloc: Global, bytes: &[u8]) -> Result<DirtLog<'_>, Refusal>
    ensures whole { IfOk result (λ log. LogIsWhole bytes.now) }
    ensures base { IfOk result (λ log. log.base ≡ block_of bytes.now) }
    ensures marked { IfOk result (λ log. log.vector ≡ pages_in bytes.now) }
    ensures pages { IfOk result (λ log. log.pages.now ≡ page_bytes_in bytes.now) }
    ensures refused { IfErr result (RefusedFor not_whole (¬ LogIsWhole bytes.now)) }
{
    let base = read_block(bytes)?;
    let bins_size = base.bins_size as usize;
    let bitmap = read_bitmap(bytes, bins_size)?;
    let vector = DirtyVector::read(alloc, bins_size, bitmap)?;
    let len = PAGE_BYTES * vector.count();
    let pages = read_pages(bytes, pages_start(bins_size), len)?;
    Ok(DirtLog {
        base,
        vector,
        pages,
    })
}

// the block of the first sector, judged as the block of a log
fn read_block(bytes: &[u8]) -> Result<BaseBlock, Refusal>
    ensures ok { IfOk result (λ base. (base ≡ block_of bytes.now) × IsLog base
        × (512 ≤ length bytes.now)) }
    ensures refused { IfErr result (λ e. (e ≡ not_whole)
        × ¬ (IsLog (block_of bytes.now) × (512 ≤ length bytes.now))) }
{
    if bytes.len() < LETTERS_AT {
        return Err(Refusal::from(Cause::BadLog));
    }
    let mut sector = [0; 512];
    sector.copy_from_slice(&bytes[..LETTERS_AT]);
    let base = BaseBlock::read(&sector);
    match base.judge_log() {
        Ok(()) => Ok(base),
        Err(refusal) => Err(refusal),
    }
}

// the bitmap after the letters
fn read_bitmap(bytes: &[u8], bins_size: usize) -> Result<&[u8], Refusal>
    requires { bins_size ≤ MOST_BINS_BYTES }
    ensures ok { IfOk result (λ bitmap. HasBitmap bytes.now bins_size
        × (bitmap.now ≡ take (bins_size / 4096) (drop 516 bytes.now))) }
    ensures refused { IfErr result (λ e. (e ≡ not_whole) × ¬ HasBitmap bytes.now bins_size) }
{
    let end = BITMAP_AT + bins_size / BYTES_PER_BITMAP_BYTE;
    if bytes.len() < end || &bytes[LETTERS_AT..BITMAP_AT] != LETTERS {
        return Err(Refusal::from(Cause::BadLog));
    }
    Ok(&bytes[BITMAP_AT..end])
}

// the bytes of the pages, if there are any
fn read_pages(bytes: &[u8], start: usize, len: usize) -> Result<&[u8], Refusal>
    ensures ok { IfOk result (λ pages. HasPages bytes.now start len
        × (pages.now ≡ take len (drop start bytes.now))) }
    ensures refused { IfErr result (λ e. (e ≡ not_whole) × ¬ HasPages bytes.now start len) }
{
    if len == 0 {
        return Ok(&[]);
    }
    if bytes.len() < start || bytes.len() - start < len {
        return Err(Refusal::from(Cause::BadLog));
    }
    Ok(&bytes[start..start + len])
}
