//! The one walk over hive bins data that finds where bins and cells begin.
ghost use Rattle.std.specs.Prelude.{◌≡◌, ◌+◌, ◌≤◌, ◌<◌, ◌*◌, ◌/◌, ◌%◌, ◌^◌, length, MatchResult, IfOk};
ghost use Rattle.refusals.specs.declared.limits.TheConstants.{MOST_BINS_BYTES};
ghost use Rattle.hive_cells.specs.Tiles.{IsBin, IsCell, DataRefused, IsFaultOf, bin_size, cell_size, is_allocated};
ghost use Rattle.hive_cells.specs.Starts.{IsIndexed, WalkIsBetweenBins, WalkIsInBin};

use crate::free_bounds::FreeBounds;
use crate::starts::set_start_bit;
use crate::words::u32_at;
use refusals::{Cause, Refusal};
use std::alloc::Global;

/// The bytes of a page: bins are whole pages.
pub(crate) const PAGE_BYTES: usize = 4096;

/// The bytes of a bin's header.
pub(crate) const BIN_HEADER_BYTES: usize = 32;

/// The bytes that sizes and offsets of cells are multiples of: there is one bit for each.
pub(crate) const MARKED_BYTES: usize = 8;

/// The bytes that have their bits in one word of 64.
pub(crate) const WORD_BYTES: usize = 512;

/// `hbin`, as the number of these four bytes.
pub(crate) const BIN_SIGNATURE: u32 = 0x6e69_6268;

const _: () = prove!(PAGE_BYTES == 4096);

const _: () = prove!(BIN_HEADER_BYTES == 32);

const _: () = prove!(MARKED_BYTES == 8);

const _: () = prove!(WORD_BYTES == 64 * MARKED_BYTES);

const _: () = prove!(BIN_SIGNATURE == 0x6e69_6268);

// the lowest stored size that is below 0 as a signed number
const LOWEST_ALLOCATED: u32 = 0x8000_0000;

// whether the cell at an offset is allocated
#[tactic(auto, unfolding(crate::specs::Tiles::is_allocated))]
pub(crate) fn is_allocated(bytes: &[u8], at: usize) -> bool
    requires { at + 4 ≤ length bytes.now }
    ensures { result ≡ is_allocated bytes.now at }
{
    LOWEST_ALLOCATED <= u32_at(bytes, at)
}

// the size of the cell at an offset: the amount of its stored size
#[tactic(auto, unfolding(crate::specs::Tiles::cell_size, crate::specs::Tiles::is_allocated))]
pub(crate) fn cell_size(bytes: &[u8], at: usize) -> usize
    requires { at + 4 ≤ length bytes.now }
    ensures size { result ≡ cell_size bytes.now at }
    ensures fits { result < 2 ^ 32 }
{
    let stored = u32_at(bytes, at);
    if LOWEST_ALLOCATED <= stored {
        (u32::MAX - stored) as usize + 1
    } else {
        stored as usize
    }
}

// where the bin at an offset ends
fn bin_end(bytes: &[u8], at: usize) -> Result<usize, Refusal>
    requires { at + 32 ≤ length bytes.now }
    ensures { MatchResult result (λ end. IsBin bytes.now at × (end ≡ at + bin_size bytes.now at))
        (λ refusal. (refusal ≡ Refusal.HiveDamaged 0 Cause.BadBin) × (¬ IsBin bytes.now at)) }
{
    let size = u32_at(bytes, at + 8) as usize;
    if u32_at(bytes, at) == BIN_SIGNATURE
        && u32_at(bytes, at + 4) as usize == at
        && size % PAGE_BYTES == 0
        && size != 0
        && size <= bytes.len() - at
    {
        Ok(at + size)
    } else {
        Err(Refusal::from(Cause::BadBin))
    }
}

// where the cell at an offset ends, in a bin that has this end
fn cell_end(bytes: &[u8], at: usize, end: usize) -> Result<usize, Refusal>
    requires here { at + 4 ≤ length bytes.now }
    requires before { at ≤ end }
    ensures { MatchResult result (λ behind. IsCell bytes.now end at
        × (behind ≡ at + cell_size bytes.now at))
        (λ refusal. (refusal ≡ Refusal.HiveDamaged 0 Cause.BadCell) × (¬ IsCell bytes.now end at)) }
{
    let size = cell_size(bytes, at);
    if size % MARKED_BYTES == 0 && size >= MARKED_BYTES && size <= end - at {
        Ok(at + size)
    } else {
        Err(Refusal::from(Cause::BadCell))
    }
}

// indexes the cell at an offset, in the bin that has this end, and gives the cell's end
fn walk_cell(
    bytes: &[u8],
    starts: &mut [u64],
    free: &mut FreeBounds,
    at: usize,
    end: usize,
) -> Result<usize, Refusal>
    requires walk { WalkIsInBin bytes.now starts.old free.old end at }
    requires before { at < end }
    ensures { MatchResult result (λ behind. (at < behind)
        × WalkIsInBin bytes.now starts.new free.new end behind) (IsFaultOf bytes.now) }
{
    let behind = cell_end(bytes, at, end)?;
    set_start_bit(starts, at / MARKED_BYTES, true);
    if !is_allocated(bytes, at) {
        free.note(at, cell_size(bytes, at));
    }
    Ok(behind)
}

// indexes the bin at an offset and its cells, and gives the bin's end
fn walk_bin(
    bytes: &[u8],
    starts: &mut [u64],
    free: &mut FreeBounds,
    at: usize,
) -> Result<usize, Refusal>
    requires walk { WalkIsBetweenBins bytes.now starts.old free.old at }
    requires before { at < length bytes.now }
    ensures { MatchResult result (λ end. (at < end)
        × WalkIsBetweenBins bytes.now starts.new free.new end) (IsFaultOf bytes.now) }
{
    let end = bin_end(bytes, at)?;
    let mut cell = at + BIN_HEADER_BYTES;
    while cell < end {
        cell = walk_cell(bytes, starts, free, cell, end)?;
    }
    Ok(end)
}

/// Finds where the cells of hive bins data begin, and bounds of the free cells, with a bound for each page of the
/// largest data. Refused with `Truncated` if the data are not whole pages. Refused with `BadBin` or `BadCell` if no bin
/// or no cell begins where one must. Refused with `NoMemory`.
pub(crate) fn index_of(alloc: Global, bytes: &[u8]) -> Result<(Vec<u64>, FreeBounds), Refusal>
    ensures { MatchResult result (λ index. IsIndexed bytes.now index.0.items index.1)
        (DataRefused bytes.now) }
{
    let mut starts = vec![in alloc; 0; bytes.len() / WORD_BYTES]?;
    let mut free = FreeBounds::none(alloc, bytes.len() / PAGE_BYTES)?;
    index_again(bytes, &mut starts, &mut free)?;
    Ok((starts, free))
}

/// Clears bits and bounds and fills them with those of other data, of which they have one for each 8 bytes and for each
/// page. Refused as [`index_of`] is, but never for want of memory.
pub(crate) fn index_again(
    bytes: &[u8],
    starts: &mut [u64],
    free: &mut FreeBounds,
) -> Result<(), Refusal>
    requires bits { length starts.old ≡ length bytes.now / 512 }
    requires bounds { length bytes.now / 4096 ≤ length free.old }
    requires most { MOST_BINS_BYTES / 4096 ≤ length free.old }
    ensures { MatchResult result (λ _. IsIndexed bytes.now starts.new free.new)
        (IsFaultOf bytes.now) }
{
    if bytes.len() % PAGE_BYTES != 0 {
        return Err(Refusal::from(Cause::Truncated));
    }
    starts.fill(0);
    free.clear();
    let mut bin = 0;
    while bin < bytes.len() {
        bin = walk_bin(bytes, starts, free, bin)?;
    }
    Ok(())
}
