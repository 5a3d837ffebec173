//! The cells of hive bins data, counted in one pass over the bins.
ghost use Rattle.std.specs.Prelude.{◌≡◌, ◌+◌, ◌≤◌, ◌<◌, ◌^◌, ◌∷◌, [], List, ℕ, length, not, MatchResult};
ghost use Rattle.hive_cells.specs.Tiles.{BinStart, CellStart, IsBin, IsCell, bin_size, cell_size, is_allocated};
ghost use Rattle.hive_check.specs.CellCounts.{AddsCells, CellsAreCounted, CellsFrom, CountsFit, IsTileFault};

use hive_records::u32_at;

/// The bytes before the bins data in a file.
pub const BINS_AT: usize = 4_096;

/// The bytes of a page: bins are whole pages.
const PAGE_BYTES: usize = 4_096;

/// The bytes of a bin's header.
const BIN_HEADER_BYTES: usize = 32;

/// The bytes that sizes of cells are multiples of.
const CELL_UNIT_BYTES: usize = 8;

/// `hbin`, as the number of these four bytes.
const BIN_SIGNATURE: u32 = 0x6e69_6268;

/// The lowest stored size that is below 0 as a signed number: an allocated cell's.
const LOWEST_ALLOCATED: u32 = 0x8000_0000;

const _: () = prove!(BINS_AT == 4096);

const _: () = prove!(PAGE_BYTES == 4096);

const _: () = prove!(BIN_HEADER_BYTES == 32);

const _: () = prove!(CELL_UNIT_BYTES == 8);

const _: () = prove!(BIN_SIGNATURE == 0x6e69_6268);

/// How many cells hive bins data have.
#[derive(Clone, Copy)]
pub struct CellCounts {
    /// All cells.
    pub all: usize,
    /// The free ones.
    pub free: usize,
    /// The bytes of the free ones, with the four of each one's size.
    pub free_bytes: usize,
}

/// Where bins and cells don't tile the bins data of a hive's file, as an offset in the file.
#[derive(Clone, Copy)]
pub enum TileFault {
    /// No bin begins where one must.
    Bin {
        /// The offset.
        at: usize,
    },
    /// No cell begins where one must.
    Cell {
        /// The offset.
        at: usize,
    },
}

/// Counts the cells of hive bins data, or says where the first bin or cell is wrong.
pub fn count_cells(bytes: &[u8]) -> Result<CellCounts, TileFault>
    ensures { MatchResult result (CellsAreCounted bytes.now) (IsTileFault bytes.now) }
{
    let mut counts = CellCounts {
        all: 0,
        free: 0,
        free_bytes: 0,
    };
    let mut bin = 0;
    while bin < bytes.len() {
        bin = count_bin(bytes, &mut counts, bin)?;
    }
    Ok(counts)
}

// counts the cells of the bin that must begin at an offset, and gives the bin's end
fn count_bin(bytes: &[u8], counts: &mut CellCounts, bin: usize) -> Result<usize, TileFault>
    requires starts { BinStart bytes.now bin }
    requires before { bin < length bytes.now }
    requires fits { CountsFit counts.old bin }
    ensures { MatchResult result (λ end. (bin < end) × (end ≤ length bytes.now) × CountsFit counts.new end
        × IsBin bytes.now bin × (end ≡ bin + bin_size bytes.now bin)
        × (cells : List ℕ) × CellsFrom bytes.now end (bin + 32) cells
        × AddsCells bytes.now counts.old cells counts.new) (IsTileFault bytes.now) }
{
    let end = bin_end(bytes, bin)?;
    let mut cell = bin + BIN_HEADER_BYTES;
    while cell < end {
        cell = count_cell(bytes, counts, cell, end)?;
    }
    Ok(end)
}

// where the bin at an offset ends
fn bin_end(bytes: &[u8], bin: usize) -> Result<usize, TileFault>
    requires starts { BinStart bytes.now bin }
    requires before { bin < length bytes.now }
    ensures { MatchResult result (λ end. (bin + 32 < end) × (end ≤ length bytes.now)
        × IsBin bytes.now bin × (end ≡ bin + bin_size bytes.now bin)) (IsTileFault bytes.now) }
{
    if bytes.len() - bin < PAGE_BYTES {
        return Err(TileFault::Bin { at: BINS_AT + bin });
    }
    let size = u32_at(bytes, bin + 8) as usize;
    if u32_at(bytes, bin) == BIN_SIGNATURE
        && u32_at(bytes, bin + 4) as usize == bin
        && size % PAGE_BYTES == 0
        && size != 0
        && size <= bytes.len() - bin
    {
        Ok(bin + size)
    } else {
        Err(TileFault::Bin { at: BINS_AT + bin })
    }
}

// counts the cell that must begin at an offset, in the bin that has this end, and gives the cell's end
fn count_cell(
    bytes: &[u8],
    counts: &mut CellCounts,
    cell: usize,
    end: usize,
) -> Result<usize, TileFault>
    requires starts { CellStart bytes.now end cell }
    requires before { cell < end }
    requires within { end ≤ length bytes.now }
    requires fits { CountsFit counts.old cell }
    ensures { MatchResult result (λ behind. (cell < behind) × (behind ≤ end) × CountsFit counts.new behind
        × IsCell bytes.now end cell × (behind ≡ cell + cell_size bytes.now cell)
        × AddsCells bytes.now counts.old (cell ∷ []) counts.new) (IsTileFault bytes.now) }
{
    let (size, is_free) = size_at(bytes, cell, end)?;
    counts.all += 1;
    if is_free {
        counts.free += 1;
        counts.free_bytes += size;
    }
    Ok(cell + size)
}

// the size of the cell that must begin at an offset, in the bin that has this end, and whether it is free
fn size_at(bytes: &[u8], cell: usize, end: usize) -> Result<(usize, bool), TileFault>
    requires starts { CellStart bytes.now end cell }
    requires before { cell < end }
    requires within { end ≤ length bytes.now }
    ensures { MatchResult result (λ its. IsCell bytes.now end cell × (its.0 ≡ cell_size bytes.now cell)
        × (its.1 ≡ not (is_allocated bytes.now cell))) (IsTileFault bytes.now) }
{
    if end - cell < CELL_UNIT_BYTES {
        return Err(TileFault::Cell { at: BINS_AT + cell });
    }
    let is_free = is_free(bytes, cell);
    let size = stored_size(bytes, cell);
    if size % CELL_UNIT_BYTES == 0 && size >= CELL_UNIT_BYTES && size <= end - cell {
        Ok((size, is_free))
    } else {
        Err(TileFault::Cell { at: BINS_AT + cell })
    }
}

// whether the stored size at an offset is a free cell's
#[tactic(auto, unfolding(hive_cells::specs::Tiles::is_allocated))]
fn is_free(bytes: &[u8], cell: usize) -> bool
    requires { cell + 4 ≤ length bytes.now }
    ensures { result ≡ not (is_allocated bytes.now cell) }
{
    u32_at(bytes, cell) < LOWEST_ALLOCATED
}

// the size of the cell at an offset: the amount of its stored size
#[tactic(auto, unfolding(hive_cells::specs::Tiles::cell_size, hive_cells::specs::Tiles::is_allocated))]
fn stored_size(bytes: &[u8], cell: usize) -> usize
    requires { cell + 4 ≤ length bytes.now }
    ensures size { result ≡ cell_size bytes.now cell }
    ensures fits { result < 2 ^ 33 }
{
    let stored = u32_at(bytes, cell);
    if LOWEST_ALLOCATED <= stored {
        (u32::MAX - stored) as usize + 1
    } else {
        stored as usize
    }
}
