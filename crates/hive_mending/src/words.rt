//! Numbers of 32 bits in hive bins data, and where a bin or a cell ends.
ghost use Rattle.std.specs.Prelude.{◌≡◌, ◌+◌, ◌-◌, ◌≤◌, ◌<◌, ◌^◌, ◌⊎◌, false, ℕ, length, slice_index, MatchOption};
ghost use Rattle.hive_cells.specs.Tiles.{u32_at, IsBin, bin_size, IsCell, cell_size, is_allocated};

use byteorder::{ByteOrder, LittleEndian};

/// The bytes of a page: bins are whole pages.
pub(crate) const PAGE_BYTES: usize = 4096;

/// The bytes of a bin's header.
pub(crate) const BIN_HEADER_BYTES: usize = 32;

/// The bytes that sizes and offsets of cells are multiples of.
pub(crate) const CELL_STEP: usize = 8;

/// `hbin`, as the number of these four bytes.
pub(crate) const BIN_SIGNATURE: u32 = 0x6e69_6268;

const _: () = prove!(PAGE_BYTES == 4096);

const _: () = prove!(BIN_HEADER_BYTES == 32);

const _: () = prove!(CELL_STEP == 8);

const _: () = prove!(BIN_SIGNATURE == 0x6e69_6268);

// the lowest stored size that is below 0 as a signed number
const LOWEST_ALLOCATED: u32 = 0x8000_0000;

// the number of the four bytes that begin at an offset
#[tactic(auto, unfolding(hive_cells::specs::Tiles::u32_at))]
fn u32_at(bytes: &[u8], at: usize) -> u32
    requires { at + 4 ≤ length bytes.now }
    ensures word { result ≡ u32_at bytes.now at }
    ensures fits { u32_at bytes.now at < 2 ^ 32 }
{
    LittleEndian::read_u32(&bytes[at..at + 4])
}

/// Writes the number of the four bytes that begin at an offset.
#[tactic(auto, unfolding(hive_cells::specs::Tiles::u32_at))]
pub(crate) fn put_u32(bytes: &mut [u8], at: usize, word: u32)
    requires { at + 4 ≤ length bytes.old }
    ensures put { u32_at bytes.new at ≡ word }
    ensures others { (i : ℕ) → ((i < at) ⊎ (at + 4 ≤ i)) →
        slice_index bytes.new i ≡ slice_index bytes.old i }
{
    LittleEndian::write_u32(&mut bytes[at..at + 4], word);
}

/// Writes the size of a free cell at an offset.
#[tactic(auto, unfolding(hive_cells::specs::Tiles::cell_size, hive_cells::specs::Tiles::is_allocated))]
pub(crate) fn put_free(bytes: &mut [u8], at: usize, size: usize)
    requires within { at + 4 ≤ length bytes.old }
    requires fits { size < 2 ^ 31 }
    ensures size { cell_size bytes.new at ≡ size }
    ensures free { is_allocated bytes.new at ≡ false }
    ensures others { (i : ℕ) → ((i < at) ⊎ (at + 4 ≤ i)) →
        slice_index bytes.new i ≡ slice_index bytes.old i }
{
    put_u32(bytes, at, size as u32);
}

// the size of the cell at an offset: the amount of its stored size
#[tactic(auto, unfolding(hive_cells::specs::Tiles::cell_size, hive_cells::specs::Tiles::is_allocated))]
fn cell_size(bytes: &[u8], at: usize) -> usize
    requires { at + 4 ≤ length bytes.now }
    ensures size { result ≡ cell_size bytes.now at }
    ensures fits { result < 2 ^ 32 }
{
    let stored = u32_at(bytes, at);
    if LOWEST_ALLOCATED <= stored {
        (u32::MAX - stored) as usize + 1
    } else {
        stored as usize
    }
}

/// Where the bin at an offset ends, if one stands there.
pub(crate) fn bin_end(bytes: &[u8], at: usize) -> Option<usize>
    requires { at + 32 ≤ length bytes.now }
    ensures { MatchOption result (¬ IsBin bytes.now at)
        (λ end. IsBin bytes.now at × (end ≡ at + bin_size bytes.now at)) }
{
    let size = u32_at(bytes, at + 8) as usize;
    if u32_at(bytes, at) == BIN_SIGNATURE
        && u32_at(bytes, at + 4) as usize == at
        && size % PAGE_BYTES == 0
        && size != 0
        && size <= bytes.len() - at
    {
        Some(at + size)
    } else {
        None
    }
}

/// Where the cell at an offset ends, in a bin that has this end, if one stands there.
pub(crate) fn cell_end(bytes: &[u8], at: usize, end: usize) -> Option<usize>
    requires here { at + 4 ≤ length bytes.now }
    requires before { at ≤ end }
    ensures { MatchOption result (¬ IsCell bytes.now end at)
        (λ behind. IsCell bytes.now end at × (behind ≡ at + cell_size bytes.now at)) }
{
    let size = cell_size(bytes, at);
    if size % CELL_STEP == 0 && size >= CELL_STEP && size <= end - at {
        Some(at + size)
    } else {
        None
    }
}
