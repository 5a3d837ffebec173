//! Numbers of 32 bits in hive bins data, the lowest byte first.
ghost use Rattle.std.specs.Prelude.{◌≡◌, ◌+◌, ◌≤◌, ◌<◌, ◌^◌, ◌⊎◌, ℕ, length, slice_index};
ghost use Rattle.hive_cells.specs.Tiles.{u32_at};
ghost use Rattle.hive_cells.specs.Changes.{PutsSize};

use byteorder::{ByteOrder, LittleEndian};

/// The number of the four bytes that begin at an offset.
#[tactic(auto, unfolding(crate::specs::Tiles::u32_at))]
pub(crate) fn u32_at(bytes: &[u8], at: usize) -> u32
    requires { at + 4 ≤ length bytes.now }
    ensures word { result ≡ u32_at bytes.now at }
    ensures fits { u32_at bytes.now at < 2 ^ 32 }
{
    LittleEndian::read_u32(&bytes[at..at + 4])
}

/// Writes the number of the four bytes that begin at an offset.
#[tactic(auto, unfolding(crate::specs::Tiles::u32_at))]
pub(crate) fn put_u32(bytes: &mut [u8], at: usize, word: u32)
    requires { at + 4 ≤ length bytes.old }
    ensures put { u32_at bytes.new at ≡ word }
    ensures others { (i : ℕ) → ((i < at) ⊎ (at + 4 ≤ i)) →
        slice_index bytes.new i ≡ slice_index bytes.old i }
{
    LittleEndian::write_u32(&mut bytes[at..at + 4], word);
}

/// Writes the size of the cell at an offset, stored below 0 if the cell is allocated.
#[tactic(auto, unfolding(crate::specs::Tiles::cell_size, crate::specs::Tiles::is_allocated))]
pub(crate) fn put_size(bytes: &mut [u8], at: usize, size: usize, allocated: bool)
    requires within { at + 4 ≤ length bytes.old }
    requires some { 0 < size }
    requires fits { size < 2 ^ 31 }
    ensures { PutsSize bytes.old bytes.new at size allocated }
{
    let amount = size as u32;
    let stored = if allocated {
        u32::MAX - amount + 1
    } else {
        amount
    };
    put_u32(bytes, at, stored);
}
