//! Numbers in the data of cells, the lowest byte first.
ghost use Rattle.std.specs.Prelude.{◌≡◌, ◌+◌, ◌≤◌, ◌<◌, length};
ghost use Rattle.hive_cells.specs.Tiles.{u32_at};
ghost use Rattle.hive_records.specs.Numbers.{u16_at, u64_at, begins_with};
ghost use Rattle.hive_records.specs.Names.{has_flag};

use byteorder::{ByteOrder, LittleEndian};

/// The number of the two bytes that begin at an offset.
#[tactic(auto, unfolding(crate::specs::Numbers::u16_at))]
pub(crate) fn u16_at(bytes: &[u8], at: usize) -> u16
    requires { at + 2 ≤ length bytes.now }
    ensures { result ≡ u16_at bytes.now at }
{
    LittleEndian::read_u16(&bytes[at..at + 2])
}

/// The number of the four bytes that begin at an offset.
#[tactic(auto, unfolding(hive_cells::specs::Tiles::u32_at))]
pub fn u32_at(bytes: &[u8], at: usize) -> u32
    requires { at + 4 ≤ length bytes.now }
    ensures { result ≡ u32_at bytes.now at }
{
    LittleEndian::read_u32(&bytes[at..at + 4])
}

/// The number of the eight bytes that begin at an offset.
#[tactic(auto, unfolding(crate::specs::Numbers::u64_at, hive_cells::specs::Tiles::u32_at))]
pub(crate) fn u64_at(bytes: &[u8], at: usize) -> u64
    requires { at + 8 ≤ length bytes.now }
    ensures { result ≡ u64_at bytes.now at }
{
    LittleEndian::read_u64(&bytes[at..at + 8])
}

/// Whether data begin with two letters and have a length at least.
pub(crate) fn begins_with(bytes: &[u8], letters: u16, least: usize) -> bool
    requires { 2 ≤ least }
    ensures { result ≡ begins_with bytes.now letters least }
{
    least <= bytes.len() && u16_at(bytes, 0) == letters
}

/// Whether a bit of flags is set, by the bit's weight.
pub(crate) fn has_flag(flags: u16, weight: u16) -> bool
    requires { 0 < weight }
    ensures { result ≡ has_flag weight flags }
{
    flags / weight % 2 == 1
}
