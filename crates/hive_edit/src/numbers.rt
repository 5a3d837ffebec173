//! Numbers as they are in records, the lowest byte first.
ghost use Rattle.std.specs.Prelude.{◌≡◌, length};
ghost use Rattle.hive_cells.specs.Tiles.{u32_at};
ghost use Rattle.hive_records.specs.Numbers.{u16_at, u64_at};

/// A number in four bytes.
#[tactic(auto, unfolding(hive_cells::specs::Tiles::u32_at))]
pub(crate) fn u32_bytes(number: u32) -> [u8; 4]
    ensures is { u32_at result 0 ≡ number }
    ensures len { length result ≡ 4 }
{
    number.to_le_bytes()
}

/// A number in eight bytes.
#[tactic(auto, unfolding(hive_records::specs::Numbers::u64_at, hive_cells::specs::Tiles::u32_at))]
pub(crate) fn u64_bytes(number: u64) -> [u8; 8]
    ensures is { u64_at result 0 ≡ number }
    ensures len { length result ≡ 8 }
{
    number.to_le_bytes()
}

/// A number in two bytes.
#[tactic(auto, unfolding(hive_records::specs::Numbers::u16_at))]
pub(crate) fn u16_bytes(number: u16) -> [u8; 2]
    ensures is { u16_at result 0 ≡ number }
    ensures len { length result ≡ 2 }
{
    number.to_le_bytes()
}
