//! The first sector of a recovered hive.
ghost use Rattle.std.specs.Prelude.{◌≡◌, ◌≤◌, ◌<◌, ◌^◌, true, take};
ghost use Rattle.base_block.specs.Layout.{block_at, is_clean_block, put_at};
ghost use Rattle.byteorder.specs.Endian.{little_bytes};
ghost use Rattle.hive_recovery.specs.Sectors.{recovered_sector, recovered_body};

use base_block::{SequenceNumber, sum};
use byteorder::{ByteOrder, LittleEndian};

#[tactic(auto, unfolding(crate::specs::Sectors::recovered_sector))]
/// A sector as the first of a recovered hive: clean, of the type of a primary file, with a number and a size of bins data.
/// All else stays.
pub fn recovered(sector: &[u8; 512], number: SequenceNumber, bins_size: u32) -> [u8; 512]
    ensures made { result ≡ recovered_sector sector.now number.0 bins_size }
    ensures clean { is_clean_block (block_at result) ≡ true }
    ensures numbered { (block_at result).primary.0 ≡ number.0 }
{
    let mut made = *sector;
    put_fields(&mut made, number, bins_size);
    let its_sum = sum(&summed(&made));
    put_u32(&mut made, 508, its_sum);
    made
}

// the bytes that are summed
fn summed(made: &[u8; 512]) -> [u8; 508]
    ensures { result ≡ take 508 made.now }
{
    let mut bytes = [0; 508];
    bytes.copy_from_slice(&made[..508]);
    bytes
}

#[tactic(auto, unfolding(crate::specs::Sectors::recovered_body))]
// puts the fields that change, but for the sum
fn put_fields(made: &mut [u8; 512], number: SequenceNumber, bins_size: u32)
    ensures put { made.new ≡ recovered_body made.old number.0 bins_size }
    ensures fits { number.0 < 2 ^ 32 }
{
    put_u32(made, 4, number.0);
    put_u32(made, 8, number.0);
    put_u32(made, 28, 0);
    put_u32(made, 40, bins_size);
}

#[tactic(auto, unfolding(base_block::specs::Layout::put_at))]
// writes a number of 32 bits at an offset
fn put_u32(made: &mut [u8; 512], offset: usize, number: u32)
    requires { offset ≤ 508 }
    ensures put { made.new ≡ put_at offset (little_bytes 4 number) made.old }
    ensures fits { number < 2 ^ 32 }
{
    LittleEndian::write_u32(&mut made[offset..offset + 4], number);
}
