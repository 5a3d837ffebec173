//! The device's calls on files that are read whole.
ghost use Rattle.std.specs.Prelude.{◌≡◌, ◌⊎◌, ◌+◌, ◌<◌, ◌≤◌, ◌^◌, ℕ, length, take, drop, IfOk, IfErr, OnOk};
ghost use Rattle.disk_model.specs.StoreFiles.{primary_file, log_file};
ghost use Rattle.disk_model.specs.ReadOnly.{OnlyReads};
ghost use Rattle.hive_files.specs.Frames.{RefusalHasCause, no_cause};
ghost use Rattle.hive_files.specs.Chunks.{calls_of_part, reads_of};

use dirt_log::CHUNK_BYTES;
use disk_model::{Disk, Failed};
use refusals::Refusal;
use std::alloc::Global;

/// Where the hive bins data begin in a primary file.
pub const BINS_AT: u64 = 4_096;

/// The bytes of a first sector.
pub(crate) const SECTOR_BYTES: u64 = 512;

/// The number of a hive's primary file in its store.
pub fn primary_number(hive: u8) -> u32
    ensures { result ≡ primary_file hive }
{
    1 + 2 * u32::from(hive)
}

/// The number of a hive's log in its store.
pub fn log_number(hive: u8) -> u32
    ensures { result ≡ log_file hive }
{
    2 + 2 * u32::from(hive)
}

/// The bytes of a file from an offset on: as many as there are, up to `most`. They are read in chunks of 65,536 bytes,
/// one a call.
pub(crate) fn read_part<D: Disk>(
    alloc: Global,
    disk: &mut D,
    file: u32,
    offset: u64,
    most: u64,
) -> Result<Vec<u8>, Refusal>
    ensures bytes { IfOk result (λ bytes. D.faithful disk.new → bytes.items
        ≡ take most (drop offset (D.state_at disk.old (D.clock disk.old) file).seen)) }
    ensures few { IfOk result (λ bytes. length bytes.items ≤ most) }
    ensures calls { IfOk result (λ bytes. D.clock disk.new
        ≡ D.clock disk.old + calls_of_part (length bytes.items)) }
    ensures fails { IfErr result (RefusalHasCause (D.failures disk.old < D.failures disk.new) no_cause) }
    ensures reads { OnlyReads (D.state_at disk.old) (D.state_at disk.new) (D.clock disk.old)
        (D.clock disk.new) }
    ensures failures { D.failures disk.old ≤ D.failures disk.new }
    ensures faithful { D.faithful disk.new → D.faithful disk.old }
{
    let len = disk.len(file)?;
    let count = len.saturating_sub(offset).min(most) as usize;
    let mut bytes = vec![in alloc; 0u8; count]?;
    if count > 0 {
        fill(disk, file, offset, &mut bytes)?;
    }
    Ok(bytes)
}

// reads as many bytes as the buffer has, which are in the file
fn fill<D: Disk>(disk: &mut D, file: u32, offset: u64, bytes: &mut [u8]) -> Result<(), Failed>
    requires near { offset + length bytes.old < 2 ^ 64 }
    ensures size { length bytes.new ≡ length bytes.old }
    ensures bytes { OnOk result (D.faithful disk.new → offset + length bytes.old
        ≤ length (D.state_at disk.old (D.clock disk.old) file).seen → bytes.new
        ≡ take (length bytes.old) (drop offset (D.state_at disk.old (D.clock disk.old) file).seen)) }
    ensures calls { OnOk result (D.clock disk.new
        ≡ D.clock disk.old + reads_of (length bytes.old)) }
    ensures fails { IfErr result (λ _. D.failures disk.old < D.failures disk.new) }
    ensures reads { OnlyReads (D.state_at disk.old) (D.state_at disk.new) (D.clock disk.old)
        (D.clock disk.new) }
    ensures failures { D.failures disk.old ≤ D.failures disk.new }
    ensures faithful { D.faithful disk.new → D.faithful disk.old }
{
    let mut at = 0;
    'chunks: while at < bytes.len() {
        let end = at + (bytes.len() - at).min(CHUNK_BYTES);
        read_chunk(disk, file, offset + at as u64, &mut bytes[at..end])?;
        at = end;
    }
    Ok(())
}

// reads as many bytes as the buffer has, in one call
fn read_chunk<D: Disk>(disk: &mut D, file: u32, offset: u64, chunk: &mut [u8]) -> Result<(), Failed>
    ensures size { length chunk.new ≡ length chunk.old }
    ensures bytes { OnOk result (D.faithful disk.new → offset + length chunk.old
        ≤ length (D.state_at disk.old (D.clock disk.old) file).seen → chunk.new
        ≡ take (length chunk.old) (drop offset (D.state_at disk.old (D.clock disk.old) file).seen)) }
    ensures call { D.clock disk.new ≡ D.clock disk.old + 1 }
    ensures fails { IfErr result (λ _. D.failures disk.old < D.failures disk.new) }
    ensures reads { OnlyReads (D.state_at disk.old) (D.state_at disk.new) (D.clock disk.old)
        (D.clock disk.new) }
    ensures failures { D.failures disk.old ≤ D.failures disk.new }
    ensures faithful { D.faithful disk.new → D.faithful disk.old }
{
    disk.read(file, offset, chunk)?;
    Ok(())
}
