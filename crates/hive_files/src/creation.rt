//! A hive's two files, made anew.
ghost use Rattle.std.specs.Prelude.{◌≡◌, ◌+◌, ◌<◌, ◌^◌, ◌++◌, [], length, true, OnOk};
ghost use Rattle.base_block.specs.Layout.{block_at, sector_of, zeros};
ghost use Rattle.disk_model.specs.Call.{CountsFailure};
ghost use Rattle.disk_model.specs.FileState.{at_rest};
ghost use Rattle.disk_model.specs.StoreFiles.{IsFileOfHive, primary_file, log_file};
ghost use Rattle.hive_files.specs.Frames.{TouchesOwnFiles};
ghost use Rattle.hive_files.specs.FreshFiles.{FilesAreMade, primary_bytes};
ghost use Rattle.hive_files.specs.Chunks.{KeepsWritesShort};

use crate::files::{BINS_AT, log_number, primary_number};
use base_block::BaseBlock;
use dirt_log::CHUNK_BYTES;
use disk_model::{Disk, Failed};

/// Makes a hive's two files anew, whatever was in them: an empty log, and a primary file with this base block and these
/// bins data. Both are synced. A write takes at most 65,536 bytes.
///
/// Takes no memory. Failed if the device failed in a call, which was the last one. Then nothing is said of the two
/// files.
pub fn make<D: Disk>(disk: &mut D, hive: u8, block: &BaseBlock, bins: &[u8]) -> Result<(), Failed>
    ensures made { OnOk result (D.faithful disk.new → FilesAreMade block.now bins.now
        (D.state_at disk.new (D.clock disk.new) (primary_file hive))
        (D.state_at disk.new (D.clock disk.new) (log_file hive))) }
    ensures stays { TouchesOwnFiles (IsFileOfHive hive) (D.state_at disk.old) (D.state_at disk.new)
        (D.clock disk.old) (D.clock disk.new) }
    ensures chunks { D.faithful disk.new → KeepsWritesShort (D.state_at disk.old) (D.state_at disk.new)
        (D.clock disk.old) (D.clock disk.new) }
    ensures failures { CountsFailure result (D.failures disk.old) (D.failures disk.new) }
    ensures faithful { D.faithful disk.new → D.faithful disk.old }
{
    empty(disk, log_number(hive))?;
    write_anew(disk, primary_number(hive), block, bins)
}

// makes a file empty
fn empty<D: Disk>(disk: &mut D, file: u32) -> Result<(), Failed>
    ensures made { OnOk result (D.faithful disk.new →
        D.state_at disk.new (D.clock disk.new) file ≡ at_rest []) }
    ensures stays { TouchesOwnFiles (λ f. f ≡ file) (D.state_at disk.old) (D.state_at disk.new)
        (D.clock disk.old) (D.clock disk.new) }
    ensures chunks { D.faithful disk.new → KeepsWritesShort (D.state_at disk.old) (D.state_at disk.new)
        (D.clock disk.old) (D.clock disk.new) }
    ensures failures { CountsFailure result (D.failures disk.old) (D.failures disk.new) }
    ensures faithful { D.faithful disk.new → D.faithful disk.old }
{
    disk.cut(file, 0)?;
    disk.sync(file)
}

// makes a primary file of a base block and bins data
fn write_anew<D: Disk>(
    disk: &mut D,
    file: u32,
    block: &BaseBlock,
    bins: &[u8],
) -> Result<(), Failed>
    ensures made { OnOk result (D.faithful disk.new →
        D.state_at disk.new (D.clock disk.new) file ≡ at_rest (primary_bytes block.now bins.now)) }
    ensures stays { TouchesOwnFiles (λ f. f ≡ file) (D.state_at disk.old) (D.state_at disk.new)
        (D.clock disk.old) (D.clock disk.new) }
    ensures chunks { D.faithful disk.new → KeepsWritesShort (D.state_at disk.old) (D.state_at disk.new)
        (D.clock disk.old) (D.clock disk.new) }
    ensures failures { CountsFailure result (D.failures disk.old) (D.failures disk.new) }
    ensures faithful { D.faithful disk.new → D.faithful disk.old }
{
    write_base(disk, file, &sector(block))?;
    append(disk, file, BINS_AT, bins)?;
    disk.sync(file)
}

// makes a file of a first sector alone, with zeros up to where the bins data begin
fn write_base<D: Disk>(disk: &mut D, file: u32, sector: &[u8]) -> Result<(), Failed>
    requires long { length sector.now ≡ 512 }
    ensures seen { OnOk result (D.faithful disk.new →
        (D.state_at disk.new (D.clock disk.new) file).seen ≡ sector.now ++ zeros 3584) }
    ensures stays { TouchesOwnFiles (λ f. f ≡ file) (D.state_at disk.old) (D.state_at disk.new)
        (D.clock disk.old) (D.clock disk.new) }
    ensures chunks { D.faithful disk.new → KeepsWritesShort (D.state_at disk.old) (D.state_at disk.new)
        (D.clock disk.old) (D.clock disk.new) }
    ensures failures { CountsFailure result (D.failures disk.old) (D.failures disk.new) }
    ensures faithful { D.faithful disk.new → D.faithful disk.old }
{
    disk.cut(file, 0)?;
    disk.write_at(file, 0, sector)?;
    disk.cut(file, BINS_AT)
}

/// The first sector of a base block.
pub fn sector(block: &BaseBlock) -> [u8; 512]
    ensures encoding { result ≡ sector_of block.now }
    ensures again { block_at result ≡ record block.now { sum_is_right = true } }
    ensures long { length result ≡ 512 }
{
    block.write()
}

// writes bytes after the end of a file of this length, in chunks
fn append<D: Disk>(disk: &mut D, file: u32, from: u64, bytes: &[u8]) -> Result<(), Failed>
    requires near { from + length bytes.now < 2 ^ 64 }
    ensures seen { OnOk result (D.faithful disk.new →
        length (D.state_at disk.old (D.clock disk.old) file).seen ≡ from →
        (D.state_at disk.new (D.clock disk.new) file).seen
        ≡ (D.state_at disk.old (D.clock disk.old) file).seen ++ bytes.now) }
    ensures stays { TouchesOwnFiles (λ f. f ≡ file) (D.state_at disk.old) (D.state_at disk.new)
        (D.clock disk.old) (D.clock disk.new) }
    ensures chunks { D.faithful disk.new → KeepsWritesShort (D.state_at disk.old) (D.state_at disk.new)
        (D.clock disk.old) (D.clock disk.new) }
    ensures failures { CountsFailure result (D.failures disk.old) (D.failures disk.new) }
    ensures faithful { D.faithful disk.new → D.faithful disk.old }
{
    let mut at = 0;
    'chunks: while at < bytes.len() {
        let end = at + (bytes.len() - at).min(CHUNK_BYTES);
        disk.write_at(file, from + at as u64, &bytes[at..end])?;
        at = end;
    }
    Ok(())
}
