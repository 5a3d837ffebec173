//! The calls of the device on a hive's two files.
ghost use Rattle.std.specs.Prelude.{◌≡◌, ◌≤◌, length, OnOk, OnErr};
ghost use Rattle.disk_model.specs.Call.{OneCall, CountsFailure};
ghost use Rattle.disk_model.specs.FileState.{Writes, MayWrite, Syncs};
ghost use Rattle.disk_model.specs.StoreFiles.{IsFileOfHive};
ghost use Rattle.hive_files.specs.Chunks.{KeepsWritesShort};
ghost use Rattle.hive_writer.specs.HiveFileKinds.{number_of, other_file};

use disk_model::{Disk, Failed};
use hive_files::{log_number, primary_number};

/// One of a hive's two files.
#[derive(Clone, Copy)]
pub(crate) enum HiveFileKind {
    /// The primary file.
    Primary,
    /// Its log.
    Log,
}

// the number of one of a hive's files in its store
fn number(hive: u8, file: HiveFileKind) -> u32
    ensures { result ≡ number_of file hive }
{
    match file {
        HiveFileKind::Primary => primary_number(hive),
        HiveFileKind::Log => log_number(hive),
    }
}

/// Writes into one of a hive's files, at most 65,536 bytes.
pub(crate) fn write_file<D: Disk>(
    disk: &mut D,
    hive: u8,
    file: HiveFileKind,
    offset: u64,
    bytes: &[u8],
) -> Result<(), Failed>
    requires few { length bytes.now ≤ 65536 }
    ensures done { OnOk result (D.faithful disk.new → Writes offset bytes.now
        (D.state_at disk.old (D.clock disk.old) (number_of file hive))
        (D.state_at disk.new (D.clock disk.new) (number_of file hive))) }
    ensures failed { OnErr result (D.faithful disk.new → MayWrite offset bytes.now
        (D.state_at disk.old (D.clock disk.old) (number_of file hive))
        (D.state_at disk.new (D.clock disk.new) (number_of file hive))) }
    ensures other { D.state_at disk.new (D.clock disk.new) (number_of (other_file file) hive)
        ≡ D.state_at disk.old (D.clock disk.old) (number_of (other_file file) hive) }
    ensures call { OneCall (IsFileOfHive hive) (D.state_at disk.old) (D.state_at disk.new)
        (D.clock disk.old) (D.clock disk.new) }
    ensures chunks { D.faithful disk.new → KeepsWritesShort (D.state_at disk.old) (D.state_at disk.new)
        (D.clock disk.old) (D.clock disk.new) }
    ensures failures { CountsFailure result (D.failures disk.old) (D.failures disk.new) }
    ensures faithful { D.faithful disk.new → D.faithful disk.old }
{
    disk.write_at(number(hive, file), offset, bytes)
}

/// Syncs one of a hive's files.
pub(crate) fn sync_file<D: Disk>(disk: &mut D, hive: u8, file: HiveFileKind) -> Result<(), Failed>
    ensures done { OnOk result (D.faithful disk.new → Syncs
        (D.state_at disk.old (D.clock disk.old) (number_of file hive))
        (D.state_at disk.new (D.clock disk.new) (number_of file hive))) }
    ensures failed { OnErr result (D.faithful disk.new →
        D.state_at disk.new (D.clock disk.new) (number_of file hive)
        ≡ D.state_at disk.old (D.clock disk.old) (number_of file hive)) }
    ensures other { D.state_at disk.new (D.clock disk.new) (number_of (other_file file) hive)
        ≡ D.state_at disk.old (D.clock disk.old) (number_of (other_file file) hive) }
    ensures call { OneCall (IsFileOfHive hive) (D.state_at disk.old) (D.state_at disk.new)
        (D.clock disk.old) (D.clock disk.new) }
    ensures chunks { D.faithful disk.new → KeepsWritesShort (D.state_at disk.old) (D.state_at disk.new)
        (D.clock disk.old) (D.clock disk.new) }
    ensures failures { CountsFailure result (D.failures disk.old) (D.failures disk.new) }
    ensures faithful { D.faithful disk.new → D.faithful disk.old }
{
    disk.sync(number(hive, file))
}
