//! A log of bytes on one file of a disk, beside a second file that it leaves alone: an example of what the disk's
//! contract proves.
//!
//! Each entry is a gate and a byte. An entry counts if its gate is open and so are those before it. A closed gate comes
//! after the last entry, on the disk before anything is written after it.
ghost use Rattle.std.specs.Prelude.{◌≡◌, ℕ, ◌+◌, ◌*◌, ◌^◌, ◌<◌, ◌≤◌, List, [], ◌∷◌, ◌++◌, OnOk, OnErr};
ghost use Rattle.disk_model.specs.Crash.{LeavesOnly};
ghost use Rattle.gated_log.specs.GatedLog.{entries_of, IsSettled, HasOneMore, IsBeforeOrAfter};

use disk_model::{Disk, Failed};

const LOG: u32 = 0;

const OTHER: u32 = 1;

const OPEN: u8 = 0xc3;

const CLOSED: u8 = 0;

/// Makes an empty log, whatever was in the file, and puts both files on the disk.
pub fn create<D: Disk>(disk: &mut D) -> Result<(), Failed>
    ensures settled { OnOk result (D.faithful disk.new →
        IsSettled (D.state_at disk.new (D.clock disk.new)) 0) }
    ensures failed { OnErr result (D.failures disk.old < D.failures disk.new) }
{
    disk.cut(LOG, 0)?;
    disk.write_at(LOG, 0, &[CLOSED])?;
    disk.sync(LOG)?;
    disk.sync(OTHER)
}

/// Adds a byte to a log of `count` entries. At `Ok` each crash leaves a log that has it.
pub fn append<D: Disk>(disk: &mut D, count: u64, byte: u8) -> Result<(), Failed>
    requires settled { IsSettled (D.state_at disk.old (D.clock disk.old)) count }
    requires fits { count < 2 ^ 60 }
    ensures added { OnOk result (D.faithful disk.new →
        HasOneMore (D.state_at disk.old (D.clock disk.old))
        (D.state_at disk.new (D.clock disk.new)) count byte) }

    // A crash at any moment of the call leaves the entries from before it, with the new one or without, and the other
    // file as it was.
    ensures any_moment { D.faithful disk.new →
        LeavesOnly (D.state_at disk.new) (D.clock disk.new) (D.clock disk.old)
        (IsBeforeOrAfter (D.state_at disk.old (D.clock disk.old)) byte) }

    ensures failed { OnErr result (D.failures disk.old < D.failures disk.new) }
    ensures calls { D.clock disk.new ≤ D.clock disk.old + 4 }
    ensures faithful { D.faithful disk.new → D.faithful disk.old }
{
    let gate = 2 * count;
    disk.write_at(LOG, gate + 1, &[byte, CLOSED])?;
    disk.sync(LOG)?;
    disk.write_at(LOG, gate, &[OPEN])?;
    disk.sync(LOG)
}
