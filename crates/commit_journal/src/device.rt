//! The calls of the device that a journal makes.
ghost use Rattle.std.specs.Prelude.{◌≡◌, ◌+◌, ◌<◌, ◌≤◌, ℕ, length, take, drop, IfOk, OnOk, OnErr, MatchResult};
ghost use Rattle.disk_model.specs.FileState.{Cuts, Writes, MayWrite, Syncs};
ghost use Rattle.disk_model.specs.Call.{OneCall, ReadGives};
ghost use Rattle.disk_model.specs.StoreFiles.{IsJournal};
ghost use Rattle.disk_model.specs.ReadOnly.{OnlyReads, OnlySyncs};

use crate::layout::CHUNK_BYTES;
use disk_model::{Disk, Failed};

const JOURNAL: u32 = 0;

/// Writes into the journal's file.
pub(crate) fn write<D: Disk>(disk: &mut D, offset: u64, bytes: &[u8]) -> Result<(), Failed>
    ensures done { OnOk result (D.faithful disk.new → Writes offset bytes.now
        (D.state_at disk.old (D.clock disk.old) 0) (D.state_at disk.new (D.clock disk.new) 0)) }
    ensures failed { OnErr result (D.faithful disk.new → MayWrite offset bytes.now
        (D.state_at disk.old (D.clock disk.old) 0) (D.state_at disk.new (D.clock disk.new) 0)) }
    ensures call { OneCall IsJournal (D.state_at disk.old) (D.state_at disk.new) (D.clock disk.old)
        (D.clock disk.new) }
    ensures failures { MatchResult result (λ _. D.failures disk.new ≡ D.failures disk.old)
        (λ _. D.failures disk.new ≡ D.failures disk.old + 1) }
    ensures faithful { D.faithful disk.new → D.faithful disk.old }
{
    disk.write_at(JOURNAL, offset, bytes)
}

/// Makes the journal's file empty.
pub(crate) fn clear<D: Disk>(disk: &mut D) -> Result<(), Failed>
    ensures done { OnOk result (D.faithful disk.new → Cuts 0
        (D.state_at disk.old (D.clock disk.old) 0) (D.state_at disk.new (D.clock disk.new) 0)) }
    ensures call { OneCall IsJournal (D.state_at disk.old) (D.state_at disk.new) (D.clock disk.old)
        (D.clock disk.new) }
    ensures failures { MatchResult result (λ _. D.failures disk.new ≡ D.failures disk.old)
        (λ _. D.failures disk.new ≡ D.failures disk.old + 1) }
    ensures faithful { D.faithful disk.new → D.faithful disk.old }
{
    disk.cut(JOURNAL, 0)
}

/// Syncs the journal's file.
pub(crate) fn sync<D: Disk>(disk: &mut D) -> Result<(), Failed>
    ensures done { OnOk result (D.faithful disk.new → Syncs
        (D.state_at disk.old (D.clock disk.old) 0) (D.state_at disk.new (D.clock disk.new) 0)) }
    ensures failed { OnErr result (D.faithful disk.new →
        D.state_at disk.new (D.clock disk.new) 0 ≡ D.state_at disk.old (D.clock disk.old) 0) }
    ensures call { OneCall IsJournal (D.state_at disk.old) (D.state_at disk.new) (D.clock disk.old)
        (D.clock disk.new) }
    ensures syncs { D.faithful disk.new → OnlySyncs (D.state_at disk.old) (D.state_at disk.new)
        (D.clock disk.old) (D.clock disk.new) }
    ensures failures { MatchResult result (λ _. D.failures disk.new ≡ D.failures disk.old)
        (λ _. D.failures disk.new ≡ D.failures disk.old + 1) }
    ensures faithful { D.faithful disk.new → D.faithful disk.old }
{
    disk.sync(JOURNAL)
}

/// The length of the journal's file.
pub(crate) fn len<D: Disk>(disk: &mut D) -> Result<u64, Failed>
    ensures len { IfOk result (λ n. D.faithful disk.new →
        n ≡ length (D.state_at disk.old (D.clock disk.old) 0).seen) }
    ensures no_change { OnlyReads (D.state_at disk.old) (D.state_at disk.new) (D.clock disk.old)
        (D.clock disk.new) }
    ensures failures { MatchResult result (λ _. D.failures disk.new ≡ D.failures disk.old)
        (λ _. D.failures disk.new ≡ D.failures disk.old + 1) }
    ensures faithful { D.faithful disk.new → D.faithful disk.old }
{
    disk.len(JOURNAL)
}

// reads from an offset in the journal's file into the front of a buffer: answers how many bytes came.
fn read<D: Disk>(disk: &mut D, offset: u64, buffer: &mut [u8]) -> Result<usize, Failed>
    ensures count { IfOk result (λ n. n ≤ length buffer.old) }
    ensures read { IfOk result (λ n. D.faithful disk.new →
        ReadGives offset (D.state_at disk.old (D.clock disk.old) 0).seen
        buffer.old buffer.new n) }
    ensures no_change { OnlyReads (D.state_at disk.old) (D.state_at disk.new) (D.clock disk.old)
        (D.clock disk.new) }
    ensures failures { MatchResult result (λ _. D.failures disk.new ≡ D.failures disk.old)
        (λ _. D.failures disk.new ≡ D.failures disk.old + 1) }
    ensures faithful { D.faithful disk.new → D.faithful disk.old }
{
    disk.read(JOURNAL, offset, buffer)
}

/// Reads a piece of the file, of at most a chunk's size, into a place behind its first `end` bytes and up to `limit`:
/// answers how many bytes came.
pub(crate) fn read_behind<D: Disk>(
    disk: &mut D,
    at: u64,
    place: &mut Vec<u8>,
    end: usize,
    limit: usize,
) -> Result<usize, Failed>
    requires there { limit ≤ length place.old.items }
    requires behind { end ≤ limit }
    ensures place { IfOk result (λ n. end + n ≤ limit) }
    ensures size { length place.new.items ≡ length place.old.items }
    ensures front { take end place.new.items ≡ take end place.old.items }
    ensures read { IfOk result (λ n. D.faithful disk.new →
        take n (drop end place.new.items)
        ≡ take n (drop at (D.state_at disk.old (D.clock disk.old) 0).seen)) }
    ensures more { IfOk result (λ n. D.faithful disk.new → end < limit →
        at < length (D.state_at disk.old (D.clock disk.old) 0).seen → 0 < n) }
    ensures no_change { OnlyReads (D.state_at disk.old) (D.state_at disk.new) (D.clock disk.old)
        (D.clock disk.new) }
    ensures failures { MatchResult result (λ _. D.failures disk.new ≡ D.failures disk.old)
        (λ _. D.failures disk.new ≡ D.failures disk.old + 1) }
    ensures faithful { D.faithful disk.new → D.faithful disk.old }
{
    let stop = limit.min(end + CHUNK_BYTES);
    read(disk, at, &mut place[end..stop])
}
