//! One file in memory, with what a crash needs to know of it.
ghost use Rattle.std.specs.Prelude.{◌≡◌, ◌+◌, [], ◌++◌, ◌<◌, ◌≤◌, max, length, take, drop, map, slice_index, ℕ, OnOk, OnErr, IfOk};
ghost use Rattle.disk_model.specs.FileState.{at_rest, put, resized, Covers, Writes, Cuts, Syncs, IsSound};
ghost use Rattle.disk_model.specs.ReadGives.{ReadGivesLastWrites};
ghost use Rattle.disk_model.specs.PendingWrites.{file_of, range_of, IsApart};

use crate::pending_write::PendingWrite;
use crate::tear::{Tear, torn};
use std::alloc::{AllocError, Global};
use std::snapshot::Snapshot;

/// What a read gives, what was there at the last sync, and what was written and which lengths were had since.
#[derive(Drop)]
pub(crate) struct MemFile {
    pub seen: Vec<u8>,
    pub synced: Vec<u8>,
    /// The oldest first.
    pub written: Vec<PendingWrite>,
    pub least: usize,
    pub greatest: usize,
    ghost sound: { IsSound (file_of synced.items seen.items written.items least greatest) },
    ghost whole: { ReadGivesLastWrites (file_of synced.items seen.items written.items least greatest) },
}

impl MemFile {
    ghost use Rattle.disk_model.specs.MemFile.{file_state, FileHasRoom};
    ghost use Rattle.disk_model.specs.Tear.{IsCrashOf};

    /// A file that was never written.
    pub fn new(alloc: Global) -> MemFile
        ensures { file_state result ≡ at_rest [] }
    {
        MemFile {
            seen: Vec::new(alloc),
            synced: Vec::new(alloc),
            written: Vec::new(alloc),
            least: 0,
            greatest: 0,
        }
    }

    /// Takes the memory that it needs to get `bytes` bytes longer, and for `writes` writes before the next sync.
    pub fn reserve(&mut self, bytes: usize, writes: usize) -> Result<(), AllocError>
        ensures same { file_state self.new ≡ file_state self.old }
        ensures room { OnOk result (FileHasRoom bytes writes self.new) }
    {
        let len = self.seen.len().checked_add(bytes).ok_or(AllocError)?;
        self.seen.reserve(bytes)?;
        self.synced.reserve(len.saturating_sub(self.synced.len()))?;
        self.written.reserve(writes)
    }

    /// A file whose bytes are all on the disk.
    fn at_rest(alloc: Global, bytes: Vec<u8>) -> Result<MemFile, AllocError>
        ensures { IfOk result (λ file. file_state file ≡ at_rest bytes.items) }
    {
        let synced = bytes.as_slice().to_vec(alloc)?;
        let len = bytes.len();
        Ok(MemFile {
            seen: bytes,
            synced,
            written: Vec::new(alloc),
            least: len,
            greatest: len,
        })
    }

    /// The file after a crash.
    pub fn crashed(&self, alloc: Global, tear: Tear) -> Result<MemFile, AllocError>
        ensures { IfOk result (λ file. IsCrashOf tear (file_state self.now) (file_state file)) }
    {
        let bytes = match tear {
            Tear::Old => self.synced.as_slice().to_vec(alloc)?,
            Tear::New => self.seen.as_slice().to_vec(alloc)?,
            Tear::Torn => torn(alloc, &self.seen, &self.written)?,
        };
        MemFile::at_rest(alloc, bytes)
    }

    pub fn write(&mut self, offset: u64, bytes: &[u8]) -> Result<(), AllocError>
        ensures done { OnOk result (Writes offset bytes.now (file_state self.old)
            (file_state self.new)) }
        ensures failed { OnErr result (file_state self.new ≡ file_state self.old) }
    {
        let offset = offset as usize;
        self.written.reserve(1)?;
        overwrite(&mut self.seen, offset, bytes)?;
        self.greatest = self.greatest.max(self.seen.len());
        self.written.push_reserved(PendingWrite {
            offset,
            len: bytes.len(),
            after: Snapshot::of(&self.seen),
        });
        Ok(())
    }

    pub fn cut(&mut self, len: u64) -> Result<(), AllocError>
        ensures done { OnOk result (Cuts len (file_state self.old) (file_state self.new)) }
        ensures failed { OnErr result (file_state self.new ≡ file_state self.old) }
    {
        let len = len as usize;
        lengthen(&mut self.seen, len)?;
        self.least = self.least.min(len);
        self.greatest = self.greatest.max(len);
        Ok(())
    }

    pub fn sync(&mut self) -> Result<(), AllocError>
        ensures done { OnOk result (Syncs (file_state self.old) (file_state self.new)) }
        ensures failed { OnErr result (file_state self.new ≡ file_state self.old) }
    {
        catch_up(&mut self.synced, &self.seen, &self.written, self.least)?;
        self.written.clear();
        self.least = self.seen.len();
        self.greatest = self.seen.len();
        Ok(())
    }
}

/// Makes the bytes this long: cut at the end, or with zeros after them.
fn lengthen(bytes: &mut Vec<u8>, len: usize) -> Result<(), AllocError>
    ensures done { OnOk result (bytes.new.items ≡ resized bytes.old.items len) }
    ensures failed { OnErr result (bytes.new.items ≡ bytes.old.items) }
{
    bytes.resize(len, 0)
}

/// Makes the file long enough to reach an offset, with zeros after it.
fn reach(file: &mut Vec<u8>, end: usize) -> Result<(), AllocError>
    ensures done { OnOk result (file.new.items
        ≡ resized file.old.items (max (length file.old.items) end)) }
    ensures failed { OnErr result (file.new.items ≡ file.old.items) }
{
    if file.len() < end {
        lengthen(file, end)?;
    }
    Ok(())
}

#[tactic(auto, using(crate::proofs::Put::paste_over))]
fn overwrite(file: &mut Vec<u8>, offset: usize, bytes: &[u8]) -> Result<(), AllocError>
    ensures done { OnOk result (file.new.items ≡ put file.old.items offset bytes.now) }
    ensures failed { OnErr result (file.new.items ≡ file.old.items) }
{
    if bytes.is_empty() {
        return Ok(());
    }
    let end = offset.checked_add(bytes.len()).ok_or(AllocError)?;
    reach(file, end)?;
    paste(file, offset, bytes);
    Ok(())
}

fn paste(file: &mut Vec<u8>, offset: usize, bytes: &[u8])
    requires { offset + length bytes.now ≤ length file.old.items }
    ensures { file.new.items ≡ take offset file.old.items ++ bytes.now ++ drop
        (offset + length bytes.now) file.old.items }
{
    file[offset..offset + bytes.len()].copy_from_slice(bytes);
}

/// Makes the synced bytes what a read gives. Only what was written since, or is past the least length, is copied.
fn catch_up(
    synced: &mut Vec<u8>,
    seen: &[u8],
    written: &[PendingWrite],
    least: usize,
) -> Result<(), AllocError>
    requires { IsApart (map range_of written.now) least synced.old.items seen.now }
    ensures done { OnOk result (synced.new.items ≡ seen.now) }
    ensures failed { OnErr result (synced.new.items ≡ synced.old.items) }
{
    synced.reserve(seen.len().saturating_sub(synced.len()))?;
    synced.truncate(least);
    synced.extend_from_slice(&seen[least..])?;
    for write in written {
        copy_range(synced, seen, write);
    }
    Ok(())
}

/// Copies the bytes of one write, as far as they are still there.
fn copy_range(synced: &mut [u8], seen: &[u8], write: &PendingWrite)
    requires { length synced.old ≡ length seen.now }
    ensures inside { (p : ℕ) → p < length seen.now → Covers (range_of write.now) p →
        slice_index synced.new p ≡ slice_index seen.now p }
    ensures outside { (p : ℕ) → (Covers (range_of write.now) p → ⊥) →
        slice_index synced.new p ≡ slice_index synced.old p }
{
    let end = write.offset.saturating_add(write.len).min(seen.len());
    if write.offset < end {
        synced[write.offset..end].copy_from_slice(&seen[write.offset..end]);
    }
}
