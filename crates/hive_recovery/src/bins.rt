//! The bins data that a file's own bytes and the pages of entries make.
ghost use Rattle.std.specs.Prelude.{◌≡◌, ◌⊎◌, ◌≤◌, ◌<◌, ◌+◌, ◌^◌, ℕ, Option, Some, None, length, IfOk, IfErr, vec_len};
ghost use Rattle.refusals.specs.Answers.{RefusedFor};
ghost use Rattle.refusals.specs.declared.refusal.Refusal.TheVariants.{NoMemory};
ghost use Rattle.hive_recovery.specs.Laid.{HoldsImage, overlaid, entry_laid, laid, own_bytes, first_bytes, lacks_bytes};

use hive_log_entries::LogEntry;
use refusals::{Cause, Refusal};
use std::alloc::{AllocError, Global};

/// The bytes that a file has before its bins data.
pub(crate) const HEAD_BYTES: usize = 4096;

const _: () = prove!(HEAD_BYTES == 4096);

/// The bins data of a size. Each byte is that of the last page that covers it, of the entries in turn; or the file's own,
/// if no page does. Refused with `HiveDamaged` of hive 0 and the cause `BadLog` exactly if a byte is neither, or for want of
/// memory.
pub fn recovered_bins(
    alloc: Global,
    file: &[u8],
    entries: &[LogEntry<'_>],
    size: u32,
) -> Result<Vec<u8>, Refusal>
    ensures ok { IfOk result (λ bins. first_bytes (laid (own_bytes file.now) entries.now) size ≡ Some bins.items) }
    ensures refused { IfErr result (RefusedFor lacks_bytes
        (first_bytes (laid (own_bytes file.now) entries.now) size ≡ None)) }
{
    let mut cells = own_cells(alloc, file, size as usize)?;
    lay_entries(&mut cells, entries);
    whole_bytes(alloc, &cells)
}

// the file's own bytes of bins data, each or none
fn own_cells(alloc: Global, file: &[u8], size: usize) -> Result<Vec<Option<u8>>, AllocError>
    requires { size < 2 ^ 32 }
    ensures long { IfOk result (λ cells. length cells.items ≡ size) }
    ensures bytes { IfOk result (λ cells. HoldsImage cells.items (own_bytes file.now)) }
{
    let mut cells = Vec::with_capacity(alloc, size)?;
    'places: for place in 0..size {
        cells.push(file.get(HEAD_BYTES + place).copied())?;
    }
    Ok(cells)
}

// lays the pages of entries over the bytes, one entry after the other
fn lay_entries(cells: &mut [Option<u8>], entries: &[LogEntry<'_>])
    ensures { (image : ℕ → Option ℕ) → HoldsImage cells.old image →
        HoldsImage cells.new (laid image entries.now) }
{
    'entries: for entry in entries {
        lay_entry(cells, entry);
    }
}

// lays the pages of an entry over the bytes, one after the other
fn lay_entry(cells: &mut [Option<u8>], entry: &LogEntry<'_>)
    ensures { (image : ℕ → Option ℕ) → HoldsImage cells.old image →
        HoldsImage cells.new (entry_laid image entry.now) }
{
    let count = entry.page_count() as usize;
    let mut start = entry.first_page_at();
    'pages: for index in 0..count {
        let page = entry.page(index, start);
        lay_page(cells, entry.reference(index).offset as usize, page);
        start += page.len();
    }
}

// lays bytes over those from an offset on, as far as there are any
fn lay_page(cells: &mut [Option<u8>], offset: usize, bytes: &[u8])
    ensures { (image : ℕ → Option ℕ) → HoldsImage cells.old image →
        HoldsImage cells.new (overlaid image offset bytes.now) }
{
    let room = cells.len().saturating_sub(offset);
    let count = bytes.len().min(room);
    'bytes: for index in 0..count {
        cells[offset + index] = Some(bytes[index]);
    }
}

// the bytes, if each is there
fn whole_bytes(alloc: Global, cells: &[Option<u8>]) -> Result<Vec<u8>, Refusal>
    ensures ok { IfOk result (λ bytes. (image : ℕ → Option ℕ) → HoldsImage cells.now image →
        first_bytes image (length cells.now) ≡ Some bytes.items) }
    ensures refused { IfErr result (λ why. (image : ℕ → Option ℕ) → HoldsImage cells.now image →
        RefusedFor lacks_bytes (first_bytes image (length cells.now) ≡ None) why) }
{
    let mut bytes = Vec::with_capacity(alloc, cells.len())?;
    'cells: for index in 0..cells.len() {
        match cells[index] {
            Some(byte) => bytes.push(byte)?,
            None => return Err(Refusal::from(Cause::BadLog)),
        }
    }
    Ok(bytes)
}
