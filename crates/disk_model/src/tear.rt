//! What a crash leaves of a file in memory.
ghost use Rattle.std.specs.Prelude.{◌≡◌, ℕ, ◌+◌, ◌-◌, ◌<◌, length, map, reverse, slice_index, ◌==◌, if◌then◌else◌, ◌&&◌, nat_le, nat_lt, IfOk};
ghost use Rattle.disk_model.specs.Tear.{torn_byte};
ghost use Rattle.disk_model.specs.PendingWrites.{range_of};

use crate::pending_write::PendingWrite;
use std::alloc::{AllocError, Global};

/// Which of the contents that a crash may leave it leaves.
#[derive(Clone, Copy, Debug, PartialEq, Eq)]
pub enum Tear {
    /// What was last synced.
    Old,
    /// All that was written and cut.
    New,
    /// The same, with the last byte inverted of each range that is written and not synced. A later range goes over an
    /// earlier.
    Torn,
}

/// What a read gives, with the last byte of each write inverted.
pub(crate) fn torn(
    alloc: Global,
    seen: &[u8],
    written: &[PendingWrite],
) -> Result<Vec<u8>, AllocError>
    ensures size { IfOk result (λ v. length v.items ≡ length seen.now) }
    ensures each { IfOk result (λ v. (p : ℕ) → p < length seen.now →
        slice_index v.items p ≡ torn_byte (reverse (map range_of written.now)) seen.now p) }
{
    let mut bytes = seen.to_vec(alloc)?;
    for write in written {
        invert_end(&mut bytes, seen, write);
    }
    Ok(bytes)
}

/// Puts back the bytes of one write, with the last of them inverted.
fn invert_end(bytes: &mut [u8], seen: &[u8], write: &PendingWrite)
    requires { length bytes.old ≡ length seen.now }
    ensures { (p : ℕ) → p < length seen.now → slice_index bytes.new p ≡
        (if nat_le write.now.offset p && nat_lt p (write.now.offset + write.now.len)
        then (if p + 1 == write.now.offset + write.now.len
        then 255 - slice_index seen.now p else slice_index seen.now p)
        else slice_index bytes.old p) }
{
    let end = write.offset.saturating_add(write.len);
    for p in write.offset..end.min(seen.len()) {
        bytes[p] = if p + 1 == end {
            u8::MAX - seen[p]
        } else {
            seen[p]
        };
    }
}
