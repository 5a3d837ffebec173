//! Numbers as bytes, the lowest byte first, both ways.
ghost use Rattle.std.specs.Prelude.{◌≡◌, ◌++◌, OnOk, MatchOption, MatchResult, Some, None};
ghost use Rattle.refusals.specs.Answers.{RefusedFor};
ghost use Rattle.refusals.specs.declared.refusal.Refusal.TheVariants.{JournalDamaged};
ghost use Rattle.byteorder.specs.Endian.{little_bytes};
ghost use Rattle.change_codec.specs.Readers.{number_at, bytes_at};

use byteorder::{ByteOrder, LittleEndian};
use refusals::Refusal;
use std::alloc::AllocError;

/// Appends a number of one byte.
pub fn put_u8(bytes: &mut Vec<u8>, number: u8) -> Result<(), AllocError>
    ensures { OnOk result (bytes.new.items ≡ bytes.old.items ++ little_bytes 1 number) }
{
    bytes.push(number)?;
    Ok(())
}

/// Appends a number of two bytes.
pub fn put_u16(bytes: &mut Vec<u8>, number: u16) -> Result<(), AllocError>
    ensures { OnOk result (bytes.new.items ≡ bytes.old.items ++ little_bytes 2 number) }
{
    let mut field = [0; 2];
    LittleEndian::write_u16(&mut field, number);
    bytes.extend_from_slice(&field)
}

/// Appends a number of four bytes.
pub fn put_u32(bytes: &mut Vec<u8>, number: u32) -> Result<(), AllocError>
    ensures { OnOk result (bytes.new.items ≡ bytes.old.items ++ little_bytes 4 number) }
{
    let mut field = [0; 4];
    LittleEndian::write_u32(&mut field, number);
    bytes.extend_from_slice(&field)
}

/// Appends a number of eight bytes.
pub fn put_u64(bytes: &mut Vec<u8>, number: u64) -> Result<(), AllocError>
    ensures { OnOk result (bytes.new.items ≡ bytes.old.items ++ little_bytes 8 number) }
{
    let mut field = [0; 8];
    LittleEndian::write_u64(&mut field, number);
    bytes.extend_from_slice(&field)
}

/// The first `n` bytes, and those after them; nothing exactly if there are fewer, as for each below.
pub(crate) fn first_bytes(bytes: &[u8], n: usize) -> Option<(&[u8], &[u8])>
    ensures { MatchOption result (bytes_at n bytes.now ≡ None) (λ got.
        bytes_at n bytes.now ≡ Some (got.0.now, got.1.now)) }
{
    if n <= bytes.len() {
        Some((&bytes[..n], &bytes[n..]))
    } else {
        None
    }
}

/// The number in the first byte, and the bytes after it.
pub(crate) fn first_u8(bytes: &[u8]) -> Option<(u8, &[u8])>
    ensures { MatchOption result (number_at 1 bytes.now ≡ None) (λ got.
        number_at 1 bytes.now ≡ Some (got.0, got.1.now)) }
{
    if bytes.is_empty() {
        return None;
    }
    Some((bytes[0], &bytes[1..]))
}

/// The number in the first two bytes, and the bytes after them.
pub(crate) fn first_u16(bytes: &[u8]) -> Option<(u16, &[u8])>
    ensures { MatchOption result (number_at 2 bytes.now ≡ None) (λ got.
        number_at 2 bytes.now ≡ Some (got.0, got.1.now)) }
{
    if bytes.len() < 2 {
        return None;
    }
    Some((LittleEndian::read_u16(bytes), &bytes[2..]))
}

/// The number in the first four bytes, and the bytes after them.
pub(crate) fn first_u32(bytes: &[u8]) -> Option<(u32, &[u8])>
    ensures { MatchOption result (number_at 4 bytes.now ≡ None) (λ got.
        number_at 4 bytes.now ≡ Some (got.0, got.1.now)) }
{
    if bytes.len() < 4 {
        return None;
    }
    Some((LittleEndian::read_u32(bytes), &bytes[4..]))
}

/// The number in the first eight bytes, and the bytes after them.
pub(crate) fn first_u64(bytes: &[u8]) -> Option<(u64, &[u8])>
    ensures { MatchOption result (number_at 8 bytes.now ≡ None) (λ got.
        number_at 8 bytes.now ≡ Some (got.0, got.1.now)) }
{
    if bytes.len() < 8 {
        return None;
    }
    Some((LittleEndian::read_u64(bytes), &bytes[8..]))
}

/// The first `n` bytes, and those after them. Refused with `JournalDamaged` if there are fewer, as each below is.
pub(crate) fn take_bytes(bytes: &[u8], n: usize) -> Result<(&[u8], &[u8]), Refusal>
    ensures { MatchResult result (λ got. bytes_at n bytes.now ≡ Some (got.0.now, got.1.now))
        (RefusedFor JournalDamaged (bytes_at n bytes.now ≡ None)) }
{
    match first_bytes(bytes, n) {
        Some(got) => Ok(got),
        None => Err(Refusal::JournalDamaged),
    }
}

/// The number in the first byte, and the bytes after it.
pub(crate) fn take_u8(bytes: &[u8]) -> Result<(u8, &[u8]), Refusal>
    ensures { MatchResult result (λ got. number_at 1 bytes.now ≡ Some (got.0, got.1.now))
        (RefusedFor JournalDamaged (number_at 1 bytes.now ≡ None)) }
{
    match first_u8(bytes) {
        Some(got) => Ok(got),
        None => Err(Refusal::JournalDamaged),
    }
}

/// The number in the first two bytes, and the bytes after them.
pub(crate) fn take_u16(bytes: &[u8]) -> Result<(u16, &[u8]), Refusal>
    ensures { MatchResult result (λ got. number_at 2 bytes.now ≡ Some (got.0, got.1.now))
        (RefusedFor JournalDamaged (number_at 2 bytes.now ≡ None)) }
{
    match first_u16(bytes) {
        Some(got) => Ok(got),
        None => Err(Refusal::JournalDamaged),
    }
}

/// The number in the first four bytes, and the bytes after them.
pub(crate) fn take_u32(bytes: &[u8]) -> Result<(u32, &[u8]), Refusal>
    ensures { MatchResult result (λ got. number_at 4 bytes.now ≡ Some (got.0, got.1.now))
        (RefusedFor JournalDamaged (number_at 4 bytes.now ≡ None)) }
{
    match first_u32(bytes) {
        Some(got) => Ok(got),
        None => Err(Refusal::JournalDamaged),
    }
}

/// The number in the first eight bytes, and the bytes after them.
pub(crate) fn take_u64(bytes: &[u8]) -> Result<(u64, &[u8]), Refusal>
    ensures { MatchResult result (λ got. number_at 8 bytes.now ≡ Some (got.0, got.1.now))
        (RefusedFor JournalDamaged (number_at 8 bytes.now ≡ None)) }
{
    match first_u64(bytes) {
        Some(got) => Ok(got),
        None => Err(Refusal::JournalDamaged),
    }
}
