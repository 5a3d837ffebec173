//! The tests that an entry passes, in their order.
ghost use Rattle.std.specs.Prelude.{◌≡◌, ◌≤◌, ◌+◌, None, true, length, take, drop, IfOk, IfNone};
ghost use Rattle.hive_log_entries.specs.Pages.{has_pages};
ghost use Rattle.hive_log_entries.specs.Entries.{size_at_front, fault_of, hash_at, same_hash, has_second_hash, has_first_hash, has_bins_size};

use crate::entry_end::EntryEnd;
use crate::pages::{BINS_SIZE_AT, REFERENCES_AT, are_pages_within, u32_at};
use marvin32::marvin32;

// the seed of the hashes
const SEED: (u32, u32) = (0x884d_ef82, 0xc555_4e7a);

// the letters `HvLE`, the first in the lowest byte
const LETTERS: u32 = 0x454c_7648;

const _: () = prove!(LETTERS == 0x454c_7648);

// the offset of the size
const SIZE_AT: usize = 4;

const _: () = prove!(SIZE_AT == 4);

// the offset of the first hash
const FIRST_HASH_AT: usize = 24;

const _: () = prove!(FIRST_HASH_AT == 24);

// the offset of the second hash, which is of the bytes before it
const SECOND_HASH_AT: usize = 32;

const _: () = prove!(SECOND_HASH_AT == 32);

// what the size of an entry is a multiple of
const SECTOR_BYTES: u32 = 512;

const _: () = prove!(SECTOR_BYTES == 512);

// what the size of bins data is a multiple of
const BIN_BYTES: u32 = 4096;

const _: () = prove!(BIN_BYTES == 4096);

/// The bytes from a place on.
pub(crate) fn bytes_from(log: &[u8], at: usize) -> &[u8]
    ensures { result.now ≡ drop at log.now }
{
    if at > log.len() {
        return &[];
    }
    &log[at..]
}

/// The first bytes.
pub(crate) fn first_bytes(rest: &[u8], size: usize) -> &[u8]
    requires { size ≤ length rest.now }
    ensures bytes { result.now ≡ take size rest.now }
    ensures long { length result.now ≡ size }
{
    &rest[..size]
}

#[tactic(auto, unfolding(crate::specs::Entries::size_at_front))]
/// The size of the entry that these bytes begin with, if its letters are there and it is there whole.
pub(crate) fn entry_size(rest: &[u8]) -> Result<u32, EntryEnd>
    ensures reading { result ≡ size_at_front rest.now }
    ensures within { IfOk result (λ size. (512 ≤ size) × (size ≤ length rest.now)) }
{
    if rest.len() < 4 || u32_at(rest, 0) != LETTERS {
        return Err(EntryEnd::NoLetters);
    }
    if rest.len() < 8 {
        return Err(EntryEnd::Cut);
    }
    let size = u32_at(rest, SIZE_AT);
    if !size.is_multiple_of(SECTOR_BYTES) || size < SECTOR_BYTES {
        return Err(EntryEnd::WrongSize);
    }
    if rest.len() < size as usize {
        return Err(EntryEnd::Cut);
    }
    Ok(size)
}

#[tactic(auto, unfolding(crate::specs::Entries::fault_of))]
/// The first test that the bytes of an entry fail, after those of its size.
pub(crate) fn fault(bytes: &[u8]) -> Option<EntryEnd>
    requires { 512 ≤ length bytes.now }
    ensures fault { result ≡ fault_of bytes.now }
    ensures pages { IfNone result (has_pages bytes.now ≡ true) }
{
    if !is_second_hash_right(bytes) {
        return Some(EntryEnd::WrongSecondHash);
    }
    if !is_first_hash_right(bytes) {
        return Some(EntryEnd::WrongFirstHash);
    }
    if !is_bins_size_right(bytes) {
        return Some(EntryEnd::WrongBinsSize);
    }
    if !are_pages_within(bytes) {
        return Some(EntryEnd::WrongPage);
    }
    None
}

#[tactic(auto, unfolding(crate::specs::Entries::has_second_hash))]
fn is_second_hash_right(bytes: &[u8]) -> bool
    requires { 512 ≤ length bytes.now }
    ensures { result ≡ has_second_hash bytes.now }
{
    is_hash_at(
        bytes,
        SECOND_HASH_AT,
        marvin32(SEED, first_bytes(bytes, SECOND_HASH_AT)),
    )
}

#[tactic(auto, unfolding(crate::specs::Entries::has_first_hash))]
fn is_first_hash_right(bytes: &[u8]) -> bool
    requires { 512 ≤ length bytes.now }
    ensures { result ≡ has_first_hash bytes.now }
{
    is_hash_at(
        bytes,
        FIRST_HASH_AT,
        marvin32(SEED, bytes_from(bytes, REFERENCES_AT)),
    )
}

// whether a hash stands at an offset, the low half first
fn is_hash_at(bytes: &[u8], offset: usize, hash: (u32, u32)) -> bool
    requires { offset + 8 ≤ length bytes.now }
    ensures { result ≡ same_hash (hash_at offset bytes.now) hash }
{
    u32_at(bytes, offset) == hash.0 && u32_at(bytes, offset + 4) == hash.1
}

#[tactic(auto, unfolding(crate::specs::Entries::has_bins_size))]
fn is_bins_size_right(bytes: &[u8]) -> bool
    requires { 512 ≤ length bytes.now }
    ensures { result ≡ has_bins_size bytes.now }
{
    let bins_size = u32_at(bytes, BINS_SIZE_AT);
    bins_size.is_multiple_of(BIN_BYTES) && bins_size != 0
}
