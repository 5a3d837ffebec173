//! Big data, which lie in segments.
ghost use Rattle.std.specs.Prelude.{◌≡◌, MatchResult, Some, None};
ghost use Rattle.hive_records.specs.Images.{splits};
ghost use Rattle.hive_records.specs.Values.{segments_of};

use crate::numbers::{begins_with, u16_at, u32_at};
use refusals::{Cause, Refusal};

// `db`, as the number of these two bytes
const LETTERS: u16 = 0x6264;

// the bytes of the fields
const FIELDS: usize = 8;

/// The bytes of each segment but the last.
pub const SEGMENT_BYTES: usize = 16_344;

// the least minor version whose big data lie in segments
const SEGMENTS_FROM_MINOR: u32 = 4;

const _: () = prove!(LETTERS == 0x6264);

const _: () = prove!(SEGMENTS_FROM_MINOR == 4);

const _: () = prove!(SEGMENT_BYTES == 16_344);

/// Whether data of more than one segment's bytes lie in segments in a hive of a minor version. They lie in one cell
/// below version 4.
pub fn has_segments(minor: u32) -> bool
    ensures { result ≡ splits minor }
{
    minor >= SEGMENTS_FROM_MINOR
}

/// How many segments data of a size lie in.
pub fn segment_count(size: u32) -> usize
    ensures { result ≡ segments_of size }
{
    (size as usize).div_ceil(SEGMENT_BYTES)
}

/// The record of big data.
#[derive(Drop)]
pub struct BigData {
    /// The number of segments.
    pub count: u16,
    /// The cell with the segments' offsets.
    pub segments: u32,
}

impl BigData {
    ghost use Rattle.hive_records.specs.Heads.{big_fault, IsBigData};

    /// Reads the data of a cell, for data of a size. Refused with `BadRecord` if it doesn't begin with `db`, or the
    /// fields don't fit. Refused with `BadRecord` too if the number of segments isn't the one for data of this size.
    pub fn read(cell: &[u8], size: u32) -> Result<BigData, Refusal>
        ensures { MatchResult result (λ big. (big_fault cell.now size ≡ None)
            × IsBigData big cell.now)
            (λ refusal. big_fault cell.now size ≡ Some refusal) }
    {
        if !begins_with(cell, LETTERS, FIELDS) {
            return Err(Refusal::from(Cause::BadRecord));
        }
        let count = u16_at(cell, 2);
        if count as usize != segment_count(size) {
            return Err(Refusal::from(Cause::BadRecord));
        }
        Ok(BigData {
            count,
            segments: u32_at(cell, 4),
        })
    }
}
