//! Records of values.
ghost use Rattle.std.specs.Prelude.{◌≡◌, MatchResult, Some, None};

use crate::numbers::{begins_with, has_flag, u16_at, u32_at};
use crate::stored_name::StoredName;
use refusals::{Cause, Refusal};

// `vk`, as the number of these two bytes
const LETTERS: u16 = 0x6b76;

// the bytes of the fields, which come before the name
const FIELDS: usize = 20;

// the flag of a name in Latin-1
const LATIN: u16 = 1;

// set in the size of data that lie in the offset field; and how many bytes that field has room for
const IN_RECORD: u32 = 0x8000_0000;

const MOST_IN_RECORD: u32 = 4;

const _: () = prove!(LETTERS == 0x6b76);

const _: () = prove!(FIELDS == 20);

/// A value's record, whose name and small data are borrowed from its cell. What no field names is unread.
#[derive(Drop)]
pub struct ValueRec<'a> {
    /// The size field: the length of the data, with its top bit set if they lie in the record.
    pub size: u32,
    /// The offset field: the cell of the data, or of a db.
    pub offset: u32,
    /// The type.
    pub kind: u32,
    /// The four bytes of the offset field, which small data begin.
    pub small: &'a [u8],
    /// The name; the empty one is the default value's.
    pub name: StoredName<'a>,
}

impl<'a> ValueRec<'a> {
    ghost use Rattle.hive_records.specs.Heads.{value_fault, IsValueRec};

    /// Reads the data of a cell. Refused for the first of these that holds. `BadRecord` if the data don't begin with
    /// `vk`, or the fields or the name don't fit. `BadName` if a name of two bytes a unit has an odd length.
    /// `BadRecord` if more than 4 bytes are said to lie in the record.
    pub fn read(cell: &'a [u8]) -> Result<ValueRec<'a>, Refusal>
        ensures { MatchResult result (λ value. (value_fault cell.now ≡ None)
            × IsValueRec value cell.now)
            (λ refusal. value_fault cell.now ≡ Some refusal) }
    {
        if !begins_with(cell, LETTERS, FIELDS) {
            return Err(Refusal::from(Cause::BadRecord));
        }
        let end = FIELDS + u16_at(cell, 2) as usize;
        if cell.len() < end {
            return Err(Refusal::from(Cause::BadRecord));
        }
        let latin = has_flag(u16_at(cell, 16), LATIN);
        let bytes = &cell[FIELDS..end];
        let name = StoredName { latin, bytes };
        if !name.is_even() {
            return Err(Refusal::from(Cause::BadName));
        }
        let size = u32_at(cell, 4);
        if IN_RECORD <= size && size - IN_RECORD > MOST_IN_RECORD {
            return Err(Refusal::from(Cause::BadRecord));
        }
        Ok(ValueRec {
            size,
            offset: u32_at(cell, 8),
            kind: u32_at(cell, 12),
            small: &cell[8..12],
            name,
        })
    }
}
