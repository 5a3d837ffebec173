//! Security cells.
ghost use Rattle.std.specs.Prelude.{◌≡◌, MatchResult, Some, None};

use crate::numbers::{begins_with, u32_at};
use refusals::{Cause, Refusal};

// `sk`, as the number of these two bytes
const LETTERS: u16 = 0x6b73;

// the bytes of the fields, which come before the descriptor
const FIELDS: usize = 20;

const _: () = prove!(LETTERS == 0x6b73);

const _: () = prove!(FIELDS == 20);

/// A security cell, whose descriptor is borrowed from it. Its links and its count are unread.
#[derive(Drop)]
pub struct Security<'a> {
    /// The descriptor.
    pub descriptor: &'a [u8],
}

impl<'a> Security<'a> {
    ghost use Rattle.hive_records.specs.Heads.{security_fault, IsSecurity};

    /// Reads the data of a cell. Refused with `BadRecord` if it doesn't begin with `sk`, or the fields or the
    /// descriptor don't fit.
    pub fn read(cell: &'a [u8]) -> Result<Security<'a>, Refusal>
        ensures { MatchResult result (λ security. (security_fault cell.now ≡ None)
            × IsSecurity security cell.now)
            (λ refusal. security_fault cell.now ≡ Some refusal) }
    {
        if !begins_with(cell, LETTERS, FIELDS) {
            return Err(Refusal::from(Cause::BadRecord));
        }
        let end = FIELDS + u32_at(cell, 16) as usize;
        if cell.len() < end {
            return Err(Refusal::from(Cause::BadRecord));
        }
        Ok(Security {
            descriptor: &cell[FIELDS..end],
        })
    }
}
