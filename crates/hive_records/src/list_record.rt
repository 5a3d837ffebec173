//! Lists of subkeys.
ghost use Rattle.std.specs.Prelude.{◌≡◌, MatchResult, Some, None};

use crate::numbers::{begins_with, u16_at};
use refusals::{Cause, Refusal};

// `li`, `lf`, `lh` and `ri`, as the numbers of these two bytes
const PLAIN: u16 = 0x696c;

const HINTED: u16 = 0x666c;

const HASHED: u16 = 0x686c;

const INDIRECT: u16 = 0x6972;

// the bytes of the fields, which come before the elements, and of an element
const FIELDS: usize = 4;

const OFFSET: usize = 4;

const OFFSET_AND_HINT: usize = 8;

const _: () = prove!(FIELDS == 4);

/// A list of subkeys, whose elements are borrowed from its cell: offsets of key nodes, or of lists.
#[derive(Drop)]
pub struct SubkeyList<'a> {
    /// Whether the elements are offsets of lists.
    pub is_indirect: bool,
    /// The number of elements.
    pub count: u16,
    /// The bytes of an element: an offset, and in some lists four bytes more, which are unread.
    pub stride: usize,
    /// The elements.
    pub elements: &'a [u8],
}

impl<'a> SubkeyList<'a> {
    ghost use Rattle.hive_records.specs.Heads.{list_fault, IsSubkeyList};

    /// Reads the data of a cell. Refused with `BadList` if it begins with none of `li`, `lf`, `lh` and `ri`, or the
    /// elements don't fit.
    pub fn read(cell: &'a [u8]) -> Result<SubkeyList<'a>, Refusal>
        ensures { MatchResult result (λ list. (list_fault cell.now ≡ None)
            × IsSubkeyList list cell.now)
            (λ refusal. list_fault cell.now ≡ Some refusal) }
    {
        let is_hinted = begins_with(cell, HINTED, FIELDS) || begins_with(cell, HASHED, FIELDS);
        let is_indirect = begins_with(cell, INDIRECT, FIELDS);
        if !begins_with(cell, PLAIN, FIELDS) && !is_hinted && !is_indirect {
            return Err(Refusal::from(Cause::BadList));
        }
        let count = u16_at(cell, 2);
        let stride = if is_hinted { OFFSET_AND_HINT } else { OFFSET };
        let end = FIELDS + stride * count as usize;
        if cell.len() < end {
            return Err(Refusal::from(Cause::BadList));
        }
        Ok(SubkeyList {
            is_indirect,
            count,
            stride,
            elements: &cell[FIELDS..end],
        })
    }
}
