//! Key nodes.
ghost use Rattle.std.specs.Prelude.{◌≡◌, MatchResult, Some, None};

use crate::numbers::{begins_with, has_flag, u16_at, u32_at, u64_at};
use crate::stored_name::StoredName;
use refusals::{Cause, Refusal};

// `nk`, as the number of these two bytes
const LETTERS: u16 = 0x6b6e;

// the bytes of the fields, which come before the name
const FIELDS: usize = 76;

// the flag of a name in Latin-1, and the flag of a predefined handle, which is there instead of values
const LATIN: u16 = 0x20;

const PREDEFINED: u16 = 0x40;

// the unit that separates names in a path
const BACKSLASH: u16 = 0x5c;

const _: () = prove!(LETTERS == 0x6b6e);

const _: () = prove!(FIELDS == 76);

/// A key node, whose name is borrowed from its cell. What no field names is unread.
#[derive(Drop)]
pub struct KeyNode<'a> {
    /// The flags but for the one that says how the name is stored.
    pub flags: u16,
    /// When the key was written last, in units of 100 nanoseconds since 1601.
    pub time: u64,
    /// The number of subkeys.
    pub subkey_count: u32,
    /// The cell of the list of subkeys, unread if there are none.
    pub subkeys: u32,
    /// The number of values.
    pub value_count: u32,
    /// The cell of the list of values, unread if there are none.
    pub values: u32,
    /// The security cell, or 0xffff_ffff for none.
    pub security: u32,
    /// The cell of the class, unread if its length is 0.
    pub class: u32,
    /// The bytes of the class.
    pub class_len: u16,
    /// The name.
    pub name: StoredName<'a>,
}

impl<'a> KeyNode<'a> {
    ghost use Rattle.hive_records.specs.Heads.{key_node_fault, IsKeyNode};

    /// Reads the data of a cell. Refused for the first of these that holds. `BadRecord` if the data don't begin with
    /// `nk`, or the fields or the name don't fit. `Unsupported` if it is a predefined handle. `BadName` if a name of
    /// two bytes a unit has an odd length, or a backslash is in the name.
    pub fn read(cell: &'a [u8]) -> Result<KeyNode<'a>, Refusal>
        ensures { MatchResult result (λ node. (key_node_fault cell.now ≡ None)
            × IsKeyNode node cell.now)
            (λ refusal. key_node_fault cell.now ≡ Some refusal) }
    {
        if !begins_with(cell, LETTERS, FIELDS) {
            return Err(Refusal::from(Cause::BadRecord));
        }
        let end = FIELDS + u16_at(cell, 72) as usize;
        if cell.len() < end {
            return Err(Refusal::from(Cause::BadRecord));
        }
        let stored = u16_at(cell, 2);
        if has_flag(stored, PREDEFINED) {
            return Err(Refusal::Unsupported);
        }
        let latin = has_flag(stored, LATIN);
        let bytes = &cell[FIELDS..end];
        let name = StoredName { latin, bytes };
        if !name.is_even() || name.contains(BACKSLASH) {
            return Err(Refusal::from(Cause::BadName));
        }
        Ok(KeyNode {
            flags: if latin { stored - LATIN } else { stored },
            time: u64_at(cell, 4),
            subkey_count: u32_at(cell, 20),
            subkeys: u32_at(cell, 28),
            value_count: u32_at(cell, 36),
            values: u32_at(cell, 40),
            security: u32_at(cell, 44),
            class: u32_at(cell, 48),
            class_len: u16_at(cell, 74),
            name,
        })
    }
}
