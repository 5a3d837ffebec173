//! What a key's node says of its values: read, and written.
ghost use Rattle.std.specs.Prelude.{◌≡◌, OnOk, IfSome, IfErr};
ghost use Rattle.refusals.specs.declared.refusal.Refusal.TheVariants.{NoMemory};
ghost use Rattle.hive_savepoint.specs.Puts.{HasData, ChangesCell};
ghost use Rattle.hive_edit.specs.ValueLists.{IsListOf, ValuesArePut};

use crate::numbers::{u32_bytes, u64_bytes};
use crate::offsets::OFFSET;
use hive_cells::Looks;
use hive_records::u32_at;
use hive_savepoint::SavepointImage;
use refusals::Refusal;

// the bytes of a key node's fields
const FIELDS: usize = 76;

// where a key node has its time, and the count of its values, before the offset of their list
const TIME: usize = 4;

const COUNT: usize = 36;

const LIST: usize = 40;

// where it has the upper bounds of its values
const LONGEST_NAME: usize = 60;

const LARGEST_DATA: usize = 64;

/// A key's list of values.
#[derive(Clone, Copy)]
pub(crate) struct ValueList {
    /// How many values there are.
    pub(crate) count: u32,
    /// The cell of the list, unread if there are none.
    pub(crate) at: u32,
    /// The bytes of the cell's data; 0 if there are no values.
    pub(crate) room: usize,
}

/// Upper bounds of values.
#[derive(Clone, Copy)]
pub(crate) struct ValueBounds {
    /// The most bytes of a name, as if in UTF-16.
    pub(crate) longest_name: u32,
    /// The most bytes of data.
    pub(crate) largest_data: u32,
}

/// The list of values of the key whose node is at an offset. None if it can't be read, or is too short.
pub(crate) fn value_list(image: &SavepointImage, key: u32) -> Option<ValueList>
    ensures { IfSome result (IsListOf image.now.bytes key) }
{
    let mut looks = Looks::new();
    let Ok(node) = image.cell(key, &mut looks) else {
        return None;
    };
    if node.len() < FIELDS {
        return None;
    }
    let count = u32_at(node, COUNT);
    let at = u32_at(node, LIST);
    if at == key {
        return None;
    }
    if count == 0 {
        let room = 0;
        return Some(ValueList { count, at, room });
    }
    let Ok(list) = image.cell(at, &mut looks) else {
        return None;
    };
    let room = list.len();
    if room < OFFSET * count as usize {
        return None;
    }
    Some(ValueList { count, at, room })
}

/// Writes the count of a key's values, the offset of their list, and the key's time.
pub(crate) fn put_values(
    image: &mut SavepointImage,
    key: u32,
    count: u32,
    list: u32,
    moment: u64,
) -> Result<(), Refusal>
    requires node { HasData image.old.bytes key 76 }
    ensures put { OnOk result (ChangesCell image.old.bytes image.new.bytes key
        (ValuesArePut count list moment)) }
    ensures saved { image.new.saved ≡ image.old.saved }
    ensures refused { IfErr result (λ why. why ≡ NoMemory) }
{
    image.write(key, COUNT, &u32_bytes(count))?;
    image.write(key, LIST, &u32_bytes(list))?;
    image.write(key, TIME, &u64_bytes(moment))
}

/// The same, and raises the upper bounds of the values' names and data.
pub(crate) fn put_more_values(
    image: &mut SavepointImage,
    key: u32,
    count: u32,
    list: u32,
    moment: u64,
    bounds: &ValueBounds,
) -> Result<(), Refusal>
    requires node { HasData image.old.bytes key 76 }
    ensures put { OnOk result (ChangesCell image.old.bytes image.new.bytes key
        (ValuesArePut count list moment)) }
    ensures saved { image.new.saved ≡ image.old.saved }
    ensures refused { IfErr result (λ why. why ≡ NoMemory) }
{
    put_values(image, key, count, list, moment)?;
    let old = value_bounds(image, key);
    let longest = u32_bytes(old.longest_name.max(bounds.longest_name));
    let largest = u32_bytes(old.largest_data.max(bounds.largest_data));
    image.write(key, LONGEST_NAME, &longest)?;
    image.write(key, LARGEST_DATA, &largest)
}

// the upper bounds of a key's values, as its node says
fn value_bounds(image: &SavepointImage, key: u32) -> ValueBounds
    requires node { HasData image.now.bytes key 76 }
{
    let mut looks = Looks::new();
    match image.cell(key, &mut looks) {
        Ok(node) => ValueBounds {
            longest_name: u32_at(node, LONGEST_NAME),
            largest_data: u32_at(node, LARGEST_DATA),
        },
        Err(_) => ValueBounds {
            longest_name: 0,
            largest_data: 0,
        },
    }
}
