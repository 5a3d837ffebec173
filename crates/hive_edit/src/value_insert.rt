//! A new value, put into new cells.
ghost use Rattle.std.specs.Prelude.{◌≡◌, ◌≤◌, ◌<◌, ◌^◌, true, ℕ, length, OnOk, IfOk, IfSome, IfErr};
ghost use Rattle.refusals.specs.declared.refusal.Refusal.TheVariants.{NoMemory};
ghost use Rattle.hive_records.specs.ValueEncodings.{ValueIsEncodable};
ghost use Rattle.hive_records.specs.NameEncodings.{AreUnits, name_bytes};
ghost use Rattle.hive_savepoint.specs.Puts.{HasData};
ghost use Rattle.hive_edit.specs.ValueRecords.{AddsRecord};

use crate::cell_inserts::insert_cell;
use crate::data_inserts::insert_data;
use crate::value_data::{MOST_IN_RECORD, NewValue};
use hive_records::{put_large_value, put_small_value};
use hive_savepoint::SavepointImage;
use refusals::Refusal;
use refusals::limits::MOST_VALUE_BYTES;
use reg_tree_parts::{Data, Value};
use std::alloc::Global;

// the most units of a name, which may take two bytes each
const MOST_UNITS: usize = 0x7fff;

const _: () = prove!(MOST_VALUE_BYTES == 1_048_576);

/// Puts a new value's record and data into new cells, and answers the record's. None for a name of more than 32,767
/// units, for data over 1 MiB, and if the image has no room.
pub(crate) fn insert_value(
    alloc: Global,
    image: &mut SavepointImage,
    value: &NewValue,
) -> Result<Option<u32>, Refusal>
    ensures added { IfOk result (λ made. IfSome made (AddsRecord image.old.bytes image.new.bytes
        (record { name = value.now.name.now; kind = value.now.kind; «data» = value.now.«data».now }))) }
    ensures sizes { OnOk result ((cell len : ℕ) → HasData image.old.bytes cell len →
        HasData image.new.bytes cell len) }
    ensures saved { image.new.saved ≡ image.old.saved }
    ensures refused { IfErr result (λ why. why ≡ NoMemory) }
{
    if !is_short(value.name.units()) || MOST_VALUE_BYTES < value.data.len() {
        return Ok(None);
    }
    let name = value.name.clone()?;
    let kind = value.kind;
    let data = Data::new(alloc, value.data)?;
    let value = Value { name, kind, data };
    if value.data.bytes().len() <= MOST_IN_RECORD {
        insert_small(alloc, image, &value)
    } else {
        insert_large(alloc, image, &value)
    }
}

// whether a name's bytes can be counted in a record
fn is_short(units: &[u16]) -> bool
    ensures { result ≡ true → AreUnits units.now × (length (name_bytes units.now) < 2 ^ 16) }
{
    units.len() <= MOST_UNITS
}

// puts a value whose data are in its record
fn insert_small(
    alloc: Global,
    image: &mut SavepointImage,
    value: &Value,
) -> Result<Option<u32>, Refusal>
    requires fits { ValueIsEncodable value.now }
    requires few { length value.now.«data» ≤ 4 }
    ensures added { IfOk result (λ made. IfSome made (AddsRecord image.old.bytes image.new.bytes
        value.now)) }
    ensures sizes { OnOk result ((cell len : ℕ) → HasData image.old.bytes cell len →
        HasData image.new.bytes cell len) }
    ensures saved { image.new.saved ≡ image.old.saved }
    ensures refused { IfErr result (λ why. why ≡ NoMemory) }
{
    let mut text = Vec::new(alloc);
    put_small_value(&mut text, value)?;
    insert_cell(image, &text, 0)
}

// puts a value whose data are in one cell, or in segments
fn insert_large(
    alloc: Global,
    image: &mut SavepointImage,
    value: &Value,
) -> Result<Option<u32>, Refusal>
    requires fits { ValueIsEncodable value.now }
    requires some { 0 < length value.now.«data» }
    requires few { length value.now.«data» ≤ 1_048_576 }
    ensures added { IfOk result (λ made. IfSome made (AddsRecord image.old.bytes image.new.bytes
        value.now)) }
    ensures sizes { OnOk result ((cell len : ℕ) → HasData image.old.bytes cell len →
        HasData image.new.bytes cell len) }
    ensures saved { image.new.saved ≡ image.old.saved }
    ensures refused { IfErr result (λ why. why ≡ NoMemory) }
{
    let Some(to) = insert_data(alloc, image, value.data.bytes())? else {
        return Ok(None);
    };
    let mut text = Vec::new(alloc);
    put_large_value(&mut text, value, to)?;
    insert_cell(image, &text, 0)
}
