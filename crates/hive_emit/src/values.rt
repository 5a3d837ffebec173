//! Values, and the list of a key's values.
ghost use Rattle.std.specs.Prelude.{◌≡◌, ◌<◌, ◌≤◌, length, sum_by, IfOk, IfErr, OnOk};
ghost use Rattle.std.specs.FinMap as finite;
ghost use Rattle.hive_emit.specs.CellWrites.{Makes, Uses, WriteRefused};
ghost use Rattle.hive_emit.specs.Values.{ValueAt, CanPut, CanPutAll, ListedValues, ValuesAt};
ghost use Rattle.hive_emit.specs.CellCosts.{value_cost, values_cost};

use crate::cells::{NIL, put_cell};
use crate::data::put_data;
use hive_cells::Image;
use hive_records::{put_large_value, put_offsets, put_small_value};
use refusals::Refusal;
use reg_tree_parts::{Value, Values};
use std::alloc::Global;

/// The most bytes of data that lie in a value's record.
pub(crate) const IN_RECORD_BYTES: usize = 4;

const _: () = prove!(IN_RECORD_BYTES == 4);

// puts a value whose data lie in its record
fn put_small(image: &mut Image, encoding: &mut Vec<u8>, value: &Value) -> Result<u32, Refusal>
    requires can { CanPut value.now }
    requires few { length value.now.data ≤ 4 }
    ensures made { IfOk result (λ at. Makes image.old.bytes image.new.bytes (ValueAt at value.now)) }
    ensures uses { OnOk result (Uses image.old.bytes image.new.bytes (value_cost value.now)) }
    ensures stops { IfErr result (WriteRefused image.old.bytes (value_cost value.now)) }
{
    let _kind = value.kind; // for the prover
    encoding.clear();
    put_small_value(encoding, value)?;
    match put_cell(image, encoding, encoding.len()) {
        Ok(at) => Ok(at),
        Err(why) => Err(why),
    }
}

// puts a value whose data lie elsewhere
fn put_large(
    alloc: Global,
    image: &mut Image,
    encoding: &mut Vec<u8>,
    value: &Value,
) -> Result<u32, Refusal>
    requires can { CanPut value.now }
    requires some { 4 < length value.now.data }
    ensures made { IfOk result (λ at. Makes image.old.bytes image.new.bytes (ValueAt at value.now)) }
    ensures uses { OnOk result (Uses image.old.bytes image.new.bytes (value_cost value.now)) }
    ensures stops { IfErr result (WriteRefused image.old.bytes (value_cost value.now)) }
{
    let _kind = value.kind; // for the prover
    let to = match put_data(alloc, image, encoding, value.data.bytes()) {
        Ok(to) => to,
        Err(why) => return Err(why),
    };
    encoding.clear();
    put_large_value(encoding, value, to)?;
    match put_cell(image, encoding, encoding.len()) {
        Ok(at) => Ok(at),
        Err(why) => Err(why),
    }
}

/// Puts a value; answers the cell of its record.
pub(crate) fn put_value(
    alloc: Global,
    image: &mut Image,
    encoding: &mut Vec<u8>,
    value: &Value,
) -> Result<u32, Refusal>
    requires { CanPut value.now }
    ensures made { IfOk result (λ at. Makes image.old.bytes image.new.bytes (ValueAt at value.now)) }
    ensures uses { OnOk result (Uses image.old.bytes image.new.bytes (value_cost value.now)) }
    ensures stops { IfErr result (WriteRefused image.old.bytes (value_cost value.now)) }
{
    if value.data.bytes().len() <= IN_RECORD_BYTES {
        put_small(image, encoding, value)
    } else {
        put_large(alloc, image, encoding, value)
    }
}

// puts values one after another; answers the cells of their records
fn put_each(
    alloc: Global,
    image: &mut Image,
    encoding: &mut Vec<u8>,
    values: &Values,
) -> Result<Vec<u32>, Refusal>
    requires { CanPutAll values.now }
    ensures made { IfOk result (λ cell_offsets. Makes image.old.bytes image.new.bytes
        (ListedValues cell_offsets.items (finite.values values.now))) }
    ensures count { IfOk result (λ cell_offsets. length cell_offsets.items ≡ finite.len values.now) }
    ensures uses { OnOk result (Uses image.old.bytes image.new.bytes (sum_by value_cost
        (finite.values values.now))) }
    ensures stops { IfErr result (WriteRefused image.old.bytes (sum_by value_cost
        (finite.values values.now))) }
{
    let mut cell_offsets = Vec::new(alloc);
    for index in 0..values.len() {
        let Some(value) = values.at(index) else {
            unreachable!();
        };
        let at = match put_value(alloc, image, encoding, value) {
            Ok(at) => at,
            Err(why) => return Err(why),
        };
        cell_offsets.push(at)?;
    }
    Ok(cell_offsets)
}

/// Puts values, and the list of them; answers the list's cell, or the offset of none if there are no values.
///
/// Refused with `NoMemory`. Refused otherwise only if the image has no free cell with room for all of it, or has
/// several.
pub fn put_values(
    alloc: Global,
    image: &mut Image,
    encoding: &mut Vec<u8>,
    values: &Values,
) -> Result<u32, Refusal>
    requires { CanPutAll values.now }
    ensures made { IfOk result (λ list. Makes image.old.bytes image.new.bytes
        (ValuesAt list values.now)) }
    ensures uses { OnOk result (Uses image.old.bytes image.new.bytes (values_cost values.now)) }
    ensures stops { IfErr result (WriteRefused image.old.bytes (values_cost values.now)) }
{
    if values.len() == 0 {
        return Ok(NIL);
    }
    let cell_offsets = match put_each(alloc, image, encoding, values) {
        Ok(cell_offsets) => cell_offsets,
        Err(why) => return Err(why),
    };
    encoding.clear();
    put_offsets(encoding, &cell_offsets)?;
    match put_cell(image, encoding, encoding.len()) {
        Ok(list) => Ok(list),
        Err(why) => Err(why),
    }
}
