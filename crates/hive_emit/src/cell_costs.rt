//! What writing takes of an image's free cell at most, reckoned before it is written. So an image is made at once as
//! long as it has to be.
ghost use Rattle.std.specs.Prelude.{◌≡◌, ◌<◌, ◌^◌, length};
ghost use Rattle.hive_emit.specs.CellWrites.{cell_cost};
ghost use Rattle.hive_emit.specs.Values.{CanPut, CanPutAll};
ghost use Rattle.hive_emit.specs.CellCosts.{data_cost, value_cost, values_cost};

use crate::values::IN_RECORD_BYTES;
use hive_records::stored_len;
use reg_tree_parts::{Value, Values};

// the bytes of a value's record before its name
const RECORD_BYTES: usize = 20;

// data that have more than one segment are at least as long
const SEGMENTED_BYTES: usize = 16_345;

// what a segment takes beside its data at most, with its share of what leads to it
const BESIDE_SEGMENT: usize = 100;

// what a value takes in the list of a key's values at most
const IN_LIST: usize = 8;

/// The bytes of the least cell for data of a length.
pub fn cell_cost(len: usize) -> usize
    requires { len < 2 ^ 32 }
    ensures { result ≡ cell_cost len }
{
    (len + 11) / 8 * 8
}

// what data of a length take at most
fn data_cost(len: usize) -> usize
    requires { len < 2 ^ 29 }
    ensures { result ≡ data_cost len }
{
    if len <= IN_RECORD_BYTES {
        0
    } else {
        cell_cost(len) + BESIDE_SEGMENT * (len / SEGMENTED_BYTES)
    }
}

// what a value takes at most
fn value_cost(value: &Value) -> usize
    requires { CanPut value.now }
    ensures { result ≡ value_cost value.now }
{
    let _kind = value.kind; // for the prover
    let name = stored_len(value.name.units()) as usize;
    cell_cost(RECORD_BYTES + name) + data_cost(value.data.bytes().len())
}

/// What all values of a key take at most, with the list of them.
pub fn values_cost(values: &Values) -> usize
    requires can { CanPutAll values.now }
    requires fits { values_cost values.now < 2 ^ 32 }
    ensures { result ≡ values_cost values.now }
{
    let mut sum = 0;
    for index in 0..values.len() {
        let Some(value) = values.at(index) else {
            unreachable!();
        };
        sum += value_cost(value);
    }
    sum + IN_LIST * values.len()
}
