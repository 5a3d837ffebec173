//! Values, and their data.
ghost use Rattle.std.specs.Prelude.{◌≡◌, ◌≤◌, ◌*◌, ◌&&◌, ◌⊎◌, nat_lt, true, false, length, MatchResult};
ghost use Rattle.refusals.specs.declared.refusal.Refusal.TheVariants.{NoMemory, HiveDamaged};
ghost use Rattle.refusals.specs.declared.refusal.Cause.TheVariants.{BadName};
ghost use Rattle.hive_records.specs.Readers.{each};
ghost use Rattle.hive_records.specs.Numbers.{words_from};
ghost use Rattle.hive_records.specs.Names.{all_apart};
ghost use Rattle.hive_records.specs.RecordReaders.{data_from};
ghost use Rattle.hive_records.specs.Values.{segment_bytes, value_at, values_at, map_of};
ghost use Rattle.hive_load_parts.specs.CellReads.{Spreads, AnswersLikeReader, Works, names_in};

use crate::big::big_data;
use crate::cells::{cell_prefix, look_once};
use crate::flags::Flags;
use crate::names::name_of;
use hive_cells::{Image, Looks};
use hive_records::{SEGMENT_BYTES, ValueRec, u32_at};
use refusals::{Cause, Refusal};
use reg_tree_parts::{Data, Value, Values};
use std::alloc::Global;

// set in the size of data that lie in the record
const IN_RECORD: u32 = 0x8000_0000;

const _: () = prove!(IN_RECORD == 0x8000_0000);

// the bytes of an offset in a list
const OFFSET: usize = 4;

const _: () = prove!(OFFSET == 4);

/// The data of a value, from its record on. Big data lie in segments if `split` says so.
#[tactic(auto, using(crate::proofs::Spread::spreads_on))]
fn data_of(
    alloc: Global,
    image: &Image,
    seen: &mut Flags,
    looks: &mut Looks,
    split: bool,
    value: &ValueRec,
) -> Result<Data, Refusal>
    requires covers { length image.now.bytes ≤ 8 * length seen.old }
    ensures reads { AnswersLikeReader (λ its. its) (data_from split value.now.size value.now.offset
        value.now.small.now) image.now.bytes seen.old seen.new result }
    ensures covers { length seen.new ≡ length seen.old }
    ensures spreads { Spreads image.now.bytes seen.old seen.new }
    ensures works { Works looks.old looks.new seen.old seen.new result }
{
    if IN_RECORD <= value.size {
        let len = (value.size - IN_RECORD) as usize;
        let small = &value.small[..len.min(value.small.len())];
        return Ok(Data::new(alloc, small)?);
    }
    if value.size == 0 {
        return Ok(Data::new(alloc, &[])?);
    }
    if is_big(split, value.size) {
        let bytes = match big_data(alloc, image, seen, looks, value.size, value.offset) {
            Ok(bytes) => bytes,
            Err(refusal) => return Err(refusal),
        };
        return Ok(Data::from_vec(bytes)?);
    }
    let bytes = match cell_prefix(image, seen, looks, value.size as usize, value.offset) {
        Ok(bytes) => bytes,
        Err(refusal) => return Err(refusal),
    };
    Ok(Data::new(alloc, bytes)?)
}

// whether data of a size lie in segments
fn is_big(split: bool, size: u32) -> bool
    ensures { result ≡ (split && nat_lt segment_bytes size) }
{
    split && SEGMENT_BYTES < size as usize
}

/// The value whose record is at an offset. `split` says whether data past 16,344 bytes are in segments.
///
/// Refused as the definition of a value refuses, with `Shared` at a cell that was met before, and with `NoMemory`.
#[tactic(auto, using(crate::proofs::Spread::spreads_on))]
pub fn value(
    alloc: Global,
    image: &Image,
    seen: &mut Flags,
    looks: &mut Looks,
    split: bool,
    at: u32,
) -> Result<Value, Refusal>
    requires covers { length image.now.bytes ≤ 8 * length seen.old }
    ensures reads { AnswersLikeReader (λ value. value) (value_at split at) image.now.bytes seen.old seen.new
        result }
    ensures covers { length seen.new ≡ length seen.old }
    ensures spreads { Spreads image.now.bytes seen.old seen.new }
    ensures works { Works looks.old looks.new seen.old seen.new result }
{
    let cell = match look_once(image, seen, looks, at) {
        Ok(cell) => cell,
        Err(refusal) => return Err(refusal),
    };
    let record = match ValueRec::read(cell) {
        Ok(record) => record,
        Err(refusal) => return Err(refusal),
    };
    let data = match data_of(alloc, image, seen, looks, split, &record) {
        Ok(data) => data,
        Err(refusal) => return Err(refusal),
    };
    let name = name_of(alloc, &record.name)?;
    Ok(Value {
        name,
        kind: record.kind,
        data,
    })
}

/// The values of a key that says how many they are and where their list is.
#[tactic(auto, using(crate::proofs::Spread::spreads_on))]
pub(crate) fn values(
    alloc: Global,
    image: &Image,
    seen: &mut Flags,
    looks: &mut Looks,
    split: bool,
    count: u32,
    at: u32,
) -> Result<Values, Refusal>
    requires covers { length image.now.bytes ≤ 8 * length seen.old }
    ensures reads { AnswersLikeReader (λ values. values) (values_at split count at) image.now.bytes seen.old
        seen.new result }
    ensures covers { length seen.new ≡ length seen.old }
    ensures spreads { Spreads image.now.bytes seen.old seen.new }
    ensures works { Works looks.old looks.new seen.old seen.new result }
{
    if count == 0 {
        return Ok(Values::new());
    }
    let list = match look_once(image, seen, looks, at) {
        Ok(list) => list,
        Err(refusal) => return Err(refusal),
    };
    if list.len() < OFFSET * count as usize {
        return Err(Refusal::from(Cause::BadRecord));
    }
    let found = match listed(alloc, image, seen, looks, split, count, list) {
        Ok(found) => found,
        Err(refusal) => return Err(refusal),
    };
    mapped(alloc, &found)
}

// the values whose offsets are in a list, one after another
#[tactic(auto, using(crate::proofs::Spread::spreads_on))]
fn listed(
    alloc: Global,
    image: &Image,
    seen: &mut Flags,
    looks: &mut Looks,
    split: bool,
    count: u32,
    list: &[u8],
) -> Result<Vec<Value>, Refusal>
    requires covers { length image.now.bytes ≤ 8 * length seen.old }
    requires fits { 4 * count ≤ length list.now }
    ensures reads { AnswersLikeReader (λ found. found.items) (each (value_at split)
        (words_from list.now 0 4 count)) image.now.bytes seen.old seen.new result }
    ensures covers { length seen.new ≡ length seen.old }
    ensures spreads { Spreads image.now.bytes seen.old seen.new }
    ensures works { Works looks.old looks.new seen.old seen.new result }
{
    let mut found = Vec::new(alloc);
    for index in 0..count as usize {
        let at = u32_at(list, OFFSET * index);
        let value = match value(alloc, image, seen, looks, split, at) {
            Ok(value) => value,
            Err(refusal) => return Err(refusal),
        };
        found.push(value)?;
    }
    Ok(found)
}

// the values by their names, which differ
fn mapped(alloc: Global, found: &[Value]) -> Result<Values, Refusal>
    ensures { MatchResult result (λ values. (all_apart (names_in found.now) ≡ true)
        × (values ≡ map_of found.now)) (λ refusal. (refusal ≡ NoMemory)
        ⊎ ((refusal ≡ HiveDamaged 0 BadName) × (all_apart (names_in found.now) ≡ false))) }
{
    let mut values = Values::new();
    for value in found {
        if values.get(&value.name).is_some() {
            return Err(Refusal::from(Cause::BadName));
        }
        values = values.with(alloc, &value.name, value.kind, &value.data)?;
    }
    Ok(values)
}
