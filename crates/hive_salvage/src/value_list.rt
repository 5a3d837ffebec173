//! The values of a key, each kept or told as a loss.
ghost use Rattle.std.specs.Prelude.{◌≡◌, ◌⊎◌, ◌≤◌, ◌<◌, ◌*◌, ◌/◌, ◌^◌, ◌++◌, List, None, Ok, min, length, IfOk, OnOk, MatchResult};
ghost use Rattle.refusals.specs.declared.refusal.Refusal.TheVariants.{NoMemory};
ghost use Rattle.reg_names.specs.Names.{folded};
ghost use Rattle.hive_cells.specs.Bins.{Cells, Shows};
ghost use Rattle.hive_records.specs.Follows.{Follows};
ghost use Rattle.hive_records.specs.Values.{value_at};
ghost use Rattle.hive_load_parts.specs.CellReads.{marks_of};
ghost use Rattle.hive_salvage.specs.Events.{Event, Tells};
ghost use Rattle.hive_salvage.specs.Readings.{ListedValues, ValueFails, ValueIs, ValuesAre, room_told};
ghost use Rattle.key_walk.specs.KeyPaths.{names_on};
ghost use Rattle.std.specs.FinMap as finite;

use crate::errors::StepError;
use crate::loss::Part;
use crate::sink::{SalvageSink, tell};
use hive_cells::{Image, Looks};
use hive_load_parts::{Flags, look_once, value};
use hive_lookup::{ListKind, record_name};
use hive_records::u32_at;
use key_walk::KeyPath;
use refusals::{Cause, Refusal};
use reg_tree_parts::{Value, Values};
use std::alloc::Global;

// the bytes of an offset in a list
const OFFSET: usize = 4;

const _: () = prove!(OFFSET == 4);

/// The values of a key, whose number and whose list's offset its node says. What isn't read is told.
pub(crate) fn kept_values<S: SalvageSink>(
    alloc: Global,
    image: &Image,
    seen: &mut Flags,
    split: bool,
    sink: &mut S,
    path: &KeyPath<'_>,
    count: u32,
    at: u32,
) -> Result<Values, StepError<S::Error>>
    requires covers { length image.now.bytes ≤ 8 * length seen.old }
    ensures covers { length seen.new ≡ length seen.old }
    ensures kept { IfOk result (λ values. Tells S.Took sink.old sink.new image.now.bytes (λ cells told.
        ListedValues split cells (names_on path.now) count at (marks_of seen.old)
        (marks_of seen.new, values) told)) }
{
    if count == 0 {
        return Ok(Values::new());
    }
    let mut looks = Looks::new();
    let why = match look_once(image, seen, &mut looks, at) {
        Ok(list) => return with_room(alloc, image, seen, split, sink, path, count, at, list),
        Err(why) => why,
    };
    tell(sink, path, Part::ValueList, at, why)?;
    Ok(Values::new())
}

// those of the values for which their list has room; the lack of it is told
fn with_room<S: SalvageSink>(
    alloc: Global,
    image: &Image,
    seen: &mut Flags,
    split: bool,
    sink: &mut S,
    path: &KeyPath<'_>,
    count: u32,
    at: u32,
    list: &[u8],
) -> Result<Values, StepError<S::Error>>
    requires covers { length image.now.bytes ≤ 8 * length seen.old }
    ensures covers { length seen.new ≡ length seen.old }
    ensures kept { IfOk result (λ values. Tells S.Took sink.old sink.new image.now.bytes (λ cells told.
        (first rest : List Event) × room_told (names_on path.now) count at list.now first
        × ValuesAre split cells (names_on path.now) list.now (min (length list.now / 4) count)
        (marks_of seen.old, finite.empty) (marks_of seen.new, values) rest × (told ≡ first ++ rest))) }
{
    tell_room(sink, path, count, at, list)?;
    let room = (list.len() / OFFSET).min(count as usize);
    listed(alloc, image, seen, split, sink, path, room, list)
}

// tells it if a list has no room for all values
fn tell_room<S: SalvageSink>(
    sink: &mut S,
    path: &KeyPath<'_>,
    count: u32,
    at: u32,
    list: &[u8],
) -> Result<(), StepError<S::Error>>
    ensures { OnOk result ((events : List Event) × S.Took sink.old sink.new events
        × room_told (names_on path.now) count at list.now events) }
{
    if list.len() < OFFSET * count as usize {
        return tell(
            sink,
            path,
            Part::ValueCount,
            at,
            Refusal::from(Cause::BadRecord),
        );
    }
    Ok(())
}

// the first values of a list, one after another
fn listed<S: SalvageSink>(
    alloc: Global,
    image: &Image,
    seen: &mut Flags,
    split: bool,
    sink: &mut S,
    path: &KeyPath<'_>,
    room: usize,
    list: &[u8],
) -> Result<Values, StepError<S::Error>>
    requires covers { length image.now.bytes ≤ 8 * length seen.old }
    requires room { 4 * room ≤ length list.now }
    requires fits { room < 2 ^ 32 }
    ensures covers { length seen.new ≡ length seen.old }
    ensures kept { IfOk result (λ values. Tells S.Took sink.old sink.new image.now.bytes (λ cells told.
        ValuesAre split cells (names_on path.now) list.now room (marks_of seen.old, finite.empty)
        (marks_of seen.new, values) told)) }
{
    let mut values = Values::new();
    for place in 0..room {
        let at = u32_at(list, OFFSET * place);
        match keep_value(
            alloc,
            image,
            seen,
            split,
            sink,
            path,
            place,
            at,
            &mut values,
        ) {
            Ok(()) => {}
            Err(error) => return Err(error),
        }
    }
    Ok(values)
}

// keeps the value at an offset, or tells its loss
fn keep_value<S: SalvageSink>(
    alloc: Global,
    image: &Image,
    seen: &mut Flags,
    split: bool,
    sink: &mut S,
    path: &KeyPath<'_>,
    place: usize,
    at: u32,
    values: &mut Values,
) -> Result<(), StepError<S::Error>>
    requires covers { length image.now.bytes ≤ 8 * length seen.old }
    requires place { place < 2 ^ 32 }
    ensures covers { length seen.new ≡ length seen.old }
    ensures kept { OnOk result (Tells S.Took sink.old sink.new image.now.bytes (λ cells told.
        ValueIs split cells (names_on path.now) place at (marks_of seen.old, values.old)
        (marks_of seen.new, values.new) told)) }
{
    let value = match fresh_value(alloc, image, seen, split, at, values) {
        Ok(value) => value,
        Err(why) => return tell(sink, path, Part::Value(place as u32), at, why),
    };
    *values = values.with(alloc, &value.name, value.kind, &value.data)?;
    Ok(())
}

// the value at an offset, if there is none of its name yet. Its record is looked at first, so that what is no value isn't taken
fn fresh_value(
    alloc: Global,
    image: &Image,
    seen: &mut Flags,
    split: bool,
    at: u32,
    values: &Values,
) -> Result<Value, Refusal>
    requires covers { length image.now.bytes ≤ 8 * length seen.old }
    ensures covers { length seen.new ≡ length seen.old }
    ensures fresh { (cells : Cells) → Shows image.now.bytes cells → MatchResult result
        (λ value. Follows (value_at split at) cells (marks_of seen.old) (marks_of seen.new) (Ok value)
        × (finite.get values.now (folded value.name) ≡ None))
        (λ why. (why ≡ NoMemory) ⊎ ValueFails split cells (marks_of seen.old, values.now) at why) }
{
    if let Err(why) = record_name(alloc, image, ListKind::Values, at) {
        return Err(why);
    }
    let mut looks = Looks::new();
    let value = match value(alloc, image, seen, &mut looks, split, at) {
        Ok(value) => value,
        Err(why) => return Err(why),
    };
    if values.get(&value.name).is_some() {
        return Err(Refusal::from(Cause::BadName));
    }
    Ok(value)
}
