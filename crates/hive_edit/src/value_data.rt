//! Where the data of a value are, and new data put into cells.
ghost use Rattle.std.specs.Prelude.{◌≡◌, ◌≤◌, ◌<◌, ◌∷◌, [], List, ℕ, false, length, IfSome, IfOk, IfErr, OnOk};
ghost use Rattle.refusals.specs.declared.refusal.Refusal.TheVariants.{NoMemory};
ghost use Rattle.hive_cells.specs.Tiles.{cell_data};
ghost use Rattle.hive_savepoint.specs.Puts.{HasData};
ghost use Rattle.hive_edit.specs.DataPlaces.{IsDataPlace, IsPlaceThere, IsInRecord, IsAtOffset, PutsData, place_cells};

use crate::data_inserts::insert_data;
use crate::numbers::u32_bytes;
use hive_cells::Looks;
use hive_records::{SEGMENT_BYTES, ValueRec};
use hive_savepoint::SavepointImage;
use refusals::Refusal;
use refusals::limits::MOST_VALUE_BYTES;
use reg_names::Name;
use std::alloc::Global;

// set in the size field of data that are in the record
const IN_RECORD: u32 = 0x8000_0000;

/// The most bytes of data in a record.
pub(crate) const MOST_IN_RECORD: usize = 4;

const _: () = prove!(IN_RECORD == 0x8000_0000);

const _: () = prove!(MOST_VALUE_BYTES == 1_048_576);

/// A value to be set.
#[derive(Drop)]
pub(crate) struct NewValue<'a> {
    /// Its name.
    pub(crate) name: &'a Name,
    /// Its type.
    pub(crate) kind: u32,
    /// Its data.
    pub(crate) data: &'a [u8],
}

/// Where the data of a value are.
#[derive(Clone, Copy)]
pub(crate) enum DataPlace {
    /// In the record, or nowhere.
    InRecord,
    /// In one cell, of which the data have so many bytes.
    InCell(u32, usize),
    /// In segments, by a db. The data have so many bytes.
    InSegments(u32, u32),
}

/// What a value's record is to say of new data.
#[derive(Clone, Copy)]
pub(crate) struct NewData {
    /// The size field.
    pub(crate) size: u32,
    /// The field after it: an offset, or data that are in the record.
    pub(crate) field: [u8; 4],
    /// Whether the cells of the old data are cells of the new.
    pub(crate) in_place: bool,
}

/// Where the data of the value are whose record is at an offset. None for a record that can't be read.
pub(crate) fn data_place(image: &SavepointImage, at: u32) -> Option<DataPlace>
    ensures place { IfSome result (IsDataPlace (cell_data image.now.bytes at)) }
    ensures there { IfSome result (IsPlaceThere image.now.bytes) }
{
    let mut looks = Looks::new();
    let Ok(cell) = image.cell(at, &mut looks) else {
        return None;
    };
    let Ok(value) = ValueRec::read(cell) else {
        return None;
    };
    let size = value.size;
    if IN_RECORD <= size || size == 0 {
        return Some(DataPlace::InRecord);
    }
    if SEGMENT_BYTES < size as usize {
        return Some(DataPlace::InSegments(value.offset, size));
    }
    match image.cell(value.offset, &mut looks) {
        Ok(cell) => Some(DataPlace::InCell(value.offset, cell.len())),
        Err(_) => None,
    }
}

/// Puts new data of a value into cells, if they aren't for its record: into the cell of the old data, if that is long
/// enough, or else into new ones. None for data over 1 MiB, and if the image has no room.
pub(crate) fn put_data(
    alloc: Global,
    image: &mut SavepointImage,
    old: &DataPlace,
    data: &[u8],
) -> Result<Option<NewData>, Refusal>
    requires there { IsPlaceThere image.old.bytes old.now }
    ensures put { IfOk result (λ made. IfSome made (PutsData image.old.bytes image.new.bytes
        (place_cells image.old.bytes old.now) data.now)) }
    ensures sizes { OnOk result ((cell len : ℕ) → HasData image.old.bytes cell len →
        HasData image.new.bytes cell len) }
    ensures saved { image.new.saved ≡ image.old.saved }
    ensures refused { IfErr result (λ why. why ≡ NoMemory) }
{
    if data.len() <= MOST_IN_RECORD {
        return Ok(Some(in_record(data)));
    }
    if MOST_VALUE_BYTES < data.len() {
        return Ok(None);
    }
    // longer data are in segments, whatever room the old cell has
    if let DataPlace::InCell(at, room) = *old
        && data.len() <= room
        && data.len() <= SEGMENT_BYTES
    {
        let new = put_in_cell(image, at, data)?;
        return Ok(Some(new));
    }
    put_in_new_cells(alloc, image, data)
}

// what a record says of data that are in it: zeros follow them
fn in_record(data: &[u8]) -> NewData
    requires { length data.now ≤ 4 }
    ensures { IsInRecord data.now result }
{
    let mut field = [0u8; 4];
    field[..data.len()].copy_from_slice(data);
    NewData {
        size: IN_RECORD + data.len() as u32,
        field,
        in_place: false,
    }
}

// what a record says of data in cells, to one of which an offset leads
fn at_offset(at: u32, data: &[u8], in_place: bool) -> NewData
    requires { length data.now ≤ 1_048_576 }
    ensures is { IsAtOffset data.now at result }
    ensures place { result.in_place ≡ in_place }
{
    NewData {
        size: data.len() as u32,
        field: u32_bytes(at),
        in_place,
    }
}

// puts data into the cell of the old data
fn put_in_cell(image: &mut SavepointImage, at: u32, data: &[u8]) -> Result<NewData, Refusal>
    requires room { HasData image.old.bytes at (length data.now) }
    requires some { 0 < length data.now }
    requires few { length data.now ≤ 16_344 }
    ensures put { IfOk result (PutsData image.old.bytes image.new.bytes (at ∷ []) data.now) }
    ensures sizes { OnOk result ((cell len : ℕ) → HasData image.old.bytes cell len →
        HasData image.new.bytes cell len) }
    ensures saved { image.new.saved ≡ image.old.saved }
    ensures refused { IfErr result (λ why. why ≡ NoMemory) }
{
    image.tiles(); // for the prover
    image.write(at, 0, data)?;
    Ok(at_offset(at, data, true))
}

// puts data into new cells
fn put_in_new_cells(
    alloc: Global,
    image: &mut SavepointImage,
    data: &[u8],
) -> Result<Option<NewData>, Refusal>
    requires some { 0 < length data.now }
    requires few { length data.now ≤ 1_048_576 }
    ensures put { IfOk result (λ made. IfSome made (λ new. (old : List ℕ) → PutsData image.old.bytes
        image.new.bytes old data.now new)) }
    ensures moved { IfOk result (λ made. IfSome made (λ new. new.in_place ≡ false)) }
    ensures sizes { OnOk result ((cell len : ℕ) → HasData image.old.bytes cell len →
        HasData image.new.bytes cell len) }
    ensures saved { image.new.saved ≡ image.old.saved }
    ensures refused { IfErr result (λ why. why ≡ NoMemory) }
{
    let Some(at) = insert_data(alloc, image, data)? else {
        return Ok(None);
    };
    Ok(Some(at_offset(at, data, false)))
}
