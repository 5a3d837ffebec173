//! A value that is there gets a type and data.
ghost use Rattle.std.specs.Prelude.{◌≡◌, ◌≤◌, ◌+◌, ◌^◌, ℕ, List, length, OnOk, IfSome, Ok, IfErr};
ghost use Rattle.base_block.specs.declared.block.TheConstants.{MINOR_VERSION};
ghost use Rattle.refusals.specs.declared.refusal.Refusal.TheVariants.{NoMemory};
ghost use Rattle.hive_cells.specs.Tiles.{IsAllocatedCell, cell_data};
ghost use Rattle.hive_records.specs.Images.{BinsEncodeTree};
ghost use Rattle.reg_names.specs.Names.{folded, folded_path};
ghost use Rattle.reg_tree.specs.Maps.{TreeMap};
ghost use Rattle.reg_tree.specs.Operations.{tree_after};
ghost use Rattle.reg_tree.specs.declared.op.Op.TheVariants.{SetValue};
ghost use Rattle.hive_savepoint.specs.Puts.{HasData, ChangesCell};
ghost use Rattle.hive_edit_laws.specs.Found.{ValueFound};
ghost use Rattle.hive_edit_laws.specs.RecordEdits.{NodeTimeChanges};
ghost use Rattle.hive_edit.specs.DataPlaces.{IsPlaceThere, IsRecordText, RecordIsPut, PutsFields, FreesCells, freed_cells};
ghost use Rattle.hive_edit.specs.declared.outcome.Edit.TheVariants as edit;

use crate::cell_frees::free_cells;
use crate::keys::find_key;
use crate::numbers::{u32_bytes, u64_bytes};
use crate::outcome::Edit;
use crate::segment_frees::free_big_data;
use crate::value_data::{DataPlace, NewData, NewValue, data_place, put_data};
use crate::values::{ValuePlace, find_value};
use hive_cells::Looks;
use hive_records::u32_at;
use hive_savepoint::SavepointImage;
use refusals::Refusal;
use reg_names::Name;
use std::alloc::Global;

// where a key node has its time, and the bytes of the largest data of its values
const TIME: usize = 4;

const LARGEST_DATA: usize = 64;

// where a value's record has its size field, and its type
const SIZE: usize = 4;

/// Sets a value that is there.
pub(crate) fn set_value(
    alloc: Global,
    image: &mut SavepointImage,
    root: u32,
    path: &[Name],
    value: &NewValue,
    moment: u64,
) -> Result<Edit, Refusal>
    ensures done { result ≡ Ok edit.Done → (hive : ℕ) (tree : TreeMap) →
        BinsEncodeTree image.old.bytes root MINOR_VERSION tree →
        BinsEncodeTree image.new.bytes root MINOR_VERSION
        (tree_after tree (SetValue hive path.now value.now.name.now value.now.kind
        value.now.«data».now) moment) }
    ensures saved { image.new.saved ≡ image.old.saved }
    ensures refused { IfErr result (λ why. why ≡ NoMemory) }
{
    let Some(key) = find_key(image, root, path) else {
        return Ok(Edit::Rebuild);
    };
    let Some(place) = find_value(image, key, value.name.units()) else {
        return Ok(Edit::Rebuild);
    };
    set_at(alloc, image, &place, value.kind, value.data, moment)
}

// sets the value at a place
fn set_at(
    alloc: Global,
    image: &mut SavepointImage,
    place: &ValuePlace,
    kind: u32,
    data: &[u8],
    moment: u64,
) -> Result<Edit, Refusal>
    requires node { HasData image.old.bytes place.now.key 76 }
    requires value { HasData image.old.bytes place.now.value 20 }
    ensures done { result ≡ Ok edit.Done → (root hive : ℕ) (tree : TreeMap) (path : List (List ℕ))
        (name : List ℕ) → ValueFound image.old.bytes root MINOR_VERSION tree (folded_path path)
        (folded name) place.now.key place.now.index place.now.value →
        BinsEncodeTree image.new.bytes root MINOR_VERSION
        (tree_after tree (SetValue hive path name kind data.now) moment) }
    ensures saved { image.new.saved ≡ image.old.saved }
    ensures refused { IfErr result (λ why. why ≡ NoMemory) }
{
    image.tiles(); // for the prover
    let Some(old) = data_place(image, place.value) else {
        return Ok(Edit::Rebuild);
    };
    let Some(new) = put_data(alloc, image, &old, data)? else {
        return Ok(Edit::Rebuild);
    };
    put_fields(image, place, &new, kind, data.len(), moment)?;
    let freed = free_data(image, &old, &new)?;
    image.tiles(); // for the prover
    Ok(freed)
}

// writes what the value's record says, and the key's time
fn put_fields(
    image: &mut SavepointImage,
    place: &ValuePlace,
    new: &NewData,
    kind: u32,
    len: usize,
    moment: u64,
) -> Result<(), Refusal>
    requires node { HasData image.old.bytes place.now.key 76 }
    requires value { HasData image.old.bytes place.now.value 20 }
    ensures put { OnOk result (PutsFields image.old.bytes image.new.bytes place.now.key
        place.now.value new.now kind moment) }
    ensures sizes { OnOk result ((cell len : ℕ) → HasData image.old.bytes cell len →
        HasData image.new.bytes cell len) }
    ensures saved { image.new.saved ≡ image.old.saved }
    ensures refused { IfErr result (λ why. why ≡ NoMemory) }
{
    put_record(image, place.value, new, kind)?;
    put_time(
        image,
        place.key,
        moment,
        u32::try_from(len).unwrap_or(u32::MAX),
    )
}

// frees the cells of old data, unless the new data are in them
fn free_data(image: &mut SavepointImage, old: &DataPlace, new: &NewData) -> Result<Edit, Refusal>
    ensures freed { result ≡ Ok edit.Done → FreesCells image.old.bytes image.new.bytes
        (freed_cells image.old.bytes old.now new.now.in_place) }
    ensures saved { image.new.saved ≡ image.old.saved }
    ensures refused { IfErr result (λ why. why ≡ NoMemory) }
{
    if new.in_place {
        return Ok(Edit::Done);
    }
    match *old {
        DataPlace::InRecord => Ok(Edit::Done),
        DataPlace::InCell(at, _) => free_cells(image, &[at]),
        DataPlace::InSegments(db, size) => free_big_data(image, db, size),
    }
}

// writes what a value's record says of its data, and its type
fn put_record(image: &mut SavepointImage, at: u32, new: &NewData, kind: u32) -> Result<(), Refusal>
    requires room { HasData image.old.bytes at 20 }
    ensures put { OnOk result (ChangesCell image.old.bytes image.new.bytes at (RecordIsPut new.now kind)) }
    ensures saved { image.new.saved ≡ image.old.saved }
    ensures refused { IfErr result (λ why. why ≡ NoMemory) }
{
    image.write(at, SIZE, &record_text(new, kind))
}

// what a value's record says of its data, and its type
fn record_text(new: &NewData, kind: u32) -> [u8; 12]
    ensures { IsRecordText new.now kind result }
{
    let size = u32_bytes(new.size);
    let field = new.field;
    let kind = u32_bytes(kind);
    [
        size[0], size[1], size[2], size[3], field[0], field[1], field[2], field[3], kind[0],
        kind[1], kind[2], kind[3],
    ]
}

// writes a key's time, and the bytes of the largest data of its values if they are more now
fn put_time(image: &mut SavepointImage, key: u32, moment: u64, len: u32) -> Result<(), Refusal>
    requires node { HasData image.old.bytes key 76 }
    ensures put { OnOk result (ChangesCell image.old.bytes image.new.bytes key
        (λ its now. NodeTimeChanges its now moment)) }
    ensures saved { image.new.saved ≡ image.old.saved }
    ensures refused { IfErr result (λ why. why ≡ NoMemory) }
{
    let largest = largest_data(image, key).max(len);
    image.write(key, TIME, &u64_bytes(moment))?;
    image.write(key, LARGEST_DATA, &u32_bytes(largest))
}

// the bytes of the largest data of a key's values, as its node says
fn largest_data(image: &SavepointImage, key: u32) -> u32
    requires node { HasData image.now.bytes key 76 }
{
    let mut looks = Looks::new();
    match image.cell(key, &mut looks) {
        Ok(cell) => u32_at(cell, LARGEST_DATA),
        Err(_) => 0,
    }
}
