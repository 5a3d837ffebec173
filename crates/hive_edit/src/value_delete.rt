//! A value is taken from a key.
ghost use Rattle.std.specs.Prelude.{◌≡◌, ◌<◌, ◌∷◌, ℕ, List, Ok, OnOk, IfErr};
ghost use Rattle.base_block.specs.declared.block.TheConstants.{MINOR_VERSION};
ghost use Rattle.refusals.specs.declared.refusal.Refusal.TheVariants.{NoMemory};
ghost use Rattle.hive_records.specs.Images.{BinsEncodeTree};
ghost use Rattle.reg_names.specs.Names.{folded, folded_path};
ghost use Rattle.reg_tree.specs.Maps.{TreeMap};
ghost use Rattle.reg_tree.specs.Operations.{tree_after};
ghost use Rattle.reg_tree.specs.declared.op.Op.TheVariants.{DeleteValue};
ghost use Rattle.hive_edit_laws.specs.Found.{ValueFound};
ghost use Rattle.hive_edit.specs.DataPlaces.{FreesCells};
ghost use Rattle.hive_edit.specs.SegmentCells.{data_cells_at};
ghost use Rattle.hive_edit.specs.ValueLists.{IsListOf, TakesFromList};
ghost use Rattle.hive_edit.specs.declared.outcome.Edit.TheVariants as edit;

use crate::cell_frees::free_cells;
use crate::keys::find_key;
use crate::node_edit::{ValueList, put_values, value_list};
use crate::offsets::OFFSET;
use crate::outcome::Edit;
use crate::segment_frees::free_big_record;
use crate::value_data::{DataPlace, data_place};
use crate::values::{ValuePlace, find_value};
use hive_savepoint::SavepointImage;
use refusals::Refusal;
use reg_names::Name;

// the offset of none
const NONE: u32 = 0xffff_ffff;

/// Deletes the value of a name of the key at a path.
pub(crate) fn delete_value(
    image: &mut SavepointImage,
    root: u32,
    path: &[Name],
    name: &Name,
    moment: u64,
) -> Result<Edit, Refusal>
    ensures done { result ≡ Ok edit.Done → (hive : ℕ) (tree : TreeMap) →
        BinsEncodeTree image.old.bytes root MINOR_VERSION tree →
        BinsEncodeTree image.new.bytes root MINOR_VERSION
        (tree_after tree (DeleteValue hive path.now name.now) moment) }
    ensures saved { image.new.saved ≡ image.old.saved }
    ensures refused { IfErr result (λ why. why ≡ NoMemory) }
{
    let Some(key) = find_key(image, root, path) else {
        return Ok(Edit::Rebuild);
    };
    let Some(place) = find_value(image, key, name.units()) else {
        return Ok(Edit::Rebuild);
    };
    delete_at(image, &place, moment)
}

// deletes the value at a place
fn delete_at(image: &mut SavepointImage, place: &ValuePlace, moment: u64) -> Result<Edit, Refusal>
    ensures done { result ≡ Ok edit.Done → (root hive : ℕ) (tree : TreeMap) (path : List (List ℕ))
        (name : List ℕ) → ValueFound image.old.bytes root MINOR_VERSION tree (folded_path path)
        (folded name) place.now.key place.now.index place.now.value →
        BinsEncodeTree image.new.bytes root MINOR_VERSION
        (tree_after tree (DeleteValue hive path name) moment) }
    ensures saved { image.new.saved ≡ image.old.saved }
    ensures refused { IfErr result (λ why. why ≡ NoMemory) }
{
    image.tiles(); // for the prover
    let Some(data) = data_place(image, place.value) else {
        return Ok(Edit::Rebuild);
    };
    let Some(list) = value_list(image, place.key) else {
        return Ok(Edit::Rebuild);
    };
    if list.count as usize <= place.index {
        return Ok(Edit::Rebuild);
    }
    match take_from_list(image, place.key, &list, place.index, moment)? {
        Edit::Rebuild => Ok(Edit::Rebuild),
        Edit::Done => {
            let freed = free_record(image, place.value, &data)?;
            image.tiles(); // for the prover
            Ok(freed)
        }
    }
}

// takes the offset at an index from a key's list, and frees the list if none is left
fn take_from_list(
    image: &mut SavepointImage,
    key: u32,
    list: &ValueList,
    index: usize,
    moment: u64,
) -> Result<Edit, Refusal>
    requires there { IsListOf image.old.bytes key list.now }
    requires here { index < list.now.count }
    ensures less { result ≡ Ok edit.Done → TakesFromList image.old.bytes image.new.bytes key index moment }
    ensures saved { image.new.saved ≡ image.old.saved }
    ensures refused { IfErr result (λ why. why ≡ NoMemory) }
{
    if list.count == 1 {
        return drop_list(image, key, list, moment);
    }
    shorten_list(image, key, list, index, moment)?;
    Ok(Edit::Done)
}

// takes the only offset from a key's list: the list is freed
fn drop_list(
    image: &mut SavepointImage,
    key: u32,
    list: &ValueList,
    moment: u64,
) -> Result<Edit, Refusal>
    requires there { IsListOf image.old.bytes key list.now }
    requires one { list.now.count ≡ 1 }
    ensures less { result ≡ Ok edit.Done → TakesFromList image.old.bytes image.new.bytes key 0 moment }
    ensures saved { image.new.saved ≡ image.old.saved }
    ensures refused { IfErr result (λ why. why ≡ NoMemory) }
{
    put_values(image, key, 0, NONE, moment)?;
    free_cells(image, &[list.at])
}

// takes the offset at an index from a key's list, of more than one: those after it are shifted over it
fn shorten_list(
    image: &mut SavepointImage,
    key: u32,
    list: &ValueList,
    index: usize,
    moment: u64,
) -> Result<(), Refusal>
    requires there { IsListOf image.old.bytes key list.now }
    requires here { index < list.now.count }
    ensures less { OnOk result (TakesFromList image.old.bytes image.new.bytes key index moment) }
    ensures saved { image.new.saved ≡ image.old.saved }
    ensures refused { IfErr result (λ why. why ≡ NoMemory) }
{
    image.tiles(); // for the prover
    let count = list.count as usize;
    let next = index + 1;
    image.shift(
        list.at,
        OFFSET * next,
        OFFSET * index,
        OFFSET * (count - next),
    )?;
    put_values(image, key, list.count - 1, list.at, moment)
}

/// Frees a value's record, and the cells of its data.
pub(crate) fn free_record(
    image: &mut SavepointImage,
    at: u32,
    data: &DataPlace,
) -> Result<Edit, Refusal>
    ensures freed { result ≡ Ok edit.Done → FreesCells image.old.bytes image.new.bytes
        (at ∷ data_cells_at image.old.bytes at data.now) }
    ensures saved { image.new.saved ≡ image.old.saved }
    ensures refused { IfErr result (λ why. why ≡ NoMemory) }
{
    match *data {
        DataPlace::InCell(its, _) => free_cells(image, &[at, its]),
        DataPlace::InSegments(..) => free_big_record(image, at),
        DataPlace::InRecord => free_cells(image, &[at]),
    }
}
