//! The cells of a key are freed.
ghost use Rattle.std.specs.Prelude.{◌≡◌, ◌<◌, ◌*◌, ◌^◌, ◌∷◌, ℕ, List, true, Ok, IfSome, IfErr};
ghost use Rattle.base_block.specs.declared.block.TheConstants.{MINOR_VERSION};
ghost use Rattle.refusals.specs.declared.refusal.Refusal.TheVariants.{NoMemory};
ghost use Rattle.reg_tree.specs.Maps.{TreeMap};
ghost use Rattle.hive_cells.specs.Tiles.{u32_at, cell_data};
ghost use Rattle.hive_edit_laws.specs.Found.{KeyFound};
ghost use Rattle.hive_edit_laws.specs.KeyCells.{class_cells};
ghost use Rattle.hive_edit_laws.specs.ValueEdits.{value_cells};
ghost use Rattle.hive_edit.specs.DataPlaces.{FreesCells};
ghost use Rattle.hive_edit.specs.ValueLists.{IsListOf};
ghost use Rattle.hive_edit.specs.OwnCells.{IsClassOf, FreesKey, FreesRecord, list_record_cells};
ghost use Rattle.hive_edit.specs.declared.outcome.Edit.TheVariants as edit;

use crate::cell_frees::free_cells;
use crate::node_edit::{ValueList, value_list};
use crate::offsets::OFFSET;
use crate::outcome::Edit;
use crate::segment_frees::word_at;
use crate::value_data::data_place;
use crate::value_delete::free_record;
use hive_cells::Looks;
use hive_records::KeyNode;
use hive_savepoint::SavepointImage;
use refusals::Refusal;

/// The class that a key's node names.
#[derive(Clone, Copy)]
pub(crate) struct KeyClass {
    /// The bytes of the class; 0 if there is none.
    pub(crate) len: u16,
    /// The offset of its cell.
    pub(crate) at: u32,
}

/// Frees the cells of the key whose node is at an offset: those of its values, its class, and its node. Its lists of
/// subkeys stay, and so does its security cell, which other keys may name.
pub(crate) fn free_key(image: &mut SavepointImage, key: u32) -> Result<Edit, Refusal>
    ensures freed { result ≡ Ok edit.Done → FreesKey image.old.bytes image.new.bytes key }
    ensures saved { image.new.saved ≡ image.old.saved }
    ensures refused { IfErr result (λ why. why ≡ NoMemory) }
{
    let Some(class) = class_of_key(image, key) else {
        return Ok(Edit::Rebuild);
    };
    match free_values(image, key)? {
        Edit::Rebuild => Ok(Edit::Rebuild),
        Edit::Done => free_node(image, key, class),
    }
}

// the class of the key whose node is at an offset
fn class_of_key(image: &SavepointImage, key: u32) -> Option<KeyClass>
    ensures { IfSome result (IsClassOf (cell_data image.now.bytes key)) }
{
    let mut looks = Looks::new();
    let Ok(cell) = image.cell(key, &mut looks) else {
        return None;
    };
    let Ok(node) = KeyNode::read(cell) else {
        return None;
    };
    Some(KeyClass {
        len: node.class_len,
        at: node.class,
    })
}

// frees a key's node, and the cell of its class if it has one
fn free_node(image: &mut SavepointImage, key: u32, class: KeyClass) -> Result<Edit, Refusal>
    ensures freed { result ≡ Ok edit.Done → (node : List ℕ) → IsClassOf node class →
        FreesCells image.old.bytes image.new.bytes (key ∷ class_cells node) }
    ensures saved { image.new.saved ≡ image.old.saved }
    ensures refused { IfErr result (λ why. why ≡ NoMemory) }
{
    if class.len == 0 {
        return free_cells(image, &[key]);
    }
    free_cells(image, &[key, class.at])
}

// frees the cells of a key's values, and their list
fn free_values(image: &mut SavepointImage, key: u32) -> Result<Edit, Refusal>
    ensures freed { result ≡ Ok edit.Done → (root : ℕ) (tree : TreeMap) (path : List (List ℕ)) →
        (found : KeyFound image.old.bytes root MINOR_VERSION tree path key) →
        FreesCells image.old.bytes image.new.bytes
        (value_cells true found.cells (cell_data image.old.bytes key)) }
    ensures saved { image.new.saved ≡ image.old.saved }
    ensures refused { IfErr result (λ why. why ≡ NoMemory) }
{
    let Some(list) = value_list(image, key) else {
        return Ok(Edit::Rebuild);
    };
    if list.count == 0 {
        return Ok(Edit::Done);
    }
    match free_records(image, key, &list)? {
        Edit::Rebuild => Ok(Edit::Rebuild),
        Edit::Done => free_cells(image, &[list.at]),
    }
}

// frees the records that a key's list of values names, and the cells of their data
fn free_records(image: &mut SavepointImage, key: u32, list: &ValueList) -> Result<Edit, Refusal>
    requires there { IsListOf image.old.bytes key list.now }
    ensures freed { result ≡ Ok edit.Done → (root : ℕ) (tree : TreeMap) (path : List (List ℕ)) →
        (found : KeyFound image.old.bytes root MINOR_VERSION tree path key) →
        FreesCells image.old.bytes image.new.bytes
        (list_record_cells image.old.bytes found.cells list.now.at list.now.count) }
    ensures saved { image.new.saved ≡ image.old.saved }
    ensures refused { IfErr result (λ why. why ≡ NoMemory) }
{
    for index in 0..list.count {
        match free_record_at(image, list.at, index)? {
            Edit::Rebuild => return Ok(Edit::Rebuild),
            Edit::Done => {}
        }
    }
    Ok(Edit::Done)
}

// frees the record whose offset is at an index of a list, and the cells of its data
fn free_record_at(image: &mut SavepointImage, list: u32, index: u32) -> Result<Edit, Refusal>
    ensures freed { result ≡ Ok edit.Done → FreesRecord image.old.bytes image.new.bytes
        (u32_at (cell_data image.old.bytes list) (4 * index)) }
    ensures saved { image.new.saved ≡ image.old.saved }
    ensures refused { IfErr result (λ why. why ≡ NoMemory) }
{
    let Some(at) = word_at(image, list, OFFSET * index as usize) else {
        return Ok(Edit::Rebuild);
    };
    let Some(place) = data_place(image, at) else {
        return Ok(Edit::Rebuild);
    };
    free_record(image, at, &place)
}
