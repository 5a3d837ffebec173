//! A key's list of subkeys gets one more.
ghost use Rattle.std.specs.Prelude.{◌≡◌, ◌≢◌, ◌≤◌, ◌<◌, ◌+◌, ◌*◌, ℕ, false, OnOk, IfOk, IfErr, IfSome};
ghost use Rattle.refusals.specs.declared.refusal.Refusal.TheVariants.{NoMemory};
ghost use Rattle.hive_savepoint.specs.Puts.{HasData};
ghost use Rattle.hive_edit_laws.specs.Found.{HoldsList};
ghost use Rattle.hive_edit.specs.SubkeyPlaces.{GrowsList, IsShapeOf};
ghost use Rattle.hive_edit.specs.LeafChanges.{KeepsSizes};

use crate::indirect_growth::grow_below;
use crate::key_lists::KeyList;
use crate::leaf_edit::{ELEMENTS, LeafShape, MOST_ELEMENTS, leaf_shape, lengthen_leaf};
use crate::leaf_insert::{NewElement, free_old_list, insert_element, spare_elements};
use crate::leaf_split::split_full_leaf;
use crate::subkeys::place_in_leaf;
use hive_cells::Looks;
use hive_records::{name_hash, put_hashed_head, u32_at};
use hive_savepoint::SavepointImage;
use refusals::Refusal;
use std::alloc::Global;

// the bytes of an element of a new leaf
const ELEMENT: usize = 8;

/// Puts a subkey of a name into a key's list, or into a leaf of its list of lists. A full leaf is split first. A list
/// without room moves, and its old cell is freed. Cells that hold no list keep their sizes. Answers the list's offset.
///
/// None if the leaf has more elements than a leaf may have, the list of lists can't have one leaf more, the image has no
/// room, or a list breaks the rules.
pub(crate) fn grow_list(
    alloc: Global,
    image: &mut SavepointImage,
    list: KeyList,
    subkey: u32,
    name: &[u16],
) -> Result<Option<u32>, Refusal>
    ensures grown { IfOk result (λ made. IfSome made (GrowsList image.old.bytes image.new.bytes list subkey)) }
    ensures sizes { OnOk result ((cell len : ℕ) → ¬ HoldsList image.old.bytes cell →
        HasData image.old.bytes cell len → HasData image.new.bytes cell len) }
    ensures saved { image.new.saved ≡ image.old.saved }
    ensures refused { IfErr result (λ why. why ≡ NoMemory) }
{
    if list.count == 0 {
        return first_leaf(alloc, image, list, subkey, name);
    }
    let Some(at) = split_full_leaf(alloc, image, list, name)? else {
        return Ok(None);
    };
    let count = list.count;
    put_subkey(alloc, image, KeyList { count, at }, subkey, name)
}

// puts a subkey into a leaf of a key's list, which isn't full
fn put_subkey(
    alloc: Global,
    image: &mut SavepointImage,
    list: KeyList,
    subkey: u32,
    name: &[u16],
) -> Result<Option<u32>, Refusal>
    requires some { list.count ≢ 0 }
    ensures grown { IfOk result (λ made. IfSome made (GrowsList image.old.bytes image.new.bytes list subkey)) }
    ensures sizes { OnOk result (KeepsSizes image.old.bytes image.new.bytes) }
    ensures saved { image.new.saved ≡ image.old.saved }
    ensures refused { IfErr result (λ why. why ≡ NoMemory) }
{
    let Some(shape) = leaf_shape(image, list.at) else {
        return Ok(None);
    };
    if shape.is_indirect {
        return grow_below(alloc, image, list, subkey, name);
    }
    if MOST_ELEMENTS <= shape.count {
        return Ok(None);
    }
    let new = new_element(image, list.at, shape.count, subkey, name);
    grow_leaf(alloc, image, list, shape, new)
}

/// The element that a leaf of `count` subkeys is to have for another one, if it is sorted.
pub(crate) fn new_element(
    image: &SavepointImage,
    leaf: u32,
    count: u16,
    subkey: u32,
    name: &[u16],
) -> NewElement
    ensures index { result.index ≤ count }
    ensures offset { result.offset ≡ subkey }
{
    let hint = if has_letters(image, leaf) {
        first_letters(name)
    } else {
        name_hash(name)
    };
    NewElement {
        index: place_in_leaf(image, leaf, name).min(count as usize),
        offset: subkey,
        hint,
    }
}

// whether the list at an offset has the first letters of names beside their offsets (lf)
fn has_letters(image: &SavepointImage, leaf: u32) -> bool {
    let mut looks = Looks::new();
    match image.cell(leaf, &mut looks) {
        Ok(cell) => cell.starts_with(b"lf"),
        Err(_) => false,
    }
}

// the first four letters of a name, a byte each; zeros from a letter on that has no byte
fn first_letters(name: &[u16]) -> u32 {
    let mut letters = [0; 4];
    for place in 0..name.len().min(4) {
        let Ok(letter) = u8::try_from(name[place]) else {
            break;
        };
        letters[place] = letter;
    }
    u32_at(&letters, 0)
}

// puts a subkey into the leaf that is a key's list
fn grow_leaf(
    alloc: Global,
    image: &mut SavepointImage,
    list: KeyList,
    shape: LeafShape,
    new: NewElement,
) -> Result<Option<u32>, Refusal>
    requires some { list.count ≢ 0 }
    requires shape { IsShapeOf image.old.bytes list.at shape }
    requires direct { shape.is_indirect ≡ false }
    requires few { shape.count < 500 }
    requires index { new.index ≤ shape.count }
    ensures grown { IfOk result (λ made. IfSome made (GrowsList image.old.bytes image.new.bytes list new.offset)) }
    ensures sizes { OnOk result (KeepsSizes image.old.bytes image.new.bytes) }
    ensures saved { image.new.saved ≡ image.old.saved }
    ensures refused { IfErr result (λ why. why ≡ NoMemory) }
{
    image.tiles(); // for the prover
    let Some(made) = insert_element(alloc, image, list.at, shape, MOST_ELEMENTS, new)? else {
        return Ok(None);
    };
    free_old_list(image, list.at, made)?;
    Ok(Some(made))
}

// puts a subkey into a new leaf
fn first_leaf(
    alloc: Global,
    image: &mut SavepointImage,
    list: KeyList,
    subkey: u32,
    name: &[u16],
) -> Result<Option<u32>, Refusal>
    requires none { list.count ≡ 0 }
    ensures grown { IfOk result (λ made. IfSome made (GrowsList image.old.bytes image.new.bytes list subkey)) }
    ensures sizes { OnOk result (KeepsSizes image.old.bytes image.new.bytes) }
    ensures saved { image.new.saved ≡ image.old.saved }
    ensures refused { IfErr result (λ why. why ≡ NoMemory) }
{
    let mut text = Vec::new(alloc);
    put_hashed_head(&mut text, 0)?;
    let leaf = match image.insert(&text, ELEMENT * spare_elements(0, MOST_ELEMENTS)) {
        Ok(leaf) => leaf,
        Err(Refusal::TooLarge) => return Ok(None),
        Err(why) => return Err(why),
    };
    image.tiles(); // for the prover
    let Some(shape) = leaf_shape(image, leaf) else {
        return Ok(None);
    };
    if shape.count != 0 || shape.room < ELEMENTS + shape.stride {
        return Ok(None);
    }
    lengthen_leaf(image, leaf, shape, 0, subkey, name_hash(name))?;
    Ok(Some(leaf))
}
