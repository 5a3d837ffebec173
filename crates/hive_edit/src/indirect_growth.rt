//! A leaf of a list of lists gets one subkey more.
ghost use Rattle.std.specs.Prelude.{◌≡◌, ◌≢◌, ◌≤◌, ◌<◌, ◌+◌, ◌*◌, ◌^◌, ℕ, false, OnOk, IfOk, IfErr, IfSome};
ghost use Rattle.refusals.specs.declared.refusal.Refusal.TheVariants.{NoMemory};
ghost use Rattle.hive_savepoint.specs.Puts.{HasData};
ghost use Rattle.hive_edit.specs.Searches.{IsLeafAt};
ghost use Rattle.hive_edit.specs.SubkeyPlaces.{GrowsList, IsShapeOf};
ghost use Rattle.hive_edit.specs.LeafChanges.{KeepsSizes, PutsLeaf};

use crate::key_lists::KeyList;
use crate::leaf_edit::{ELEMENTS, LeafShape, MOST_ELEMENTS, leaf_shape};
use crate::leaf_growth::new_element;
use crate::leaf_insert::{NewElement, free_old_list, insert_element};
use crate::numbers::u32_bytes;
use crate::offsets::OFFSET;
use crate::subkeys::{LeafPlace, leaf_for};
use hive_savepoint::SavepointImage;
use refusals::Refusal;
use std::alloc::Global;

/// Puts a subkey of a name into a leaf of a key's list of lists. Answers the list's offset. None if that leaf is full, or
/// the image has no room.
pub(crate) fn grow_below(
    alloc: Global,
    image: &mut SavepointImage,
    list: KeyList,
    subkey: u32,
    name: &[u16],
) -> Result<Option<u32>, Refusal>
    requires some { list.count ≢ 0 }
    ensures grown { IfOk result (λ made. IfSome made (GrowsList image.old.bytes image.new.bytes list subkey)) }
    ensures sizes { OnOk result (KeepsSizes image.old.bytes image.new.bytes) }
    ensures saved { image.new.saved ≡ image.old.saved }
    ensures refused { IfErr result (λ why. why ≡ NoMemory) }
{
    let Some(place) = leaf_for(image, list.at, name) else {
        return Ok(None);
    };
    let Some(shape) = leaf_shape(image, place.leaf) else {
        return Ok(None);
    };
    if shape.is_indirect || MOST_ELEMENTS <= shape.count {
        return Ok(None);
    }
    let new = new_element(image, place.leaf, shape.count, subkey, name);
    grow_leaf_below(alloc, image, list, place, shape, new)
}

// puts a subkey into the leaf at a place
fn grow_leaf_below(
    alloc: Global,
    image: &mut SavepointImage,
    list: KeyList,
    place: LeafPlace,
    shape: LeafShape,
    new: NewElement,
) -> Result<Option<u32>, Refusal>
    requires some { list.count ≢ 0 }
    requires place { IsLeafAt image.old.bytes list.at place.index place.leaf }
    requires near { place.index < 2 ^ 16 }
    requires shape { IsShapeOf image.old.bytes place.leaf shape }
    requires direct { shape.is_indirect ≡ false }
    requires few { shape.count < 500 }
    requires index { new.index ≤ shape.count }
    ensures grown { IfOk result (λ made. IfSome made (GrowsList image.old.bytes image.new.bytes list new.offset)) }
    ensures sizes { OnOk result (KeepsSizes image.old.bytes image.new.bytes) }
    ensures saved { image.new.saved ≡ image.old.saved }
    ensures refused { IfErr result (λ why. why ≡ NoMemory) }
{
    image.tiles(); // for the prover
    let Some(leaf) = insert_element(alloc, image, place.leaf, shape, MOST_ELEMENTS, new)? else {
        return Ok(None);
    };
    put_leaf(image, list.at, place, leaf)?;
    free_old_list(image, place.leaf, leaf)?;
    Ok(Some(list.at))
}

// writes the offset of a leaf into a list of lists at a place, if another leaf is there
fn put_leaf(
    image: &mut SavepointImage,
    list: u32,
    place: LeafPlace,
    leaf: u32,
) -> Result<(), Refusal>
    requires near { place.index < 2 ^ 16 }
    requires room { HasData image.old.bytes list (4 + 4 * (place.index + 1)) }
    ensures put { OnOk result (PutsLeaf image.old.bytes image.new.bytes list place.index place.leaf leaf) }
    ensures sizes { OnOk result ((cell len : ℕ) → HasData image.old.bytes cell len →
        HasData image.new.bytes cell len) }
    ensures saved { image.new.saved ≡ image.old.saved }
    ensures refused { IfErr result (λ why. why ≡ NoMemory) }
{
    if place.leaf == leaf {
        return Ok(());
    }
    image.write(list, ELEMENTS + OFFSET * place.index, &u32_bytes(leaf))
}
