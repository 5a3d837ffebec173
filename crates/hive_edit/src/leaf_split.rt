//! A full leaf of a list of subkeys is split: the key has the same subkeys then, and there is room for more.
ghost use Rattle.std.specs.Prelude.{◌≡◌, ◌≢◌, ◌≤◌, ◌<◌, ◌+◌, ◌*◌, ◌^◌, ℕ, [], ◌∷◌, false, OnOk, IfOk, IfErr, IfSome};
ghost use Rattle.refusals.specs.declared.refusal.Refusal.TheVariants.{NoMemory};
ghost use Rattle.hive_cells.specs.Tiles.{cell_data};
ghost use Rattle.hive_records.specs.ListEncodings.{indirect, AreOffsets};
ghost use Rattle.hive_savepoint.specs.Puts.{HasData};
ghost use Rattle.hive_edit.specs.Searches.{IsLeafAt};
ghost use Rattle.hive_edit.specs.SubkeyPlaces.{IsShapeOf};
ghost use Rattle.hive_edit.specs.LeafChanges.{KeepsSizes, KeepsCells, KeepsList, HalvesLeaf, HasBack};

use crate::cell_inserts::insert_cell;
use crate::key_lists::KeyList;
use crate::leaf_edit::{COUNT, ELEMENTS, LeafShape, MOST_ELEMENTS, leaf_shape};
use crate::leaf_insert::{NewElement, free_old_list, insert_element, spare_elements};
use crate::numbers::u16_bytes;
use crate::offsets::OFFSET;
use crate::subkeys::{LeafPlace, leaf_for};
use hive_cells::Looks;
use hive_records::put_indirect;
use hive_savepoint::SavepointImage;
use refusals::Refusal;
use std::alloc::Global;

// the most leaves of a list of lists
const MOST_LEAVES: u16 = 0xffff;

/// Splits the leaf of a key's list that is to have a name, if it is full. Answers the list's offset. None if the image
/// has no room, or the list of lists can't have one leaf more.
pub(crate) fn split_full_leaf(
    alloc: Global,
    image: &mut SavepointImage,
    list: KeyList,
    name: &[u16],
) -> Result<Option<u32>, Refusal>
    requires some { list.count ≢ 0 }
    ensures kept { IfOk result (λ made. IfSome made (KeepsList image.old.bytes image.new.bytes list)) }
    ensures cells { IfOk result (λ made. IfSome made (λ at. KeepsCells image.old.bytes image.new.bytes)) }
    ensures sizes { OnOk result (KeepsSizes image.old.bytes image.new.bytes) }
    ensures saved { image.new.saved ≡ image.old.saved }
    ensures refused { IfErr result (λ why. why ≡ NoMemory) }
{
    let Some(shape) = leaf_shape(image, list.at) else {
        return Ok(None);
    };
    if shape.is_indirect {
        return split_below(alloc, image, list, name);
    }
    if shape.count != MOST_ELEMENTS {
        return Ok(Some(list.at));
    }
    split_alone(alloc, image, list, shape)
}

// splits the leaf that is a key's list: a list of lists has both halves
fn split_alone(
    alloc: Global,
    image: &mut SavepointImage,
    list: KeyList,
    shape: LeafShape,
) -> Result<Option<u32>, Refusal>
    requires some { list.count ≢ 0 }
    requires shape { IsShapeOf image.old.bytes list.at shape }
    requires direct { shape.is_indirect ≡ false }
    ensures kept { IfOk result (λ made. IfSome made (KeepsList image.old.bytes image.new.bytes list)) }
    ensures cells { IfOk result (λ made. IfSome made (λ at. KeepsCells image.old.bytes image.new.bytes)) }
    ensures sizes { OnOk result (KeepsSizes image.old.bytes image.new.bytes) }
    ensures saved { image.new.saved ≡ image.old.saved }
    ensures refused { IfErr result (λ why. why ≡ NoMemory) }
{
    image.tiles(); // for the prover
    let Some(second) = halve_leaf(alloc, image, list.at, shape)? else {
        return Ok(None);
    };
    let text = list_text(alloc, list.at, second)?;
    let Some(made) = insert_cell(image, &text, OFFSET * spare_elements(2, MOST_LEAVES))? else {
        return Ok(None);
    };
    Ok(Some(made))
}

// the bytes of a list of two lists
fn list_text(alloc: Global, first: u32, second: u32) -> Result<Vec<u8>, Refusal>
    ensures text { IfOk result (λ text. text.items ≡ indirect (first ∷ second ∷ [])) }
    ensures near { AreOffsets (first ∷ second ∷ []) }
    ensures refused { IfErr result (λ why. why ≡ NoMemory) }
{
    let mut text = Vec::new(alloc);
    put_indirect(&mut text, &[first, second])?;
    Ok(text)
}

// splits the leaf of a key's list of lists that is to have a name, if it is full
fn split_below(
    alloc: Global,
    image: &mut SavepointImage,
    list: KeyList,
    name: &[u16],
) -> Result<Option<u32>, Refusal>
    requires some { list.count ≢ 0 }
    ensures kept { IfOk result (λ made. IfSome made (KeepsList image.old.bytes image.new.bytes list)) }
    ensures cells { IfOk result (λ made. IfSome made (λ at. KeepsCells image.old.bytes image.new.bytes)) }
    ensures sizes { OnOk result (KeepsSizes image.old.bytes image.new.bytes) }
    ensures saved { image.new.saved ≡ image.old.saved }
    ensures refused { IfErr result (λ why. why ≡ NoMemory) }
{
    let Some(place) = leaf_for(image, list.at, name) else {
        return Ok(None);
    };
    let Some(shape) = leaf_shape(image, place.leaf) else {
        return Ok(None);
    };
    if shape.is_indirect {
        return Ok(None);
    }
    if shape.count != MOST_ELEMENTS {
        return Ok(Some(list.at));
    }
    split_leaf_below(alloc, image, list, place, shape)
}

// splits the leaf at a place of a key's list of lists
fn split_leaf_below(
    alloc: Global,
    image: &mut SavepointImage,
    list: KeyList,
    place: LeafPlace,
    shape: LeafShape,
) -> Result<Option<u32>, Refusal>
    requires some { list.count ≢ 0 }
    requires place { IsLeafAt image.old.bytes list.at place.index place.leaf }
    requires near { place.index < 2 ^ 16 }
    requires shape { IsShapeOf image.old.bytes place.leaf shape }
    requires direct { shape.is_indirect ≡ false }
    ensures kept { IfOk result (λ made. IfSome made (KeepsList image.old.bytes image.new.bytes list)) }
    ensures cells { IfOk result (λ made. IfSome made (λ at. KeepsCells image.old.bytes image.new.bytes)) }
    ensures sizes { OnOk result (KeepsSizes image.old.bytes image.new.bytes) }
    ensures saved { image.new.saved ≡ image.old.saved }
    ensures refused { IfErr result (λ why. why ≡ NoMemory) }
{
    image.tiles(); // for the prover
    let Some(second) = halve_leaf(alloc, image, place.leaf, shape)? else {
        return Ok(None);
    };
    let Some(lists) = leaf_shape(image, list.at) else {
        return Ok(None);
    };
    if lists.count == MOST_LEAVES || lists.count as usize <= place.index {
        return Ok(None);
    }
    let new = NewElement {
        index: place.index + 1,
        offset: second,
        hint: 0,
    };
    let Some(made) = insert_element(alloc, image, list.at, lists, MOST_LEAVES, new)? else {
        return Ok(None);
    };
    free_old_list(image, list.at, made)?;
    Ok(Some(made))
}

// moves the elements of a leaf from its middle on to a new leaf. Answers which cell that is. None if the image has no
// room
fn halve_leaf(
    alloc: Global,
    image: &mut SavepointImage,
    leaf: u32,
    shape: LeafShape,
) -> Result<Option<u32>, Refusal>
    requires shape { IsShapeOf image.old.bytes leaf shape }
    ensures halved { IfOk result (λ made. IfSome made (HalvesLeaf image.old.bytes image.new.bytes leaf)) }
    ensures sizes { OnOk result ((cell len : ℕ) → HasData image.old.bytes cell len →
        HasData image.new.bytes cell len) }
    ensures saved { image.new.saved ≡ image.old.saved }
    ensures refused { IfErr result (λ why. why ≡ NoMemory) }
{
    image.tiles(); // for the prover
    let half = shape.count / 2;
    let Some(text) = back_text(alloc, image, leaf, shape, half)? else {
        return Ok(None);
    };
    let more = spare_elements(shape.count - half, MOST_ELEMENTS);
    let Some(second) = insert_cell(image, &text, shape.stride * more)? else {
        return Ok(None);
    };
    image.write(leaf, COUNT, &u16_bytes(half))?;
    Ok(Some(second))
}

// the bytes of a leaf that has the elements of another from an index on
fn back_text(
    alloc: Global,
    image: &SavepointImage,
    leaf: u32,
    shape: LeafShape,
    half: u16,
) -> Result<Option<Vec<u8>>, Refusal>
    requires shape { IsShapeOf image.now.bytes leaf shape }
    requires within { half ≤ shape.count }
    ensures text { IfOk result (λ made. IfSome made (λ text. HasBack (cell_data image.now.bytes leaf)
        text.items shape.stride shape.count half)) }
    ensures refused { IfErr result (λ why. why ≡ NoMemory) }
{
    image.tiles(); // for the prover
    let mut looks = Looks::new();
    let Ok(cell) = image.cell(leaf, &mut looks) else {
        return Ok(None);
    };
    let end = ELEMENTS + shape.stride * shape.count as usize;
    if cell.len() < end {
        return Ok(None);
    }
    let elements = &cell[ELEMENTS + shape.stride * half as usize..end];
    let mut text = Vec::new(alloc);
    text.extend_from_slice(&cell[..COUNT])?;
    text.extend_from_slice(&u16_bytes(shape.count - half))?;
    text.extend_from_slice(elements)?;
    Ok(Some(text))
}
