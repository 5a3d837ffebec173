//! An element put into a list of subkeys: where the list lies, or into a copy that has room.
ghost use Rattle.std.specs.Prelude.{◌≡◌, ◌⊎◌, ◌≤◌, ◌<◌, ◌+◌, ◌*◌, ◌^◌, ℕ, OnOk, IfOk, IfSome, IfErr};
ghost use Rattle.refusals.specs.declared.refusal.Refusal.TheVariants.{NoMemory};
ghost use Rattle.hive_cells.specs.Tiles.{IsAllocatedCell, cell_data};
ghost use Rattle.hive_savepoint.specs.Puts.{HasData, AddsCell};
ghost use Rattle.hive_edit.specs.SubkeyPlaces.{IsShapeOf};
ghost use Rattle.hive_edit.specs.LeafChanges.{PutsElement, FreesOldList};

use crate::cell_inserts::insert_cell;
use crate::leaf_edit::{ELEMENTS, LeafShape, lengthen_leaf};
use hive_cells::Looks;
use hive_savepoint::SavepointImage;
use refusals::Refusal;
use std::alloc::Global;

// the room that a new list has for more elements, at least
const LEAST_ROOM: usize = 8;

/// A new element of a list of subkeys.
#[derive(Clone, Copy)]
pub(crate) struct NewElement {
    /// Its index.
    pub(crate) index: usize,
    /// The offset that it has.
    pub(crate) offset: u32,
    /// What it has beside the offset, in a list whose elements have more than that.
    pub(crate) hint: u32,
}

/// For how many more elements a new list of `count` elements has room, if it may have `most` at most. At least one, if
/// it has fewer.
pub(crate) fn spare_elements(count: u16, most: u16) -> usize
    ensures some { count < most → 1 ≤ result }
    ensures few { result < 2 ^ 16 }
{
    (count as usize / 4)
        .max(LEAST_ROOM)
        .min(most.saturating_sub(count) as usize)
}

/// Puts an element into a list that has fewer than `most`. Without room it is put into a roomier copy, and the list's
/// own cell stays. Answers which cell it is. None if the image has no room.
pub(crate) fn insert_element(
    alloc: Global,
    image: &mut SavepointImage,
    list: u32,
    shape: LeafShape,
    most: u16,
    new: NewElement,
) -> Result<Option<u32>, Refusal>
    requires shape { IsShapeOf image.old.bytes list shape }
    requires few { shape.count < most }
    requires index { new.index ≤ shape.count }
    ensures put { IfOk result (λ made. IfSome made (PutsElement image.old.bytes image.new.bytes list shape new)) }
    ensures sizes { OnOk result ((cell len : ℕ) → HasData image.old.bytes cell len →
        HasData image.new.bytes cell len) }
    ensures saved { image.new.saved ≡ image.old.saved }
    ensures refused { IfErr result (λ why. why ≡ NoMemory) }
{
    image.tiles(); // for the prover
    if ELEMENTS + shape.stride * (shape.count as usize + 1) <= shape.room {
        lengthen_leaf(image, list, shape, new.index, new.offset, new.hint)?;
        return Ok(Some(list));
    }
    let Some(copy) = copy_list(alloc, image, list, shape, most)? else {
        return Ok(None);
    };
    image.tiles(); // for the prover
    lengthen_leaf(image, copy, shape, new.index, new.offset, new.hint)?;
    Ok(Some(copy))
}

// a new cell with a list's data, and room for more elements. None if the image has no room
fn copy_list(
    alloc: Global,
    image: &mut SavepointImage,
    list: u32,
    shape: LeafShape,
    most: u16,
) -> Result<Option<u32>, Refusal>
    requires shape { IsShapeOf image.old.bytes list shape }
    requires few { shape.count < most }
    ensures copied { IfOk result (λ made. IfSome made (λ at. AddsCell image.old.bytes image.new.bytes at
        (cell_data image.old.bytes list))) }
    ensures room { IfOk result (λ made. IfSome made (λ at. HasData image.new.bytes at
        (4 + shape.stride * (shape.count + 1)))) }
    ensures sizes { OnOk result ((cell len : ℕ) → HasData image.old.bytes cell len →
        HasData image.new.bytes cell len) }
    ensures saved { image.new.saved ≡ image.old.saved }
    ensures refused { IfErr result (λ why. why ≡ NoMemory) }
{
    image.tiles(); // for the prover
    let mut looks = Looks::new();
    let Ok(cell) = image.cell(list, &mut looks) else {
        return Ok(None);
    };
    let mut text = Vec::new(alloc);
    text.extend_from_slice(cell)?;
    let more = spare_elements(shape.count, most);
    insert_cell(image, &text, shape.stride * more)
}

/// Frees the old cell of a list that is in a new cell, if it is.
pub(crate) fn free_old_list(image: &mut SavepointImage, old: u32, new: u32) -> Result<(), Refusal>
    requires there { IsAllocatedCell image.old.bytes old }
    ensures freed { OnOk result (FreesOldList image.old.bytes image.new.bytes old new) }
    ensures saved { image.new.saved ≡ image.old.saved }
    ensures refused { IfErr result (λ why. why ≡ NoMemory) }
{
    if old == new {
        return Ok(());
    }
    image.free(old)
}
