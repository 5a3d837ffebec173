//! A leaf of a list of subkeys, edited where it lies.
ghost use Rattle.std.specs.Prelude.{◌≡◌, ◌<◌, ◌≤◌, ◌+◌, ◌*◌, ◌-◌, ℕ, OnOk, IfSome, IfErr};
ghost use Rattle.refusals.specs.declared.refusal.Refusal.TheVariants.{NoMemory};
ghost use Rattle.hive_savepoint.specs.Puts.{HasData, ChangesCell};
ghost use Rattle.hive_edit.specs.SubkeyPlaces.{IsShapeOf, LeafLoses, LeafGains};

use crate::numbers::{u16_bytes, u32_bytes};
use hive_cells::Looks;
use hive_records::SubkeyList;
use hive_savepoint::SavepointImage;
use refusals::Refusal;

/// Where a list has the number of its elements.
pub(crate) const COUNT: usize = 2;

/// Where a list has its elements.
pub(crate) const ELEMENTS: usize = 4;

/// The most elements of a leaf.
pub(crate) const MOST_ELEMENTS: u16 = 500;

const _: () = prove!(MOST_ELEMENTS == 500);

// the most bytes of an element
const WIDEST: usize = 8;

/// The elements of a leaf.
#[derive(Clone, Copy)]
pub(crate) struct LeafShape {
    /// The bytes of an element.
    pub(crate) stride: usize,
    /// How many elements there are.
    pub(crate) count: u16,
    /// Whether the elements are offsets of lists.
    pub(crate) is_indirect: bool,
    /// The bytes of the list's cell.
    pub(crate) room: usize,
}

/// The elements of the list at an offset. None if there is no list.
pub(crate) fn leaf_shape(image: &SavepointImage, leaf: u32) -> Option<LeafShape>
    ensures { IfSome result (λ shape. IsShapeOf image.now.bytes leaf shape) }
{
    let mut looks = Looks::new();
    let Ok(cell) = image.cell(leaf, &mut looks) else {
        return None;
    };
    let Ok(list) = SubkeyList::read(cell) else {
        return None;
    };
    let shape = LeafShape {
        stride: list.stride,
        count: list.count,
        is_indirect: list.is_indirect,
        room: cell.len(),
    };
    if shape.stride < ELEMENTS
        || WIDEST < shape.stride
        || cell.len() < ELEMENTS + shape.stride * shape.count as usize
    {
        return None;
    }
    Some(shape)
}

/// Takes the element at an index from a leaf.
pub(crate) fn shorten_leaf(
    image: &mut SavepointImage,
    leaf: u32,
    shape: LeafShape,
    index: usize,
) -> Result<(), Refusal>
    requires shape { IsShapeOf image.old.bytes leaf shape }
    requires within { index < shape.count }
    ensures put { OnOk result (ChangesCell image.old.bytes image.new.bytes leaf
        (λ its now. LeafLoses its now shape.stride (shape.count - 1) index)) }
    ensures saved { image.new.saved ≡ image.old.saved }
    ensures refused { IfErr result (λ why. why ≡ NoMemory) }
{
    let count = shape.count - 1;
    let rest = count as usize - index;
    let to = ELEMENTS + shape.stride * index;
    image.shift(leaf, to + shape.stride, to, shape.stride * rest)?;
    image.write(leaf, COUNT, &u16_bytes(count))
}

/// Puts an element into a leaf at an index: a subkey's offset, and what the leaf has beside offsets, if it has.
pub(crate) fn lengthen_leaf(
    image: &mut SavepointImage,
    leaf: u32,
    shape: LeafShape,
    index: usize,
    subkey: u32,
    hint: u32,
) -> Result<(), Refusal>
    requires room { HasData image.old.bytes leaf (4 + shape.stride * (shape.count + 1)) }
    requires within { index ≤ shape.count }
    requires wide { 4 ≤ shape.stride }
    requires narrow { shape.stride ≤ 8 }
    requires few { shape.count < 65_535 }
    ensures put { OnOk result (ChangesCell image.old.bytes image.new.bytes leaf
        (λ its now. LeafGains its now shape.stride shape.count index subkey)) }
    ensures saved { image.new.saved ≡ image.old.saved }
    ensures refused { IfErr result (λ why. why ≡ NoMemory) }
{
    let rest = shape.count as usize - index;
    let place = ELEMENTS + shape.stride * index;
    image.shift(leaf, place, place + shape.stride, shape.stride * rest)?;
    // an element without a hint has its offset there, which is written next
    image.write(leaf, place + shape.stride - ELEMENTS, &u32_bytes(hint))?;
    image.write(leaf, place, &u32_bytes(subkey))?;
    image.write(leaf, COUNT, &u16_bytes(shape.count + 1))
}
