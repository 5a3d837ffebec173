//! A key's subkeys, found in its list by their names.
ghost use Rattle.std.specs.Prelude.{◌≡◌, ◌<◌, ◌≤◌, ◌*◌, ◌^◌, length, IfSome};
ghost use Rattle.reg_names.specs.Names.{folded};
ghost use Rattle.hive_cells.specs.Tiles.{cell_data};
ghost use Rattle.hive_records.specs.Heads.{IsSubkeyList};
ghost use Rattle.hive_edit_laws.specs.Found.{HoldsList};
ghost use Rattle.hive_edit.specs.declared.search.RecordKind.TheVariants.{Key};
ghost use Rattle.hive_edit.specs.Searches.{IsLeafAt, IsLeafSlot, IsNamedAt, IsSlotOf};

use crate::offsets::Offsets;
use crate::search::{RecordKind, find, order_at};
use hive_cells::Looks;
use hive_records::SubkeyList;
use hive_savepoint::SavepointImage;
use std::cmp::Ordering;

/// Where a key's list has a subkey.
#[derive(Clone, Copy)]
pub(crate) struct SubkeySlot {
    /// The index of the leaf in the key's list, if that is a list of lists.
    pub(crate) leaf_index: Option<usize>,
    /// The leaf.
    pub(crate) leaf: u32,
    /// The index in the leaf.
    pub(crate) index: usize,
    /// The cell of the subkey's node.
    pub(crate) subkey: u32,
}

/// Where the list at an offset has the subkey of a name. None may be given also if there is one, but not if lists are
/// whole.
pub(crate) fn find_slot(image: &SavepointImage, list: u32, name: &[u16]) -> Option<SubkeySlot>
    ensures { IfSome result (λ slot. IsSlotOf image.now.bytes list slot
        × IsNamedAt Key image.now.bytes slot.subkey (folded name.now)) }
{
    let lists = read_list(image, list)?;
    if !lists.is_indirect {
        let slot = find_in_leaf(image, None, list, name)?;
        return Some(slot);
    }
    let leaves = elements(&lists);
    if leaves.count == 0 {
        return None;
    }
    let likely = likely_leaf(image, &leaves, name);
    if let Some(slot) = find_in_leaf(image, Some(likely), leaves.get(likely), name) {
        return Some(slot);
    }
    for index in 0..leaves.count {
        if let Some(slot) = find_in_leaf(image, Some(index), leaves.get(index), name) {
            return Some(slot);
        }
    }
    None
}

// where a leaf has the subkey of a name
fn find_in_leaf(
    image: &SavepointImage,
    leaf_index: Option<usize>,
    leaf: u32,
    name: &[u16],
) -> Option<SubkeySlot>
    ensures { IfSome result (λ slot. (slot.leaf_index ≡ leaf_index) × (slot.leaf ≡ leaf)
        × IsLeafSlot image.now.bytes leaf slot.index slot.subkey
        × IsNamedAt Key image.now.bytes slot.subkey (folded name.now)) }
{
    let list = read_list(image, leaf)?;
    if list.is_indirect {
        return None;
    }
    let offsets = elements(&list);
    let index = find(image, RecordKind::Key, &offsets, name)?;
    Some(SubkeySlot {
        leaf_index,
        leaf,
        index,
        subkey: offsets.get(index),
    })
}

// the index of the leaf that has a name if leaves are sorted: the last one that doesn't begin after it
fn likely_leaf(image: &SavepointImage, leaves: &Offsets, name: &[u16]) -> usize
    requires { 0 < leaves.now.count }
    ensures { result < leaves.now.count }
{
    let mut low = 0;
    let mut high = leaves.count;
    while low + 1 < high {
        let middle = low + (high - low) / 2;
        match first_order(image, leaves.get(middle), name) {
            Some(Ordering::Less | Ordering::Equal) => low = middle,
            Some(Ordering::Greater) | None => high = middle,
        }
    }
    low
}

/// A leaf of a list of lists.
#[derive(Clone, Copy)]
pub(crate) struct LeafPlace {
    /// The index of its offset in the list of lists.
    pub(crate) index: usize,
    /// The leaf.
    pub(crate) leaf: u32,
}

/// The leaf of a list of lists that is to have a name, if leaves are sorted. None if the list at the offset is no list of
/// lists, or names no leaf. None also if the leaf behind that one is empty: it can't tell where the name belongs.
pub(crate) fn leaf_for(image: &SavepointImage, list: u32, name: &[u16]) -> Option<LeafPlace>
    ensures place { IfSome result (λ place. IsLeafAt image.now.bytes list place.index place.leaf) }
    ensures near { IfSome result (λ place. place.index < 2 ^ 16) }
{
    let lists = read_list(image, list)?;
    if !lists.is_indirect {
        return None;
    }
    let leaves = elements(&lists);
    if leaves.count == 0 {
        return None;
    }
    let index = likely_leaf(image, &leaves, name);
    if index + 1 < leaves.count {
        first_order(image, leaves.get(index + 1), name)?;
    }
    Some(LeafPlace {
        index,
        leaf: leaves.get(index),
    })
}

// how a leaf's first name is ordered to a name
fn first_order(image: &SavepointImage, leaf: u32, name: &[u16]) -> Option<Ordering> {
    let list = read_list(image, leaf)?;
    let offsets = elements(&list);
    if offsets.count == 0 {
        return None;
    }
    order_at(image, RecordKind::Key, offsets.get(0), name)
}

// the list of subkeys at an offset
fn read_list(image: &SavepointImage, at: u32) -> Option<SubkeyList<'_>>
    ensures holds { IfSome result (λ list. HoldsList image.now.bytes at) }
    ensures is { IfSome result (λ list. IsSubkeyList list (cell_data image.now.bytes at)) }
    ensures wide { IfSome result (λ list. 4 ≤ list.stride) }
    ensures fits { IfSome result (λ list. list.stride * list.count ≤ length list.elements.now) }
{
    let mut looks = Looks::new();
    let Ok(cell) = image.cell(at, &mut looks) else {
        return None;
    };
    let Ok(list) = SubkeyList::read(cell) else {
        return None;
    };
    Some(list)
}

// the elements of a list
fn elements<'a>(list: &SubkeyList<'a>) -> Offsets<'a>
    requires wide { 4 ≤ list.now.stride }
    requires fits { list.now.stride * list.now.count ≤ length list.now.elements.now }
    ensures bytes { result.bytes ≡ list.now.elements }
    ensures stride { result.stride ≡ list.now.stride }
    ensures count { result.count ≡ list.now.count }
{
    Offsets {
        bytes: list.elements,
        stride: list.stride,
        count: list.count as usize,
    }
}

/// Where a leaf is to have the subkey of a name, if it is sorted: before the first one that doesn't come before it.
pub(crate) fn place_in_leaf(image: &SavepointImage, leaf: u32, name: &[u16]) -> usize {
    let Some(list) = read_list(image, leaf) else {
        return 0;
    };
    let offsets = elements(&list);
    let mut low = 0;
    let mut high = offsets.count;
    while low < high {
        let middle = low + (high - low) / 2;
        match order_at(image, RecordKind::Key, offsets.get(middle), name) {
            Some(Ordering::Less) => low = middle + 1,
            _ => high = middle,
        }
    }
    low
}
