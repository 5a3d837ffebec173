//! Records found by their names among the offsets of a list.
//!
//! The order of a list is no rule of the format. A search goes by halves first, as in the order of folded names, and
//! then through the whole list.
ghost use Rattle.std.specs.Prelude.{◌≡◌, IfSome};
ghost use Rattle.std.specs.declared.cmp.Ordering.TheVariants.{Equal};
ghost use Rattle.std.specs.Prelude.{Some};
ghost use Rattle.reg_names.specs.Names.{folded};
ghost use Rattle.hive_records.specs.RecordReaders.{units_of};
ghost use Rattle.hive_edit.specs.Searches.{IsNamedAt, IsFoundAt};

use crate::offsets::Offsets;
use hive_cells::Looks;
use hive_records::{KeyNode, StoredName, ValueRec};
use hive_savepoint::SavepointImage;
use reg_names::folded_unit;
use std::cmp::Ordering;

/// Which records a list names.
#[derive(Clone, Copy)]
pub(crate) enum RecordKind {
    /// Key nodes.
    Key,
    /// Records of values.
    Value,
}

/// The index of the record of a name. None may be given also if there is one, but not of sorted lists.
pub(crate) fn find(
    image: &SavepointImage,
    kind: RecordKind,
    offsets: &Offsets,
    name: &[u16],
) -> Option<usize>
    ensures { IfSome result (IsFoundAt kind image.now.bytes offsets.now (folded name.now)) }
{
    match find_by_halves(image, kind, offsets, name) {
        Some(index) => Some(index),
        None => find_in_turn(image, kind, offsets, name),
    }
}

/// The same of a list that is sorted by folded names.
pub(crate) fn find_by_halves(
    image: &SavepointImage,
    kind: RecordKind,
    offsets: &Offsets,
    name: &[u16],
) -> Option<usize>
    ensures { IfSome result (IsFoundAt kind image.now.bytes offsets.now (folded name.now)) }
{
    let mut low = 0;
    let mut high = offsets.count;
    while low < high {
        let middle = low + (high - low) / 2;
        match order_at(image, kind, offsets.get(middle), name)? {
            Ordering::Less => low = middle + 1,
            Ordering::Equal => return Some(middle),
            Ordering::Greater => high = middle,
        }
    }
    None
}

// the same of any list
fn find_in_turn(
    image: &SavepointImage,
    kind: RecordKind,
    offsets: &Offsets,
    name: &[u16],
) -> Option<usize>
    ensures { IfSome result (IsFoundAt kind image.now.bytes offsets.now (folded name.now)) }
{
    for index in 0..offsets.count {
        if order_at(image, kind, offsets.get(index), name) == Some(Ordering::Equal) {
            return Some(index);
        }
    }
    None
}

/// How the name of the record at an offset is ordered to a name, both folded; none if there is no such record.
pub(crate) fn order_at(
    image: &SavepointImage,
    kind: RecordKind,
    at: u32,
    name: &[u16],
) -> Option<Ordering>
    ensures { result ≡ Some Equal → IsNamedAt kind image.now.bytes at (folded name.now) }
{
    let mut looks = Looks::new();
    let Ok(cell) = image.cell(at, &mut looks) else {
        return None;
    };
    match kind {
        RecordKind::Key => match KeyNode::read(cell) {
            Ok(node) => Some(name_order(&node.name, name)),
            Err(_) => None,
        },
        RecordKind::Value => match ValueRec::read(cell) {
            Ok(value) => Some(name_order(&value.name, name)),
            Err(_) => None,
        },
    }
}

// how a stored name is ordered to a name, both folded
fn name_order(stored: &StoredName, name: &[u16]) -> Ordering
    ensures { result ≡ Equal → folded (units_of stored.now) ≡ folded name.now }
{
    let len = stored.len().min(name.len());
    for place in 0..len {
        let order = folded_unit(stored.unit(place)).cmp(&folded_unit(name[place]));
        if order != Ordering::Equal {
            return order;
        }
    }
    stored.len().cmp(&name.len())
}
