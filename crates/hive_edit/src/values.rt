//! A key's value, found in its list by its name.
ghost use Rattle.std.specs.Prelude.{◌≡◌, IfSome, ℕ, List};
ghost use Rattle.reg_names.specs.Names.{folded};
ghost use Rattle.reg_tree.specs.Maps.{TreeMap};
ghost use Rattle.hive_savepoint.specs.Puts.{HasData};
ghost use Rattle.hive_edit_laws.specs.Found.{KeyFound, ValueFound};

use crate::offsets::{OFFSET, Offsets};
use crate::search::{RecordKind, find};
use hive_cells::Looks;
use hive_records::KeyNode;
use hive_savepoint::SavepointImage;

/// Where a value of a key is.
#[derive(Clone, Copy)]
pub(crate) struct ValuePlace {
    /// The cell of the key's node.
    pub(crate) key: u32,
    /// The index of the value in the key's list.
    pub(crate) index: usize,
    /// The cell of the value's record.
    pub(crate) value: u32,
}

/// Where the value of a name is of the key whose node is at an offset. None may be given also if there is one, but not if
/// lists are whole.
pub(crate) fn find_value(image: &SavepointImage, key: u32, name: &[u16]) -> Option<ValuePlace>
    ensures found { IfSome result (λ place. (place.key ≡ key) × ((root minor : ℕ) (tree : TreeMap) (path : List (List ℕ)) →
        KeyFound image.now.bytes root minor tree path key →
        ValueFound image.now.bytes root minor tree path (folded name.now) key place.index place.value)) }
    ensures node { IfSome result (λ place. HasData image.now.bytes place.key 76) }
    ensures value { IfSome result (λ place. HasData image.now.bytes place.value 20) }
{
    let mut looks = Looks::new();
    let Ok(cell) = image.cell(key, &mut looks) else {
        return None;
    };
    let Ok(node) = KeyNode::read(cell) else {
        return None;
    };
    let count = node.value_count as usize;
    if count == 0 {
        return None;
    }
    let Ok(list) = image.cell(node.values, &mut looks) else {
        return None;
    };
    if list.len() < OFFSET * count {
        return None;
    }
    let offsets = Offsets {
        bytes: list,
        stride: OFFSET,
        count,
    };
    let index = find(image, RecordKind::Value, &offsets, name)?;
    Some(ValuePlace {
        key,
        index,
        value: offsets.get(index),
    })
}
