//! A value that isn't there is added to a key.
ghost use Rattle.std.specs.Prelude.{◌≡◌, ◌≤◌, false, ℕ, List, Ok, IfErr};
ghost use Rattle.base_block.specs.declared.block.TheConstants.{MINOR_VERSION};
ghost use Rattle.refusals.specs.declared.refusal.Refusal.TheVariants.{NoMemory};
ghost use Rattle.hive_records.specs.Images.{BinsEncodeTree};
ghost use Rattle.reg_names.specs.Names.{folded_path};
ghost use Rattle.reg_tree.specs.Maps.{TreeMap, row};
ghost use Rattle.reg_tree.specs.Operations.{tree_after};
ghost use Rattle.reg_tree.specs.declared.op.Op.TheVariants.{SetValue};
ghost use Rattle.hive_edit_laws.specs.Found.{KeyFound};
ghost use Rattle.hive_edit.specs.Presences.{row_has_value};
ghost use Rattle.hive_edit.specs.declared.outcome.Edit.TheVariants as edit;

use crate::keys::find_key;
use crate::list_room::add_to_list;
use crate::node_edit::{ValueBounds, ValueList, value_list};
use crate::offsets::{OFFSET, Offsets};
use crate::outcome::Edit;
use crate::search::{RecordKind, order_at};
use crate::value_data::NewValue;
use crate::value_insert::insert_value;
use hive_cells::Looks;
use hive_savepoint::SavepointImage;
use refusals::Refusal;
use reg_names::Name;
use std::alloc::Global;
use std::cmp::Ordering;

/// Adds a value to the key at a path, which has none of its name.
pub(crate) fn add_value(
    alloc: Global,
    image: &mut SavepointImage,
    root: u32,
    path: &[Name],
    value: &NewValue,
    moment: u64,
) -> Result<Edit, Refusal>
    ensures done { result ≡ Ok edit.Done → (hive : ℕ) (tree : TreeMap) →
        BinsEncodeTree image.old.bytes root MINOR_VERSION tree →
        row_has_value (row tree (folded_path path.now)) value.now.name.now ≡ false →
        BinsEncodeTree image.new.bytes root MINOR_VERSION
        (tree_after tree (SetValue hive path.now value.now.name.now value.now.kind
        value.now.«data».now) moment) }
    ensures saved { image.new.saved ≡ image.old.saved }
    ensures refused { IfErr result (λ why. why ≡ NoMemory) }
{
    let Some(key) = find_key(image, root, path) else {
        return Ok(Edit::Rebuild);
    };
    add_to_key(alloc, image, key, value, moment)
}

// adds a value to the key whose node is at an offset
fn add_to_key(
    alloc: Global,
    image: &mut SavepointImage,
    key: u32,
    value: &NewValue,
    moment: u64,
) -> Result<Edit, Refusal>
    ensures done { result ≡ Ok edit.Done → (root hive : ℕ) (tree : TreeMap) (path : List (List ℕ)) →
        KeyFound image.old.bytes root MINOR_VERSION tree (folded_path path) key →
        row_has_value (row tree (folded_path path)) value.now.name.now ≡ false →
        BinsEncodeTree image.new.bytes root MINOR_VERSION
        (tree_after tree (SetValue hive path value.now.name.now value.now.kind
        value.now.«data».now) moment) }
    ensures saved { image.new.saved ≡ image.old.saved }
    ensures refused { IfErr result (λ why. why ≡ NoMemory) }
{
    let Some(at) = insert_value(alloc, image, value)? else {
        return Ok(Edit::Rebuild);
    };
    let Some(list) = value_list(image, key) else {
        return Ok(Edit::Rebuild);
    };
    if list.count == u32::MAX {
        return Ok(Edit::Rebuild);
    }
    let index = index_for(image, &list, value.name.units());
    let bounds = bounds_of(value);
    let done = add_to_list(alloc, image, key, &list, index, at, moment, &bounds)?;
    image.tiles(); // for the prover
    Ok(done)
}

// the index in a list, sorted by folded names, at which a name is to be: that of the first greater name
fn index_for(image: &SavepointImage, list: &ValueList, name: &[u16]) -> usize
    ensures { result ≤ list.now.count }
{
    let mut looks = Looks::new();
    let count = list.count as usize;
    let Ok(bytes) = image.cell(list.at, &mut looks) else {
        return 0;
    };
    if bytes.len() < OFFSET * count {
        return 0;
    }
    let offsets = Offsets {
        bytes,
        stride: OFFSET,
        count,
    };
    let mut low = 0;
    let mut high = count;
    while low < high {
        let middle = low + (high - low) / 2;
        match order_at(image, RecordKind::Value, offsets.get(middle), name) {
            Some(Ordering::Greater) => high = middle,
            _ => low = middle + 1,
        }
    }
    low
}

// the bytes of a value's name, as if in UTF-16, and of its data
fn bounds_of(value: &NewValue) -> ValueBounds {
    let units = u32::try_from(value.name.units().len()).unwrap_or(u32::MAX);
    let largest_data = u32::try_from(value.data.len()).unwrap_or(u32::MAX);
    ValueBounds {
        longest_name: units.saturating_mul(2),
        largest_data,
    }
}
