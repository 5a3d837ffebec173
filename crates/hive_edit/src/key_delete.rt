//! A key is deleted.
ghost use Rattle.std.specs.Prelude.{◌≡◌, ◌<◌, ℕ, IsTrue, Ok, IfErr};
ghost use Rattle.base_block.specs.declared.block.TheConstants.{MINOR_VERSION};
ghost use Rattle.refusals.specs.declared.refusal.Refusal.TheVariants.{NoMemory};
ghost use Rattle.hive_records.specs.Images.{BinsEncodeTree};
ghost use Rattle.reg_tree.specs.Maps.{TreeMap};
ghost use Rattle.reg_tree.specs.Operations.{tree_after};
ghost use Rattle.reg_tree.specs.Judgement.{judged};
ghost use Rattle.reg_tree.specs.declared.op.Legality.TheVariants.{Legal};
ghost use Rattle.reg_tree.specs.declared.op.Op.TheVariants.{DeleteKey};
ghost use Rattle.hive_cells.specs.Tiles.{u32_at, cell_data};
ghost use Rattle.hive_records.specs.Numbers.{u16_at};
ghost use Rattle.hive_edit.specs.KeyLosses.{TakesKey};
ghost use Rattle.hive_edit.specs.Searches.{IsSlotOf};
ghost use Rattle.hive_edit.specs.SubkeyPlaces.{IsListOfKey};
ghost use Rattle.hive_edit.specs.declared.outcome.Edit.TheVariants as edit;

use crate::cell_frees::free_cells;
use crate::key_counts::{CountChange, count_key};
use crate::key_frees::free_key;
use crate::key_lists::{KeyList, list_of_key, put_list};
use crate::keys::find_key;
use crate::leaf_edit::{leaf_shape, shorten_leaf};
use crate::list_losses::free_lists;
use crate::outcome::Edit;
use crate::subkeys::{SubkeySlot, find_slot};
use hive_savepoint::SavepointImage;
use refusals::Refusal;
use reg_names::Name;

// the offset that means none
const NIL: u32 = 0xffff_ffff;

/// Deletes the key at a path, which has no subkeys. Its cells are freed, but for its security cell.
pub(crate) fn delete_key(
    image: &mut SavepointImage,
    root: u32,
    path: &[Name],
    moment: u64,
) -> Result<Edit, Refusal>
    ensures done { result ≡ Ok edit.Done → (hive : ℕ) (tree : TreeMap) →
        BinsEncodeTree image.old.bytes root MINOR_VERSION tree →
        judged tree (DeleteKey hive path.now) ≡ Ok Legal →
        BinsEncodeTree image.new.bytes root MINOR_VERSION
        (tree_after tree (DeleteKey hive path.now) moment) }
    ensures saved { image.new.saved ≡ image.old.saved }
    ensures refused { IfErr result (λ why. why ≡ NoMemory) }
{
    let Some(key) = find_key(image, root, path) else {
        return Ok(Edit::Rebuild);
    };
    count_key(image, key, CountChange::Fewer)?;
    image.tiles(); // for the prover
    drop_key(image, root, path, moment)
}

// deletes the key at a path, whose security cell has been told
fn drop_key(
    image: &mut SavepointImage,
    root: u32,
    path: &[Name],
    moment: u64,
) -> Result<Edit, Refusal>
    ensures done { result ≡ Ok edit.Done → (hive : ℕ) (tree : TreeMap) →
        BinsEncodeTree image.old.bytes root MINOR_VERSION tree →
        BinsEncodeTree image.new.bytes root MINOR_VERSION
        (tree_after tree (DeleteKey hive path.now) moment) }
    ensures saved { image.new.saved ≡ image.old.saved }
    ensures refused { IfErr result (λ why. why ≡ NoMemory) }
{
    let Some((name, front)) = path.split_last() else {
        return Ok(Edit::Rebuild);
    };
    let Some(home) = find_key(image, root, front) else {
        return Ok(Edit::Rebuild);
    };
    let Some(list) = list_of_key(image, home) else {
        return Ok(Edit::Rebuild);
    };
    let Some(slot) = find_slot(image, list.at, name.units()) else {
        return Ok(Edit::Rebuild);
    };
    take_key(image, home, list, &slot, moment)
}

// takes the key in a slot of a key's list, if it has no subkeys
fn take_key(
    image: &mut SavepointImage,
    home: u32,
    list: KeyList,
    slot: &SubkeySlot,
    moment: u64,
) -> Result<Edit, Refusal>
    requires list { IsListOfKey image.old.bytes home list }
    requires slot { IsSlotOf image.old.bytes list.at slot.now }
    ensures done { result ≡ Ok edit.Done → TakesKey image.old.bytes image.new.bytes home slot.now.subkey
        moment }
    ensures saved { image.new.saved ≡ image.old.saved }
    ensures refused { IfErr result (λ why. why ≡ NoMemory) }
{
    image.tiles(); // for the prover
    if !has_no_subkeys(image, slot.subkey) {
        return Ok(Edit::Rebuild);
    }
    if list.count == 1 {
        return drop_list(image, home, list, slot, moment);
    }
    let Some(shape) = leaf_shape(image, slot.leaf) else {
        return Ok(Edit::Rebuild);
    };
    if list.count == 0 || shape.count as usize <= slot.index {
        return Ok(Edit::Rebuild);
    }
    if shape.count == 1 {
        return drop_leaf(image, home, list, slot, moment);
    }
    shorten_leaf(image, slot.leaf, shape, slot.index)?;
    let left = KeyList {
        count: list.count - 1,
        at: list.at,
    };
    put_list(image, home, left, moment)?;
    let freed = free_key(image, slot.subkey)?;
    image.tiles(); // for the prover
    Ok(freed)
}

// takes the only key from a leaf below a list of lists, and the leaf from that list
fn drop_leaf(
    image: &mut SavepointImage,
    home: u32,
    list: KeyList,
    slot: &SubkeySlot,
    moment: u64,
) -> Result<Edit, Refusal>
    requires list { IsListOfKey image.old.bytes home list }
    requires slot { IsSlotOf image.old.bytes list.at slot.now }
    requires more { 1 < list.count }
    requires single { u16_at (cell_data image.old.bytes slot.now.leaf) 2 ≡ 1 }
    requires leaf { u32_at (cell_data image.old.bytes slot.now.subkey) 20 ≡ 0 }
    ensures done { result ≡ Ok edit.Done → TakesKey image.old.bytes image.new.bytes home slot.now.subkey
        moment }
    ensures saved { image.new.saved ≡ image.old.saved }
    ensures refused { IfErr result (λ why. why ≡ NoMemory) }
{
    image.tiles(); // for the prover
    let Some(index) = slot.leaf_index else {
        return Ok(Edit::Rebuild);
    };
    let Some(lists) = leaf_shape(image, list.at) else {
        return Ok(Edit::Rebuild);
    };
    if lists.count as usize <= index {
        return Ok(Edit::Rebuild);
    }
    shorten_leaf(image, list.at, lists, index)?;
    let left = KeyList {
        count: list.count - 1,
        at: list.at,
    };
    put_list(image, home, left, moment)?;
    match free_cells(image, &[slot.leaf])? {
        Edit::Rebuild => Ok(Edit::Rebuild),
        Edit::Done => {
            let freed = free_key(image, slot.subkey)?;
            image.tiles(); // for the prover
            Ok(freed)
        }
    }
}

// takes the last key from a key's list, and the list with the lists that it names
fn drop_list(
    image: &mut SavepointImage,
    home: u32,
    list: KeyList,
    slot: &SubkeySlot,
    moment: u64,
) -> Result<Edit, Refusal>
    requires list { IsListOfKey image.old.bytes home list }
    requires slot { IsSlotOf image.old.bytes list.at slot.now }
    requires alone { list.count ≡ 1 }
    requires leaf { u32_at (cell_data image.old.bytes slot.now.subkey) 20 ≡ 0 }
    ensures done { result ≡ Ok edit.Done → TakesKey image.old.bytes image.new.bytes home slot.now.subkey
        moment }
    ensures saved { image.new.saved ≡ image.old.saved }
    ensures refused { IfErr result (λ why. why ≡ NoMemory) }
{
    image.tiles(); // for the prover
    put_list(image, home, KeyList { count: 0, at: NIL }, moment)?;
    match free_lists(image, list.at)? {
        Edit::Rebuild => Ok(Edit::Rebuild),
        Edit::Done => {
            let freed = free_key(image, slot.subkey)?;
            image.tiles(); // for the prover
            Ok(freed)
        }
    }
}

// whether the key node at an offset says that it has no subkeys
fn has_no_subkeys(image: &SavepointImage, key: u32) -> bool
    ensures { IsTrue result → u32_at (cell_data image.now.bytes key) 20 ≡ 0 }
{
    match list_of_key(image, key) {
        Some(list) => list.count == 0,
        None => false,
    }
}
