//! Keys are created.
ghost use Rattle.std.specs.Prelude.{◌≡◌, ◌++◌, ◌∷◌, [], ℕ, List, None, Ok, IfErr};
ghost use Rattle.base_block.specs.declared.block.TheConstants.{MINOR_VERSION};
ghost use Rattle.refusals.specs.declared.refusal.Refusal.TheVariants.{NoMemory};
ghost use Rattle.hive_records.specs.Images.{BinsEncodeTree};
ghost use Rattle.reg_names.specs.Names.{folded, folded_path};
ghost use Rattle.reg_tree.specs.Maps.{TreeMap, row};
ghost use Rattle.reg_tree.specs.Operations.{depth_there, tree_after};
ghost use Rattle.reg_tree.specs.Judgement.{judged};
ghost use Rattle.reg_tree.specs.declared.op.Legality.TheVariants.{Legal};
ghost use Rattle.reg_tree.specs.declared.op.Op.TheVariants.{CreateKey};
ghost use Rattle.hive_edit_laws.specs.Found.{KeyFound};
ghost use Rattle.hive_edit.specs.SubkeyPlaces.{IsNewName};
ghost use Rattle.hive_edit.specs.declared.outcome.Edit.TheVariants as edit;

use crate::key_counts::{CountChange, count_key};
use crate::key_lists::{KeyList, list_of_key, put_longer_list};
use crate::keys::find_key;
use crate::leaf_growth::grow_list;
use crate::new_keys::{is_new_name, node_text, security_of_key};
use crate::outcome::Edit;
use hive_savepoint::SavepointImage;
use refusals::Refusal;
use reg_names::Name;
use std::alloc::Global;

/// Creates the keys of a path that aren't there, from the top down. As many names as `there` lead to the last key that
/// is. Each level is found from the root again: at most 32 are missing.
pub(crate) fn create_key(
    alloc: Global,
    image: &mut SavepointImage,
    root: u32,
    path: &[Name],
    there: usize,
    moment: u64,
) -> Result<Edit, Refusal>
    ensures done { result ≡ Ok edit.Done → (hive : ℕ) (tree : TreeMap) →
        BinsEncodeTree image.old.bytes root MINOR_VERSION tree →
        judged tree (CreateKey hive path.now) ≡ Ok Legal →
        there ≡ depth_there tree (folded_path path.now) →
        BinsEncodeTree image.new.bytes root MINOR_VERSION
        (tree_after tree (CreateKey hive path.now) moment) }
    ensures saved { image.new.saved ≡ image.old.saved }
    ensures refused { IfErr result (λ why. why ≡ NoMemory) }
{
    if path.len() <= there {
        return Ok(Edit::Rebuild);
    }
    for depth in there..path.len() {
        match create_level(alloc, image, root, &path[..depth], &path[depth], moment)? {
            Edit::Done => {}
            Edit::Rebuild => return Ok(Edit::Rebuild),
        }
    }
    Ok(Edit::Done)
}

// creates a key below the one at a path
fn create_level(
    alloc: Global,
    image: &mut SavepointImage,
    root: u32,
    front: &[Name],
    name: &Name,
    moment: u64,
) -> Result<Edit, Refusal>
    ensures done { result ≡ Ok edit.Done → (hive : ℕ) (tree : TreeMap) →
        BinsEncodeTree image.old.bytes root MINOR_VERSION tree →
        row tree (folded_path front.now ++ folded name.now ∷ []) ≡ None →
        BinsEncodeTree image.new.bytes root MINOR_VERSION
        (tree_after tree (CreateKey hive (front.now ++ name.now ∷ [])) moment) }
    ensures saved { image.new.saved ≡ image.old.saved }
    ensures refused { IfErr result (λ why. why ≡ NoMemory) }
{
    if !is_new_name(name.units()) {
        return Ok(Edit::Rebuild);
    }
    let Some(home) = find_key(image, root, front) else {
        return Ok(Edit::Rebuild);
    };
    count_key(image, home, CountChange::More)?;
    add_key(alloc, image, home, name.units(), moment)
}

// creates a key below the one whose node is at an offset
fn add_key(
    alloc: Global,
    image: &mut SavepointImage,
    home: u32,
    name: &[u16],
    moment: u64,
) -> Result<Edit, Refusal>
    requires name { IsNewName name.now }
    ensures done { result ≡ Ok edit.Done → (root hive : ℕ) (tree : TreeMap) (front : List (List ℕ)) →
        KeyFound image.old.bytes root MINOR_VERSION tree (folded_path front) home →
        row tree (folded_path front ++ folded name.now ∷ []) ≡ None →
        BinsEncodeTree image.new.bytes root MINOR_VERSION
        (tree_after tree (CreateKey hive (front ++ name.now ∷ [])) moment) }
    ensures saved { image.new.saved ≡ image.old.saved }
    ensures refused { IfErr result (λ why. why ≡ NoMemory) }
{
    image.tiles(); // for the prover
    let Some(list) = list_of_key(image, home) else {
        return Ok(Edit::Rebuild);
    };
    let Some(security) = security_of_key(image, home) else {
        return Ok(Edit::Rebuild);
    };
    let text = node_text(alloc, home, security, name, moment)?;
    let at = match image.insert(&text, 0) {
        Ok(at) => at,
        Err(Refusal::TooLarge) => return Ok(Edit::Rebuild),
        Err(why) => return Err(why),
    };
    let Some(made) = grow_list(alloc, image, list, at, name)? else {
        return Ok(Edit::Rebuild);
    };
    let Some(count) = list.count.checked_add(1) else {
        return Ok(Edit::Rebuild);
    };
    put_longer_list(image, home, KeyList { count, at: made }, name, moment)?;
    image.tiles(); // for the prover
    Ok(Edit::Done)
}
