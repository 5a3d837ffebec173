//! A key, found by its path.
ghost use Rattle.std.specs.Prelude.{◌≡◌, ◌++◌, ◌∷◌, [], ℕ, List, IfSome};
ghost use Rattle.reg_names.specs.Names.{folded, folded_path};
ghost use Rattle.reg_tree.specs.Maps.{TreeMap};
ghost use Rattle.hive_records.specs.Images.{BinsEncodeTree};
ghost use Rattle.hive_edit_laws.specs.Found.{KeyFound};

use crate::subkeys::find_slot;
use hive_cells::Looks;
use hive_records::KeyNode;
use hive_savepoint::SavepointImage;
use reg_names::Name;

/// The node of the key at a path, from a root on. None may be given also if there is one, but not if lists are whole.
pub(crate) fn find_key(image: &SavepointImage, root: u32, names: &[Name]) -> Option<u32>
    ensures { IfSome result (λ at. (minor : ℕ) (tree : TreeMap) →
        BinsEncodeTree image.now.bytes root minor tree →
        KeyFound image.now.bytes root minor tree (folded_path names.now) at) }
{
    let mut at = root;
    for name in names {
        at = find_subkey(image, at, name.units())?;
    }
    Some(at)
}

// the node of a key's subkey of a name
fn find_subkey(image: &SavepointImage, key: u32, name: &[u16]) -> Option<u32>
    ensures { IfSome result (λ at. (root minor : ℕ) (tree : TreeMap) (path : List (List ℕ)) →
        KeyFound image.now.bytes root minor tree path key →
        KeyFound image.now.bytes root minor tree (path ++ folded name.now ∷ []) at) }
{
    let mut looks = Looks::new();
    let Ok(cell) = image.cell(key, &mut looks) else {
        return None;
    };
    let Ok(node) = KeyNode::read(cell) else {
        return None;
    };
    if node.subkey_count == 0 {
        return None;
    }
    let slot = find_slot(image, node.subkeys, name)?;
    Some(slot.subkey)
}
