//! A subkey more in a key, and a subkey less, by the cells that are changed: laws.

ghost use Rattle.std.specs.Prelude.{◌≡◌, ◌≢◌, ◌++◌, ◌∷◌, [], ℕ, Bool, List, None, Ok};
ghost use Rattle.reg_names.specs.Names.{folded, folded_path};
ghost use Rattle.reg_tree_parts.specs.Rows.{Row};
ghost use Rattle.reg_tree.specs.Maps.{TreeMap, row};
ghost use Rattle.reg_tree.specs.Operations.{tree_after};
ghost use Rattle.reg_tree.specs.declared.op.Op.TheVariants.{CreateKey, DeleteKey};
ghost use Rattle.hive_tree_model.specs.Keys.{KeyParts, Keys, none, key, offsets, own_cells};
ghost use Rattle.hive_tree_model.specs.Lists.{Once};
ghost use Rattle.hive_tree_model.specs.Encodings.{Whole};
ghost use Rattle.hive_records.specs.KeyNodes.{keys_in};
ghost use Rattle.hive_cells.specs.Tiles.{Tiles, u32_at, cell_data};
ghost use Rattle.hive_cells.specs.Bins.{Cells, Shows};
ghost use Rattle.hive_records.specs.Images.{splits, BinsEncodeTree};
ghost use Rattle.hive_edit_laws.specs.Found.{KeyFound, node_name};
ghost use Rattle.hive_edit_laws.specs.SubkeyLists.{AreNewKeys, AddsSubkey, DropsSubkey};

/// A key that was found gets new keys below it, each below the one before it. Its descriptor is theirs. Then the data
/// encode the tree after that operation.
pub fn keys_are_created()
    ensures { (old new : List ℕ) (root minor : ℕ) (tree : TreeMap) (hive : ℕ)
        (front further : List (List ℕ)) (name : List ℕ) (home at moment : ℕ)
        (parts : KeyParts Row) (sub : Keys Row) (before after : Cells) →
        (found : KeyFound old root minor tree (folded_path front) home) → Shows old before →
        Tiles new → Shows new after → folded name ≢ [] →
        row tree (folded_path front ++ folded name ∷ []) ≡ None →
        AddsSubkey (splits minor) before after home at (offsets found.place.below)
        found.place.parts.lent parts sub moment →
        AreNewKeys name further found.place.parts.row.descriptor moment parts sub →
        BinsEncodeTree new root minor
        (tree_after tree (CreateKey hive (front ++ name ∷ further)) moment) }
{}

/// New keys, each below the one before it, are whole from the last one up.
///
/// - `last`: a key without subkeys.
/// - `next`: the key above one.
pub fn new_keys()
    ensures last { (split : Bool) (cells : Cells) (at : ℕ) (parts : KeyParts Row) →
        keys_in split cells at ≡ Ok parts → parts.subkey_list ≡ [] → Once parts.own →
        Whole (keys_in split cells) at parts none }
    ensures next { (split : Bool) (cells : Cells) (home at : ℕ) (parts its : KeyParts Row)
        (sub : Keys Row) → keys_in split cells home ≡ Ok parts →
        Whole (keys_in split cells) at its sub → parts.subkey_list ≡ at ∷ [] → its.name ≢ [] →
        Once (parts.own ++ (its.own ++ own_cells sub)) →
        Whole (keys_in split cells) home parts (key at its sub none) }
{}

/// A subkey of a key that was found is taken from it. It has no subkeys itself. Then the data encode the tree after that
/// operation.
pub fn key_is_deleted()
    ensures { (old new : List ℕ) (root minor : ℕ) (tree : TreeMap) (hive : ℕ)
        (front : List (List ℕ)) (name : List ℕ) (home at moment : ℕ) (before after : Cells) →
        (found : KeyFound old root minor tree (folded_path front) home) → Shows old before →
        Tiles new → Shows new after →
        folded (node_name (cell_data old at)) ≡ folded name → u32_at (cell_data old at) 20 ≡ 0 →
        DropsSubkey (splits minor) before after home at (offsets found.place.below) moment →
        BinsEncodeTree new root minor
        (tree_after tree (DeleteKey hive (front ++ name ∷ [])) moment) }
{}
