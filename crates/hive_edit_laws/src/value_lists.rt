//! A value more in a key, and a value less: laws.

ghost use Rattle.std.specs.Prelude.{◌≡◌, ◌≤◌, ◌++◌, ◌∷◌, ℕ, suc, List, None, take, drop};
ghost use Rattle.std.specs.FinMap as finite;
ghost use Rattle.reg_names.specs.Names.{folded, folded_path};
ghost use Rattle.reg_tree_parts.specs.ValueEdits.{values_with, values_without};
ghost use Rattle.reg_tree.specs.Maps.{TreeMap};
ghost use Rattle.reg_tree.specs.Operations.{tree_after};
ghost use Rattle.reg_tree.specs.declared.op.Op.TheVariants.{SetValue, DeleteValue};
ghost use Rattle.hive_cells.specs.Tiles.{Tiles};
ghost use Rattle.hive_cells.specs.Bins.{Cells, Shows};
ghost use Rattle.hive_records.specs.Numbers.{words_from};
ghost use Rattle.hive_records.specs.Images.{splits, BinsEncodeTree};
ghost use Rattle.hive_edit_laws.specs.Found.{KeyFound, ValueFound};
ghost use Rattle.hive_edit_laws.specs.Shifts.{with_at, without_at, ShiftsIn, ShiftsOut};
ghost use Rattle.hive_edit_laws.specs.ValueEdits.{ValuesChange, AddsValue, DropsValue};

/// The words of a list whose elements were shifted, in place or into another cell.
///
/// - `more`: one word more at an index.
/// - `fewer`: the word at an index is gone.
/// - `with_cut`, `without_cut`: the same by the words before and after the index.
pub fn words_shift()
    ensures more { (old new : List ℕ) (from stride count index word : ℕ) → index ≤ count →
        ShiftsIn old new from stride count index word → words_from new from stride (suc count)
        ≡ with_at index word (words_from old from stride count) }
    ensures fewer { (old new : List ℕ) (from stride count index : ℕ) → index ≤ count →
        ShiftsOut old new from stride count index → words_from new from stride count
        ≡ without_at index (words_from old from stride (suc count)) }
    ensures with_cut { (words : List ℕ) (index word : ℕ) →
        with_at index word words ≡ take index words ++ word ∷ drop index words }
    ensures without_cut { (words : List ℕ) (index : ℕ) →
        without_at index words ≡ take index words ++ drop (suc index) words }
{}

/// A key that was found, and has no value of a name, gets one. Then the data encode the tree after that operation.
///
/// - `values`: the key's values are the old ones with this one.
pub fn value_is_added()
    ensures values { (old : List ℕ) (root minor : ℕ) (tree : TreeMap) (path : List (List ℕ))
        (name : List ℕ) (key at index kind : ℕ) (value_bytes : List ℕ) (moment : ℕ)
        (before after : Cells) → (found : KeyFound old root minor tree path key) →
        Shows old before → finite.get found.place.parts.row.values (folded name) ≡ None →
        AddsValue (splits minor) before after key at index
        (record { name = name; kind = kind; «data» = value_bytes }) moment →
        ValuesChange (splits minor) before after key
        (values_with found.place.parts.row.values name kind value_bytes) moment }
    ensures set { (old new : List ℕ) (root minor : ℕ) (tree : TreeMap) (hive : ℕ)
        (path : List (List ℕ)) (name : List ℕ) (key at index kind : ℕ) (value_bytes : List ℕ)
        (moment : ℕ) (before after : Cells) →
        (found : KeyFound old root minor tree (folded_path path) key) → Shows old before →
        Tiles new → Shows new after →
        finite.get found.place.parts.row.values (folded name) ≡ None →
        AddsValue (splits minor) before after key at index
        (record { name = name; kind = kind; «data» = value_bytes }) moment →
        BinsEncodeTree new root minor (tree_after tree (SetValue hive path name kind value_bytes) moment) }
{}

/// A value that was found is taken from its key. Then the data encode the tree after that operation.
///
/// - `values`: the key's values are the old ones without this one.
pub fn value_is_deleted()
    ensures values { (old : List ℕ) (root minor : ℕ) (tree : TreeMap) (path : List (List ℕ))
        (name : List ℕ) (key index at moment : ℕ) (before after : Cells) →
        (found : ValueFound old root minor tree path (folded name) key index at) →
        Shows old before → DropsValue (splits minor) before after key at index moment →
        ValuesChange (splits minor) before after key
        (values_without found.in_key.place.parts.row.values name) moment }
    ensures deleted { (old new : List ℕ) (root minor : ℕ) (tree : TreeMap) (hive : ℕ)
        (path : List (List ℕ)) (name : List ℕ) (key index at moment : ℕ) (before after : Cells) →
        ValueFound old root minor tree (folded_path path) (folded name) key index at →
        Shows old before → Tiles new → Shows new after →
        DropsValue (splits minor) before after key at index moment →
        BinsEncodeTree new root minor (tree_after tree (DeleteValue hive path name) moment) }
{}
