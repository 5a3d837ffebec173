//! Edits of a key's values, by the cells that they change: laws.

ghost use Rattle.std.specs.Prelude.{◌≡◌, ◌≤◌, ◌<◌, ◌+◌, ◌^◌, ◌++◌, ◌∷◌, [], ℕ, List, Bool, Some, true, length, slice_range};
ghost use Rattle.reg_names.specs.Names.{folded, folded_path};
ghost use Rattle.reg_tree_parts.specs.Rows.{Row, ValueMap};
ghost use Rattle.reg_tree_parts.specs.ValueEdits.{values_with, values_without};
ghost use Rattle.reg_tree.specs.Maps.{TreeMap, row};
ghost use Rattle.reg_tree.specs.Operations.{row_edited, tree_after};
ghost use Rattle.reg_tree.specs.declared.op.Op.TheVariants.{SetValue, DeleteValue};
ghost use Rattle.hive_cells.specs.Tiles.{Tiles, u32_at, cell_data};
ghost use Rattle.hive_cells.specs.Bins.{Cells, Shows};
ghost use Rattle.hive_records.specs.Values.{data_of, big_data, segments_of};
ghost use Rattle.hive_records.specs.Numbers.{words_from};
ghost use Rattle.hive_records.specs.Fields.{Gives};
ghost use Rattle.hive_records.specs.Images.{splits, BinsEncodeTree};
ghost use Rattle.hive_edit_laws.specs.Found.{KeyFound, ValueFound};
ghost use Rattle.hive_edit_laws.specs.ValueEdits.{ValuesChange, ValueChanges};

/// A key that was found gets other values and a new time. Then the data encode the tree with this row changed.
///
/// - `rows`: each tree that has these rows.
/// - `set`: if the values are the old ones with one set, the tree after that operation.
/// - `deleted`: if they are the old ones without one, the tree after that operation.
pub fn values_change()
    ensures rows { (old new : List ℕ) (root minor : ℕ) (tree edited : TreeMap)
        (path : List (List ℕ)) (key : ℕ) (values : ValueMap) (moment : ℕ) (before after : Cells) →
        KeyFound old root minor tree path key → Shows old before → Tiles new → Shows new after →
        ValuesChange (splits minor) before after key values moment → ((q : List (List ℕ)) →
        row edited q ≡ row_edited (λ (key : Row). record key { values = values }) tree path moment q) →
        BinsEncodeTree new root minor edited }
    ensures set { (old new : List ℕ) (root minor : ℕ) (tree : TreeMap) (hive : ℕ)
        (path : List (List ℕ)) (name : List ℕ) (kind : ℕ) (value_bytes : List ℕ) (key moment : ℕ)
        (before after : Cells) → (found : KeyFound old root minor tree (folded_path path) key) →
        Shows old before → Tiles new → Shows new after → ValuesChange (splits minor) before after key
        (values_with found.place.parts.row.values name kind value_bytes) moment →
        BinsEncodeTree new root minor (tree_after tree (SetValue hive path name kind value_bytes) moment) }
    ensures deleted { (old new : List ℕ) (root minor : ℕ) (tree : TreeMap) (hive : ℕ)
        (path : List (List ℕ)) (name : List ℕ) (key moment : ℕ) (before after : Cells) →
        (found : KeyFound old root minor tree (folded_path path) key) → Shows old before →
        Tiles new → Shows new after → ValuesChange (splits minor) before after key
        (values_without found.place.parts.row.values name) moment →
        BinsEncodeTree new root minor (tree_after tree (DeleteValue hive path name) moment) }
{}

/// A value that was found gets a type and data, wherever these are, and its key a new time. Then the data encode the
/// tree after that operation.
///
/// - `values`: the key's values are the old ones with this one set.
pub fn value_changes()
    ensures values { (old : List ℕ) (root minor : ℕ) (tree : TreeMap) (path : List (List ℕ))
        (name : List ℕ) (key index at kind : ℕ) (value_bytes : List ℕ) (moment : ℕ)
        (before after : Cells) →
        (found : ValueFound old root minor tree path (folded name) key index at) →
        Shows old before → ValueChanges (splits minor) before after key at kind value_bytes moment →
        ValuesChange (splits minor) before after key
        (values_with found.in_key.place.parts.row.values name kind value_bytes) moment }
    ensures set { (old new : List ℕ) (root minor : ℕ) (tree : TreeMap) (hive : ℕ)
        (path : List (List ℕ)) (name : List ℕ) (key index at kind : ℕ) (value_bytes : List ℕ)
        (moment : ℕ) (before after : Cells) →
        ValueFound old root minor tree (folded_path path) (folded name) key index at →
        Shows old before → Tiles new → Shows new after →
        ValueChanges (splits minor) before after key at kind value_bytes moment →
        BinsEncodeTree new root minor (tree_after tree (SetValue hive path name kind value_bytes) moment) }
{}

/// What a value's record says of its data.
///
/// - `in_record`: at most 4 bytes, in the field of an offset.
/// - `in_cell`: the first bytes of one cell.
/// - `none`: no data.
/// - `segments`: big data, of which their db says how they are read.
pub fn data_are_read()
    ensures in_record { (split : Bool) (cells : Cells) (fields value_bytes : List ℕ) →
        u32_at fields 4 ≡ 2 ^ 31 + length value_bytes → length value_bytes ≤ 4 →
        slice_range fields 8 (8 + length value_bytes) ≡ value_bytes →
        Gives (data_of split (u32_at fields 4) fields) cells [] [] value_bytes }
    ensures in_cell { (split : Bool) (cells : Cells) (fields value_bytes more : List ℕ) (to : ℕ) →
        u32_at fields 4 ≡ length value_bytes → u32_at fields 8 ≡ to → 0 < length value_bytes →
        length value_bytes < 2 ^ 31 → (split ≡ true → length value_bytes ≤ 16_344) →
        cells to ≡ Some (value_bytes ++ more) →
        Gives (data_of split (u32_at fields 4) fields) cells (to ∷ []) [] value_bytes }
    ensures none { (split : Bool) (cells : Cells) (fields : List ℕ) → u32_at fields 4 ≡ 0 →
        Gives (data_of split (u32_at fields 4) fields) cells [] [] [] }
    ensures segments { (cells : Cells) (fields own value_bytes : List ℕ) →
        u32_at fields 4 ≡ length value_bytes → 16_344 < length value_bytes → length value_bytes < 2 ^ 31 →
        Gives (big_data (length value_bytes) (u32_at fields 8)) cells own [] value_bytes →
        Gives (data_of true (u32_at fields 4) fields) cells own [] value_bytes }
{}

/// Which cells data have that were read, by the size in their record.
///
/// - `in_record`, `empty`: none.
/// - `cell`: one cell.
/// - `segments`: a db, its list, and a cell for each segment.
pub fn data_have_cells()
    ensures in_record { (split : Bool) (bytes : List ℕ) (cells : Cells) → Shows bytes cells →
        (fields own lent value_bytes : List ℕ) →
        Gives (data_of split (u32_at fields 4) fields) cells own lent value_bytes →
        2 ^ 31 ≤ u32_at fields 4 → own ≡ [] }
    ensures empty { (split : Bool) (bytes : List ℕ) (cells : Cells) → Shows bytes cells →
        (fields own lent value_bytes : List ℕ) →
        Gives (data_of split (u32_at fields 4) fields) cells own lent value_bytes →
        u32_at fields 4 ≡ 0 → own ≡ [] }
    ensures cell { (split : Bool) (bytes : List ℕ) (cells : Cells) → Shows bytes cells →
        (fields own lent value_bytes : List ℕ) →
        Gives (data_of split (u32_at fields 4) fields) cells own lent value_bytes →
        0 < u32_at fields 4 → u32_at fields 4 < 2 ^ 31 →
        (split ≡ true → u32_at fields 4 ≤ 16_344) → own ≡ u32_at fields 8 ∷ [] }
    ensures segments { (split : Bool) (bytes : List ℕ) (cells : Cells) → Shows bytes cells →
        (fields own lent value_bytes : List ℕ) →
        Gives (data_of split (u32_at fields 4) fields) cells own lent value_bytes →
        split ≡ true → 16_344 < u32_at fields 4 → u32_at fields 4 < 2 ^ 31 →
        own ≡ u32_at fields 8 ∷ u32_at (cell_data bytes (u32_at fields 8)) 4 ∷ words_from
        (cell_data bytes (u32_at (cell_data bytes (u32_at fields 8)) 4)) 0 4
        (segments_of (u32_at fields 4)) }
{}
