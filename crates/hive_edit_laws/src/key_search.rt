//! Where the keys of a tree are, found level by level by the names of their nodes: laws.

ghost use Rattle.std.specs.Prelude.{◌≡◌, ◌≢◌, ◌++◌, ◌∷◌, [], ℕ, List, Some, None, flat_map};
ghost use Rattle.reg_names.specs.Names.{folded};
ghost use Rattle.reg_tree.specs.Maps.{TreeMap, row};
ghost use Rattle.hive_tree_model.specs.Lists.{IsIn, Once};
ghost use Rattle.hive_tree_model.specs.Keys.{offsets};
ghost use Rattle.hive_cells.specs.Tiles.{Tiles, u32_at, IsAllocatedCell, cell_data};
ghost use Rattle.hive_records.specs.Numbers.{words_from};
ghost use Rattle.hive_records.specs.KeyNodes.{trail_in};
ghost use Rattle.hive_records.specs.Lists.{subkeys_at};
ghost use Rattle.hive_records.specs.Values.{values_at};
ghost use Rattle.hive_records.specs.Fields.{Gives};
ghost use Rattle.hive_records.specs.Heads.{IsKeyNode, IsValueRec};
ghost use Rattle.hive_records.specs.RecordReaders.{units_of};
ghost use Rattle.hive_records.specs.declared.key_node.KeyNode.{KeyNode};
ghost use Rattle.hive_records.specs.declared.value_record.ValueRec.{ValueRec};
ghost use Rattle.hive_records.specs.Images.{splits, BinsEncodeTree};
ghost use Rattle.hive_edit_laws.specs.KeyCells.{class_cells, record_cells};
ghost use Rattle.hive_edit_laws.specs.SubkeyLists.{subkey_cells};
ghost use Rattle.hive_edit_laws.specs.ValueEdits.{value_cells, list_cells};
ghost use Rattle.hive_edit_laws.specs.Found.{KeyFound, node_name, value_name, HoldsNode, value_count, value_list};

/// The root's key is found in data that encode a tree, at the empty path.
pub fn root_is_found()
    ensures { (bytes : List ℕ) (root minor : ℕ) (tree : TreeMap) →
        BinsEncodeTree bytes root minor tree → KeyFound bytes root minor tree [] root }
{}

/// What is known of a key that was found.
///
/// - `encodes`: the data encode the tree, if bins tile them.
/// - `row`: its row in the tree.
/// - `node`: its cell holds a key node.
/// - `subkeys`: the offsets of its subkeys are read from the list that its node names.
/// - `values`: so are its values.
pub fn found_keys()
    ensures encodes { (bytes : List ℕ) (root minor : ℕ) (tree : TreeMap) (path : List (List ℕ))
        (at : ℕ) → KeyFound bytes root minor tree path at → Tiles bytes →
        BinsEncodeTree bytes root minor tree }
    ensures row { (bytes : List ℕ) (root minor : ℕ) (tree : TreeMap) (path : List (List ℕ))
        (at : ℕ) → (found : KeyFound bytes root minor tree path at) →
        row tree path ≡ Some found.place.parts.row }
    ensures node { (bytes : List ℕ) (root minor : ℕ) (tree : TreeMap) (path : List (List ℕ))
        (at : ℕ) → KeyFound bytes root minor tree path at → HoldsNode bytes at }
    ensures subkeys { (bytes : List ℕ) (root minor : ℕ) (tree : TreeMap) (path : List (List ℕ))
        (at : ℕ) → (found : KeyFound bytes root minor tree path at) → (own : List ℕ) × Gives
        (subkeys_at (u32_at (cell_data bytes at) 20) (u32_at (cell_data bytes at) 28)) found.cells
        own [] (offsets found.place.below) }
    ensures values { (bytes : List ℕ) (root minor : ℕ) (tree : TreeMap) (path : List (List ℕ))
        (at : ℕ) → (found : KeyFound bytes root minor tree path at) → (own : List ℕ) × Gives
        (values_at (splits minor) (value_count bytes at) (value_list bytes at)) found.cells own []
        found.place.parts.row.values }
{}

/// The subkeys of a key that was found.
///
/// - `node`: the cell at each listed offset holds a key node.
/// - `there`: the key there is found at the path with its folded name.
/// - `absent`: at a name that no listed node has, and below it, the tree has no key.
pub fn found_subkeys()
    ensures node { (bytes : List ℕ) (root minor : ℕ) (tree : TreeMap) (path : List (List ℕ))
        (at : ℕ) → (found : KeyFound bytes root minor tree path at) → (offset : ℕ) →
        IsIn offset (offsets found.place.below) → HoldsNode bytes offset }
    ensures there { (bytes : List ℕ) (root minor : ℕ) (tree : TreeMap) (path : List (List ℕ))
        (at : ℕ) → (found : KeyFound bytes root minor tree path at) → (offset : ℕ)
        (name : List ℕ) → IsIn offset (offsets found.place.below) →
        folded (node_name (cell_data bytes offset)) ≡ name →
        KeyFound bytes root minor tree (path ++ name ∷ []) offset }
    ensures absent { (bytes : List ℕ) (root minor : ℕ) (tree : TreeMap) (path : List (List ℕ))
        (at : ℕ) → (found : KeyFound bytes root minor tree path at) → (name : List ℕ) →
        ((offset : ℕ) → IsIn offset (offsets found.place.below) →
        folded (node_name (cell_data bytes offset)) ≢ name) → (rest : List (List ℕ)) →
        row tree (path ++ name ∷ rest) ≡ None }
{}

/// The cells of a key that was found.
///
/// - `own`: node, class, values and lists of subkeys.
/// - `values`: those of the values are the list, and each record with the cells of its data.
/// - `trail`, `once`, `there`: they are what is looked at while the key is read, each once, and they are allocated.
/// - `lent`: its security cell is allocated, and none of them.
pub fn found_key_cells()
    ensures own { (bytes : List ℕ) (root minor : ℕ) (tree : TreeMap) (path : List (List ℕ))
        (at : ℕ) → (found : KeyFound bytes root minor tree path at) → found.place.parts.own
        ≡ at ∷ (class_cells (cell_data bytes at)
        ++ (value_cells (splits minor) found.cells (cell_data bytes at)
        ++ subkey_cells found.cells (cell_data bytes at))) }
    ensures values { (bytes : List ℕ) (root minor : ℕ) (tree : TreeMap) (path : List (List ℕ))
        (at : ℕ) → (found : KeyFound bytes root minor tree path at) →
        value_cells (splits minor) found.cells (cell_data bytes at)
        ≡ list_cells (cell_data bytes at)
        ++ flat_map (λ (offset : ℕ). record_cells (splits minor) bytes found.cells offset)
        (words_from (cell_data bytes (value_list bytes at)) 0 4 (value_count bytes at)) }
    ensures trail { (bytes : List ℕ) (root minor : ℕ) (tree : TreeMap) (path : List (List ℕ))
        (at : ℕ) → (found : KeyFound bytes root minor tree path at) →
        trail_in (splits minor) found.cells at ≡ found.place.parts.own }
    ensures once { (bytes : List ℕ) (root minor : ℕ) (tree : TreeMap) (path : List (List ℕ))
        (at : ℕ) → (found : KeyFound bytes root minor tree path at) → Once found.place.parts.own }
    ensures there { (bytes : List ℕ) (root minor : ℕ) (tree : TreeMap) (path : List (List ℕ))
        (at : ℕ) → (found : KeyFound bytes root minor tree path at) → (cell : ℕ) →
        IsIn cell found.place.parts.own → IsAllocatedCell bytes cell }
    ensures lent { (bytes : List ℕ) (root minor : ℕ) (tree : TreeMap) (path : List (List ℕ))
        (at : ℕ) → (found : KeyFound bytes root minor tree path at) → (cell : ℕ) →
        IsIn cell found.place.parts.lent →
        IsAllocatedCell bytes cell × (IsIn cell found.place.parts.own → ⊥) }
{}

/// The name that the reader of a record gives is the name in the record.
pub fn record_names()
    ensures node { (node : KeyNode) (bytes : List ℕ) → IsKeyNode node bytes →
        units_of node.name ≡ node_name bytes }
    ensures value { (value : ValueRec) (bytes : List ℕ) → IsValueRec value bytes →
        units_of value.name ≡ value_name bytes }
{}
