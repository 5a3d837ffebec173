//! Where the values of a key are, found by the names of their records: laws.

ghost use Rattle.std.specs.Prelude.{◌≡◌, ◌≢◌, ◌≤◌, ◌<◌, ◌*◌, ◌∷◌, [], ℕ, List, Some, None, length};
ghost use Rattle.std.specs.FinMap as finite;
ghost use Rattle.reg_names.specs.Names.{folded};
ghost use Rattle.reg_tree.specs.Maps.{TreeMap};
ghost use Rattle.hive_tree_model.specs.Lists.{IsIn, Once};
ghost use Rattle.hive_cells.specs.Tiles.{IsAllocatedCell, cell_data, u32_at};
ghost use Rattle.hive_records.specs.Values.{data_of};
ghost use Rattle.hive_records.specs.Fields.{Gives};
ghost use Rattle.hive_records.specs.Images.{splits};
ghost use Rattle.hive_edit_laws.specs.ValueEdits.{data_cells};
ghost use Rattle.hive_edit_laws.specs.Found.{KeyFound, ValueFound, value_name, HoldsValue, value_count, value_list, value_offset};

/// The values of a key that was found.
///
/// - `none`: if its node says that it has no values, it has none.
/// - `list`: else the list's cell is allocated, and long enough.
/// - `holds`: the cell at each listed offset holds a value's record.
/// - `there`: the value there is found by its folded name.
/// - `absent`: the key has no value of a name that no listed record has.
/// - `is`: a value that was found is the key's value of its name.
pub fn found_values()
    ensures none { (bytes : List ℕ) (root minor : ℕ) (tree : TreeMap) (path : List (List ℕ))
        (at : ℕ) → (found : KeyFound bytes root minor tree path at) → value_count bytes at ≡ 0 →
        (name : List ℕ) → finite.get found.place.parts.row.values name ≡ None }
    ensures list { (bytes : List ℕ) (root minor : ℕ) (tree : TreeMap) (path : List (List ℕ))
        (at : ℕ) → KeyFound bytes root minor tree path at → value_count bytes at ≢ 0 →
        IsAllocatedCell bytes (value_list bytes at)
        × (4 * value_count bytes at ≤ length (cell_data bytes (value_list bytes at))) }
    ensures holds { (bytes : List ℕ) (root minor : ℕ) (tree : TreeMap) (path : List (List ℕ))
        (at : ℕ) → KeyFound bytes root minor tree path at → (index : ℕ) →
        index < value_count bytes at → HoldsValue bytes (value_offset bytes at index) }
    ensures there { (bytes : List ℕ) (root minor : ℕ) (tree : TreeMap) (path : List (List ℕ))
        (at : ℕ) → KeyFound bytes root minor tree path at → (index : ℕ) (name : List ℕ) →
        index < value_count bytes at →
        folded (value_name (cell_data bytes (value_offset bytes at index))) ≡ name →
        ValueFound bytes root minor tree path name at index (value_offset bytes at index) }
    ensures absent { (bytes : List ℕ) (root minor : ℕ) (tree : TreeMap) (path : List (List ℕ))
        (at : ℕ) → (found : KeyFound bytes root minor tree path at) → (name : List ℕ) →
        ((index : ℕ) → index < value_count bytes at →
        folded (value_name (cell_data bytes (value_offset bytes at index))) ≢ name) →
        finite.get found.place.parts.row.values name ≡ None }
    ensures is { (bytes : List ℕ) (root minor : ℕ) (tree : TreeMap) (path : List (List ℕ))
        (name : List ℕ) (key index at : ℕ) →
        (found : ValueFound bytes root minor tree path name key index at) →
        finite.get found.in_key.place.parts.row.values name ≡ Some found.value }
{}

/// The cells of a value that was found, and what its record says.
///
/// - `its_data`, `kind`: its data are read as the record says, from the cells of the data.
/// - `once`, `there`: the key's node, the list, the record and the cells of the data are allocated cells, each another.
pub fn found_value_cells()
    ensures its_data { (bytes : List ℕ) (root minor : ℕ) (tree : TreeMap) (path : List (List ℕ))
        (name : List ℕ) (key index at : ℕ) →
        (found : ValueFound bytes root minor tree path name key index at) →
        Gives (data_of (splits minor) (u32_at (cell_data bytes at) 4) (cell_data bytes at))
        found.in_key.cells (data_cells (splits minor) found.in_key.cells (cell_data bytes at)) []
        (found.value).«data» }
    ensures kind { (bytes : List ℕ) (root minor : ℕ) (tree : TreeMap) (path : List (List ℕ))
        (name : List ℕ) (key index at : ℕ) →
        (found : ValueFound bytes root minor tree path name key index at) →
        (found.value).kind ≡ u32_at (cell_data bytes at) 12 }
    ensures once { (bytes : List ℕ) (root minor : ℕ) (tree : TreeMap) (path : List (List ℕ))
        (name : List ℕ) (key index at : ℕ) →
        (found : ValueFound bytes root minor tree path name key index at) →
        Once (key ∷ value_list bytes key ∷ at
        ∷ data_cells (splits minor) found.in_key.cells (cell_data bytes at)) }
    ensures there { (bytes : List ℕ) (root minor : ℕ) (tree : TreeMap) (path : List (List ℕ))
        (name : List ℕ) (key index at : ℕ) →
        (found : ValueFound bytes root minor tree path name key index at) → (cell : ℕ) →
        IsIn cell (key ∷ value_list bytes key ∷ at
        ∷ data_cells (splits minor) found.in_key.cells (cell_data bytes at)) →
        IsAllocatedCell bytes cell }
{}
