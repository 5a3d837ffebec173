//! What is written of a record reads back as the same parts: laws.

ghost use Rattle.std.specs.Prelude.{◌≡◌, ◌≤◌, ◌<◌, ◌+◌, ◌*◌, ◌^◌, ◌++◌, ◌∷◌, [], ℕ, Bool, true, List, length, map, flat_map, Ok};
ghost use Rattle.std.specs.List.{AllByRecursion};
ghost use Rattle.hive_cells.specs.Bins.{Cells};
ghost use Rattle.hive_records.specs.Names.{name_in, all_apart};
ghost use Rattle.reg_names.specs.Names.{folded};
ghost use Rattle.reg_tree_parts.specs.Rows.{Row};
ghost use Rattle.hive_records.specs.Values.{value_at, map_of, values_at};
ghost use Rattle.hive_records.specs.Numbers.{nil_offset};
ghost use Rattle.hive_records.specs.KeyNodes.{descriptor_at, class_at, keys_in};
ghost use Rattle.hive_records.specs.Lists.{leaf_at, subkeys_at};
ghost use Rattle.reg_tree_parts.specs.declared.value.Value.{Value};
ghost use Rattle.hive_records.specs.Fields.{Gives, CellHolds};
ghost use Rattle.hive_records.specs.ValueEncodings.{ValueIsEncodable, small_value, large_value};
ghost use Rattle.hive_records.specs.ListEncodings.{Subkey, plain_leaf, hashed_leaf, offsets_bytes, indirect, AreOffsets, cell_offsets};
ghost use Rattle.hive_records.specs.BigDataEncodings.{Segment, big_data_bytes, segment_offsets, joined_segments, AreFull};
ghost use Rattle.hive_records.specs.Wholes.{IsWritten};
ghost use Rattle.hive_records.specs.declared.key_node_fields.KeyNodeFields.{KeyNodeFields};
ghost use Rattle.hive_records.specs.KeyEncodings.{security_bytes, key_node_bytes, RowFits, KeyNodeFieldsFit, ValueCells, Leaf};
ghost use Rattle.hive_records.specs.NameEncodings.{is_latin, name_bytes, AreUnits};

/// A name that is written reads back, in Latin-1 or in UTF-16.
pub fn names_again()
    ensures { (cells : Cells) (name : List ℕ) → AreUnits name →
        Gives (name_in (is_latin name) (name_bytes name)) cells [] [] name }
{}

/// A value that is written reads back.
///
/// - `small`: with data of at most four bytes in the record.
/// - `large`: with data in one cell.
pub fn values_again()
    ensures small { (split : Bool) (cells : Cells) (at : ℕ) (value : Value) → ValueIsEncodable value →
        length value.«data» ≤ 4 → CellHolds cells at (small_value value) →
        Gives (value_at split at) cells (at ∷ []) [] value }
    ensures large { (split : Bool) (cells : Cells) (at to : ℕ) (value : Value) → ValueIsEncodable value →
        0 < length value.«data» → length value.«data» < 2 ^ 31 → (split ≡ true →
        length value.«data» ≤ 16_344) → to < 2 ^ 32 →
        CellHolds cells at (large_value value to) → CellHolds cells to value.«data» →
        Gives (value_at split at) cells (at ∷ to ∷ []) [] value }
{}

/// A value with big data that are written in segments reads back.
pub fn big_again()
    ensures { (cells : Cells) (at to list : ℕ) (value : Value) (segments : List Segment) →
        ValueIsEncodable value → 16_344 < length value.«data» → length value.«data» < 2 ^ 31 → to < 2 ^ 32 →
        list < 2 ^ 32 →
        value.«data» ≡ joined_segments segments → AreFull segments → length segments < 2 ^ 16 →
        AreOffsets (segment_offsets segments) →
        CellHolds cells at (large_value value to) → CellHolds cells to (big_data_bytes segments list) →
        CellHolds cells list (offsets_bytes (segment_offsets segments)) →
        AllByRecursion (λ (s : Segment). CellHolds cells s.at s.encoding) segments →
        Gives (value_at true at) cells (at ∷ to ∷ list ∷ segment_offsets segments) [] value }
{}

/// A key's values read back, whose cells have what is written: each with data in its record, in a cell, or in segments.
pub fn written_again()
    ensures one { (split : Bool) (cells : Cells) (v : ValueCells) → IsWritten split cells v →
        Gives (value_at split v.at) cells v.own [] v.value }
    ensures all { (split : Bool) (cells : Cells) (list : ℕ) (values : List ValueCells) →
        0 < length values → AreOffsets (map (λ (v : ValueCells). v.at) values) →
        all_apart (map (λ (v : Value). folded v.name) (map (λ (v : ValueCells). v.value) values))
        ≡ true →
        AllByRecursion (λ (v : ValueCells). IsWritten split cells v) values →
        CellHolds cells list (offsets_bytes (map (λ (v : ValueCells). v.at) values)) →
        Gives (values_at split (length values) list) cells (list ∷ flat_map
        (λ (v : ValueCells). v.own) values) [] (map_of (map (λ (v : ValueCells). v.value) values)) }
{}

/// A list that is written reads back.
///
/// - `plain`, `hashed`: a leaf of offsets, a leaf with hashes.
/// - `one_plain`, `one_hashed`: the list of a key that has one such leaf.
pub fn lists_again()
    ensures plain { (cells : Cells) (at : ℕ) (offsets : List ℕ) → length offsets < 2 ^ 16 →
        AreOffsets offsets → CellHolds cells at (plain_leaf offsets) →
        Gives (leaf_at at) cells (at ∷ []) [] offsets }
    ensures hashed { (cells : Cells) (at : ℕ) (subkey_list : List Subkey) → length subkey_list < 2 ^ 16 →
        AreOffsets (cell_offsets subkey_list) → CellHolds cells at (hashed_leaf subkey_list) →
        Gives (leaf_at at) cells (at ∷ []) [] (cell_offsets subkey_list) }
    ensures one_plain { (cells : Cells) (at : ℕ) (offsets : List ℕ) → 0 < length offsets →
        length offsets < 2 ^ 16 → AreOffsets offsets → CellHolds cells at (plain_leaf offsets) →
        Gives (subkeys_at (length offsets) at) cells (at ∷ []) [] offsets }
    ensures one_hashed { (cells : Cells) (at : ℕ) (subkey_list : List Subkey) → 0 < length subkey_list →
        length subkey_list < 2 ^ 16 → AreOffsets (cell_offsets subkey_list) → CellHolds cells at (hashed_leaf subkey_list) →
        Gives (subkeys_at (length subkey_list) at) cells (at ∷ []) [] (cell_offsets subkey_list) }
{}

/// A security cell that is written reads back, as a cell that is lent; and so does a class.
pub fn cells_again()
    ensures descriptor { (cells : Cells) (at next previous count : ℕ) (descriptor : List ℕ) →
        at < nil_offset → length descriptor < 2 ^ 32 →
        CellHolds cells at (security_bytes next previous count descriptor) →
        Gives (descriptor_at at) cells [] (at ∷ []) descriptor }
    ensures no_descriptor { (cells : Cells) → Gives (descriptor_at nil_offset) cells [] [] [] }
    ensures class { (cells : Cells) (at : ℕ) (class : List ℕ) → 0 < length class →
        CellHolds cells at class → Gives (class_at (length class) at) cells (at ∷ []) [] class }
    ensures no_class { (cells : Cells) (at : ℕ) → Gives (class_at 0 at) cells [] [] [] }
{}

/// Lists whose elements read back read back whole.
///
/// - `values`: the values of a key.
/// - `leaves`: a list of leaves.
/// - `no_values`, `no_subkeys`: if there are none, no list is looked at.
pub fn many_again()
    ensures no_values { (split : Bool) (cells : Cells) (list : ℕ) →
        Gives (values_at split 0 list) cells [] [] (map_of []) }
    ensures no_subkeys { (cells : Cells) (list : ℕ) → Gives (subkeys_at 0 list) cells [] [] [] }
    ensures values { (split : Bool) (cells : Cells) (list : ℕ) (values : List ValueCells) →
        0 < length values → AreOffsets (map (λ (v : ValueCells). v.at) values) →
        all_apart (map (λ (v : Value). folded v.name) (map (λ (v : ValueCells). v.value) values))
        ≡ true →
        AllByRecursion (λ (v : ValueCells). Gives (value_at split v.at) cells v.own [] v.value) values
        →
        CellHolds cells list (offsets_bytes (map (λ (v : ValueCells). v.at) values)) →
        Gives (values_at split (length values) list) cells (list ∷ flat_map
        (λ (v : ValueCells). v.own) values) [] (map_of (map (λ (v : ValueCells). v.value) values)) }
    ensures leaves { (cells : Cells) (list : ℕ) (leaves : List Leaf) →
        0 < length (flat_map (λ (l : Leaf). l.subkey_list) leaves) → length leaves < 2 ^ 16 →
        AreOffsets (map (λ (l : Leaf). l.at) leaves) →
        AllByRecursion (λ (l : Leaf). Gives (leaf_at l.at) cells (l.at ∷ []) [] l.subkey_list) leaves →
        CellHolds cells list (indirect (map (λ (l : Leaf). l.at) leaves)) →
        Gives (subkeys_at (length (flat_map (λ (l : Leaf). l.subkey_list) leaves)) list) cells (list ∷ map
        (λ (l : Leaf). l.at) leaves) [] (flat_map (λ (l : Leaf). l.subkey_list) leaves) }
{}

/// A key reads back whole, as the law of shapes requires, if its class, descriptor, values and list of subkeys read
/// back from where its record says.
pub fn keys_again()
    ensures { (split : Bool) (cells : Cells) (at : ℕ) (row : Row) (its : KeyNodeFields)
        (class lent values lists subkey_list : List ℕ) → RowFits row → KeyNodeFieldsFit its →
        CellHolds cells at (key_node_bytes row its) →
        Gives (class_at (length row.class) its.class) cells class [] row.class →
        Gives (descriptor_at its.security) cells [] lent row.descriptor →
        Gives (values_at split its.value_count its.values) cells values [] row.values →
        Gives (subkeys_at its.subkey_total its.subkey_list) cells lists [] subkey_list →
        keys_in split cells at ≡ Ok (record {
          name = folded row.name;
          row = row;
          subkey_list = subkey_list;
          own = at
              ∷ (class ++ (values ++ lists));
          lent = lent;
        }) }
{}

/// How many bytes encodings have.
///
/// - `name`: at most two for each unit.
/// - `key`, `small`, `large`, `security`: the fields, and the name or the descriptor after them.
/// - `plain`, `hashed`, `indirect`, `offsets`: a fixed number for each element of a list, after its fields.
pub fn record_lengths()
    ensures name { (name : List ℕ) → length (name_bytes name) ≤ 2 * length name }
    ensures key { (row : Row) (its : KeyNodeFields) →
        length (key_node_bytes row its) ≡ 76 + length (name_bytes row.name) }
    ensures small { (value : Value) → length (small_value value) ≡ 20 + length
        (name_bytes value.name) }
    ensures large { (value : Value) (at : ℕ) →
        length (large_value value at) ≡ 20 + length (name_bytes value.name) }
    ensures security { (next previous count : ℕ) (descriptor : List ℕ) →
        length (security_bytes next previous count descriptor) ≡ 20 + length descriptor }
    ensures plain { (offsets : List ℕ) → length (plain_leaf offsets) ≡ 4 + 4 * length offsets }
    ensures hashed { (subkey_list : List Subkey) → length (hashed_leaf subkey_list) ≡ 4 + 8 * length subkey_list }
    ensures indirect { (offsets : List ℕ) → length (indirect offsets) ≡ 4 + 4 * length offsets }
    ensures offsets { (offsets : List ℕ) → length (offsets_bytes offsets) ≡ 4 * length offsets }
{}
