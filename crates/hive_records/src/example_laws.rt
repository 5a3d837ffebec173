//! Images that were written byte by byte, so that no definition is empty.

ghost use Rattle.std.specs.Prelude.{◌≡◌, ◌∷◌, [], true, Ok, Some};
ghost use Rattle.hive_tree_model.specs.Keys.{none};
ghost use Rattle.hive_tree_model.specs.Encodings.{CellsEncodeTree};
ghost use Rattle.hive_records.specs.Example.{one_cell, one_key, full_cells, two_keys, full_root, child_record, full_row, child_row, full_value};
ghost use Rattle.hive_records.specs.KeyNodes.{keys_in};
ghost use Rattle.refusals.specs.declared.refusal.Refusal.TheVariants as refusal;
ghost use Rattle.refusals.specs.declared.refusal.Cause.TheVariants as cause;
ghost use Rattle.hive_records.specs.Values.{value_at};
ghost use Rattle.hive_records.specs.Fields.{Gives};
ghost use Rattle.hive_records.specs.Images.{FaultIn};
ghost use Rattle.hive_records.specs.Samples.{every_list, four_keys, big_cells, big_value, no_cells, empty_cell, handle_in_place, odd_name, backslash_in_name, values_alike, no_list, list_in_lists, other_total, nameless_subkey, subkeys_alike, cell_met_twice, key_in_itself, lent_and_own};
ghost use Rattle.hive_records.specs.ValueEncodings.{small_value};
ghost use Rattle.hive_records.specs.ListEncodings.{offsets_bytes, indirect};
ghost use Rattle.hive_records.specs.Wholes.{root_fields, child_fields};
ghost use Rattle.hive_records.specs.KeyEncodings.{security_bytes, key_node_bytes};
ghost use Rattle.hive_records.specs.NameEncodings.{name_bytes};

/// Two images, so that none of this is empty.
///
/// - `one`: one cell with a root without values and subkeys encodes the tree of one key.
/// - `two`: a root with a value in its record, and one subkey below two lists. Both have one security cell. They encode
///   the tree of two keys.
pub fn example()
    ensures one { CellsEncodeTree (keys_in true one_cell) 32 one_key }
    ensures two { CellsEncodeTree (keys_in true full_cells) 32 two_keys }
{}

/// The encodings of the records of an image that was written byte by byte.
pub fn records_by_hand()
    ensures root { key_node_bytes full_row root_fields ≡ full_root }
    ensures child { key_node_bytes child_row child_fields ≡ child_record }
    ensures value { full_cells 256 ≡ Some (small_value full_value) }
    ensures values { full_cells 240 ≡ Some (offsets_bytes (256 ∷ [])) }
    ensures lists { full_cells 200 ≡ Some (indirect (208 ∷ [])) }
    ensures security { full_cells 280 ≡ Some (security_bytes 0 0 0 (9 ∷ 8 ∷ [])) }
    ensures reads { keys_in true full_cells 120
        ≡ Ok (record {
          name = 0x41 ∷ [];
          row = child_row;
          subkey_list = [];
          own = 120 ∷ [];
          lent = 280 ∷
              [];
        }) }
    ensures wide { name_bytes (0x41 ∷ 0x100 ∷ []) ≡ 0x41 ∷ 0 ∷ 0 ∷ 1 ∷ [] }
{}

/// Each kind of list, a class, a name of two bytes a unit, and big data.
///
/// - `lists`: three subkeys below a ri, a li, a lf and a lh, of a root with a class.
/// - `big`: data of 16,345 bytes in two segments.
pub fn each_kind()
    ensures lists { CellsEncodeTree (keys_in true every_list) 32 four_keys }
    ensures big { Gives (value_at true 32) big_cells (32 ∷ 64 ∷ 80 ∷ 96 ∷ 104 ∷ []) [] big_value }
{}

/// One image for each refusal of one key's cells.
pub fn each_refusal()
    ensures offset { FaultIn true no_cells 32 (refusal.HiveDamaged 0 cause.BadOffset) }
    ensures empty { FaultIn true empty_cell 32 (refusal.HiveDamaged 0 cause.BadRecord) }
    ensures handle { FaultIn true handle_in_place 32 refusal.Unsupported }
    ensures odd { FaultIn true odd_name 32 (refusal.HiveDamaged 0 cause.BadName) }
    ensures backslash { FaultIn true backslash_in_name 32 (refusal.HiveDamaged 0 cause.BadName) }
    ensures values { FaultIn true values_alike 32 (refusal.HiveDamaged 0 cause.BadName) }
    ensures list { FaultIn true no_list 32 (refusal.HiveDamaged 0 cause.BadList) }
    ensures inside { FaultIn true list_in_lists 32 (refusal.HiveDamaged 0 cause.BadList) }
    ensures total { FaultIn true other_total 32 (refusal.HiveDamaged 0 cause.BadList) }
{}

/// One image for each fault between keys, or between the cells of one.
pub fn each_fault()
    ensures nameless { FaultIn true nameless_subkey 32 (refusal.HiveDamaged 0 cause.BadName) }
    ensures alike { FaultIn true subkeys_alike 32 (refusal.HiveDamaged 0 cause.BadName) }
    ensures twice { FaultIn true cell_met_twice 32 (refusal.HiveDamaged 0 cause.Shared) }
    ensures itself { FaultIn true key_in_itself 32 (refusal.HiveDamaged 0 cause.Shared) }
    ensures lent { FaultIn true lent_and_own 32 (refusal.HiveDamaged 0 cause.Shared) }
{}
