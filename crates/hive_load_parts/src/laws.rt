//! What the law of shapes takes of keys that were read.
ghost use Rattle.std.specs.Prelude.{◌≡◌, ◌⊎◌, ℕ, Bool, List, [], ◌∷◌, ◌++◌, map, Ok, Err};
ghost use Rattle.hive_cells.specs.Bins.{Cells};
ghost use Rattle.hive_load_parts.specs.Nodes.{AreListed};
ghost use Rattle.hive_load_parts.specs.PartsOfKey.{parts_at};
ghost use Rattle.hive_records.specs.Follows.{Follows};
ghost use Rattle.hive_records.specs.KeyNodes.{key_at, keys_in, trail_in};
ghost use Rattle.hive_records.specs.Nodes.{AreNodesOf, IsNodeOf};
ghost use Rattle.hive_tree_model.specs.Keys.{Keys, KeyParts, names};
ghost use Rattle.hive_tree_model.specs.Loads.{Marked, CellMarks, HasFault, with_last};
ghost use Rattle.reg_tree_parts.specs.Nodes.{Entries};
ghost use Rattle.reg_tree_parts.specs.Rows.{Row};
ghost use Rattle.refusals.specs.declared.refusal.Refusal.{Refusal};
ghost use Rattle.refusals.specs.declared.refusal.Refusal.TheVariants.{HiveDamaged, NoMemory};
ghost use Rattle.refusals.specs.declared.refusal.Cause.TheVariants.{BadName, Shared};

/// A law of a key that was read or refused. A key that was read has the parts that the law of shapes requires, and its
/// own cells are marked. A refusal is want of memory, or a fault that the law names, under the marks of before.
pub fn keys_are_read()
    ensures parts { (split : Bool) (cells : Cells) (at : ℕ) (old new : CellMarks) (row : Row)
        (subkey_list : List ℕ) → Follows (key_at split at) cells old new (Ok (row, subkey_list)) →
        (keys_in split cells at ≡ Ok (parts_at split cells at row subkey_list))
        × Marked old new (trail_in split cells at) }
    ensures refused { (split : Bool) (cells : Cells) (at : ℕ) (old new : CellMarks) (why : Refusal) →
        Follows (key_at split at) cells old new (Err why) → (why ≡ NoMemory)
        ⊎ HasFault (trail_in split cells) (keys_in split cells) (HiveDamaged 0 BadName)
        (HiveDamaged 0 Shared) old at why }
{}

/// A law of nodes, one for each listed key in the order of the list. They have the keys' rows, and their names are the
/// keys'. One node more goes with one key more.
pub fn nodes_as_listed()
    ensures rows { (nodes : List (List ℕ × Entries)) (keys : Keys Row) →
        AreListed nodes keys → AreNodesOf nodes keys }
    ensures more { (nodes : List (List ℕ × Entries)) (keys : Keys Row) (at : ℕ) (parts : KeyParts Row)
        (below : Keys Row) (node : Entries) → AreListed nodes keys → IsNodeOf node parts below →
        AreListed (nodes ++ (parts.name, node) ∷ []) (with_last keys at parts below) }
    ensures names { (nodes : List (List ℕ × Entries)) (keys : Keys Row) →
        AreListed nodes keys → map (λ (n : List ℕ × Entries). n.0) nodes ≡ names keys }
{}
