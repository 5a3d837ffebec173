//! Which tree hive bins data encode: laws.

ghost use Rattle.std.specs.Prelude.{◌≡◌, ◌++◌, [], T, ℕ, List, Bool, Ok, Some};
ghost use Rattle.refusals.specs.declared.refusal.Refusal.{Refusal};
ghost use Rattle.std.specs.FinMap as finite;
ghost use Rattle.std.specs.FinMap.Entries.{is_sorted, put};
ghost use Rattle.reg_tree_parts.specs.Orders.{name_order, path_order};
ghost use Rattle.reg_tree_parts.specs.Rows.{Row};
ghost use Rattle.reg_tree_parts.specs.Nodes.{Entries, entries_of};
ghost use Rattle.reg_tree.specs.Maps.{TreeMap, IsTree, row};
ghost use Rattle.reg_tree.specs.Encodable.{IsEncodableRow};
ghost use Rattle.hive_cells.specs.Changes.{StaysAt};
ghost use Rattle.hive_tree_model.specs.Lists.{IsIn};
ghost use Rattle.hive_tree_model.specs.Keys.{KeyParts, Keys, none, names, all_cells};
ghost use Rattle.hive_tree_model.specs.Trees.{tree_of};
ghost use Rattle.hive_tree_model.specs.Encodings.{Whole, Named};
ghost use Rattle.hive_tree_model.specs.Cells.{IsLocal, IsThere};
ghost use Rattle.hive_tree_model.specs.Faults.{IsTrail, IsLentTrail};
ghost use Rattle.hive_tree_model.specs.Loads.{with_last};
ghost use Rattle.hive_records.specs.Nodes.{IsNodeOf, AreNodesOf};
ghost use Rattle.hive_records.specs.Bytes.{AreBytes, HoldBytes};
ghost use Rattle.hive_records.specs.KeyNodes.{keys_in, trail_in, lends_in};
ghost use Rattle.hive_records.specs.Images.{BinsEncodeTree, FaultFor};
ghost use Rattle.hive_cells.specs.Bins.{Cells, Shows};

/// Hive bins data encode at most one tree, and what they encode is a tree. They encode none if a fault is in them.
pub fn one_tree()
    ensures one { (bytes : List ℕ) (root minor : ℕ) (t u : TreeMap) →
        BinsEncodeTree bytes root minor t → BinsEncodeTree bytes root minor u → t ≡ u }
    ensures is { (bytes : List ℕ) (root minor : ℕ) (tree : TreeMap) →
        BinsEncodeTree bytes root minor tree → IsTree tree }
    ensures fault { (bytes : List ℕ) (root minor : ℕ) (tree : TreeMap) (refusal : Refusal) →
        FaultFor bytes root minor refusal → BinsEncodeTree bytes root minor tree → ⊥ }
{}

/// What a key's cells say depends only on its own cells and on the security cell that it names: the law of shapes
/// applies.
pub fn keys_are_local()
    ensures hangs { (split : Bool) → IsLocal (keys_in split) }
    ensures there { (split : Bool) → IsThere (keys_in split) }
    ensures trail { (split : Bool) (cells : Cells) →
        IsTrail (trail_in split cells) (keys_in split cells) }
    ensures lends { (split : Bool) (cells : Cells) →
        IsLentTrail (lends_in split cells) (keys_in split cells) }
{}

/// If the cells stay that a key and the keys below it depend on, what they say stays.
pub fn stays()
    ensures { (old new : List ℕ) (before after : Cells) → Shows old before → Shows new after →
        (split : Bool) (at : ℕ) (parts : KeyParts Row) (below : Keys Row) →
        Whole (keys_in split before) at parts below → ((cell : ℕ) →
        IsIn cell ((parts.own ++ parts.lent) ++ all_cells below) → StaysAt old new cell) →
        Whole (keys_in split after) at parts below }
{}

/// A node of a tree is made of a key's subkeys one after another, in whatever order they are listed. The tree of the
/// root's node is the tree that the keys make.
pub fn nodes()
    ensures begins { AreNodesOf [] none }
    ensures goes_on { (at : ℕ) (parts : KeyParts Row) (below first : Keys Row) (subkey_list : List (List ℕ
        × Entries)) (entries : Entries) →
        AreNodesOf subkey_list first → IsNodeOf entries parts below → (IsIn parts.name (names first) → ⊥) →
        AreNodesOf (put name_order parts.name entries subkey_list) (with_last first at parts below) }
    ensures ends { (parts : KeyParts Row) (keys : Keys Row) (subkey_list : List (List ℕ × Entries)) →
        T (is_sorted name_order subkey_list) →
        AreNodesOf subkey_list keys → IsNodeOf (entries_of parts.row subkey_list) parts keys }
    ensures tree { (parts : KeyParts Row) (keys : Keys Row) (entries : Entries) →
        T (is_sorted path_order entries) → Named keys →
        IsNodeOf entries parts keys → finite.from_sorted entries ≡ tree_of parts keys }
{}

/// What was read of a file is what a tree may contain.
///
/// - `row`: a record that was read has a name of at most 65,535 bytes as it is stored, without a backslash. Its class
///   has at most as many bytes. Its flags have 16 bits, without 0x0020 and 0x0040. Each value is under the fold of its
///   name.
/// - `cells`: the cells of data that are bytes have bytes.
/// - `tree`: each row of the tree that such data encode is as `row` says.
pub fn rows_are_encodable()
    ensures row { (cells : Cells) → HoldBytes cells → (split : Bool) (at : ℕ) (parts : KeyParts Row) →
        keys_in split cells at ≡ Ok parts → IsEncodableRow parts.row }
    ensures cells { (bytes : List ℕ) (cells : Cells) → AreBytes bytes → Shows bytes cells →
        HoldBytes cells }
    ensures tree { (bytes : List ℕ) (root minor : ℕ) (tree : TreeMap) → AreBytes bytes →
        BinsEncodeTree bytes root minor tree → (path : List (List ℕ)) (key : Row) →
        row tree path ≡ Some key →
        IsEncodableRow key }
{}
