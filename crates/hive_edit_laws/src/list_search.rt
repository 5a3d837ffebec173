//! The elements of lists of offsets, one by one: laws.

ghost use Rattle.std.specs.Prelude.{◌≡◌, ◌≢◌, ◌+◌, ◌*◌, ◌<◌, ◌++◌, ◌∷◌, ℕ, suc, List, Some, None, true, false, length, take, drop, slice_get};
ghost use Rattle.hive_tree_model.specs.Lists.{IsIn};
ghost use Rattle.hive_cells.specs.Tiles.{u32_at, IsAllocatedCell, cell_data};
ghost use Rattle.hive_cells.specs.Bins.{Cells, Shows};
ghost use Rattle.hive_records.specs.Numbers.{words_from};
ghost use Rattle.hive_records.specs.Lists.{subkeys_at};
ghost use Rattle.hive_records.specs.Heads.{IsSubkeyList};
ghost use Rattle.hive_records.specs.RecordReaders.{elements_of};
ghost use Rattle.hive_records.specs.Fields.{Gives};
ghost use Rattle.hive_records.specs.declared.list_record.SubkeyList.{SubkeyList};
ghost use Rattle.hive_edit_laws.specs.Found.{HoldsList, LeafHas};

/// The cells that data show.
///
/// - `some`: a cell with data is allocated, and these are its data.
/// - `here`, `none`: an allocated cell is shown with its data; no other offset has any.
pub fn shown_cells()
    ensures some { (bytes : List ℕ) (cells : Cells) → Shows bytes cells → (at : ℕ) (its : List ℕ) →
        cells at ≡ Some its → IsAllocatedCell bytes at × (its ≡ cell_data bytes at) }
    ensures here { (bytes : List ℕ) (cells : Cells) → Shows bytes cells → (at : ℕ) →
        IsAllocatedCell bytes at → cells at ≡ Some (cell_data bytes at) }
    ensures none { (bytes : List ℕ) (cells : Cells) → Shows bytes cells → (at : ℕ) →
        ¬ IsAllocatedCell bytes at → cells at ≡ None }
{}

/// A word of a list is at an index below its count.
///
/// - `get`, `there`: the word at an index.
/// - `index`: each word has an index.
/// - `element`, `around`: what is at an index is an element, between those before and after it.
pub fn words_have_indexes()
    ensures get { (bytes : List ℕ) (from stride count index : ℕ) → index < count →
        slice_get (words_from bytes from stride count) index
        ≡ Some (u32_at bytes (from + stride * index)) }
    ensures there { (bytes : List ℕ) (from stride count index : ℕ) → index < count →
        IsIn (u32_at bytes (from + stride * index)) (words_from bytes from stride count) }
    ensures index { (bytes : List ℕ) (from stride count word : ℕ) →
        IsIn word (words_from bytes from stride count) → (index : ℕ) × (index < count)
        × (word ≡ u32_at bytes (from + stride * index)) }
    ensures element { (words : List ℕ) (index word : ℕ) → slice_get words index ≡ Some word →
        IsIn word words }
    ensures around { (words : List ℕ) (index word : ℕ) → slice_get words index ≡ Some word →
        words ≡ take index words ++ word ∷ drop (suc index) words }
{}

/// The list of subkeys that a key names was read.
///
/// - `many`: it has as many subkeys as the key says.
/// - `holds`: if these are some, its cell holds a list.
/// - `plain`: if it is no list of lists, its elements are the subkeys.
/// - `leaf`, `subkey`: if it is one, each element is a list of some of the subkeys, and each subkey is in such a list.
pub fn subkey_lists()
    ensures many { (bytes : List ℕ) (cells : Cells) → Shows bytes cells → (count at : ℕ)
        (own lent subkeys : List ℕ) → Gives (subkeys_at count at) cells own lent subkeys →
        length subkeys ≡ count }
    ensures holds { (bytes : List ℕ) (cells : Cells) → Shows bytes cells → (count at : ℕ)
        (own lent subkeys : List ℕ) → Gives (subkeys_at count at) cells own lent subkeys →
        count ≢ 0 → HoldsList bytes at }
    ensures plain { (bytes : List ℕ) (cells : Cells) → Shows bytes cells → (count at : ℕ)
        (own lent subkeys : List ℕ) → Gives (subkeys_at count at) cells own lent subkeys →
        count ≢ 0 → (list : SubkeyList) → IsSubkeyList list (cell_data bytes at) →
        list.is_indirect ≡ false → elements_of list ≡ subkeys }
    ensures leaf { (bytes : List ℕ) (cells : Cells) → Shows bytes cells → (count at : ℕ)
        (own lent subkeys : List ℕ) → Gives (subkeys_at count at) cells own lent subkeys →
        count ≢ 0 → (list : SubkeyList) → IsSubkeyList list (cell_data bytes at) →
        list.is_indirect ≡ true → (leaf : ℕ) → IsIn leaf (elements_of list) → (its : List ℕ)
        × LeafHas cells leaf its × ((offset : ℕ) → IsIn offset its → IsIn offset subkeys) }
    ensures subkey { (bytes : List ℕ) (cells : Cells) → Shows bytes cells → (count at : ℕ)
        (own lent subkeys : List ℕ) → Gives (subkeys_at count at) cells own lent subkeys →
        count ≢ 0 → (list : SubkeyList) → IsSubkeyList list (cell_data bytes at) →
        list.is_indirect ≡ true → (offset : ℕ) → IsIn offset subkeys → (leaf : ℕ) × (its : List ℕ)
        × IsIn leaf (elements_of list) × LeafHas cells leaf its × IsIn offset its }
{}

/// A list below a list of lists was read.
///
/// - `holds`: its cell holds a list.
/// - `elements`: it is no list of lists, and its elements are the subkeys.
/// - `one`: it has no other subkeys.
pub fn leaf_lists()
    ensures holds { (bytes : List ℕ) (cells : Cells) → Shows bytes cells → (leaf : ℕ)
        (its : List ℕ) → LeafHas cells leaf its → HoldsList bytes leaf }
    ensures elements { (bytes : List ℕ) (cells : Cells) → Shows bytes cells → (leaf : ℕ)
        (its : List ℕ) → LeafHas cells leaf its → (list : SubkeyList) →
        IsSubkeyList list (cell_data bytes leaf) → (list.is_indirect ≡ false)
        × (elements_of list ≡ its) }
    ensures one { (cells : Cells) (leaf : ℕ) (its other : List ℕ) → LeafHas cells leaf its →
        LeafHas cells leaf other → its ≡ other }
{}
