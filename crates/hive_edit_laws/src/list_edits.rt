//! Lists of subkeys with one element more or less, by their bytes: laws.

ghost use Rattle.std.specs.Prelude.{◌≡◌, ◌≢◌, ◌≤◌, ◌<◌, ◌+◌, ◌*◌, ◌++◌, ◌∷◌, [], ℕ, suc, List, Some, true, false, length, take, drop, flat_map, slice_get, slice_index};
ghost use Rattle.reg_tree.specs.Maps.{TreeMap};
ghost use Rattle.hive_tree_model.specs.Lists.{IsIn};
ghost use Rattle.hive_tree_model.specs.Cells.{SameBut};
ghost use Rattle.hive_cells.specs.Tiles.{u32_at, cell_data};
ghost use Rattle.hive_cells.specs.Bins.{Cells, Shows};
ghost use Rattle.hive_records.specs.Readers.{each};
ghost use Rattle.hive_records.specs.Numbers.{u16_at, words_from, nil_offset};
ghost use Rattle.hive_records.specs.Lists.{is_indirect, leaf_at, subkeys_at};
ghost use Rattle.hive_records.specs.Heads.{stride_of};
ghost use Rattle.hive_records.specs.Fields.{Gives};
ghost use Rattle.hive_edit_laws.specs.RecordEdits.{SecurityCountChanges};
ghost use Rattle.hive_edit_laws.specs.Shifts.{with_at, without_at, ShiftsIn, ShiftsOut};
ghost use Rattle.hive_edit_laws.specs.SubkeyLists.{OneMore};
ghost use Rattle.hive_edit_laws.specs.Found.{KeyFound, LeafHas, LeavesHave, IsLeaf, IsListOfLists, leaf_words, list_words};

/// Words of a list.
///
/// - `cut`: in two parts.
/// - `copied`: from other bytes.
/// - `long`: how many there are.
pub fn words_have_parts()
    ensures cut { (bytes : List ℕ) (from stride count more : ℕ) →
        words_from bytes from stride (count + more) ≡ words_from bytes from stride count
        ++ words_from bytes (from + stride * count) stride more }
    ensures copied { (old new : List ℕ) (from to stride count : ℕ) → 4 ≤ stride → ((j : ℕ) →
        j < stride * count → slice_index new (to + j) ≡ slice_index old (from + j)) →
        words_from new to stride count ≡ words_from old from stride count }
    ensures long { (bytes : List ℕ) (from stride count : ℕ) →
        length (words_from bytes from stride count) ≡ count }
{}

/// A list that is no list of lists.
///
/// - `says`, `gives`: it has the offsets in its bytes.
/// - `like`: bytes with the same letters and another count are such a list too, if they are long enough.
/// - `more`, `fewer`: in place or in another cell, with one element more, or one less.
pub fn leaves_by_bytes()
    ensures says { (cells : Cells) (at : ℕ) (its bytes : List ℕ) → LeafHas cells at its →
        cells at ≡ Some bytes → IsLeaf bytes × (its ≡ leaf_words bytes) }
    ensures gives { (cells : Cells) (at : ℕ) (bytes : List ℕ) → cells at ≡ Some bytes →
        IsLeaf bytes → Gives (leaf_at at) cells (at ∷ []) [] (leaf_words bytes) }
    ensures like { (old new : List ℕ) (count : ℕ) → IsLeaf old → u16_at new 0 ≡ u16_at old 0 →
        u16_at new 2 ≡ count → 4 + stride_of old * count ≤ length new →
        IsLeaf new × (leaf_words new ≡ words_from new 4 (stride_of old) count) }
    ensures more { (before after : Cells) (from at : ℕ) (its old new : List ℕ) (index word : ℕ) →
        LeafHas before from its → before from ≡ Some old → after at ≡ Some new →
        u16_at new 0 ≡ u16_at old 0 → u16_at new 2 ≡ suc (u16_at old 2) →
        4 + stride_of old * suc (u16_at old 2) ≤ length new → index ≤ u16_at old 2 →
        ShiftsIn old new 4 (stride_of old) (u16_at old 2) index word →
        Gives (leaf_at at) after (at ∷ []) [] (with_at index word its) }
    ensures fewer { (before after : Cells) (from at : ℕ) (its old new : List ℕ) (index : ℕ) →
        LeafHas before from its → before from ≡ Some old → after at ≡ Some new →
        u16_at new 0 ≡ u16_at old 0 → u16_at old 2 ≡ suc (u16_at new 2) →
        4 + stride_of old * u16_at new 2 ≤ length new → index ≤ u16_at new 2 →
        ShiftsOut old new 4 (stride_of old) (u16_at new 2) index →
        Gives (leaf_at at) after (at ∷ []) [] (without_at index its) }
{}

/// The lists that a list of lists names, one after another.
///
/// - `none`, `one`, `alone`: none, and one.
/// - `join`, `split`: in two parts.
/// - `stay`: lists whose cells stay.
/// - `own`: each has one cell, and lends none.
pub fn leaves_in_turn()
    ensures none { (cells : Cells) → LeavesHave cells [] [] }
    ensures one { (cells : Cells) (leaf : ℕ) (its : List ℕ) → LeafHas cells leaf its →
        LeavesHave cells (leaf ∷ []) (its ∷ []) }
    ensures alone { (cells : Cells) (leaf : ℕ) (lists : List (List ℕ)) →
        LeavesHave cells (leaf ∷ []) lists → (its : List ℕ) × LeafHas cells leaf its
        × (lists ≡ its ∷ []) }
    ensures join { (cells : Cells) (first rest : List ℕ) (us ws : List (List ℕ)) →
        LeavesHave cells first us → LeavesHave cells rest ws →
        LeavesHave cells (first ++ rest) (us ++ ws) }
    ensures split { (cells : Cells) (first rest : List ℕ) (lists : List (List ℕ)) →
        LeavesHave cells (first ++ rest) lists → (us : List (List ℕ)) × (ws : List (List ℕ))
        × LeavesHave cells first us × LeavesHave cells rest ws × (lists ≡ us ++ ws) }
    ensures stay { (before after : Cells) (leaves : List ℕ) (lists : List (List ℕ)) →
        LeavesHave before leaves lists → ((leaf : ℕ) → IsIn leaf leaves →
        after leaf ≡ before leaf) → LeavesHave after leaves lists }
    ensures own { (cells : Cells) (leaves : List ℕ) (lists : List (List ℕ)) (own lent : List ℕ) →
        Gives (each leaf_at leaves) cells own lent lists → (own ≡ leaves) × (lent ≡ []) }
{}

/// The list of subkeys that a key names, by the bytes of its cell.
///
/// - `none`, `leaf`, `lists`: how it is read.
/// - `no_cells`, `one_cell`, `cells`: which cells a list has that was read, and what is in them.
/// - `like`: bytes with the letters of a list of lists and another count are one too, if they are long enough.
pub fn key_lists()
    ensures none { (cells : Cells) (at : ℕ) → Gives (subkeys_at 0 at) cells [] [] [] }
    ensures leaf { (cells : Cells) (at : ℕ) (bytes : List ℕ) → cells at ≡ Some bytes →
        (count : ℕ) → count ≢ 0 → IsLeaf bytes → length (leaf_words bytes) ≡ count →
        Gives (subkeys_at count at) cells (at ∷ []) [] (leaf_words bytes) }
    ensures lists { (cells : Cells) (at : ℕ) (bytes : List ℕ) → cells at ≡ Some bytes →
        (count : ℕ) (lists : List (List ℕ)) → count ≢ 0 → IsListOfLists bytes →
        LeavesHave cells (list_words bytes) lists →
        length (flat_map (λ (l : List ℕ). l) lists) ≡ count → Gives (subkeys_at count at) cells
        (at ∷ list_words bytes) [] (flat_map (λ (l : List ℕ). l) lists) }
    ensures no_cells { (cells : Cells) (count at : ℕ) (own lent its : List ℕ) →
        Gives (subkeys_at count at) cells own lent its → count ≡ 0 → (own ≡ []) × (its ≡ []) }
    ensures one_cell { (cells : Cells) (count at : ℕ) (own lent its bytes : List ℕ) →
        Gives (subkeys_at count at) cells own lent its → count ≢ 0 → cells at ≡ Some bytes →
        is_indirect bytes ≡ false → (own ≡ at ∷ []) × LeafHas cells at its }
    ensures cells { (cells : Cells) (count at : ℕ) (own lent its bytes : List ℕ) →
        Gives (subkeys_at count at) cells own lent its → count ≢ 0 → cells at ≡ Some bytes →
        is_indirect bytes ≡ true → IsListOfLists bytes × (own ≡ at ∷ list_words bytes)
        × (lists : List (List ℕ)) × LeavesHave cells (list_words bytes) lists
        × (its ≡ flat_map (λ (l : List ℕ). l) lists) }
    ensures like { (old new : List ℕ) (count : ℕ) → IsListOfLists old →
        u16_at new 0 ≡ u16_at old 0 → u16_at new 2 ≡ count → 4 + 4 * count ≤ length new →
        IsListOfLists new × (list_words new ≡ words_from new 4 4 count) }
{}

/// The list of subkeys that a key names has changed, in place or in another cell.
///
/// - `more`, `fewer`: one list, with one element more, or one less, while some are left.
/// - `leaf`: one of several lists was replaced: by itself as it is now, by two lists, or by none. The others stay.
pub fn key_lists_change()
    ensures more { (before after : Cells) (count at to : ℕ) (own lent its old new : List ℕ)
        (index word : ℕ) → Gives (subkeys_at count at) before own lent its → count ≢ 0 →
        before at ≡ Some old → is_indirect old ≡ false → after to ≡ Some new →
        u16_at new 0 ≡ u16_at old 0 → u16_at new 2 ≡ suc (u16_at old 2) →
        4 + stride_of old * suc (u16_at old 2) ≤ length new → index ≤ u16_at old 2 →
        ShiftsIn old new 4 (stride_of old) (u16_at old 2) index word →
        Gives (subkeys_at (suc count) to) after (to ∷ []) [] (with_at index word its) }
    ensures fewer { (before after : Cells) (count at to : ℕ) (own lent its old new : List ℕ)
        (left index : ℕ) → Gives (subkeys_at count at) before own lent its → count ≢ 0 →
        before at ≡ Some old → is_indirect old ≡ false → after to ≡ Some new →
        u16_at new 0 ≡ u16_at old 0 → count ≡ suc left → left ≢ 0 →
        u16_at old 2 ≡ suc (u16_at new 2) →
        4 + stride_of old * u16_at new 2 ≤ length new → index ≤ u16_at new 2 →
        ShiftsOut old new 4 (stride_of old) (u16_at new 2) index →
        Gives (subkeys_at left to) after (to ∷ []) [] (without_at index its) }
    ensures leaf { (before after : Cells) (words : List ℕ) (index leaf : ℕ) (its : List ℕ)
        (lists : List (List ℕ)) (news : List ℕ) (new_lists : List (List ℕ)) →
        LeavesHave before words lists → slice_get words index ≡ Some leaf →
        LeafHas before leaf its → LeavesHave after news new_lists → ((other : ℕ) →
        IsIn other (take index words ++ drop (suc index) words) → after other ≡ before other) →
        (us : List (List ℕ)) × (ws : List (List ℕ)) × (lists ≡ us ++ its ∷ ws)
        × LeavesHave after (take index words ++ (news ++ drop (suc index) words))
        (us ++ (new_lists ++ ws)) }
{}

/// A list of subkeys has one element more than another.
///
/// - `added`, `taken`: an element at an index.
/// - `leaf`, `two`, `new`: in one of several lists; in two lists in place of one; in a new list.
/// - `two_joined`, `one_joined`: the elements of two lists, and of one.
/// - `long`: it is longer by one.
pub fn one_more()
    ensures added { (words : List ℕ) (index word : ℕ) →
        OneMore word words (with_at index word words) }
    ensures taken { (words : List ℕ) (index word : ℕ) → slice_get words index ≡ Some word →
        OneMore word (without_at index words) words }
    ensures leaf { (word : ℕ) (us ws : List (List ℕ)) (fewer more : List ℕ) →
        OneMore word fewer more → OneMore word
        (flat_map (λ (l : List ℕ). l) (us ++ fewer ∷ ws))
        (flat_map (λ (l : List ℕ). l) (us ++ more ∷ ws)) }
    ensures two { (word : ℕ) (us ws : List (List ℕ)) (fewer first rest : List ℕ) →
        OneMore word fewer (first ++ rest) → OneMore word
        (flat_map (λ (l : List ℕ). l) (us ++ fewer ∷ ws))
        (flat_map (λ (l : List ℕ). l) (us ++ first ∷ rest ∷ ws)) }
    ensures new { (word : ℕ) (us ws : List (List ℕ)) → OneMore word
        (flat_map (λ (l : List ℕ). l) (us ++ ws))
        (flat_map (λ (l : List ℕ). l) (us ++ (word ∷ []) ∷ ws)) }
    ensures two_joined { (first rest : List ℕ) →
        flat_map (λ (l : List ℕ). l) (first ∷ rest ∷ []) ≡ first ++ rest }
    ensures one_joined { (its : List ℕ) → flat_map (λ (l : List ℕ). l) (its ∷ []) ≡ its }
    ensures long { (word : ℕ) (fewer more : List ℕ) → OneMore word fewer more →
        length more ≡ suc (length fewer) }
{}

/// The links and the count of the security cell that a found key names are new, and all other cells stay. Each key that
/// was found is still found, in the same tree.
pub fn security_counts()
    ensures { (old new : List ℕ) (root minor : ℕ) (tree other : TreeMap) (path way : List (List ℕ))
        (key to at : ℕ) (its : List ℕ) (before after : Cells) →
        KeyFound old root minor tree path key → KeyFound old root minor other way to →
        Shows old before → Shows new after → u32_at (cell_data old key) 44 ≡ at →
        at ≢ nil_offset → SameBut at before after → after at ≡ Some its →
        SecurityCountChanges (cell_data old at) its → KeyFound new root minor other way to }
{}
