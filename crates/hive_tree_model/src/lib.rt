//! The law of shapes. It says which tree an image of cells encodes, why it is at most one, and which cells it depends
//! on. It says what an edit in place makes of the tree, and which faults are in an image that encodes none.
//!
//! An image has cells, each with data at an offset. Cells encode keys: a key's own cells say what its row is and which
//! subkeys it has, by their offsets. How one key's cells are read is left open here; it is no recursion. The recursion
//! is over keys alone. It is the same for every format of records, and so it is defined and proved once.
//!
//! There is no code here. Each law is the contract of a function with an empty body; `specs/` has the definitions:
//!
//! - `Keys`: what the cells of one key say (`KeyParts`), how keys are read (`KeyReader`), and keys with all that is
//!   below them;
//! - `Trees`: the finite map that these keys make;
//! - `CellsEncodeTree`: when the cells say it, and so which tree an image encodes;
//! - `Chains`: the same without keys as a whole, by chains of listed keys;
//! - `Faults`: which faults are in an image that encodes no tree;
//! - `Cells`, `Changes`: how keys depend on cells, and a change of one key and of what is below it.
#![tactic(auto)]

ghost use Rattle.std.specs.Prelude.{◌≡◌, ◌≢◌, ◌↔◌, ◌<◌, ◌++◌, ◌∷◌, [], ℕ, true, false, List, length, Option, Some, None, IsSome, Ok};
ghost use Rattle.std.specs.FinMap as finite;
ghost use Rattle.hive_tree_model.specs.Lists.{IsIn, Once};
ghost use Rattle.hive_tree_model.specs.Keys.{KeyParts, KeyReader, Keys, none, offsets, names, lent_cells, all_cells};
ghost use Rattle.hive_tree_model.specs.Trees.{TreeOf, tree_of};
ghost use Rattle.hive_tree_model.specs.Encodings.{Whole, CellsEncodeTree, IsKeyTree, NamesBy, LentApart};
ghost use Rattle.hive_tree_model.specs.Chains.{PathReachesRow};
ghost use Rattle.hive_tree_model.specs.Faults.{KeyIsUnreadable, HasNamelessKey, HasSubkeysAlike, IsTrail, KeyRepeatsCell, Shared, IsLentTrail, LendsOwnCell, HasDeeperKey};
ghost use Rattle.hive_tree_model.specs.Cells.{IsLocal, IsThere, Grows, AreNew, SameBut, LentThere, KeyIsWritten, SubkeysAreWritten};
ghost use Rattle.hive_tree_model.specs.Loads.{CellMarks, Marked, Loaded, Loading, with_last, HasFault};
ghost use Rattle.hive_tree_model.specs.Changes.{Edits, with_key, rest_of, row_or, below_in};

/// An image encodes at most one tree, and what it encodes is a tree.
///
/// - `one`: at most one.
/// - `chains`: a path is in it exactly if a chain of listed keys from the root has the path's names. The row is the row
///   of the last of these keys.
/// - `is`: the root is there, with each key its parent is there, and each key is under its name.
pub fn one_tree<R, C>()
    ensures one { (reads : KeyReader R C) (root : ℕ) (t u : TreeOf R) → CellsEncodeTree reads root t →
        CellsEncodeTree reads root u → t ≡ u }
    ensures chains { (reads : KeyReader R C) (root : ℕ) (tree : TreeOf R) → CellsEncodeTree reads root tree →
        (path : List (List ℕ)) (row : R) →
        (finite.get tree path ≡ Some row) ↔ PathReachesRow reads root path row }
    ensures is { (reads : KeyReader R C) (name_of : R → List ℕ) → NamesBy name_of reads →
        (root : ℕ) (tree : TreeOf R) → CellsEncodeTree reads root tree → IsKeyTree name_of tree }
{}

/// Cells that nothing read depends on may change: what the key at an offset and those below it say stays as it is.
pub fn stays<D, R, C>()
    ensures { (read : (ℕ → Option D) → KeyReader R C) → IsLocal read → (old new : ℕ →
        Option D) (at : ℕ) (parts : KeyParts R) (below : Keys R) →
        Whole (read old) at parts below → ((cell : ℕ) →
        IsIn cell ((parts.own ++ parts.lent) ++ all_cells below) → new cell ≡ old cell) →
        Whole (read new) at parts below }
{}

/// One key below the root may come to say something else, or have other keys below it, while its offset and name stay.
/// Then the image encodes a tree that differs from the old one at and below that key's path alone.
///
/// - `whole`, `rows`: so in general.
/// - `own`, `others`: if the keys below it stay too, it has its new row, and every other key its old one.
pub fn edits<D, R, C>()
    ensures whole { (read : (ℕ → Option D) → KeyReader R C) → IsLocal read → (old new : ℕ →
        Option D) (root : ℕ) (above : KeyParts R) (subkey_list : Keys R)
        (n : List ℕ) (path : List (List ℕ)) (parts : KeyParts R) (below : Keys R) →
        Whole (read old) root above subkey_list → Edits read old new above subkey_list n path parts below →
        Whole (read new) root above (with_key subkey_list (n ∷ path) parts below) }
    ensures rows { (read : (ℕ → Option D) → KeyReader R C) → IsLocal read → (old new : ℕ →
        Option D) (root : ℕ) (above : KeyParts R) (subkey_list : Keys R)
        (n : List ℕ) (path : List (List ℕ)) (parts : KeyParts R) (below : Keys R) →
        Whole (read old) root above subkey_list → Edits read old new above subkey_list n path parts below →
        (q : List (List ℕ)) →
        finite.get (tree_of above (with_key subkey_list (n ∷ path) parts below)) q
        ≡ row_or (rest_of (n ∷ path) q) parts.row below (finite.get (tree_of above subkey_list) q) }
    ensures own { (read : (ℕ → Option D) → KeyReader R C) → IsLocal read → (old new : ℕ →
        Option D) (root : ℕ) (above : KeyParts R) (subkey_list : Keys R)
        (n : List ℕ) (path : List (List ℕ)) (parts : KeyParts R) (below : Keys R) →
        Whole (read old) root above subkey_list → Edits read old new above subkey_list n path parts below →
        below_in subkey_list (n ∷ path) ≡ Some below →
        finite.get (tree_of above (with_key subkey_list (n ∷ path) parts below)) (n ∷ path)
        ≡ Some parts.row }
    ensures others { (read : (ℕ → Option D) → KeyReader R C) → IsLocal read → (old new : ℕ →
        Option D) (root : ℕ) (above : KeyParts R) (subkey_list : Keys R)
        (n : List ℕ) (path : List (List ℕ)) (parts : KeyParts R) (below : Keys R) →
        Whole (read old) root above subkey_list → Edits read old new above subkey_list n path parts below →
        below_in subkey_list (n ∷ path) ≡ Some below →
        (q : List (List ℕ)) → q ≢ n ∷ path →
        finite.get (tree_of above (with_key subkey_list (n ∷ path) parts below)) q
        ≡ finite.get (tree_of above subkey_list) q }
{}

/// An image with a fault encodes no tree. An image that has a key deeper than a number of levels encodes no tree but
/// one with a longer path.
pub fn faults<R, C>()
    ensures unread { (reads : KeyReader R C) (root : ℕ) (tree : TreeOf R) (cause : C) →
        KeyIsUnreadable reads root cause → CellsEncodeTree reads root tree → ⊥ }
    ensures nameless { (reads : KeyReader R C) (root : ℕ) (tree : TreeOf R) → HasNamelessKey reads root →
        CellsEncodeTree reads root tree → ⊥ }
    ensures alike { (reads : KeyReader R C) (root : ℕ) (tree : TreeOf R) → HasSubkeysAlike reads root →
        CellsEncodeTree reads root tree → ⊥ }
    ensures shared { (reads : KeyReader R C) (trail : ℕ → List ℕ) → IsTrail trail reads →
        (root : ℕ) (tree : TreeOf R) → Shared trail reads root → CellsEncodeTree reads root tree → ⊥ }
    ensures repeats { (reads : KeyReader R C) (trail : ℕ → List ℕ) → IsTrail trail reads →
        (root : ℕ) (tree : TreeOf R) → KeyRepeatsCell trail reads root → CellsEncodeTree reads root tree → ⊥ }
    ensures lends { (reads : KeyReader R C) (trail lends : ℕ → List ℕ) → IsTrail trail reads →
        IsLentTrail lends reads → (root : ℕ) (tree : TreeOf R) →
        LendsOwnCell trail lends reads root → CellsEncodeTree reads root tree → ⊥ }
    ensures told { (reads : KeyReader R C) (trail : ℕ → List ℕ) → IsTrail trail reads →
        (bad_name shared : C) (root : ℕ) (tree : TreeOf R) (cause : C) →
        HasFault trail reads bad_name shared (λ cell. false) root cause → CellsEncodeTree reads root tree → ⊥ }
    ensures deep { (reads : KeyReader R C) (root : ℕ) (tree : TreeOf R) (most : ℕ) →
        HasDeeperKey reads root most → CellsEncodeTree reads root tree →
        (path : List (List ℕ)) × (row : R) × (finite.get tree path ≡ Some row) ×
        (most < length path) }
{}

/// Reading keys one after another, each cell marked as it is looked at, so that none is looked at twice.
///
/// - `begins`, `goes_on`: the first of a key's subkeys are read, and one more.
/// - `ends`: a key is read if its own cells are read and all its subkeys, and no name is missing or there twice.
/// - `settled`, `lent`: at the end each cell that is lent is looked for among the marked ones. Either none is there, or
///   a fault is found.
/// - `told`: a cause reported for a subkey, the first ones being read, may be reported for the key.
pub fn loads<R, C>()
    ensures begins { (reads : KeyReader R C) (marks : CellMarks) → Loading reads marks marks none }
    ensures goes_on { (reads : KeyReader R C) (old mid new : CellMarks) (first : Keys R) (at : ℕ)
        (parts : KeyParts R) (below : Keys R) →
        Loading reads old mid first → Loaded reads mid new at parts below →
        Loading reads old new (with_last first at parts below) }
    ensures ends { (reads : KeyReader R C) (old mid new : CellMarks) (at : ℕ) (parts : KeyParts R)
        (subkey_list : Keys R) → reads at ≡ Ok parts →
        Marked old mid parts.own → Loading reads mid new subkey_list → offsets subkey_list ≡ parts.subkey_list →
        Once (names subkey_list) → (IsIn [] (names subkey_list) → ⊥) →
        Loaded reads old new at parts subkey_list }
    ensures settled { (reads : KeyReader R C) (now : CellMarks) (root : ℕ) (parts : KeyParts R)
        (below : Keys R) → Loaded reads (λ cell. false) now root parts below →
        ((cell : ℕ) → IsIn cell (parts.lent ++ lent_cells below) → now cell ≡ false) →
        LentApart parts below }
    ensures lent { (reads : KeyReader R C) (trail lends : ℕ → List ℕ) → IsTrail trail reads →
        IsLentTrail lends reads → (now : CellMarks) (root : ℕ) (parts : KeyParts R) (below : Keys R) →
        Loaded reads (λ cell. false) now root parts below → (cell : ℕ) →
        IsIn cell (parts.lent ++ lent_cells below) → now cell ≡ true →
        LendsOwnCell trail lends reads root }
    ensures told { (reads : KeyReader R C) (trail : ℕ → List ℕ) → IsTrail trail reads →
        (bad_name shared : C) (at : ℕ) (parts : KeyParts R) → reads at ≡ Ok parts →
        (old mid now : CellMarks) → Marked old mid parts.own → (first : Keys R) →
        Loading reads mid now first → (subkey : ℕ) (rest : List ℕ) →
        parts.subkey_list ≡ offsets first ++ subkey ∷ rest →
        (cause : C) → HasFault trail reads bad_name shared now subkey cause →
        HasFault trail reads bad_name shared old at cause }
{}

/// Writing keys one after another, each into cells that were not there, while all cells that are there stay.
///
/// - `begins`, `goes_on`: the first of a key's subkeys are written, and one more.
/// - `ends`: a key is written if its own cells are, after its subkeys.
/// - `filled`: a key is written whose first cell was there ahead of its subkeys, and is filled after them.
pub fn writes<D, R, C>()
    ensures begins { (read : (ℕ → Option D) → KeyReader R C) → IsLocal read → IsThere read →
        (cells : ℕ → Option D) → SubkeysAreWritten read cells cells none }
    ensures goes_on { (read : (ℕ → Option D) → KeyReader R C) → IsLocal read → IsThere read →
        (old mid new : ℕ → Option D) (first : Keys R) (at : ℕ) (parts : KeyParts R) (below : Keys R) →
        SubkeysAreWritten read old mid first → KeyIsWritten read mid new at parts below →
        SubkeysAreWritten read old new (with_last first at parts below) }
    ensures ends { (read : (ℕ → Option D) → KeyReader R C) → IsLocal read → IsThere read →
        (old mid new : ℕ → Option D) (at : ℕ) (parts : KeyParts R) (subkey_list : Keys R) →
        SubkeysAreWritten read old mid subkey_list → Grows mid new → read new at ≡ Ok parts → Once parts.own →
        AreNew mid parts.own → offsets subkey_list ≡ parts.subkey_list →
        Once (names subkey_list) → (IsIn [] (names subkey_list) → ⊥) → KeyIsWritten read old new at parts subkey_list }
    ensures filled { (read : (ℕ → Option D) → KeyReader R C) → IsLocal read → IsThere read →
        (old start mid full new : ℕ → Option D) (at : ℕ) (parts : KeyParts R) (subkey_list : Keys R)
        (rest : List ℕ) → Grows old start → old at ≡ None → IsSome (start at) →
        SubkeysAreWritten read start mid subkey_list → Grows mid full → SameBut at full new →
        read new at ≡ Ok parts → parts.own ≡ at ∷ rest → Once rest → AreNew mid rest →
        LentThere old subkey_list → offsets subkey_list ≡ parts.subkey_list → Once (names subkey_list) →
        (IsIn [] (names subkey_list) → ⊥) → KeyIsWritten read old new at parts subkey_list }
{}
