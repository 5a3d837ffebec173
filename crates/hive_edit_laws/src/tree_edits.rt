//! An edit of one key, for any reader of keys: laws.

ghost use Rattle.std.specs.Prelude.{◌≡◌, ◌≢◌, ◌∷◌, ◌++◌, ℕ, List, Option, Some, None, Ok, if◌then◌else◌};
ghost use Rattle.hive_tree_model.specs.Lists.{IsIn};
ghost use Rattle.std.specs.FinMap as finite;
ghost use Rattle.hive_tree_model.specs.Keys.{KeyParts, KeyReader, Keys, key, names, own_cells, lent_cells};
ghost use Rattle.hive_tree_model.specs.Trees.{tree_of, same, row_in, row_from};
ghost use Rattle.hive_tree_model.specs.Encodings.{Whole, LentApart};
ghost use Rattle.hive_tree_model.specs.Cells.{IsLocal, IsThere};
ghost use Rattle.hive_tree_model.specs.Changes.{rest_of, row_or};
ghost use Rattle.hive_edit_laws.specs.SubkeyEdits.{beside, Adds, Drops};
ghost use Rattle.hive_edit_laws.specs.KeyPlaces.{EditsAt, EditsRow, KeyPlace, place_from, root_after, subkeys_after};

/// The key at a path, the root included, comes to say something else or has other keys below it. Its cells are its own
/// or were no cells. Then the image encodes the tree that differs from the old one at and below that path alone.
pub fn edits_at<D, R, C>()
    ensures whole { (read : (ℕ → Option D) → KeyReader R C) → IsLocal read → IsThere read →
        (old new : ℕ → Option D) (root : ℕ) (above : KeyParts R) (subkey_list : Keys R)
        (path : List (List ℕ)) (parts : KeyParts R) (below : Keys R) →
        Whole (read old) root above subkey_list → LentApart above subkey_list →
        EditsAt read old new root above subkey_list path parts below →
        Whole (read new) root (root_after above path parts) (subkeys_after subkey_list path parts below) }
    ensures apart { (read : (ℕ → Option D) → KeyReader R C) → IsLocal read → IsThere read →
        (old new : ℕ → Option D) (root : ℕ) (above : KeyParts R) (subkey_list : Keys R)
        (path : List (List ℕ)) (parts : KeyParts R) (below : Keys R) →
        Whole (read old) root above subkey_list → LentApart above subkey_list →
        EditsAt read old new root above subkey_list path parts below →
        LentApart (root_after above path parts) (subkeys_after subkey_list path parts below) }
    ensures rows { (read : (ℕ → Option D) → KeyReader R C) → IsLocal read → IsThere read →
        (old new : ℕ → Option D) (root : ℕ) (above : KeyParts R) (subkey_list : Keys R)
        (path : List (List ℕ)) (parts : KeyParts R) (below : Keys R) →
        Whole (read old) root above subkey_list → LentApart above subkey_list →
        EditsAt read old new root above subkey_list path parts below → (q : List (List ℕ)) →
        finite.get (tree_of (root_after above path parts) (subkeys_after subkey_list path parts below)) q
        ≡ row_or (rest_of path q) parts.row below (finite.get (tree_of above subkey_list) q) }
{}

/// The key at a path is whole by itself. If it says something else while the keys below it stay, that is an edit at
/// its path.
pub fn edits_row<D, R, C>()
    ensures whole { (reads : KeyReader R C) (root : ℕ) (above : KeyParts R) (subkey_list : Keys R)
        (path : List (List ℕ)) (place : KeyPlace R) → Whole reads root above subkey_list →
        place_from root above subkey_list path ≡ Some place →
        Whole reads place.at place.parts place.below }
    ensures is { (read : (ℕ → Option D) → KeyReader R C) → IsLocal read → IsThere read →
        (old new : ℕ → Option D) (root : ℕ) (above : KeyParts R) (subkey_list : Keys R)
        (path : List (List ℕ)) (place : KeyPlace R) (parts : KeyParts R) →
        Whole (read old) root above subkey_list → LentApart above subkey_list →
        EditsRow read old new root above subkey_list path place parts →
        EditsAt read old new root above subkey_list path parts place.below }
{}

/// If the keys below the one at a path stay, it has its new row, and every other key has its old one.
pub fn one_row<D, R, C>()
    ensures there { (reads : KeyReader R C) (root : ℕ) (above : KeyParts R) (subkey_list : Keys R)
        (path : List (List ℕ)) (place : KeyPlace R) → Whole reads root above subkey_list →
        place_from root above subkey_list path ≡ Some place →
        finite.get (tree_of above subkey_list) path ≡ Some (place.parts.row) }
    ensures own { (read : (ℕ → Option D) → KeyReader R C) → IsLocal read → IsThere read →
        (old new : ℕ → Option D) (root : ℕ) (above : KeyParts R) (subkey_list : Keys R)
        (path : List (List ℕ)) (parts : KeyParts R) (below : Keys R) →
        Whole (read old) root above subkey_list → LentApart above subkey_list →
        (e : EditsAt read old new root above subkey_list path parts below) → below ≡ e.place.below →
        finite.get (tree_of (root_after above path parts) (subkeys_after subkey_list path parts below)) path
        ≡ Some parts.row }
    ensures others { (read : (ℕ → Option D) → KeyReader R C) → IsLocal read → IsThere read →
        (old new : ℕ → Option D) (root : ℕ) (above : KeyParts R) (subkey_list : Keys R)
        (path : List (List ℕ)) (parts : KeyParts R) (below : Keys R) →
        Whole (read old) root above subkey_list → LentApart above subkey_list →
        (e : EditsAt read old new root above subkey_list path parts below) → below ≡ e.place.below →
        (q : List (List ℕ)) → q ≢ path →
        finite.get (tree_of (root_after above path parts) (subkeys_after subkey_list path parts below)) q
        ≡ finite.get (tree_of above subkey_list) q }
{}

/// A key that gets a subkey, or loses one, is an edit at its path.
///
/// - `row`: with one key more among siblings, that key and those below it have their rows, and all others theirs.
/// - `gone`: at a name that none of the siblings has there is no row.
pub fn subkeys<D, R, C>()
    ensures adds { (read : (ℕ → Option D) → KeyReader R C) → IsLocal read → IsThere read →
        (old new : ℕ → Option D) (root : ℕ) (above : KeyParts R) (subkey_list : Keys R) →
        Whole (read old) root above subkey_list → LentApart above subkey_list →
        (path : List (List ℕ)) (place : KeyPlace R) (parts : KeyParts R) (front back : Keys R) (at : ℕ)
        (subkey : KeyParts R) (sub : Keys R) →
        Adds read old new root above subkey_list path place parts front back at subkey sub →
        EditsAt read old new root above subkey_list path parts (beside front (key at subkey sub back)) }
    ensures drops { (read : (ℕ → Option D) → KeyReader R C) → IsLocal read → IsThere read →
        (old new : ℕ → Option D) (root : ℕ) (above : KeyParts R) (subkey_list : Keys R) →
        Whole (read old) root above subkey_list → LentApart above subkey_list →
        (path : List (List ℕ)) (place : KeyPlace R) (parts : KeyParts R) (front back : Keys R) (at : ℕ)
        (subkey : KeyParts R) (sub : Keys R) →
        Drops read old new root above subkey_list path place parts front back at subkey sub →
        EditsAt read old new root above subkey_list path parts (beside front back) }
    ensures row { (front back : Keys R) (at : ℕ) (subkey : KeyParts R) (sub : Keys R) →
        (IsIn subkey.name (names front) → ⊥) → (n : List ℕ) (rest : List (List ℕ)) →
        row_in (beside front (key at subkey sub back)) (n ∷ rest)
        ≡ (if same n subkey.name then row_from subkey.row sub rest
        else row_in (beside front back) (n ∷ rest)) }
    ensures gone { (keys : Keys R) (n : List ℕ) (rest : List (List ℕ)) →
        (IsIn n (names keys) → ⊥) → row_in keys (n ∷ rest) ≡ None }
{}

/// If each key of a tree reads as before, the same tree is encoded. So it is if only the count of a security cell
/// changes.
pub fn same_readings<R, C>()
    ensures { (old new : KeyReader R C) (root : ℕ) (above : KeyParts R) (subkey_list : Keys R) →
        Whole old root above subkey_list → ((at : ℕ) (parts : KeyParts R) → old at ≡ Ok parts →
        ((cell : ℕ) → IsIn cell parts.own → IsIn cell (above.own ++ own_cells subkey_list)) →
        ((cell : ℕ) → IsIn cell parts.lent → IsIn cell (above.lent ++ lent_cells subkey_list)) →
        new at ≡ Ok parts) → Whole new root above subkey_list }
{}
