//! Functions that read step by step as the definitions of records do, marking cells as they go: laws.

ghost use Rattle.std.specs.Prelude.{◌++◌, ◌∷◌, [], List, Result, Ok, Err};
ghost use Rattle.refusals.specs.declared.refusal.Refusal.{Refusal};
ghost use Rattle.hive_tree_model.specs.Loads.{CellMarks};
ghost use Rattle.hive_records.specs.Readers.{Reader, each, ◌⟫◌};
ghost use Rattle.hive_records.specs.Follows.{Follows};
ghost use Rattle.hive_cells.specs.Bins.{Cells};

/// A function that reads step by step, marking cells as it goes, answers as the readers joined do.
pub fn follows<A, B>()
    ensures on { (m : Reader A) (f : A →
        Reader B) (cells : Cells) (first then last : CellMarks) (x : A) (r : Result B Refusal) →
        Follows m cells first then (Ok x) → Follows (f x) cells then last r →
        Follows (m ⟫ f) cells first last r }
    ensures out { (m : Reader A) (f : A →
        Reader B) (cells : Cells) (first then last : CellMarks) (e : Refusal) →
        Follows m cells first then (Err e) → Follows (m ⟫ f) cells first last (Err e) }
{}

/// The loop of such a function over a list: what it has read of the first elements, and one element
/// more.
pub fn loops<A, B>()
    ensures starts { (f : A → Reader B) (cells : Cells) (marks : CellMarks) →
        Follows (each f []) cells marks marks (Ok []) }
    ensures goes_on { (f : A →
        Reader B) (first : List A) (x : A) (cells : Cells) (old mid new : CellMarks) (ys : List B)
        (y : B) →
        Follows (each f first) cells old mid (Ok ys) → Follows (f x) cells mid new (Ok y) →
        Follows (each f (first ++ x ∷ [])) cells old new (Ok (ys ++ y ∷ [])) }
    ensures stops { (f : A →
        Reader B) (first : List A) (x : A) (rest : List A) (cells : Cells) (old mid new : CellMarks)
        (ys : List B) (e : Refusal) →
        Follows (each f first) cells old mid (Ok ys) → Follows (f x) cells mid new (Err e) →
        Follows (each f (first ++ x ∷ rest)) cells old new (Err e) }
{}
