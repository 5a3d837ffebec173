//! The law of claims: operations stay legal after others if their claims don't conflict.
//!
//! A transaction's writes are judged on its private view. They are applied to the trees that everybody sees only at its
//! commit; by then others have changed these trees. What keeps the writes legal is their claims. Each operation claims
//! its key, by Shape if it makes or deletes the key and by Hold if it changes a value. No two active transactions hold
//! claims that conflict. The law says that this is enough.
//!
//! There is no code here. Each law is the contract of a function with an empty body; `specs/` has the words:
//!
//! - `Skeleton`: keys, claims and their conflicts, operations, and the *skeleton* of the trees. The skeleton decides
//!   whether an operation is legal: the keys that are there, the protected ones among them, and the values that they
//!   have;
//! - `Legal`: which operations are legal on a skeleton, and which lists of them in order;
//! - `Closed`, `Levels`: what every skeleton of trees keeps, and how many levels of a path are missing;
//! - `ClaimState`: the trees of now, what active transactions hold, and the steps that change them.
//!
//! Weights are left out: whether a tree is too heavy at a commit can't be known before it.
ghost use Rattle.std.specs.Prelude.{[], ◌≡◌, List, true, ◌≤◌, ◌↔◌, ℕ};
ghost use Rattle.std.specs.List.{AllByRecursion};
ghost use Rattle.conflicts.specs.Skeleton.{Op, Skeleton, apply, applied, Key, root_key, Same, Begins, same_key, begins_key};
ghost use Rattle.conflicts.specs.Closed.{Closed};
ghost use Rattle.conflicts.specs.Levels.{missing_levels};
ghost use Rattle.conflicts.specs.Legal.{Legal, LegalInOrder, DontConflict, NoneConflict, Near};
ghost use Rattle.conflicts.specs.ClaimState.{ClaimState, ClaimsAreSound, ClaimStep, Runs};

/// Two operations whose claims do not conflict: what is legal for the second stays so after the first, and
/// either order leads to one skeleton. Whether the first is legal does not matter.
pub fn either_order()
    ensures legal { (a b : Op) (s : Skeleton) → DontConflict a b → Legal s b → Legal (apply a s) b }
    ensures same { (a b : Op) (s : Skeleton) → DontConflict a b → apply a (apply b s)
        ≡ apply b (apply a s) }
{}

/// Operations that are legal one after another stay so after any others, if no claim of the others conflicts with
/// theirs.
pub fn stays_legal()
    ensures { (element ops : List Op) (s : Skeleton) → NoneConflict element ops → LegalInOrder ops s →
        LegalInOrder ops (applied element s) }
{}

/// At any time the operations of each active transaction are legal one after another on the trees of now. No two active
/// transactions hold claims that conflict. So each operation of a commit is legal.
///
/// - `begins`: it is so while no transaction has operations.
/// - `step`, `always`: each step keeps it, and so does any list of steps.
pub fn at_any_time()
    ensures begins { (s : Skeleton) → ClaimsAreSound (record { now = s; held = λ i. [] }) }
    ensures step { (old new : ClaimState) → ClaimsAreSound old → ClaimStep old new → ClaimsAreSound new }
    ensures always { (m : ClaimState) (ns : List ClaimState) → ClaimsAreSound m → Runs m ns →
        AllByRecursion ClaimsAreSound ns }
{}

/// Legal operations keep what every skeleton of trees keeps; and the tests of keys say what they are named for.
pub fn trees_stay_closed()
    ensures step { (s : Skeleton) (o : Op) → Closed s → Legal s o → Closed (apply o s) }
    ensures same { (k l : Key) → (same_key k l ≡ true) ↔ Same k l }
    ensures begins { (k l : Key) → (begins_key k l ≡ true) ↔ Begins k l }
{}

/// No legal operation removes the root of a hive.
pub fn root_stays()
    ensures one { (s : Skeleton) (o : Op) (hive : ℕ) → Legal s o → s.there (root_key hive) ≡ true →
        (apply o s).there (root_key hive) ≡ true }
    ensures all { (s : Skeleton) (os : List Op) (hive : ℕ) → LegalInOrder os s →
        s.there (root_key hive) ≡ true → (applied os s).there (root_key hive) ≡ true }
{}

/// Let the root be there, and the skeleton be one of trees. Then a key is near exactly if at most 32 levels of its path
/// are missing.
pub fn levels_missing()
    ensures { (s : Skeleton) (k : Key) → Closed s → s.there (root_key k.hive) ≡ true → Near s k
        ↔ (missing_levels s k ≤ 32) }
{}
