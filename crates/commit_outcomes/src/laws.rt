//! Laws of outcomes, which follow from the definitions alone.
//!
//! They have no code of their own: each is the contract of a function that does nothing, for crates that keep outcomes.
ghost use Rattle.std.specs.Prelude.{◌≡◌, ◌↔◌, ◌-◌, Contains, ◌<◌, ◌≤◌, ◌++◌, ◌∷◌, ◌^◌, [], ℕ, List, Some, true, length, slice_get};
ghost use Rattle.std.specs.List.{All, AllByRecursion};
ghost use Rattle.reg_tree.specs.Encodings.{ops_encoded_len};
ghost use Rattle.reg_tree.specs.Encodable.{IsEncodable};
ghost use Rattle.reg_tree.specs.Fresh.{fresh_tree};
ghost use Rattle.reg_tree.specs.Judgement.{applied};
ghost use Rattle.reg_tree.specs.Maps.{TreeMap};
ghost use Rattle.reg_tree.specs.Operations.{hive_of};
ghost use Rattle.conflicts.specs.TreeOutlines.{AreCarriedOut};
ghost use Rattle.commit_outcomes.specs.Units.{unit_name, is_unit_name};
ghost use Rattle.commit_outcomes.specs.Commits.{Commit, AreKept, AreUpTo, kept};
ghost use Rattle.commit_outcomes.specs.Trees.{HasCommits, are_outcomes, number_in};
ghost use Rattle.commit_outcomes.specs.Operations.{outcome_ops};

/// Each unit of work has a name, and no two have the same.
pub fn units_have_names()
    ensures named { (id : List ℕ) → is_unit_name (unit_name id) ≡ true }
    ensures apart { (one two : List ℕ) → length one ≡ 16 → length two ≡ 16 →
        All (λ b. b < 256) one → All (λ b. b < 256) two → unit_name one ≡ unit_name two → one ≡ two }
{}

/// What a tree of outcomes has is what the test for one says.
///
/// - `fresh`: a new hive's tree has no commits.
/// - `found`: a tree that passes the test has commits up to the number, in the order of their numbers.
/// - `passes`: a tree that has commits up to a number passes.
/// - `only`: a tree has one list of commits at most.
/// - `looked_up`: the number of a unit's commit is found in a tree exactly if the tree has that commit.
pub fn trees_have_commits()
    ensures fresh { HasCommits [] fresh_tree }
    ensures found { (number : ℕ) (tree : TreeMap) → IsEncodable tree → are_outcomes number tree ≡ true →
        (commits : List Commit) × HasCommits commits tree × AreUpTo number commits }
    ensures passes { (number : ℕ) (tree : TreeMap) (commits : List Commit) → HasCommits commits tree →
        AreUpTo number commits → number < 2 ^ 64 → are_outcomes number tree ≡ true }
    ensures only { (tree : TreeMap) (one two : List Commit) → HasCommits one tree → HasCommits two tree →
        AreUpTo (2 ^ 64 - 1) one → AreUpTo (2 ^ 64 - 1) two → one ≡ two }
    ensures looked_up { (tree : TreeMap) (commits : List Commit) (id : List ℕ) (number : ℕ) →
        HasCommits commits tree → AreUpTo (2 ^ 64 - 1) commits →
        (number_in tree id ≡ Some number) ↔ Contains commits (number, unit_name id) }
{}

/// What a commit does to the tree of outcomes, which has commits up to a number before it.
///
/// - `carried`: its operations may be carried out in turn.
/// - `has`: the tree then has the commits that are kept of those before and this one, whose number is above 0.
/// - `there`: each operation is on the tree's own hive, and they take at most 100 bytes.
pub fn commits_are_kept()
    ensures carried { (trees : List TreeMap) (hive : ℕ) (tree : TreeMap) (commits : List Commit) (commit : Commit) (moment : ℕ) →
        slice_get trees hive ≡ Some tree → HasCommits commits tree → is_unit_name commit.1 ≡ true →
        AllByRecursion (λ c. c.0 < commit.0) commits → commit.0 < 2 ^ 64 →
        AreCarriedOut trees (outcome_ops hive tree commit) moment }
    ensures has { (trees : List TreeMap) (hive : ℕ) (tree after : TreeMap) (commits : List Commit) (commit : Commit) (moment : ℕ) →
        slice_get trees hive ≡ Some tree → HasCommits commits tree → is_unit_name commit.1 ≡ true →
        AllByRecursion (λ c. c.0 < commit.0) commits → 0 < commit.0 → commit.0 < 2 ^ 64 →
        slice_get (applied trees (outcome_ops hive tree commit) moment) hive ≡ Some after →
        HasCommits (kept (commits ++ commit ∷ [])) after × AreUpTo commit.0 (kept (commits ++ commit ∷ [])) }
    ensures there { (hive : ℕ) (tree : TreeMap) (commits : List Commit) (commit : Commit) →
        HasCommits commits tree → is_unit_name commit.1 ≡ true →
        AllByRecursion (λ c. c.0 < commit.0) commits → commit.0 < 2 ^ 64 →
        AllByRecursion (λ op. hive_of op ≡ hive) (outcome_ops hive tree commit)
        × (ops_encoded_len (outcome_ops hive tree commit) ≤ 100) }
{}

/// What is kept of commits may be kept as they come: what was let go of is never needed again.
pub fn kept_in_turn()
    ensures { (commits : List Commit) (commit : Commit) →
        kept (kept commits ++ commit ∷ []) ≡ kept (commits ++ commit ∷ []) }
{}
