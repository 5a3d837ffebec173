//! What the files of a store recover of one hive, beside what they recover of all: laws.
ghost use Rattle.std.specs.Prelude.{◌≡◌, ℕ, List, Some, slice_get};
ghost use Rattle.refusals.specs.declared.refusal.Refusal.{Refusal};
ghost use Rattle.reg_tree.specs.Maps.{TreeMap};
ghost use Rattle.commit_journal.specs.Store.{Store};
ghost use Rattle.recovery.specs.Recovered.{IsRecovered};
ghost use Rattle.recovery.specs.Refused.{AreAlike, IsWrong};
ghost use Rattle.store_hive.specs.RecoveredHives.{RecoversHive};
ghost use Rattle.store_hive.specs.RefusedHives.{HiveIsWrong};

/// A law: if files recover a store's number and trees, they recover of each hive the tree at its place, and no other.
pub fn as_the_store_recovers()
    ensures each { (files : ℕ → List ℕ) (store : Store) (number : ℕ) (trees : List TreeMap) →
        IsRecovered files store number trees → (hive : ℕ) (tree : TreeMap) →
        slice_get trees hive ≡ Some tree → RecoversHive files store hive tree }
    ensures alone { (files : ℕ → List ℕ) (store other : Store) (number : ℕ) (trees : List TreeMap) →
        IsRecovered files store number trees → (hive : ℕ) (tree : TreeMap) →
        RecoversHive files other hive tree → slice_get trees hive ≡ Some tree }
{
    commit_journal::laws::one_store();
    hive_flush::laws::at_most_one_tree();
}

/// A law: files recover at most one tree of a hive, and as that of one store at most.
pub fn one_tree()
    ensures { (files : ℕ → List ℕ) (a b : Store) (hive : ℕ) (t u : TreeMap) →
        RecoversHive files a hive t → RecoversHive files b hive u → (a ≡ b) × (t ≡ u) }
{
    commit_journal::laws::one_store();
    hive_flush::laws::at_most_one_tree();
}

/// A law: what files recover of a hive doesn't depend on the files of other hives.
pub fn others_do_not_count()
    ensures { (files others : ℕ → List ℕ) (store : Store) (hive : ℕ) (tree : TreeMap) →
        AreAlike files others hive → RecoversHive files store hive tree →
        RecoversHive others store hive tree }
{}

/// A law: files that are refused for one hive recover no tree of it, and nothing as a store: an opening may refuse them
/// so too.
pub fn refused_files_recover_no_tree()
    ensures none { (files : ℕ → List ℕ) (hive : ℕ) (why : Refusal) → HiveIsWrong files hive why →
        (store : Store) (tree : TreeMap) → RecoversHive files store hive tree → ⊥ }
    ensures store { (files : ℕ → List ℕ) (hive : ℕ) (why : Refusal) → HiveIsWrong files hive why →
        IsWrong files why }
{
    commit_journal::laws::one_store();
    hive_flush::laws::at_most_one_tree();
}
