//! What files recover, what is wrong with refused files, and what openings that came to nothing leave of them: laws.
ghost use Rattle.std.specs.Prelude.{◌≡◌, ◌⊎◌, ℕ, List};
ghost use Rattle.refusals.specs.declared.refusal.Cause.{Cause};
ghost use Rattle.refusals.specs.declared.refusal.Refusal.{Refusal};
ghost use Rattle.refusals.specs.declared.refusal.Refusal.TheVariants.{HiveDamaged};
ghost use Rattle.reg_tree.specs.Maps.{TreeMap};
ghost use Rattle.disk_model.specs.Crash.{LeavesHonest};
ghost use Rattle.disk_model.specs.FileState.{FileState};
ghost use Rattle.commit_journal.specs.Store.{Store};
ghost use Rattle.engine_invariant.specs.Prefixes.{IsPrimaryOf};
ghost use Rattle.recovery.specs.Beginnings.{AllCameToNothing, MayBegin, after_crash};
ghost use Rattle.recovery.specs.Recovered.{IsRecovered, NothingRecovered, seen_in};
ghost use Rattle.recovery.specs.Refused.{AreAlike, IsWrong, OutcomesAreAhead};

/// A law: files recover at most one number and one list of trees, and are those of one store at most.
pub fn one_is_recovered()
    ensures { (files : ℕ → List ℕ) (a b : Store) (n m : ℕ) (ts us : List TreeMap) →
        IsRecovered files a n ts → IsRecovered files b m us → (a ≡ b) × (n ≡ m) × (ts ≡ us) }
{
    commit_journal::laws::one_store();
    hive_flush::laws::at_most_one_tree();
}

/// A law: files that are wrong as an opening's refusal says recover nothing.
///
/// If the refusal names one hive, the files are wrong whatever the files of the other hives contain, unless its outcomes
/// are ahead: the number of a store whose journal has no change is the greatest of its hives. So files with the same
/// journal and the same two files of that hive recover nothing, too.
pub fn refused_files_recover_nothing()
    ensures none { (files : ℕ → List ℕ) (why : Refusal) → IsWrong files why →
        NothingRecovered files }
    ensures hive { (files others : ℕ → List ℕ) (hive : ℕ) (cause : Cause) →
        AreAlike files others hive → IsWrong files (HiveDamaged hive cause) →
        IsWrong others (HiveDamaged hive cause) ⊎ OutcomesAreAhead files hive }
{
    commit_journal::laws::one_store();
    hive_flush::laws::at_most_one_tree();
}

/// Laws of openings, one after another, that came to nothing: each ended in a crash at any moment of it, or was
/// refused. They began on files on which a life of a store of `hives` hives may begin.
///
/// - `begins`: a life may begin on the files then, too; `crash`: as it may on any that a crash left.
/// - `left`: whatever a crash leaves then, with honest first sectors, one might have left at first.
/// - `read`: so might what a read gives then. So a number and trees that are opened then might have been opened after a
///   crash at first.
/// - `recovered`: if that is one number and trees whatever a crash left at first, it is those.
pub fn openings_lose_nothing()
    ensures crash { (hives : ℕ) (files : ℕ → List ℕ) → MayBegin hives (after_crash files) }
    ensures begins { (hives : ℕ) (first last : ℕ → FileState) → MayBegin hives first →
        AllCameToNothing hives first last → MayBegin hives last }
    ensures left { (hives : ℕ) (first last : ℕ → FileState) → MayBegin hives first →
        AllCameToNothing hives first last → (files : ℕ → List ℕ) →
        LeavesHonest (IsPrimaryOf hives) last files →
        LeavesHonest (IsPrimaryOf hives) first files }
    ensures read { (hives : ℕ) (first last : ℕ → FileState) → MayBegin hives first →
        AllCameToNothing hives first last →
        LeavesHonest (IsPrimaryOf hives) first (seen_in last) }
    ensures recovered { (hives : ℕ) (first last : ℕ → FileState) → MayBegin hives first →
        AllCameToNothing hives first last → (store : Store) (number : ℕ) (trees : List TreeMap) →
        ((files : ℕ → List ℕ) → LeavesHonest (IsPrimaryOf hives) first files →
        IsRecovered files store number trees) → IsRecovered (seen_in last) store number trees }
{}
