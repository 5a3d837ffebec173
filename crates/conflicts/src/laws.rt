//! Laws of claims, which follow from the definitions alone: why the operations of a transaction stay legal while others
//! change the trees.
//!
//! They have no code of their own: each is the contract of a function that does nothing, for crates that keep
//! transactions.
ghost use Rattle.std.specs.Prelude.{◌≡◌, ◌⊎◌, ◌↔◌, ◌++◌, ◌∷◌, [], ℕ, List, Option, Some, Contains, ◌≢◌, nat_eq};
ghost use Rattle.std.specs.List.{IsDistinct};
ghost use Rattle.refusals.specs.declared.refusal.Refusal.TheVariants.{TooLarge};
ghost use Rattle.reg_tree.specs.Maps.{TreeMap};
ghost use Rattle.reg_tree.specs.Operations.{hive_of};
ghost use Rattle.reg_tree.specs.Stamps.{time_in, touched_path_of, stamped};
ghost use Rattle.reg_tree.specs.TreeLists.{levels_made};
ghost use Rattle.reg_tree.specs.Judgement.{legal, applied, applied_one};
ghost use Rattle.reg_tree.specs.Sequences.{AreTrees};
ghost use Rattle.reg_tree.specs.Times.{SameButTimes};
ghost use Rattle.reg_tree.specs.declared.op.Op.{Op};
ghost use Rattle.reg_tree.specs.declared.op.Legality.TheVariants.{Legal};
ghost use Rattle.conflicts.specs.Skeleton.{apply, Claim};
ghost use Rattle.conflicts.specs.Legal as law;
ghost use Rattle.conflicts.specs.TreeOutlines.{skeleton, outline, judged_in, FitsData, AreCarriedOut, OpsDontConflict, IsBeside};
ghost use Rattle.conflicts.specs.Holders.{HeldClaim, with_claim, without_owner, holders_of, IsHolder};

use crate::skeleton_laws;

/// Take operations that may be carried out one after another. They may also be so after any others, if no claim of the
/// others conflicts with theirs, at whatever moments. The others need not be legal.
pub fn stay_legal()
    ensures { (trees : List TreeMap) (first ops : List Op) (m n k : ℕ) → AreTrees trees →
        OpsDontConflict first ops →
        AreCarriedOut trees ops m → AreCarriedOut (applied trees first n) ops k }
{
    skeleton_laws::stays_legal();
}

/// One operation more, which may be carried out on the trees after those before it; at whatever moments.
pub fn one_more()
    ensures { (trees : List TreeMap) (ops : List Op) (op : Op) (m k : ℕ) → AreTrees trees →
        AreCarriedOut trees ops m →
        judged_in (applied trees ops m) op ≡ Ok Legal → AreCarriedOut trees (ops ++ op ∷ []) k }
{}

/// What may be carried out is legal, or would be too heavy.
pub fn but_for_weight()
    ensures { (trees : List TreeMap) (op : Op) → judged_in trees op ≡ Ok Legal →
        (legal trees op ≡ Ok Legal) ⊎ (legal trees op ≡ Err TooLarge) }
{}

/// A change may be carried out before operations or after them, under two conditions: none of their claims conflicts
/// with its own, and it makes as many keys after them as before them.
///
/// - `exact`: if all are at one moment, the two orders make the same.
/// - `unwritten`, `written`: if the change has a moment of its own, the two orders make the same but for the time of
///   one key. It is the last existing key on the change's way. If the operations wrote that key, it has their moment if
///   they come last. They didn't write it if it doesn't have their moment after them. They did if it has that moment,
///   and had another time before them.
/// - `but_for_times`: at whatever moments, the two orders make the same but for times. This is also so on trees that
///   differ in times alone from those after the operations.
pub fn either_order()
    ensures exact { (trees : List TreeMap) (ops : List Op) (change : Op) (m : ℕ) →
        IsBeside trees ops change m →
        applied_one (applied trees ops m) change m ≡ applied (applied_one trees change m) ops m }
    ensures unwritten { (trees : List TreeMap) (ops : List Op) (change : Op) (m n : ℕ) →
        IsBeside trees ops change m →
        time_in (applied trees ops m) (hive_of change)
        (touched_path_of change (levels_made (applied trees ops m) change)) ≢ Some m →
        applied_one (applied trees ops m) change n ≡ applied (applied_one trees change n) ops m }
    ensures written { (trees : List TreeMap) (ops : List Op) (change : Op) (m n : ℕ) →
        IsBeside trees ops change m →
        time_in (applied trees ops m) (hive_of change)
        (touched_path_of change (levels_made (applied trees ops m) change)) ≡ Some m →
        time_in trees (hive_of change)
        (touched_path_of change (levels_made (applied trees ops m) change)) ≢ Some m →
        stamped (applied_one (applied trees ops m) change n) (hive_of change)
        (touched_path_of change (levels_made (applied trees ops m) change)) m
        ≡ applied (applied_one trees change n) ops m }
    ensures but_for_times { (trees seen : List TreeMap) (ops : List Op) (change : Op)
        (m n k l : ℕ) → IsBeside trees ops change m →
        SameButTimes seen (applied trees ops m) →
        SameButTimes (applied_one seen change n) (applied (applied_one trees change k) ops l) }
{
    skeleton_laws::stays_legal();
}

/// Trees and operations are to the law of claims what their outlines are.
///
/// - `follows`: an operation that may be carried out does to the skeleton of the trees what its outline does.
/// - `judged`: it may be carried out exactly if its outline is legal and its data are not too large.
pub fn outlines()
    ensures follows { (trees : List TreeMap) (op : Op) (m : ℕ) → AreTrees trees →
        judged_in trees op ≡ Ok Legal →
        skeleton (applied_one trees op m) ≡ apply (outline op) (skeleton trees) }
    ensures judged { (trees : List TreeMap) (op : Op) → AreTrees trees →
        (judged_in trees op ≡ Ok Legal) ↔ (law.Legal (skeleton trees) (outline op) × FitsData op) }
{}

/// The holders of a claim are exactly the transactions that hold a conflicting claim, except the asker. Each is listed
/// once.
pub fn holders_are_exact()
    ensures who { (held : List HeldClaim) (asker : Option ℕ) (claim : Claim) (owner : ℕ) →
        Contains (holders_of held asker claim) owner ↔ IsHolder held asker claim owner }
    ensures once { (held : List HeldClaim) (asker : Option ℕ) (claim : Claim) →
        IsDistinct nat_eq (holders_of held asker claim) }
{}

/// Which claims a table has. After one more is added it has those before and this one. After those of a transaction are
/// dropped it has the claims of all others.
pub fn claims_kept()
    ensures added { (held : List HeldClaim) (one other : HeldClaim) →
        Contains (with_claim held one) other ↔ (Contains held other ⊎ (one ≡ other)) }
    ensures dropped { (held : List HeldClaim) (owner : ℕ) (other : HeldClaim) →
        Contains (without_owner held owner) other ↔ (Contains held other × (other.owner ≢ owner)) }
{}
