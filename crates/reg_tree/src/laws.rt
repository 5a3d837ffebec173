//! Laws of operations, which follow from their definitions alone.
//!
//! They have no code: each is the contract of a function with an empty body, for crates that build on trees.
ghost use Rattle.std.specs.Prelude.{◌≡◌, ◌≤◌, ◌≢◌, ℕ, List, ◌++◌, Some, IsOk, Ok, Err, false, if◌then◌else◌, slice_get};
ghost use Rattle.reg_names.specs.Names.{folded_path};
ghost use Rattle.refusals.specs.declared.refusal.Refusal.TheVariants.{TooLarge};
ghost use Rattle.refusals.specs.declared.limits.TheConstants.{MOST_WEIGHT};
ghost use Rattle.reg_tree_parts.specs.Nodes.{begins_path};
ghost use Rattle.reg_tree.specs.Maps.{TreeMap, IsTree, row, weight};
ghost use Rattle.reg_tree.specs.Operations.{hive_of, spelled_path};
ghost use Rattle.reg_tree.specs.Encodable.{IsEncodable, NamesAreValid};
ghost use Rattle.reg_tree.specs.Judgement.{judged, changed, legal_in, legal, applied, applied_one, outweighs, any_outweighs};
ghost use Rattle.reg_tree.specs.Times.{SameButTimes};
ghost use Rattle.reg_tree.specs.Sequences.{AreTrees, AreWithin, AreLegalElements, after_elements};
ghost use Rattle.reg_tree.specs.TreeLists.{value_in, subkeys_in, value_names_in, levels_in};
ghost use Rattle.reg_tree.specs.declared.op.Op.{Op};
ghost use Rattle.reg_tree.specs.declared.op.Legality.TheVariants.{Legal};
ghost use Rattle.reg_tree.specs.declared.element.Element.{Element};

/// After any accepted changes each tree has its root, a key's parent is there, and a key is under the fold of its name.
/// It is also so after an operation that may not be carried out: it changes nothing.
pub fn trees_stay()
    ensures one { (tree : TreeMap) → IsTree tree → (op : Op) (moment : ℕ) →
        IsTree (changed tree op moment) }
    ensures all { (trees : List TreeMap) (elements : List Element) → AreTrees trees →
        AreTrees (after_elements trees elements) }
{}

/// After an operation whose names meet the rules of names for calls, a hive file can encode the tree as it could
/// before.
pub fn encodable_stays()
    ensures { (tree : TreeMap) → IsEncodable tree → (op : Op) → NamesAreValid op → (moment : ℕ) →
        IsEncodable (changed tree op moment) }
{}

/// An operation leaves what it does not name.
///
/// - `rows`: the row at a path that is not a beginning of the operation's own path.
/// - `hives`: the trees of the other hives.
pub fn others_stay()
    ensures rows { (tree : TreeMap) → IsTree tree → (op : Op) (moment : ℕ) (path : List (List ℕ)) →
        begins_path path (folded_path (spelled_path op)) ≡ false →
        row (changed tree op moment) path ≡ row tree path }
    ensures hives { (trees : List TreeMap) (op : Op) (moment hive : ℕ) → hive ≢ hive_of op →
        slice_get (applied_one trees op moment) hive ≡ slice_get trees hive }
{}

/// No legal operation takes a tree over the limit of weight, at whatever moment it is applied.
pub fn weights_stay()
    ensures one { (tree : TreeMap) → IsTree tree → (op : Op) (moment : ℕ) →
        weight tree ≤ MOST_WEIGHT →
        IsOk (legal_in tree op) → weight (changed tree op moment) ≤ MOST_WEIGHT }
    ensures all { (trees : List TreeMap) (elements : List Element) → AreTrees trees →
        AreWithin trees →
        AreLegalElements trees elements → AreWithin (after_elements trees elements) }
{}

/// Times decide nothing. Trees that differ in the times of their rows alone answer alike, and operations leave them so,
/// at whatever moments they are applied. Only the answer with a key's time may differ.
///
/// - `kept`: after operations on both they still differ in times alone.
/// - `legal`: whether an operation is legal, and its refusal.
/// - `outweighs`: whether some operation of a list takes a tree over the limit of weight.
/// - `levels`: how many keys are missing on the way to a path.
/// - `values`, `value_names`, `subkeys`: what is read of a key, but for its time.
pub fn times_decide_nothing()
    ensures kept { (trees others : List TreeMap) → SameButTimes trees others →
        (ops : List Op) (m n : ℕ) →
        SameButTimes (applied trees ops m) (applied others ops n) }
    ensures legal { (trees others : List TreeMap) → SameButTimes trees others → (op : Op) →
        legal trees op ≡ legal others op }
    ensures outweighs { (trees others : List TreeMap) → SameButTimes trees others →
        (ops : List Op) (m n : ℕ) →
        any_outweighs trees ops m ≡ any_outweighs others ops n }
    ensures levels { (trees others : List TreeMap) → SameButTimes trees others →
        (hive : ℕ) (path : List (List ℕ)) →
        levels_in trees hive path ≡ levels_in others hive path }
    ensures values { (trees others : List TreeMap) → SameButTimes trees others →
        (hive : ℕ) (path : List (List ℕ)) (name : List ℕ) →
        value_in trees hive path name ≡ value_in others hive path name }
    ensures value_names { (trees others : List TreeMap) → SameButTimes trees others →
        (hive : ℕ) (path : List (List ℕ)) →
        value_names_in trees hive path ≡ value_names_in others hive path }
    ensures subkeys { (trees others : List TreeMap) → SameButTimes trees others →
        (hive : ℕ) (path : List (List ℕ)) →
        subkeys_in trees hive path ≡ subkeys_in others hive path }
{}

/// The moment of operations sets the times of rows and nothing else. What the operations leave at two moments differs
/// in times alone, and so answers alike, as [`times_decide_nothing`] has it.
pub fn moments_set_times_alone()
    ensures same { (trees : List TreeMap) (ops : List Op) (m n : ℕ) →
        SameButTimes (applied trees ops m) (applied trees ops n) }
    ensures legal { (trees : List TreeMap) (ops : List Op) (op : Op) (m n : ℕ) →
        legal (applied trees ops m) op ≡ legal (applied trees ops n) op }
    ensures levels { (trees : List TreeMap) (ops : List Op) (m n hive : ℕ) (path : List (List ℕ)) →
        levels_in (applied trees ops m) hive path ≡ levels_in (applied trees ops n) hive path }
    ensures values { (trees : List TreeMap) (ops : List Op) (m n hive : ℕ) (path : List (List ℕ))
        (name : List ℕ) →
        value_in (applied trees ops m) hive path name ≡ value_in (applied trees ops n) hive path name }
    ensures value_names { (trees : List TreeMap) (ops : List Op) (m n hive : ℕ)
        (path : List (List ℕ)) →
        value_names_in (applied trees ops m) hive path
        ≡ value_names_in (applied trees ops n) hive path }
    ensures subkeys { (trees : List TreeMap) (ops : List Op) (m n hive : ℕ) (path : List (List ℕ)) →
        subkeys_in (applied trees ops m) hive path ≡ subkeys_in (applied trees ops n) hive path }
{}

/// Operations after others at the same moment make what they all make together.
pub fn one_by_one()
    ensures { (trees : List TreeMap) (ops others : List Op) (moment : ℕ) →
        applied trees (ops ++ others) moment ≡ applied (applied trees ops moment) others moment }
{}

/// Take an operation that may be carried out on its hive's tree. It is refused exactly if it would leave that tree over
/// the limit of weight, at whatever moment.
pub fn weight_alone_refuses()
    ensures { (trees : List TreeMap) (op : Op) (moment : ℕ) (tree : TreeMap) →
        slice_get trees (hive_of op) ≡ Some tree → judged tree op ≡ Ok Legal →
        legal trees op ≡ (if outweighs trees op moment then Err TooLarge else Ok Legal) }
{}
