//! What a refusal says of a file: a law.
ghost use Rattle.std.specs.Prelude.{◌≡◌, ◌≢◌, ℕ, List};
ghost use Rattle.refusals.specs.declared.refusal.Refusal.{Refusal};
ghost use Rattle.refusals.specs.declared.refusal.Refusal.TheVariants.{NoMemory};
ghost use Rattle.reg_tree.specs.Maps.{TreeMap};
ghost use Rattle.base_block.specs.declared.block.BaseBlock.{BaseBlock};
ghost use Rattle.hive_file_reader.specs.Hives.{FileHasBins, FileHoldsHive, FileHoldsShallowTree, FileHoldsNoHive, IsEnoughOf};
ghost use Rattle.hive_file_reader.specs.Readings.{FileRefusedAs, ShallowFileRefusedAs, FileBinsRefusedAs};

/// A file holds at most one tree. A file of which a refusal is true, but for want of memory, holds none. The same goes
/// for a file that is refused as a hive of any number, and for one whose bins data are.
pub fn one_or_none()
    ensures one { (file : List ℕ) (tree other : TreeMap) → FileHoldsHive file tree → FileHoldsHive file other →
        tree ≡ other }
    ensures none { (file : List ℕ) (why : Refusal) → FileHoldsNoHive file why → why ≢ NoMemory →
        (tree : TreeMap) → FileHoldsHive file tree → ⊥ }
    ensures refused { (hive : ℕ) (file : List ℕ) (why : Refusal) → FileRefusedAs hive file why →
        why ≢ NoMemory → (tree : TreeMap) → FileHoldsHive file tree → ⊥ }
    ensures bins { (hive : ℕ) (file : List ℕ) (why : Refusal) → FileBinsRefusedAs hive file why →
        why ≢ NoMemory → (tree : TreeMap) → FileHoldsHive file tree → ⊥ }
{
    hive_load::laws::refused_bins_exclude_trees();
    hive_records::laws::one_tree();
}

/// The same of trees of any weight. A file that holds a tree within the limits holds the same one so.
pub fn one_or_none_of_any_weight()
    ensures one { (file : List ℕ) (tree other : TreeMap) → FileHoldsShallowTree file tree →
        FileHoldsShallowTree file other → tree ≡ other }
    ensures refused { (hive : ℕ) (file : List ℕ) (why : Refusal) → ShallowFileRefusedAs hive file why →
        why ≢ NoMemory → (tree : TreeMap) → FileHoldsShallowTree file tree → ⊥ }
    ensures within { (file : List ℕ) (tree : TreeMap) → FileHoldsHive file tree → FileHoldsShallowTree file tree }
{
    hive_load::laws::refusals_exclude_trees_of_any_weight();
    hive_records::laws::one_tree();
}

/// A law of the first bytes of a file that are enough to decide which hive it holds. The bins data and the tree that they
/// hold are the file's, and why they are refused is true of the file.
pub fn fronts_decide()
    ensures bins { (front file : List ℕ) (block : BaseBlock) (bins : List ℕ) → IsEnoughOf front file →
        FileHasBins front block bins → FileHasBins file block bins }
    ensures holds { (front file : List ℕ) (tree : TreeMap) → IsEnoughOf front file →
        FileHoldsHive front tree → FileHoldsHive file tree }
    ensures refused { (hive : ℕ) (front file : List ℕ) (why : Refusal) → IsEnoughOf front file →
        FileRefusedAs hive front why → FileRefusedAs hive file why }
{}
