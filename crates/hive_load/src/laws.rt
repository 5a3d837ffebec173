//! What a refusal says of the image: a law.
ghost use Rattle.std.specs.Prelude.{◌≡◌, ◌≢◌, ℕ, List};
ghost use Rattle.refusals.specs.declared.refusal.Refusal.{Refusal};
ghost use Rattle.refusals.specs.declared.refusal.Refusal.TheVariants.{NoMemory};
ghost use Rattle.reg_tree.specs.Maps.{TreeMap};
ghost use Rattle.hive_cells.specs.Bins.{Cells, Shows};
ghost use Rattle.hive_cells.specs.Tiles.{Tiles};
ghost use Rattle.hive_records.specs.Images.{BinsEncodeTree};
ghost use Rattle.hive_load.specs.Limits.{BinsRefused, ShallowBinsRefused, BinsEncodeTreeInLimits, BinsEncodeShallowTree, TreeIsInLimits, LoadRefused};

/// An image that is refused, but for want of memory, encodes no tree within the limits.
pub fn refusals_exclude_trees()
    ensures { (bytes : List ℕ) (root minor : ℕ) (why : Refusal) → LoadRefused bytes root minor why →
        why ≢ NoMemory → (tree : TreeMap) → BinsEncodeTree bytes root minor tree → TreeIsInLimits tree → ⊥ }
{}

/// Bins data that are refused, but for want of memory, encode no tree within the limits.
pub fn refused_bins_exclude_trees()
    ensures { (bytes : List ℕ) (root minor : ℕ) (why : Refusal) → BinsRefused bytes root minor why →
        why ≢ NoMemory → (tree : TreeMap) → BinsEncodeTreeInLimits bytes root minor tree → ⊥ }
{}

/// Bins data that are refused whatever their tree weighs, but for want of memory, encode no tree within the limit of depth.
pub fn refusals_exclude_trees_of_any_weight()
    ensures { (bytes : List ℕ) (root minor : ℕ) (why : Refusal) → ShallowBinsRefused bytes root minor why →
        why ≢ NoMemory → (tree : TreeMap) → BinsEncodeShallowTree bytes root minor tree → ⊥ }
{}

/// Bins data encode a tree in one way at most. So a type may keep that they do so as a fact without its details, and
/// the details follow from the cells that the data show.
pub fn one_encoding()
    ensures { (bytes : List ℕ) (root minor : ℕ) (tree : TreeMap) → Tiles bytes → (cells : Cells) →
        Shows bytes cells → ∥ BinsEncodeTreeInLimits bytes root minor tree ∥₁ →
        BinsEncodeTreeInLimits bytes root minor tree }
{}
