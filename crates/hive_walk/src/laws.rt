//! What a refusal says of the image: a law.
ghost use Rattle.std.specs.Prelude.{◌≡◌, ◌≢◌, ℕ, List};
ghost use Rattle.refusals.specs.declared.refusal.Refusal.TheVariants.{TooLarge};
ghost use Rattle.reg_tree.specs.Maps.{TreeMap};
ghost use Rattle.hive_load.specs.Limits.{TreeIsInLimits};
ghost use Rattle.hive_records.specs.Images.{BinsEncodeTree};
ghost use Rattle.hive_walk.specs.declared.errors.Fault.{Fault};
ghost use Rattle.hive_walk.specs.declared.errors.ImageError.TheVariants as image_error;
ghost use Rattle.hive_walk.specs.Judgements.{ImageRefused};

/// An image in which a fault stands encodes no tree, or one with a longer path than may be.
pub fn faults_exclude_trees()
    ensures none { (bytes : List ℕ) (root minor : ℕ) (fault : Fault) →
        ImageRefused bytes root minor (image_error.Fault fault) → fault.refusal ≢ TooLarge →
        (tree : TreeMap) → BinsEncodeTree bytes root minor tree → ⊥ }
    ensures limits { (bytes : List ℕ) (root minor : ℕ) (fault : Fault) →
        ImageRefused bytes root minor (image_error.Fault fault) →
        (tree : TreeMap) → BinsEncodeTree bytes root minor tree → TreeIsInLimits tree → ⊥ }
{}
