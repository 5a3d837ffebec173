//! What is emitted of a tree is loaded as the same tree.
ghost use Rattle.std.specs.Prelude.{◌≡◌, ◌≤◌, IfOk, IfErr};
ghost use Rattle.refusals.specs.declared.refusal.Refusal.TheVariants.{NoMemory};
ghost use Rattle.refusals.specs.declared.limits.TheConstants.{MOST_BINS_BYTES};
ghost use Rattle.hive_load.specs.Limits.{TreeIsInLimits};

use hive_cells::Looks;
use hive_emit::emit;
use hive_load::load;
use refusals::Refusal;
use reg_tree::Tree;
use std::alloc::Global;

// the minor version as which images are loaded
const MINOR: u32 = 5;

/// The tree that is loaded from the image that is emitted for a tree, of at least a size: the same tree.
///
/// A tree within the limits, of a size within the limit, is refused for want of memory alone.
pub fn loaded_again(alloc: Global, tree: &Tree, least_size: u32) -> Result<Tree, Refusal>
    ensures same { IfOk result (λ again. again ≡ tree.now) }
    ensures refused { TreeIsInLimits tree.now → least_size ≤ MOST_BINS_BYTES →
        IfErr result (λ why. why ≡ NoMemory) }
{
    hive_load::laws::refusals_exclude_trees();
    hive_records::laws::one_tree();
    let emitted = match emit(alloc, tree, least_size) {
        Ok(emitted) => emitted,
        Err(why) => return Err(why),
    };
    let mut looks = Looks::new();
    match load(alloc, &emitted.image, emitted.root, MINOR, &mut looks) {
        Ok(again) => Ok(again),
        Err(why) => Err(why),
    }
}
