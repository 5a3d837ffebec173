//! The trees of the hives that calls name.
ghost use Rattle.std.specs.Prelude.{◌≡◌, ◌≤◌, IfOk, take};

use reg_tree::Trees;
use std::alloc::{AllocError, Global};

/// The trees of the first `hives` hives: those that calls name, and not that of outcomes. It copies one pointer a hive.
pub fn named_trees(alloc: Global, trees: &Trees, hives: usize) -> Result<Trees, AllocError>
    requires some { 1 ≤ hives }
    ensures { IfOk result (λ named. named ≡ take hives trees.now) }
{
    let count = hives.min(trees.len());
    let mut named = Vec::with_capacity(alloc, count)?;
    for hive in 0..count {
        let Some(tree) = trees.tree(hive as u8) else {
            unreachable!();
        };
        named.push(tree.clone()?)?;
    }
    Ok(Trees::from_vec(named))
}
