//! What is published: the trees of a moment, and the list of the changes in them.
ghost use Rattle.std.specs.Prelude.{◌≡◌, IfOk};
ghost use Rattle.std.specs.Arc.{arc_value};

use crate::change_list::SeenChanges;
use left_right::Absorb;
use reg_tree::Trees;
use std::alloc::{AllocError, Global};
use std::marker::Model;
use std::sync::Arc;

/// What readers see: the trees of a moment, and the list of the changes in them. Copies share the trees.
pub struct TreesSnapshot {
    trees: Arc<Trees>,
    seen: SeenChanges,
}

impl Drop for TreesSnapshot {
    fn drop(self) {
        let TreesSnapshot { trees: _, seen: _ } = self;
    }
}

impl Model for TreesSnapshot {
    ghost use Rattle.std.specs.Arc.{arc_value};
    ghost use Rattle.published_trees.specs.Published.{Published, published_code};

    ghost Value = { Published };

    ghost coded = { published_code };

    ghost view = { λ s. record { book = s.seen.book; trees = arc_value s.trees; list = s.seen.list } };
}

impl TreesSnapshot {
    /// These trees, with the list of the changes in them.
    pub(crate) fn new(trees: Arc<Trees>, seen: SeenChanges) -> TreesSnapshot
        ensures { result ≡ record { book = seen.book; trees = arc_value trees; list = seen.list } }
    {
        TreesSnapshot { trees, seen }
    }

    /// The list of the changes in the trees.
    pub fn seen(&self) -> &SeenChanges
        ensures { result.now ≡ record { book = self.now.book; list = self.now.list } }
    {
        &self.seen
    }

    /// The trees.
    pub fn trees(&self) -> &Trees
        ensures { result.now ≡ self.now.trees }
    {
        &self.trees
    }

    /// A copy, which shares the trees.
    pub fn again(&self) -> Result<TreesSnapshot, AllocError>
        ensures { IfOk result (λ copy. copy ≡ self.now) }
    {
        let trees = Arc::try_clone(&self.trees)?;
        Ok(TreesSnapshot {
            trees,
            seen: self.seen.again(),
        })
    }
}

impl Absorb<TreesSnapshot> for TreesSnapshot {
    type State = TreesSnapshot;

    ghost state = { λ s. s };

    ghost applied = { λ s next. next };

    fn absorb_first(
        &mut self,
        operation: &TreesSnapshot,
        _other: &TreesSnapshot,
    ) -> Result<(), AllocError> {
        *self = operation.again()?;
        Ok(())
    }
}
