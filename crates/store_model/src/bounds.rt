//! What bounds one store, beside the limits that all stores have.
ghost use Rattle.std.specs.Prelude.{◌≡◌};
ghost use Rattle.store_model.specs.Machine.{bounds_for, bounds_of};

use refusals::limits::MOST_HISTORY;
use reg_tree::Trees;

/// How many changes a store accepts until its history is folded, and which hives calls may name.
#[derive(Clone, Copy, Debug, PartialEq, Eq)]
pub struct StoreBounds {
    /// How many changes the history has at most: those accepted since the opening or the last fold.
    pub changes: u64,
    /// Calls name the hives whose numbers are below this one. A store may have trees besides.
    pub hives: usize,
}

impl StoreBounds {
    /// The bounds of a store whose calls name this many hives: 1,048,576 changes are accepted.
    pub fn for_hives(hives: usize) -> StoreBounds
        ensures { result ≡ bounds_for hives }
    {
        StoreBounds {
            changes: MOST_HISTORY,
            hives,
        }
    }

    /// The bounds of a store whose calls name each of these trees: 1,048,576 changes are accepted.
    pub fn of(trees: &Trees) -> StoreBounds
        ensures { result ≡ bounds_of trees.now }
    {
        StoreBounds::for_hives(trees.len())
    }
}
