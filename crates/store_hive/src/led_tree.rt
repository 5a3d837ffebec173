//! A hive's tree with the journal's changes, before it is judged.

use reg_tree::Tree;

/// The tree to which the journal leads a hive.
#[derive(Drop)]
pub(crate) struct LedTree {
    /// The tree.
    pub tree: Tree,
    /// The hive's own number: the changes above it were replayed.
    pub number: u64,
    /// The number of the journal's last change, or 0 if it has none.
    pub last: u64,
}
