//! A walk over the keys of a registry tree, in the order of paths.
//!
//! [`walk_tree`] hands each key of a tree to a [`KeySink`], with the [`KeyPath`] that leads to it: first the root, then
//! all others in the order of folded paths. [`walk_below`] does so for one key and all below it. A walk takes no memory. Whoever prints, counts or compares the keys of a
//! tree is a sink; `hive_walk` hands it the keys of a hive's image in the same order.
#![tactic(auto)]

mod key_path;
mod sink;
mod subtree;
mod tree;

pub use key_path::KeyPath;
pub use sink::KeySink;
pub use subtree::walk_below;
pub use tree::{walk_node, walk_tree};
