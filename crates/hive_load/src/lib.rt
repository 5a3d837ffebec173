//! A hive's image, loaded: the registry tree that it encodes.
//!
//! [`load`] reads an image from its root on, key by key. It answers the tree that the image encodes, or why it encodes
//! none within the limits; [`load_any_weight`] does so of a tree of any weight. Whatever bytes the image has, the load comes to an end. Each cell that belongs to one key
//! alone is looked at once, and a security cell once. Keys lie at most 512 levels deep. Nothing is allocated by a
//! number that was read before its bytes are known to be there.
#![tactic(auto)]

mod bins;
mod keys;
pub mod laws;
mod siblings;
mod tree;

pub use crate::bins::{load_bins, load_bins_any_weight};
pub use crate::tree::{judge_weight, load, load_any_weight};
