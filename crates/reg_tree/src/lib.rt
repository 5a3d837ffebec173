//! Registry trees and the operations on them.
//!
//! A tree is a finite map from folded paths to rows. An operation says, row by row, what the map is after it; every row
//! that it doesn't name stays. Whether an operation is legal is judged by the same map. If it isn't, the answer is the
//! first refusal in the stated order.
//!
//! Trees never change. [`Trees::apply`] makes new ones that share all that stays, so a refused growth leaves the old
//! trees. Look-ups take no memory.
#![tactic(auto)]

mod element;
pub mod laws;
mod names;
mod op;
mod tree;
mod trees;

pub use element::{CHANGE_BYTES, Element, Ops};
pub use names::Names;
pub use op::{Legality, Op};
pub use reg_tree_parts::{Data, Descriptor, Key, Node, Value, Values};
pub use tree::{Info, NOT_DELETABLE, Tree};
pub use trees::Trees;
