//! The names that lead to a key.

use reg_names::Name;

/// How a key is reached from the root of its tree. Each level of a walk keeps its own name and knows the way before it,
/// so that a walk takes no memory for the names.
#[derive(Clone, Copy)]
pub enum KeyPath<'a> {
    /// The root, which has no name.
    Root,
    /// The key of this name below another.
    Below(&'a KeyPath<'a>, &'a Name),
}
