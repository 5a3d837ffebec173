//! The two lists of a key.

/// A list of a key.
#[derive(Clone, Copy, Debug, PartialEq, Eq)]
pub enum ListKind {
    /// The list of subkeys, which leads to key nodes.
    Subkeys,
    /// The list of values, which leads to their records.
    Values,
}
