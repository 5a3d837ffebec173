//! How an edit ends.

/// How an edit ended.
#[derive(Clone, Copy, Debug, PartialEq, Eq)]
pub enum Edit {
    /// The image encodes the tree with the operation applied.
    Done,
    /// The operation isn't done in place: the image is to be rolled back and made anew.
    Rebuild,
}
