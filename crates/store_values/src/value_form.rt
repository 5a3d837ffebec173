//! How a value is printed.

/// How a value is printed.
#[derive(Clone, Copy, Debug, PartialEq, Eq)]
pub enum ValueForm {
    /// Its type and data as words, in a line.
    Line,
    /// Its data alone, byte by byte.
    Data,
}
