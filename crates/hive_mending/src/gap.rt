//! Places of hive bins data that are damaged.

/// What doesn't stand at the start of a gap.
#[derive(Clone, Copy, Debug, PartialEq, Eq)]
pub enum GapKind {
    /// A bin.
    BadBin,
    /// A cell.
    BadCell,
}

/// Bytes of hive bins data that lie in no bin or in no cell. After mending they are one free cell, with a bin's header
/// before it if no bin stood.
#[derive(Clone, Copy, Debug, PartialEq, Eq)]
pub struct Gap {
    /// What doesn't stand at its start.
    pub kind: GapKind,
    /// Its offset in the hive bins data: a multiple of 4,096 if no bin stood, and else of 8.
    pub at: u32,
    /// Its bytes: 4,096 if no bin stood, and else a multiple of 8.
    pub bytes: u32,
}
