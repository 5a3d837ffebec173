//! A write to a file in memory that no sync has put on the disk yet.
ghost use Rattle.std.specs.Prelude.{◌≡◌, length, take, drop};

use std::snapshot::Snapshot;

/// The range of one write. Its bytes are read off what the file had after it.
#[derive(Drop)]
pub(crate) struct PendingWrite {
    pub offset: usize,
    pub len: usize,
    pub after: Snapshot<Vec<u8>>,
    ghost whole: { length (take len (drop offset after.value.items)) ≡ len },
}
