//! The lines that only a session of a served store takes.

use crate::line::{KeyRef, Text};

/// A line that only a session of a served store takes.
#[derive(Drop)]
pub enum ServedLine {
    /// `backup NAME`: makes a copy of the store, in a new folder of this name among the backups.
    Backup {
        /// The folder's name. It may be no name that a backup can have.
        name: Text,
    },
    /// `follow N`: tells each durable change after this number, and each later one as it becomes durable.
    Follow {
        /// The number.
        number: u64,
    },
    /// `watch P`: tells the number of each change below a key, or of the key itself, as it becomes durable.
    Watch {
        /// The key.
        key_ref: KeyRef,
    },
    /// `stats`: tells how full the store is, and who waits.
    Stats,
}
