//! What is asked of the trees.

use reg_names::{Path, ValueName};
use reg_tree::{Data, Op};

/// One edit of a hive.
#[derive(Drop)]
pub enum Edit {
    /// An operation is carried out. One that creates a key that is there changes nothing.
    Operation {
        /// The operation.
        op: Op,
    },
    /// A value is written, if it isn't there with this type and this data. One that is there keeps the spelling of its
    /// name.
    WriteValue {
        /// The hive's number.
        hive: u8,
        /// The key's path.
        path: Path,
        /// The value's name.
        name: ValueName,
        /// The value's type number.
        kind: u32,
        /// The value's data.
        data: Data,
    },
    /// A value is deleted, if it is there.
    RemoveValue {
        /// The hive's number.
        hive: u8,
        /// The key's path.
        path: Path,
        /// The value's name.
        name: ValueName,
    },
    /// A key is deleted with all keys below it, if it is there.
    RemoveKey {
        /// The hive's number.
        hive: u8,
        /// The key's path.
        path: Path,
    },
}
