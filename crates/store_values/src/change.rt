//! What is asked of a store.

use reg_names::{Path, ValueName};
use value_syntax::Datum;

/// A change of a key or of one of its values.
#[derive(Drop)]
pub enum Change {
    /// A value is written, if it isn't there with this type and this data. Its key is created if it isn't there, and so are
    /// the keys that are missing above it.
    SetValue {
        /// The hive's number.
        hive: u8,
        /// The key's path.
        path: Path,
        /// The value's name.
        name: ValueName,
        /// Its type and data.
        datum: Datum,
    },
    /// A key is created, if it isn't there, and so are the keys that are missing above it.
    CreateKey {
        /// The hive's number.
        hive: u8,
        /// The key's path.
        path: Path,
    },
    /// A value is deleted.
    DeleteValue {
        /// The hive's number.
        hive: u8,
        /// The key's path.
        path: Path,
        /// The value's name.
        name: ValueName,
    },
    /// A key without subkeys is deleted.
    DeleteKey {
        /// The hive's number.
        hive: u8,
        /// The key's path.
        path: Path,
    },
    /// A key is deleted with all keys below it.
    DeleteTree {
        /// The hive's number.
        hive: u8,
        /// The key's path.
        path: Path,
    },
}
