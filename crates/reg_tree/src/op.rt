//! The four operations on a registry tree.
ghost use Rattle.std.specs.Prelude.{◌≡◌, min};
ghost use Rattle.reg_tree.specs.Operations.{hive_of, spelled_path};
ghost use Rattle.reg_tree.specs.Encodings.{op_encoded_len, path_encoded_len};

use reg_names::{Path, ValueName};
use reg_tree_parts::Data;

/// An operation on one hive.
pub enum Op {
    /// Creates all missing keys of the path.
    CreateKey {
        /// The hive's number.
        hive: u8,
        /// The key's path.
        path: Path,
    },
    /// Deletes a key without subkeys.
    DeleteKey {
        /// The hive's number.
        hive: u8,
        /// The key's path.
        path: Path,
    },
    /// Writes a value.
    SetValue {
        /// The hive's number.
        hive: u8,
        /// The key's path.
        path: Path,
        /// The value's name.
        name: ValueName,
        /// The value's type number.
        kind: u32,
        /// The value's data.
        data: Data,
    },
    /// Deletes a value.
    DeleteValue {
        /// The hive's number.
        hive: u8,
        /// The key's path.
        path: Path,
        /// The value's name.
        name: ValueName,
    },
}

impl Drop for Op {
    // one drop for all that own an operation, whose proofs see no more of it than that
    fn drop(self) {
        match self {
            Op::CreateKey { hive: _, path: _ } | Op::DeleteKey { hive: _, path: _ } => {}
            Op::SetValue {
                hive: _,
                path: _,
                name: _,
                kind: _,
                data: _,
            } => {}
            Op::DeleteValue {
                hive: _,
                path: _,
                name: _,
            } => {}
        }
    }
}

impl Op {
    /// The hive's number.
    pub fn hive(&self) -> u8
        ensures { result ≡ hive_of self.now }
    {
        match self {
            Op::CreateKey { hive, .. }
            | Op::DeleteKey { hive, .. }
            | Op::SetValue { hive, .. }
            | Op::DeleteValue { hive, .. } => *hive,
        }
    }

    /// The path of the key.
    pub fn path(&self) -> &Path
        ensures { result.now ≡ spelled_path self.now }
    {
        match self {
            Op::CreateKey { path, .. }
            | Op::DeleteKey { path, .. }
            | Op::SetValue { path, .. }
            | Op::DeleteValue { path, .. } => path,
        }
    }

    /// The bytes of the encoded operation, or the greatest number of 64 bits if they are more.
    pub fn text_len(&self) -> u64
        ensures { result ≡ min (op_encoded_len self.now) u64.MAX }
    {
        let path = encoded_path_len(self.path());
        match self {
            Op::CreateKey { .. } | Op::DeleteKey { .. } => path.saturating_add(2),
            Op::SetValue { name, data, .. } => {
                let units = name.name().units().len() as u64;
                let bytes = data.bytes().len() as u64;
                path.saturating_add(units)
                    .saturating_add(bytes)
                    .saturating_add(12)
            }
            Op::DeleteValue { name, .. } => {
                let units = name.name().units().len() as u64;
                path.saturating_add(units).saturating_add(4)
            }
        }
    }
}

fn encoded_path_len(path: &Path) -> u64
    ensures { result ≡ min (path_encoded_len path.now) u64.MAX }
{
    let mut total = 2u64;
    for name in path.names() {
        let units = name.units().len() as u64;
        total = total.saturating_add(units).saturating_add(1);
    }
    total
}

/// What an operation that is not refused would do.
#[derive(Clone, Copy, Debug, PartialEq, Eq)]
pub enum Legality {
    /// It changes the tree.
    Legal,
    /// It creates a key that is there, and changes nothing.
    Opened,
}
