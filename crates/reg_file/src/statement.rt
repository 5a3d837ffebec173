//! The statements of a registration file.
ghost use Rattle.std.specs.Prelude.{◌≡◌};
ghost use Rattle.reg_file.specs.Files.{wants_key, key_after};

use crate::text::{Utf16Text, ValueData};

/// What one statement asks for.
#[derive(Drop)]
pub enum Statement {
    /// `[PATH]`: creates the key, and makes it current.
    CreateKey {
        /// The path as it stands between the brackets, without one backslash at its end.
        path: Utf16Text,
    },
    /// `[-PATH]`: deletes the key with all below it; no key is current after it.
    DeleteKey {
        /// The path as it stands behind the minus, without one backslash at its end.
        path: Utf16Text,
    },
    /// `NAME=DATA`: writes a value of the current key.
    SetValue {
        /// The value's name; `@` is the empty one.
        name: Utf16Text,
        /// The type's number.
        kind: u32,
        /// The value's data.
        bytes: ValueData,
    },
    /// `NAME=-`: deletes a value of the current key.
    DeleteValue {
        /// The value's name; `@` is the empty one.
        name: Utf16Text,
    },
}

impl Statement {
    /// Whether it is of a value, so that a key has to be current.
    pub(crate) fn wants_key(&self) -> bool
        ensures { result ≡ wants_key self.now }
    {
        match self {
            Statement::CreateKey { .. } | Statement::DeleteKey { .. } => false,
            Statement::SetValue { .. } | Statement::DeleteValue { .. } => true,
        }
    }

    /// Whether a key is current behind it.
    pub(crate) fn key_after(&self, has_key: bool) -> bool
        ensures { result ≡ key_after self.now has_key }
    {
        match self {
            Statement::CreateKey { .. } => true,
            Statement::DeleteKey { .. } => false,
            Statement::SetValue { .. } | Statement::DeleteValue { .. } => has_key,
        }
    }
}

/// A statement and where it stands.
#[derive(Drop)]
pub struct NumberedStatement {
    /// The number of its first line; the file's first line is 1.
    pub line: u64,
    /// What it asks for.
    pub statement: Statement,
}
