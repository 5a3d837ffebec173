//! A key as callers name it.
ghost use Rattle.std.specs.Prelude.{◌≡◌, None, Some, IfOk};

use reg_names::Path;
use std::alloc::AllocError;
use store_model::Tx;

/// A key: its hive and path, and the transaction through which it is written, if there is one. It is a plain value:
/// having one promises nothing of a later call.
#[derive(Drop)]
pub struct Key {
    /// The hive.
    pub hive: u8,
    /// The path below the hive's root.
    pub path: Path,
    /// The transaction that writes through this key belong to.
    pub tx: Option<Tx>,
}

impl Key {
    /// A key that is written by itself.
    pub fn new(hive: u8, path: Path) -> Key
        ensures { result ≡ record { hive = hive; path = path; tx = None } }
    {
        Key {
            hive,
            path,
            tx: None,
        }
    }

    /// The same key, written in a transaction.
    pub fn in_transaction(self, tx: Tx) -> Key
        ensures { result ≡ record { hive = self.hive; path = self.path; tx = Some tx } }
    {
        Key {
            hive: self.hive,
            path: self.path,
            tx: Some(tx),
        }
    }

    /// A copy of the path.
    pub(crate) fn path_copy(&self) -> Result<Path, AllocError>
        ensures { IfOk result (λ path. path ≡ self.now.path) }
    {
        self.path.clone()
    }
}
