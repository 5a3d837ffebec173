//! Where copies of a store lie.
ghost use Rattle.std.specs.Prelude.{◌≤◌, ℕ, List, OnOk};
ghost use Rattle.reg_tree.specs.Maps.{TreeMap};
ghost use Rattle.commit_journal.specs.Store.{Store};
ghost use Rattle.refusals.specs.declared.limits.TheConstants.{GREATEST_NUMBER};
ghost use Rattle.store_backup.specs.Copies.{store_in};

use ktm_calls::StoreSnapshot;
use refusals::Refusal;
use std::alloc::Global;

/// A folder in which copies of a store are made, each under a name of its own.
pub trait BackupFolder {
    /// That a copy of this store was left that recovers these trees at this number, whatever a crash does from then on; as
    /// far as the device keeps what it has synced.
    ghost holds: { Store → ℕ → List TreeMap → Type 0 };

    /// Makes a copy of the store of a snapshot under a name. If it is refused, or interrupted, nothing is left under the
    /// name that can be opened.
    ///
    /// Refused with `BadName` if no copy can have the name, with `Conflict` if something has it, with `Unsupported` if no
    /// copies are made, as [`write_copy`](crate::write_copy) is, and with `DiskFault`.
    fn save(&self, alloc: Global, name: &[u16], snapshot: &StoreSnapshot) -> Result<(), Refusal>
        requires limit { snapshot.now.number ≤ GREATEST_NUMBER }
        ensures saved { OnOk result (holds (store_in snapshot.now) snapshot.now.number snapshot.now.trees) };
}

/// No copies are made.
#[derive(Clone, Copy)]
pub struct NoBackups;

impl BackupFolder for NoBackups {
    ghost holds = { λ store number trees. ⊥ };

    fn save(
        &self,
        _alloc: Global,
        _name: &[u16],
        _snapshot: &StoreSnapshot,
    ) -> Result<(), Refusal> {
        Err(Refusal::Unsupported)
    }
}
