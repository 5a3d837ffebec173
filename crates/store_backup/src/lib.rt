//! Copies of a store that others use meanwhile.
//!
//! A [`StoreSnapshot`](ktm_calls::StoreSnapshot) has the store's trees as of a number. [`write_copy`] makes a store of it on
//! a disk, which opens at that number. Where copies lie is for a [`BackupFolder`] to say.
#![tactic(auto)]

mod backup_folder;
mod copy;

pub use backup_folder::{BackupFolder, NoBackups};
pub use copy::write_copy;
