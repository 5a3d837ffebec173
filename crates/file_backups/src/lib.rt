//! Copies of a store that is served, each in a folder of its own within a folder of backups.
#![tactic(auto)]

mod backups;

pub use backups::BackupsIn;
