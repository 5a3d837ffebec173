//! A disk over the files of a folder, by std's files.
//!
//! A proof can't know what a real file holds. So a [`FileDisk`] keeps a record of its calls and their answers, which
//! only contracts read. It promises what a disk promises if each answer is one that the files allow: a premise that can
//! be true.
#![tactic(auto)]

mod disk;
mod folder;
mod parent;
mod record;
mod world;

pub use disk::FileDisk;
pub use folder::{Denial, FileName, LockError, MOST_FILES};
pub use parent::sync_parent;
pub use world::{Unknown, World};
