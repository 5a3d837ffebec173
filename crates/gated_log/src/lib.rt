//! What shows that the disk's contract suffices: a small log, proved over any disk.
#![tactic(auto)]

mod entries;

pub use entries::{append, create};
