//! A law of hives that are written: each is loaded as the same tree.
#![tactic(auto)]

mod again;

pub use crate::again::loaded_again;
