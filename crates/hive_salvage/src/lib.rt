//! What is left of a damaged hive's image: each key that can be read, and each loss.
//!
//! [`salvage`] walks an image from its root on, as `hive_walk` does, but a part of a key that can't be read ends nothing.
//! The key stays with what was read, and a [`SalvageSink`] is told what is missing and why. Nothing that a list names is
//! left out without a [`Loss`]. Each cell is taken by one key at most, so a walk ends, however lists are spoiled.
//! `specs/Salvage` says it.
#![tactic(auto)]

mod errors;
mod loss;
mod own_parts;
mod siblings;
mod sink;
mod subkeys;
mod value_list;
mod walk;

pub use crate::errors::SalvageError;
pub use crate::loss::{Loss, Part};
pub use crate::sink::SalvageSink;
pub use crate::walk::salvage;
