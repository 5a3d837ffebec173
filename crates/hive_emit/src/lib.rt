//! A registry tree is written as a new image of hive bins data.
//!
//! First a security cell is put for each distinct descriptor. Then the keys are put, each after its subkeys, into cells
//! that were not there. The cell of a key's own record comes ahead of its subkeys, which name it as their parent.
#![tactic(auto)]

mod bounds;
mod cell_costs;
mod cells;
mod data;
mod emitter;
mod key_costs;
mod keys;
mod lists;
mod security;
mod values;

pub use emitter::{Emitted, emit};
pub use lists::LEAF_MOST;
