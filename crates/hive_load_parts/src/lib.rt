//! One key of a hive's image, read whole: its row with all its values, and the offsets of its subkeys.
//!
//! Each cell that is the key's own is looked at once and marked. So a cell that is met again, also by another key, is
//! reported as `Shared` before anything of it is read. A security cell is lent, and not marked. Its descriptor is read
//! once and shared by all keys that name it. What is read, and why a key is refused, are the definitions of
//! `hive_records`, followed step by step. Nothing is allocated by a number that was read before that many bytes are
//! known to be in a cell.
#![tactic(auto)]

mod big;
mod cells;
mod descriptors;
mod flags;
mod keys;
pub mod laws;
mod lists;
mod names;
mod values;

pub use crate::cells::{cell_prefix, look_once};
pub use crate::descriptors::Descriptors;
pub use crate::flags::Flags;
pub use crate::keys::{class, descriptor, key};
pub use crate::lists::{leaf, subkey_list};
pub use crate::names::name_of;
pub use crate::values::value;
