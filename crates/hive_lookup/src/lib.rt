//! One key or value of a hive's image, found by its path without a look at the rest of the image.
//!
//! [`find_key`] goes down a path, [`read_value`] reads one value of the key that was found. What they don't read may be
//! damaged: the records of other keys, and the data of other values. What has to be read and isn't readable is told,
//! with its offset; that something isn't there is told only if all that could be it was read. `specs/Lookups` says it.
#![tactic(auto)]

mod errors;
mod keys;
mod list_kind;
mod lists;
mod names;
mod paths;
mod records;
mod search;
mod values;

pub use crate::errors::{LookupError, PathError};
pub use crate::keys::read_key;
pub use crate::list_kind::ListKind;
pub use crate::lists::no_marks;
pub use crate::names::subkey_names;
pub use crate::paths::find_key;
pub use crate::records::{key_node, record_name};
pub use crate::search::{find_listed, find_subkey};
pub use crate::values::read_value;
