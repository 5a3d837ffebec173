//! Names and paths of registry keys and values.
//!
//! A name is a list of UTF-16 units. Two names are equal, and are ordered, by their *folded* units: the letters `a` to
//! `z` count as `A` to `Z`, and every other unit counts as itself. A name keeps the spelling that it was made with. A
//! path is a list of key names; the empty path is the root of a hive.
//!
//! What is promised: names and paths that a call hands in are refused by exactly the stated rules. A comparison looks
//! at folded units alone and takes no memory.
#![tactic(auto)]

mod name;
mod path;
mod units;

pub use name::{Name, ValueName, folded_unit};
pub use path::Path;
pub use refusals::{Cause, Refusal};
