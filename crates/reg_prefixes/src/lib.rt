//! The prefixes by which the paths of a registration file name the hives of a store, and keys in them.
//!
//! A word `PREFIX=HIVE` says that paths that begin with PREFIX lie in the hive of this number, such as
//! `HKEY_LOCAL_MACHINE\SOFTWARE=1`. `PREFIX=HIVE:PATH` leads to a key of that hive, such as
//! `HKEY_CLASSES_ROOT=1:Classes`. Each hive also has the prefix `HIVE` with its number. The longest prefix that a path
//! begins with says where the path leads ([`Prefixes::place`]).
#![tactic(auto)]

mod matching;
mod prefix;
mod prefixes;
mod rule;
mod units;
mod word;

pub use prefix::{Prefix, WordError};
pub use prefixes::{Place, Prefixes};
