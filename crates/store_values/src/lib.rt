//! Values of a store, one at a time: a value is read, a key is listed, and a value is written or deleted; and values and
//! keys of a hive's file, which are read.
//!
//! [`get_value`], [`list_key`] and [`find_commit`] print what an opening of a store finds, and write nothing to its disk.
//! [`change_store`] writes or deletes as one change, which is durable when it is told. Each takes a disk and hands it
//! back, and prints values as `value_syntax` writes them. If something is refused, its line alone is printed.
#![tactic(auto)]

mod change;
mod change_result;
mod commits;
mod edits;
mod file_lookup;
mod file_read;
mod key_lines;
mod read;
mod reply;
mod run;
mod value_form;

pub use change::Change;
pub use change_result::ChangeResult;
pub use commits::find_commit;
pub use file_read::{FileReadError, get_file_value, list_file_key};
pub use read::{get_value, list_key};
pub use run::change_store;
pub use value_form::ValueForm;
