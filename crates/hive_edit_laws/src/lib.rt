//! Laws of edits of hive bins in place: which tree the cells encode after one key has changed. There is no code here.
#![tactic(auto)]

pub mod cell_writes;
pub mod key_search;
pub mod list_edits;
pub mod list_search;
pub mod subkey_edits;
pub mod tree_edits;
pub mod value_edits;
pub mod value_lists;
pub mod value_search;
