//! Edits of hive bins data where they lie: one operation changes the cells that it must, and no others.
//!
//! [`edit_in_place`] edits an image with a savepoint, so that whoever edits can take back what was done.
#![tactic(auto)]

mod cell_frees;
mod cell_inserts;
mod data_inserts;
mod image_edit;
mod indirect_growth;
mod key_counts;
mod key_create;
mod key_delete;
mod key_frees;
mod key_lists;
mod keys;
mod leaf_edit;
mod leaf_growth;
mod leaf_insert;
mod leaf_split;
mod list_losses;
mod list_room;
mod new_keys;
mod node_edit;
mod numbers;
mod offsets;
mod operation;
mod outcome;
mod presence;
mod search;
mod segment_frees;
mod subkeys;
mod value_add;
mod value_data;
mod value_delete;
mod value_edit;
mod value_insert;
mod values;

pub use image_edit::edit;
pub use operation::edit_in_place;
pub use outcome::Edit;
pub use presence::Presence;
